//! File stores in memory whose contents contracts can state, and jobs of the program on these stores. The contracts of
//! the jobs state which bytes the files have after the job.
#![tactic(auto)]

mod jobs;
mod stores;
