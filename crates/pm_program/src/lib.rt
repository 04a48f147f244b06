//! The program on any runtime: files, streams, messages and exit status.
#![tactic(auto)]

mod entry;
mod follow;

pub use entry::program;
