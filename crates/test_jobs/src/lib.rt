//! Tests of jobs, for facts that no command line and no contract shows:
//!
//! - the result if one call of a stream fails;
//! - when output is written;
//! - how much of its input a job reads;
//! - the largest input.
#![tactic(auto)]

pub mod blanks;
#[cfg(test)]
mod bounds;
#[cfg(test)]
mod broken;
#[cfg(test)]
mod faults;
#[cfg(test)]
mod jobs;
#[cfg(test)]
mod left;
#[cfg(test)]
mod pace;
pub mod recorder;
#[cfg(test)]
mod sessions;
#[cfg(test)]
mod streams;
#[cfg(test)]
mod written;
