//! Removed files: the free blocks of a volume in which a file seems to begin, and the bytes of free blocks.
#![tactic(auto)]

mod blocks;
mod codes;
mod finding;
mod lines;
mod texts;
pub mod worked;

pub use blocks::free_blocks;
pub use finding::{Candidate, Looks, candidates};
pub use lines::lines_of;
