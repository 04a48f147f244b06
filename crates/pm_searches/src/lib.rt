//! The search in the images of a command, one after the other, and the files of folders that are given as images.
#![tactic(auto)]

mod expanded;
mod searched;

pub use expanded::with_files;
pub use searched::{Hits, do_search};
