//! Writes the files of a volume to a new folder of the host.
#![tactic(auto)]

mod fill;

pub use fill::{Unwritten, export};
