//! The conversion of an image to another format: what is read, written and printed.
#![tactic(auto)]

mod converted;

pub use converted::{Converted, do_convert};
