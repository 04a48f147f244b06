//! Code files: a dictionary of 16 slots in the first block, followed by the bytes of the segments.
//!
//! `CodeFile::read` reads a file, `attributes` reads the table of a procedure in a segment, and `write` creates a file.
#![tactic(auto)]

mod fault;
mod file;
mod layout;
mod segments;
mod table;

pub use fault::CodeFault;
pub use file::{CodeFile, Slot};
pub use layout::write;
pub use segments::{attributes, procedures};
pub use table::Attributes;
