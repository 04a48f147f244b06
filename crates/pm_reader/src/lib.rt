//! The reader of the assembler. It reads an assembly text line by line, and returns its segments or its first fault.
//! `source_of` reads a text. Its result borrows from the text, and its labels are not replaced by offsets yet.
//! `row_end` and `source_end` return the ends of rows and procedures in bytes. `counts_of` returns the counts of a
//! procedure at its end.
#![tactic(auto)]

mod counts;
mod current;
mod entries;
mod labels;
mod noted;
mod procedure;
mod reader;
mod reading;
mod sizes;
mod source;

pub use counts::Counts;
pub use labels::label_of;
pub use noted::note;
pub use reading::{counts_of, faults_of_lines, source_of};
pub use sizes::{row_end, source_end};
pub use source::{Entry, LabelledProcedure, LabelledSegment};
