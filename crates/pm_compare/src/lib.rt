//! The comparison of the files of two volumes, as functions from volumes to lines.
#![tactic(auto)]

mod bytes;
mod comparing;
mod lines;
mod verdicts;
pub mod worked;

pub use comparing::compare;
pub use lines::lines_of;
pub use verdicts::{Compared, Verdict, differs};
