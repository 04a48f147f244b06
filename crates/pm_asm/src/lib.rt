//! The assembler: converts source text to a code file, a listing, or a list of its labels. It also provides hints for
//! lines with errors.
#![tactic(auto)]

mod assembly;
mod code;
mod faults;
mod hint;
mod hint_text;
mod labels;
mod lengths;
mod mark;
mod near;
mod order;
mod program;
mod resolved;
mod symbols;
mod table;
mod worked;

pub use assembly::{Assembly, assemble, assemble_file, assemble_listing};
pub use faults::all_faults;
pub use hint::{Hint, ended_hint, hint_of};
pub use lengths::LONGEST;
pub use mark::{mark_line, mark_of};
pub use pm_reader::counts_of;
pub use pm_source::AsmFault;
pub use symbols::assemble_symbols;
pub use worked::{examples_are_taken, worked_hints, worked_marks};
