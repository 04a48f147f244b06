//! The text of code as statements. A statement is an operation with its operands, or a jump.
#![tactic(auto)]

mod block_labels;
mod block_lines;
mod callees;
mod conditions;
mod depths;
pub mod laws;
mod leading;
mod lines;
mod marks;
mod procedure;
mod shown;
mod sized;
mod spans;
pub mod worked;

pub use callees::{Returns, callee_of, system_callee};
pub use lines::push_statements;
pub use pm_trees::{Known, Layout};
pub use procedure::push_procedure;
pub use shown::{file, push_numbered};
pub use sized::{Sized, SizedSegment, SizedTable, file_sizes, size_segment, sized_as};
