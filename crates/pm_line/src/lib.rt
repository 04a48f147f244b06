//! Parsing of the lines of an assembly text.
//!
//! `line` parses one line. Its result borrows from the text: names and labels are slices of the line. `line_ends` only
//! tests whether a line ends a procedure. `front_of` returns the first words of a line. `text_operand` parses a quoted
//! string.
#![tactic(auto)]

mod comparison;
mod counted;
mod directive;
mod fronts;
mod instruction;
mod item;
mod keyword;
mod lists;
mod number;
mod operand;
mod pieces;
mod spoken;
mod words;

pub use fronts::{Front, front_of};
pub use instruction::short_range;
pub use item::{Flaw, Line, Row, Statement};
pub use keyword::Keyword;
pub use operand::text_operand;
pub use spoken::{line, line_ends};
pub use words::is_name;
