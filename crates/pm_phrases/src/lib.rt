//! The text of an operation applied to its operands.
//!
//! Functions that append to a `String` fail only if memory runs out. The `String` may then contain a part of the new
//! text.
#![tactic(auto)]

mod arithmetic;
mod around;
mod calls;
mod cases;
mod comparisons;
mod counts;
mod jumps;
mod leaf;
mod literals;
mod operand;
mod parts;
mod pointers;
mod sets;
mod signs;
mod spelling;
mod variables;
mod whole;
pub mod worked;

pub use around::{Around, Missing};
pub use jumps::{condition_of, push_offset, push_target};
pub use operand::{Form, Phrase, push_value};
pub use whole::phrase;
