//! Programs: items of code, procedures and segments. Their bytes, their text, their listing and their code file.
#![tactic(auto)]

mod bytes;
mod entries;
mod image;
mod instruction;
mod item;
mod lengths;
mod listing;
mod names;
mod numbers;
mod opcodes;
mod operands;
mod program;
mod shown;
pub mod worked;

pub use entries::entries_needed;
pub use image::code_file;
pub use instruction::Instruction;
pub use item::{Item, Target};
pub use lengths::{items_end, segment_length};
pub use listing::listing_of;
pub use names::is_name_character;
pub use numbers::{FiveDigits, ThreeDigits, magnitude};
pub use opcodes::{CASE_JUMP, JUMP};
pub use operands::{Quoted, Signed};
pub use program::{Procedure, Segment};
pub use shown::Label;
