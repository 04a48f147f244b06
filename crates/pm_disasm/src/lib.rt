//! Code as text: an instruction, an item of a procedure, a procedure, and a code file.
#![tactic(auto)]

mod counts;
mod cuts;
mod decoded;
mod found;
mod front;
mod items;
mod lines;
mod listed;
mod named;
mod parts;
mod place;
mod places;
mod procedures;
mod segments;
mod shown_tables;
mod taking;
mod text;
mod written;

pub use decoded::{Decoded, decode_segment};
pub use items::code;
pub use listed::{dictionary_line, listing, procedure_listing};
pub use place::Line;
pub use segments::{decoded_procedure, file, item, procedure, slot_line};
pub use text::line;
