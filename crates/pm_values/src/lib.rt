//! The rules of the instructions on bytes, packed fields, strings and sets, and of the typed comparisons.
#![tactic(auto)]

mod comparisons;
mod fields;
mod sets;
mod stack;
mod strings;
pub mod worked;

pub use comparisons::compare;
pub use fields::{index_field, load_byte, load_field, store_byte, store_field};
pub use sets::{adjust, difference, in_set, intersect, singleton, subrange, union};
pub use strings::{assign, index_string};
