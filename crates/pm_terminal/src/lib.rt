//! Standard input and output on a terminal: prompts, the key that ends the input, control characters, and help texts for
//! 80 columns.
#![tactic(auto)]

mod console;
mod folded;

pub use console::{END, ESCAPE, Failed, Keys, Lined, Lines, Prompted, Typed};
pub use folded::Folded;
