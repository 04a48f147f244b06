//! The stack effects of instructions: how many words each instruction pops from the stack, and how many it pushes.
#![tactic(auto)]

mod effect;
mod history;
mod table;

pub use effect::{Effect, Share};
pub use history::instruction_effect;
pub use table::{effect_of, standard_effect, words};
