//! The standard streams of a command on a terminal: prompts, the key that ends the input, and how output is written.
#![tactic(auto)]

mod streams;

pub use streams::{Prompt, Surprise, Terminals, end_key, is_text, prompted, surprise_of};
