//! Writes the output of `dis` for a code file. The output is written to a sink one procedure after the other, so that
//! at most the text of one procedure is in memory.
#![tactic(auto)]

mod code;
mod form;
mod numbers;
mod pieces;
mod slots;
mod statements;

pub use code::write_code;
