//! A session of the debugger: reads the words of a line, finds the command, executes it, and returns the answer.
#![tactic(auto)]

mod answers;
mod commands;
mod ending;
mod spelled;
mod texts;
mod typed;
mod views;

pub use answers::answer;
pub use commands::{Command, View, command_of};
pub use ending::{Ending, LastLine};
