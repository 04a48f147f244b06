//! Notes on the lines of the text of a code file, written as comments after the lines (`dis --names`). A note states
//! the name of the procedure that a line calls by number, or marks code that is not p-code of this machine.
#![tactic(auto)]

mod lines;
mod marks;
mod names;

pub use lines::with_names;
pub use names::{standard_name, system_name};
