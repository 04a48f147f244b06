//! The main theorem of the project as one function, and what the theorem uses: actions on a machine, and the laws about
//! a text that is assembled, put on a volume and booted.
#![tactic(auto)]

mod action;
mod put;
mod theorem;

pub use action::{Action, play};
pub use put::put_program_is_booted;
pub use theorem::headline;
