//! The paths of a command: their conflicts, and the locks of their files.
#![tactic(auto)]

mod conflicts;
mod locks;

pub use conflicts::{Conflict, conflict_in, is_folder};
pub use locks::hold_at;
