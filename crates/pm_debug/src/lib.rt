//! The debugger: breakpoints, watched words, and views of a machine.
#![tactic(auto)]

mod ahead;
mod breaks;
mod debugger;
mod frames;
mod reason;
mod refusal;
mod run;
mod views;
mod watches;

pub use breaks::{Breakpoint, Condition, Spot};
pub use debugger::Debugger;
pub use frames::Frame;
pub use reason::BreakReason;
pub use refusal::DebugRefusal;
