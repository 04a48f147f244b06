//! The p-machine: its whole state, and one call for each event.
#![tactic(auto)]

mod agreeing;
mod boot;
mod code_place;
mod machine;
mod procedures;
mod quick;
mod runs;
mod state;
mod stop_test;
mod views;

pub use code_place::{CodePlace, place_at, place_in_code};
pub use machine::Machine;
pub use pm_calls::Registers;
pub use pm_stdproc::SlotRow;
pub use state::{BootFault, RunEnd, Status, Stop};
pub use stop_test::{Never, StopTest};
