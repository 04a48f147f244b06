//! The standard procedures of the p-machine.
#![tactic(auto)]

mod loads;
mod memory_rows;
mod procedures;
mod rows;
pub mod worked;

pub use loads::{SlotRow, SlotRows, code_for, slot_code};
pub use memory_rows::perform as perform_on_memory;
pub use procedures::{OnMemory, OnUnits, Procedure, procedure_of};
pub use rows::perform;
