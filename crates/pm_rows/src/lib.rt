//! The rules of instructions that change only the memory and the registers: arithmetic, variables, addresses, constants
//! in the code, values of more or less than one word, and jumps. Each family of operations (an enum of pm_families) has
//! a module with one public call, `perform`.
#![tactic(auto)]

pub mod arithmetic;
pub mod jumps;
pub mod literals;
pub mod pointers;
pub mod sound;
pub mod values;
pub mod variables;
pub mod worked;
