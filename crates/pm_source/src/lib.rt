//! The assembly language: the statement that each line of a text contains, the faults of a text, and the program that a
//! text without faults defines.
#![tactic(auto)]

mod fault;
mod number;
pub mod worked;

pub use fault::AsmFault;
pub use number::Numeral;
