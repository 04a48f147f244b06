//! The memory of the p-machine, the execution errors, and the stack operations that the rules of instructions use.
#![tactic(auto)]

mod error;
pub mod layout;
mod memory;
mod ranges;
pub mod stack;
mod top;
mod watch;

pub use error::ExecError;
pub use memory::Memory;
pub use top::Top;
