//! Laws of the machine: opcodes and their bytes, memory, values, rows, calls and returns, standard procedures, disks,
//! events and runs. A law states a fact about definitions. Each function has an empty body.
#![tactic(auto)]

pub mod calls;
pub mod effects;
pub mod events;
pub mod exits;
pub mod keeping;
pub mod loads;
pub mod memory;
pub mod numbers;
pub mod opcode;
pub mod outputs;
pub mod packed;
pub mod pointers;
pub mod reads;
pub mod rows;
pub mod shapes;
pub mod stack;
pub mod stdproc;
pub mod steps;
pub mod units;
pub mod values;
pub mod words;
pub mod writes;
