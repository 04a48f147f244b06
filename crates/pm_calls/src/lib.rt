//! Frames: static links, attribute tables, calls, returns, EXIT, and the addresses of loaded segments.
#![tactic(auto)]

mod base_list;
mod bases;
mod calls;
mod exits;
mod frame;
mod frames;
mod keeps;
mod links;
mod registers;
mod returns;
mod tables;
mod valid_registers;

pub use calls::{is_base, procedure_called};
pub use exits::{Wanted, is_wanted, meet};
pub use frames::{Frames, KeptTable, SegmentPlace, Table};
pub use registers::Registers;
pub use valid_registers::ValidRegisters;
