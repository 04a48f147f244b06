//! The units that a machine reads and writes: disks, the console, the printer and the clock.
#![tactic(auto)]

mod ports;
mod transfers;
mod trap;
mod units;

pub use ports::{MountFault, Port, known, unit_of};
pub use transfers::Transfer;
pub use trap::Trap;
pub use units::Units;
