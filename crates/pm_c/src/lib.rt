//! The functions that C programs call: whole jobs, and machines with handles. The contract of each function repeats the
//! guarantees of the functions that it calls. The library has no global state and stores no argument.
#![tactic(auto)]

mod answers;
mod buffer;
#[cfg(test)]
mod calls;
pub mod comparisons;
pub mod conversions;
pub mod debugger;
pub mod disks;
pub mod entries;
pub mod events;
pub mod filing;
mod handle;
mod held;
pub mod images;
pub mod jobs;
pub mod laws;
pub mod lines;
mod loose;
pub mod procedures;
pub mod removed;
pub mod searches;
pub mod sentences;
pub mod session;
pub mod shows;
pub mod slots;
pub mod starts;
mod status;
pub mod volumes;
pub mod worked;
