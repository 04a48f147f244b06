//! Tests of facts that no test row and no output shows: about opcodes, calls and returns, volumes and code files; steps
//! on the fast execution path; large memory use; and two machines with the same program. The crate also has items that
//! other test crates use: programs, code files, the spelling of numbers and bytes in test rows, and the report of how
//! many cases agree.
#![tactic(auto)]

pub mod any_bytes;
pub mod booted;
#[cfg(test)]
mod code_files;
pub mod codes;
#[cfg(test)]
mod frames;
mod layout;
pub mod one_segment;
#[cfg(test)]
mod opcodes;
pub mod programs;
#[cfg(test)]
mod quick;
mod report;
#[cfg(test)]
mod room;
mod spelled;
#[cfg(test)]
mod table;
#[cfg(test)]
mod tested;
#[cfg(test)]
mod twice;
#[cfg(test)]
mod volumes;

pub use layout::{Segment, code_file, set_byte, set_name};
pub use report::Report;
pub use spelled::{
    add_escaped, byte, bytes_text, digest_text, hex_bytes, hex_text, measured, name, number, steps,
    unreadable, word,
};
