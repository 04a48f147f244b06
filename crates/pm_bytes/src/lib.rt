//! Words and blocks of bytes: functions that read and write the bytes of disks, volumes and code files.
#![tactic(auto)]

mod blocks;
mod words;

pub use blocks::{BLOCK, blocks_for};
pub use words::{clear, clear_all, set_bytes, set_word, word};
