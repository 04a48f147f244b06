//! A code file of one segment.
use pm_codefile::write;
use std::alloc::Global;
use std::test::Fail;

/// A segment name of eight spaces.
pub const NO_NAME: [u8; 8] = [b' '; 8];

/// A segment of one procedure, which returns at once.
pub const SEGMENT: [u8; 16] = [0xC1, 0, 4, 0, 2, 0, 6, 0, 8, 0, 1, 255, 2, 0, 1, 1];

/// Returns the code file that has `SEGMENT` in slot 1.
pub fn example(alloc: Global) -> Result<Vec<u8>, Fail> {
    let mut names = [NO_NAME; 16];
    names[1] = *b"PROGRAM ";
    let lengths = [0, 16, 0, 0, 0, 0, 0, 0, 0, 0, 0, 0, 0, 0, 0, 0];
    Ok(write(alloc, &names, &lengths, &SEGMENT)?)
}
