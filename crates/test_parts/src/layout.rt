//! Code files in which the segments follow the dictionary in order, for segments of any length.
ghost use Rattle.std.specs.Prelude.{◌≡◌, ◌%◌, ◌<◌, ◌++◌, OnErr, OnOk, length, set};

use crate::spelled::unreadable;
use std::alloc::Global;
use std::io;

const BLOCK: usize = 512;

/// The offset of the names of the slots, which have 8 bytes each.
const NAMES: usize = 64;

const NAMES_END: usize = 192;

/// A slot with its code.
#[derive(Drop)]
pub struct Segment {
    pub slot: usize,
    pub bytes: Vec<u8>,
}

/// Sets the byte at the offset `place` of `bytes` to `value`.
///
/// # Errors
///
/// `InvalidData`: `place` is not less than the number of bytes. Nothing changes.
pub fn set_byte(bytes: &mut Vec<u8>, place: usize, value: u8) -> io::Result<()>
    ensures there { OnOk result (place < length bytes.old.items) }
    ensures set { OnOk result (bytes.new.items ≡ set bytes.old.items place value) }
    ensures unchanged { OnErr result (bytes.new ≡ bytes.old) }
{
    if place >= bytes.len() {
        return Err(unreadable());
    }
    bytes[place] = value;
    Ok(())
}

// Sets the word at the offset `place`, with its low byte first.
fn set_word(bytes: &mut Vec<u8>, place: usize, word: usize) -> io::Result<()> {
    set_byte(bytes, place, (word % 256) as u8)?;
    set_byte(bytes, place.saturating_add(1), (word / 256 % 256) as u8)
}

// Appends zeros up to a multiple of 512 bytes.
fn fill_block(file: &mut Vec<u8>) -> io::Result<()> {
    let used = file.len() % BLOCK;
    if used > 0 {
        for _ in used..BLOCK {
            file.push(0)?;
        }
    }
    Ok(())
}

/// Returns a code file: a dictionary block, in which all names are spaces, and then the segments in the given order.
/// Each segment begins at a block boundary. Its length in bytes may be odd or above 65,535. The dictionary has the low
/// 16 bits of the length.
///
/// # Errors
///
/// - `InvalidData`: the dictionary entry of a slot would be after the end of the file that was written so far.
/// - `OutOfMemory`: the file cannot be allocated.
pub fn code_file(alloc: Global, segments: &[Segment]) -> io::Result<Vec<u8>> {
    let mut file = vec![in alloc; 0; BLOCK]?;
    file[NAMES..NAMES_END].fill(b' ');
    for segment in segments {
        let block = file.len() / BLOCK;
        let place = segment.slot.saturating_mul(4);
        set_word(&mut file, place, block)?;
        set_word(&mut file, place.saturating_add(2), segment.bytes.len())?;
        file.extend_from_slice(&segment.bytes)?;
        fill_block(&mut file)?;
    }
    Ok(file)
}

/// Sets the name of a slot to the first 8 bytes of `name`. If `name` is shorter, the other bytes of the slot's name are
/// unchanged.
pub fn set_name(file: &mut Vec<u8>, slot: usize, name: &[u8]) -> io::Result<()> {
    let begin = slot.saturating_mul(8).saturating_add(NAMES);
    for (at, value) in name.iter().enumerate().take(8) {
        set_byte(file, begin.saturating_add(at), *value)?;
    }
    Ok(())
}
