//! Blocks that look like a code file.
ghost use Rattle.std.specs.Prelude.{◌≡◌};
ghost use Rattle.std.specs.List.{list_all};
ghost use Rattle.pm_undelete.specs.Codes as codes;
ghost use Rattle.pm_codefile.specs.Dictionary.{slot_in};

use pm_bytes::blocks_for;
use pm_codefile::{CodeFile, Slot};

/// Returns whether `byte` is a printable character: 32 to 126.
pub(crate) fn is_printable(byte: u8) -> bool
    ensures value { result ≡ codes.is_printable byte }
{
    byte >= 32 && byte <= 126
}

/// Returns whether all bytes of `name` are printable characters.
fn is_name(name: &[u8]) -> bool
    ensures value { result ≡ list_all codes.is_printable name.now }
{
    name.iter().all(|byte| is_printable(*byte))
}

/// Returns whether `slot` is likely: it has no segment, or its segment begins after the dictionary and its name is
/// printable.
fn is_likely(slot: &Slot) -> bool
    ensures value { result ≡ codes.is_likely slot.now }
{
    slot.length == 0 || slot.block >= 1 && is_name(&slot.name)
}

/// Returns the number of the first block after the segment of `slot`, or 0 if it has none.
fn end_of(slot: &Slot) -> usize
    ensures value { result ≡ codes.end_of slot.now }
{
    if slot.length == 0 {
        0
    } else {
        usize::from(slot.block) + blocks_for(usize::from(slot.length))
    }
}

/// Returns whether slot `n` of `file` is likely.
fn is_slot_likely(file: &CodeFile<'_>, n: u8) -> bool
    ensures value { result ≡ codes.is_slot_likely (slot_in file.now n) }
{
    match file.slot(n) {
        Some(slot) => is_likely(&slot),
        None => true,
    }
}

/// Returns the number of the first block after the segment of slot `n` of `file`, or 0 if the slot has none.
fn end_of_slot(file: &CodeFile<'_>, n: u8) -> usize
    ensures value { result ≡ codes.end_of_slot (slot_in file.now n) }
{
    match file.slot(n) {
        Some(slot) => end_of(&slot),
        None => 0,
    }
}

/// Returns whether all slots of `file` are likely.
fn are_likely(file: &CodeFile<'_>) -> bool
    ensures value { result ≡ codes.are_likely file.now 0 16 }
{
    for n in 0..16 {
        if !is_slot_likely(file, n) {
            return false;
        }
    }
    true
}

/// Returns the number of the first block after all segments of `file`, or 0 if it has none.
fn last_end(file: &CodeFile<'_>) -> usize
    ensures value { result ≡ codes.last_end file.now 0 16 }
{
    let mut end = 0;
    for n in 0..16 {
        end = end_of_slot(file, n).max(end);
    }
    end
}

/// Returns the number of blocks of the code file with which `bytes` seem to begin, or 0 if they do not look like a code
/// file.
pub(crate) fn code_size(bytes: &[u8]) -> usize
    ensures size { result ≡ codes.code_size bytes.now }
{
    match CodeFile::read(bytes) {
        Ok(file) if are_likely(&file) => last_end(&file),
        _ => 0,
    }
}
