//! The code file of a case.
use crate::case::Case;
use std::alloc::Global;
use std::io;
use test_parts::{Segment, add_escaped, byte, hex_bytes, number, set_byte, set_name, unreadable};

/// Returns the bytes of the segment in the slot `slot`, or `None` if the case has none.
fn segment(alloc: Global, case: &Case<'_>, slot: usize) -> io::Result<Option<Vec<u8>>> {
    for line in case.lines.iter() {
        if line.word == "segment"
            && let Some((place, digits)) = line.rest.split_once(' ')
            && number(place)? == slot
        {
            return Ok(Some(hex_bytes(alloc, digits)?));
        }
    }
    Ok(None)
}

/// Returns a code file with the segments of the case: a block for the dictionary, in which all names are spaces, and
/// then the segments in the order of the slots, each from the next block on.
fn laid_out(alloc: Global, case: &Case<'_>) -> io::Result<Vec<u8>> {
    let mut segments = Vec::new(alloc);
    for slot in 0..16 {
        if let Some(bytes) = segment(alloc, case, slot)? {
            segments.push(Segment { slot, bytes })?;
        }
    }
    test_parts::code_file(alloc, &segments)
}

/// Sets the name of a slot, as `rest` states: `N NAME`.
fn name_slot(alloc: Global, file: &mut Vec<u8>, rest: &str) -> io::Result<()> {
    let (slot, name) = rest.split_once(' ').ok_or_else(unreadable)?;
    let mut bytes = Vec::new(alloc);
    add_escaped(&mut bytes, name)?;
    set_name(file, number(slot)?, &bytes)
}

/// Sets a byte, as `rest` states: `PLACE VALUE`. `PLACE` is an offset in bytes.
pub fn damage(bytes: &mut Vec<u8>, rest: &str) -> io::Result<()> {
    let (place, value) = rest.split_once(' ').ok_or_else(unreadable)?;
    set_byte(bytes, number(place)?, byte(value)?)
}

/// Returns the code file of the case, after the changes of bytes that the case states. If `named` is true, its slots
/// have their names.
pub fn code_file(alloc: Global, case: &Case<'_>, named: bool) -> io::Result<Vec<u8>> {
    let mut file = laid_out(alloc, case)?;
    for line in case.lines.iter() {
        match line.word {
            "name" if named => name_slot(alloc, &mut file, line.rest)?,
            "byte" => damage(&mut file, line.rest)?,
            "cut" => file.truncate(number(line.rest)?),
            _ => (),
        }
    }
    Ok(file)
}
