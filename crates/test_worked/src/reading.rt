//! Test rows of one decoded instruction: `read PLACE HEX | OPCODE A B C LONG START COUNT LEN`, or the fault instead of
//! the fields.
use pm_opcode::{Decode, Instr, decode, encode};
use std::alloc::{AllocError, Global};
use std::io;
use test_parts::{hex_bytes, hex_text, number, unreadable};

/// Returns the fields of an instruction.
fn fields(alloc: Global, i: &Instr) -> Result<String, AllocError> {
    let (op, a, b, c) = (i.op, i.a, i.b, i.c);
    let (long, start, count, len) = (u8::from(i.long), i.start, i.count, i.len);
    format!(in alloc; "{op} {a} {b} {c} {long} {start} {count} {len}")
}

/// Returns the name of a fault.
fn fault(fault: Decode) -> &'static str {
    match fault {
        Decode::Truncated => "truncated",
        Decode::Unassigned => "unassigned",
        Decode::BadType => "bad type",
    }
}

/// Returns the actual result if the test row does not agree, and `None` otherwise. A decoded instruction must also be
/// encoded as the same bytes.
pub fn differing(alloc: Global, line: &str) -> io::Result<Option<String>> {
    let (given, wanted) = line.split_once('|').ok_or_else(unreadable)?;
    let given = given.strip_prefix("read ").ok_or_else(unreadable)?;
    let (place, digits) = given.trim().split_once(' ').unwrap_or((given.trim(), ""));
    let place = number(place)?;
    let bytes = hex_bytes(alloc, digits)?;
    if bytes.len() > 65536 {
        return Err(unreadable());
    }
    let i = match decode(&bytes, place) {
        Ok(i) => i,
        Err(error) if fault(error) == wanted.trim() => return Ok(None),
        Err(error) => return Ok(Some(String::from_str(alloc, fault(error))?)),
    };
    let read = fields(alloc, &i)?;
    if read.as_str() != wanted.trim() {
        return Ok(Some(read));
    }
    let mut written = Vec::new(alloc);
    if encode(&i, &bytes, place, &mut written).is_err() || bytes.get(place..) != Some(&written) {
        let mut text = String::from_str(alloc, "written as ")?;
        text.push_str(hex_text(alloc, &written)?.as_str())?;
        return Ok(Some(text));
    }
    Ok(None)
}
