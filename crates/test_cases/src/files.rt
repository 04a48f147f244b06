//! The commands on volumes, as lines of a case spell them.
use crate::case::Line;
use pm_filer::FileCommand;
use std::alloc::Global;
use std::io;
use test_parts::{add_escaped, byte, hex_bytes, name, number, unreadable};

/// Splits a text at its first space.
pub fn two(text: &str) -> io::Result<(&str, &str)> {
    text.split_once(' ').ok_or_else(unreadable)
}

/// Returns bytes of which each is one more than the byte before, modulo 251. `rest` is `COUNT FIRST`.
fn ramp(alloc: Global, rest: &str) -> io::Result<Vec<u8>> {
    let (count, first) = two(rest)?;
    let first = number(first)?;
    let mut bytes = Vec::new(alloc);
    for place in 0..number(count)? {
        bytes.push((first.wrapping_add(place) % 251) as u8)?;
    }
    Ok(bytes)
}

/// Returns the text of the pieces in `rest`, which are separated by spaces. A piece is escaped text, or `N*PIECE` for N
/// times this piece.
fn text(alloc: Global, rest: &str) -> io::Result<Vec<u8>> {
    let mut bytes = Vec::new(alloc);
    for piece in rest.split(' ') {
        match piece.split_once('*') {
            None => add_escaped(&mut bytes, piece)?,
            Some((count, piece)) => {
                for _ in 0..number(count)? {
                    add_escaped(&mut bytes, piece)?;
                }
            }
        }
    }
    Ok(bytes)
}

/// Returns the bytes that `spelled` describes. The content `program` is the bytes `program`.
fn content(alloc: Global, spelled: &str, program: &[u8]) -> io::Result<Vec<u8>> {
    let line = Line::of(spelled);
    match line.word {
        "program" => Ok(program.to_vec(alloc)?),
        "hex" => hex_bytes(alloc, line.rest),
        "ramp" => ramp(alloc, line.rest),
        "text" => text(alloc, line.rest),
        _ => Err(unreadable()),
    }
}

/// The names of the kinds 0 to 8.
const KINDS: [&str; 9] = [
    "none", "badb", "code", "text", "info", "data", "graf", "foto", "secd",
];

/// Returns the kind of file that `spelled` gives by its name or its number.
fn kind(spelled: &str) -> io::Result<u8> {
    for (word, kind) in KINDS.iter().zip(0..9) {
        if *word == spelled {
            return Ok(kind);
        }
    }
    byte(spelled)
}

/// Returns the command that sets a date. `rest` is `YEAR MONTH DAY`.
fn date(rest: &str) -> io::Result<FileCommand> {
    let (year, day) = two(rest)?;
    let (month, day) = two(day)?;
    Ok(FileCommand::Date(byte(year)?, byte(month)?, byte(day)?))
}

/// Returns the command that changes the kind of a file. `rest` is `NAME KIND`.
fn kinded(alloc: Global, rest: &str) -> io::Result<FileCommand> {
    let (file, spelled) = two(rest)?;
    Ok(FileCommand::Kind(name(alloc, file)?, kind(spelled)?))
}

/// Returns the command `word` on the file `name`. For `zero`, `name` is the name of the volume.
fn named(word: &str, name: String) -> io::Result<FileCommand> {
    match word {
        "get" => Ok(FileCommand::Get(name)),
        "gettext" => Ok(FileCommand::GetText(name)),
        "remove" => Ok(FileCommand::Remove(name)),
        "zero" => Ok(FileCommand::Zero(name)),
        _ => Err(unreadable()),
    }
}

/// Returns the command that renames a file. `rest` is `OLD NEW`.
fn change(alloc: Global, rest: &str) -> io::Result<FileCommand> {
    let (old, new) = two(rest)?;
    let old = name(alloc, old)?;
    let new = name(alloc, new)?;
    Ok(FileCommand::Change(old, new))
}

/// Returns the command of a line that has no content for a file.
fn plain(alloc: Global, line: Line<'_>) -> io::Result<FileCommand> {
    match line.word {
        "list" => Ok(FileCommand::List),
        "krunch" => Ok(FileCommand::Krunch),
        "duplicate" => Ok(FileCommand::Duplicate),
        "single" => Ok(FileCommand::Single),
        "change" => change(alloc, line.rest),
        "kind" => kinded(alloc, line.rest),
        "date" => date(line.rest),
        word => named(word, name(alloc, line.rest)?),
    }
}

/// Returns the command that puts a file, and the bytes of the file. `rest` is `NAME KIND CONTENT`.
fn put(alloc: Global, rest: &str, program: &[u8]) -> io::Result<(FileCommand, Vec<u8>)> {
    let (file, rest) = two(rest)?;
    let (spelled, rest) = two(rest)?;
    let kind = kind(spelled)?;
    let name = name(alloc, file)?;
    let bytes = content(alloc, rest, program)?;
    Ok((FileCommand::Put(name, kind, Vec::new(alloc)), bytes))
}

/// Returns the command that puts a text, and the bytes of the text. `rest` is `NAME CONTENT`.
fn put_text(alloc: Global, rest: &str, program: &[u8]) -> io::Result<(FileCommand, Vec<u8>)> {
    let (file, rest) = two(rest)?;
    let name = name(alloc, file)?;
    let bytes = content(alloc, rest, program)?;
    Ok((FileCommand::PutText(name, Vec::new(alloc)), bytes))
}

/// Returns the command of a line, and the input of the command. The content `program` is the bytes `program`.
pub fn command(
    alloc: Global,
    line: Line<'_>,
    program: &[u8],
) -> io::Result<(FileCommand, Vec<u8>)> {
    let command = match (line.rest.strip_prefix("--slot "), line.word) {
        (Some(rest), word) => on_slot(alloc, word, rest)?,
        (None, "put") => return put(alloc, line.rest, program),
        (None, "puttext") => return put_text(alloc, line.rest, program),
        _ => plain(alloc, line)?,
    };
    Ok((command, Vec::new(alloc)))
}

/// Returns the command `word` on the file of a slot. `rest` is `N` or `N NEW`.
fn on_slot(alloc: Global, word: &str, rest: &str) -> io::Result<FileCommand> {
    let (slot, new) = rest.split_once(' ').unwrap_or((rest, ""));
    let slot = test_parts::word(slot)?;
    match word {
        "get" => Ok(FileCommand::GetSlot(slot)),
        "gettext" => Ok(FileCommand::GetTextSlot(slot)),
        "remove" => Ok(FileCommand::RemoveSlot(slot)),
        "change" => Ok(FileCommand::ChangeSlot(slot, name(alloc, new)?)),
        "kind" => Ok(FileCommand::KindSlot(slot, kind(new)?)),
        _ => Err(unreadable()),
    }
}
