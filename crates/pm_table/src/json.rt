//! JSON.
ghost use Rattle.std.specs.Prelude.{◌≡◌, ◌++◌, ◌<◌, IfOk, OnOk, option_map, string_bytes, true};
ghost use Rattle.std.specs.Fmt.{decimal, digit_glyph};
ghost use Rattle.std.specs.List.{flat_map};
ghost use Rattle.pm_table.specs.Json as json;

use crate::kinds::push_kind;
use crate::rows::{TableRow, bytes_of, rows_of};
use pm_volume::{Date, Entry, Space, Volume};
use std::alloc::{AllocError, Global};

/// Returns the character of the hexadecimal digit `value`. Letters are capitals.
fn digit(value: u8) -> u8
    requires below { value < 16 }
    ensures glyph { result ≡ digit_glyph true value }
{
    if value < 10 {
        b'0' + value
    } else {
        b'A' + (value - 10)
    }
}

/// Appends a byte of a name to `text`, as a character of a JSON string.
fn push_byte(text: &mut Vec<u8>, byte: u8) -> Result<(), AllocError>
    ensures text { OnOk result (text.new.items ≡ text.old.items ++ json.byte_of byte) }
{
    match byte {
        b'"' => text.extend_from_slice(b"\\\""),
        b'\\' => text.extend_from_slice(b"\\\\"),
        32..=126 => Ok(text.push(byte)?),
        _ => {
            text.extend_from_slice(b"\\u00")?;
            text.push(digit(byte / 16))?;
            text.push(digit(byte % 16))?;
            Ok(())
        }
    }
}

/// Appends the bytes of a name to `text`, as characters of a JSON string.
fn push_bytes(text: &mut Vec<u8>, name: &[u8]) -> Result<(), AllocError>
    ensures text { OnOk result (text.new.items ≡ text.old.items ++ flat_map json.byte_of name.now) }
{
    match name {
        [] => Ok(()),
        [byte, more @ ..] => {
            push_byte(text, *byte)?;
            push_bytes(text, more)
        }
    }
}

/// Appends `name` to `text` as a JSON string.
fn push_string(text: &mut Vec<u8>, name: &[u8]) -> Result<(), AllocError>
    ensures text { OnOk result (text.new.items ≡ text.old.items ++ json.string_of name.now) }
{
    text.push(b'"')?;
    push_bytes(text, name)?;
    text.push(b'"')?;
    Ok(())
}

/// Appends `before` and the number `number` to `text`.
fn push_number(
    alloc: Global,
    text: &mut Vec<u8>,
    before: &[u8],
    number: usize,
) -> Result<(), AllocError>
    ensures text { OnOk result (text.new.items ≡ text.old.items ++ (before.now ++ decimal number)) }
{
    let digits = format!(in alloc; "{number}")?;
    text.extend_from_slice(before)?;
    text.extend_from_slice(digits.as_bytes())
}

/// Appends the first members of the object of a file: its slot and its name.
fn push_name(alloc: Global, text: &mut Vec<u8>, row: &TableRow) -> Result<(), AllocError>
    ensures text { OnOk result (text.new.items ≡ text.old.items ++ json.name_of row.now) }
{
    push_number(alloc, text, b"{\"slot\": ", usize::from(row.slot))?;
    text.extend_from_slice(b", \"name\": ")?;
    push_string(text, row.entry.characters())?;
    Ok(())
}

/// Appends the kind of a file, as a member of its object.
fn push_member(alloc: Global, text: &mut Vec<u8>, kind: u8) -> Result<(), AllocError>
    ensures text { OnOk result (text.new.items ≡ text.old.items ++ json.kind_of kind) }
{
    text.extend_from_slice(b", \"kind\": \"")?;
    push_kind(alloc, text, kind)?;
    text.push(b'"')?;
    Ok(())
}

/// Appends the next members of the object of a file: its first block, its number of blocks, the number of bytes in its
/// last block, and the number of its bytes.
fn push_numbers(
    alloc: Global,
    text: &mut Vec<u8>,
    volume: &Volume,
    entry: &Entry,
) -> Result<(), AllocError>
    ensures text { OnOk result (text.new.items ≡ text.old.items ++ json.numbers_of volume.now entry.now) }
{
    let blocks = entry.end.saturating_sub(entry.first);
    push_number(alloc, text, b", \"first\": ", usize::from(entry.first))?;
    push_number(alloc, text, b", \"blocks\": ", usize::from(blocks))?;
    push_number(
        alloc,
        text,
        b", \"lastBytes\": ",
        usize::from(entry.last_bytes),
    )?;
    push_number(alloc, text, b", \"bytes\": ", bytes_of(volume, entry).len())?;
    Ok(())
}

/// Appends the last members of the object of a file: the year, the month and the day of its date.
fn push_date(alloc: Global, text: &mut Vec<u8>, word: u16) -> Result<(), AllocError>
    ensures text { OnOk result (text.new.items ≡ text.old.items ++ json.date_members word) }
{
    let Date { year, month, day } = Date::of(word);
    push_number(alloc, text, b", \"year\": ", usize::from(year))?;
    push_number(alloc, text, b", \"month\": ", usize::from(month))?;
    push_number(alloc, text, b", \"day\": ", usize::from(day))?;
    text.push(b'}')?;
    Ok(())
}

/// Appends the object of a file of `volume`.
fn push_file(
    alloc: Global,
    text: &mut Vec<u8>,
    volume: &Volume,
    row: &TableRow,
) -> Result<(), AllocError>
    ensures text { OnOk result (text.new.items ≡ text.old.items ++ json.file_of volume.now row.now) }
{
    push_name(alloc, text, row)?;
    push_member(alloc, text, row.entry.kind)?;
    push_numbers(alloc, text, volume, &row.entry)?;
    push_date(alloc, text, row.entry.date)
}

/// Appends the objects of the files `rows` of `volume`, each on a line, after a comma.
fn push_more(
    alloc: Global,
    text: &mut Vec<u8>,
    volume: &Volume,
    rows: &[TableRow],
) -> Result<(), AllocError>
    ensures text { OnOk result (text.new.items ≡ text.old.items ++ flat_map (json.next_file volume.now) rows.now) }
{
    match rows {
        [] => Ok(()),
        [row, more @ ..] => {
            text.extend_from_slice(b",\n")?;
            push_file(alloc, text, volume, row)?;
            push_more(alloc, text, volume, more)
        }
    }
}

/// Appends the objects of the files `rows` of `volume`, each on a line, with commas between them.
fn push_files(
    alloc: Global,
    text: &mut Vec<u8>,
    volume: &Volume,
    rows: &[TableRow],
) -> Result<(), AllocError>
    ensures text { OnOk result (text.new.items ≡ text.old.items ++ json.files_text volume.now rows.now) }
{
    match rows {
        [] => Ok(()),
        [row, more @ ..] => {
            text.push(b'\n')?;
            push_file(alloc, text, volume, row)?;
            push_more(alloc, text, volume, more)
        }
    }
}

/// Appends the members of the object of `volume` before its files: its name, its number of blocks, its number of free
/// blocks, and the number of blocks of its largest gap.
fn push_volume(alloc: Global, text: &mut Vec<u8>, volume: &Volume) -> Result<(), AllocError>
    ensures text { OnOk result (text.new.items ≡ text.old.items ++ json.volume_of volume.now) }
{
    let Space { free, largest } = volume.space();
    text.extend_from_slice(b"{\"volume\": ")?;
    push_string(text, volume.name())?;
    push_number(alloc, text, b", \"blocks\": ", usize::from(volume.blocks()))?;
    push_number(alloc, text, b", \"free\": ", free as usize)?;
    push_number(alloc, text, b", \"largest\": ", usize::from(largest))?;
    Ok(())
}

/// Returns the list of the files of `volume` whose names match `pattern` as a JSON object. All files are listed if
/// `pattern` is `None`.
///
/// The members of the object are `volume` (the name), `blocks`, `free`, `largest`, and `files`. `files` is an array
/// with an object for each file, in the order of the slots. Its members are `slot`, `name`, `kind`, `first`, `blocks`,
/// `lastBytes`, `bytes`, `year`, `month` and `day`. Each object of a file is on a line of its own. The text ends with
/// byte 10.
///
/// A byte of a name is the character with the same number. In a string, a backslash is before each quotation mark and
/// each backslash. A byte below 32 or above 126 is `\u00` and two hexadecimal digits. `kind` is a string: the word for
/// the kind, or its number if it has no word.
///
/// # Errors
///
/// `AllocError`: memory was refused.
pub fn json_of(
    alloc: Global,
    volume: &Volume,
    pattern: &Option<String>,
) -> Result<Vec<u8>, AllocError>
    ensures text { IfOk result (λ text.
        text.items ≡ json.json_of (option_map string_bytes pattern.now) volume.now) }
{
    let rows = rows_of(alloc, volume, pattern)?;
    let mut text = Vec::new(alloc);
    push_volume(alloc, &mut text, volume)?;
    text.extend_from_slice(b", \"files\": [")?;
    push_files(alloc, &mut text, volume, &rows)?;
    text.extend_from_slice(b"\n]}\n")?;
    Ok(text)
}
