//! Lines with tabs.
ghost use Rattle.std.specs.Prelude.{◌≡◌, ◌++◌, IfOk, OnOk, option_map, string_bytes};
ghost use Rattle.std.specs.List.{flat_map};
ghost use Rattle.pm_table.specs.Tabs as tabs;

use crate::kinds::push_kind;
use crate::rows::{TableRow, bytes_of, rows_of};
use percent_encoding::percent_encode;
use pm_filer::DateWord;
use pm_folder::LISTED;
use pm_volume::Volume;
use std::alloc::{AllocError, Global};

/// Appends the first three fields of the line of a file: its slot, its name and its kind.
fn push_names(alloc: Global, text: &mut Vec<u8>, row: &TableRow) -> Result<(), AllocError>
    ensures text { OnOk result (text.new.items ≡ text.old.items ++ tabs.names_of row.now) }
{
    let slot = row.slot;
    let mut names = format!(in alloc; "{slot}\t")?;
    percent_encode(row.entry.characters(), LISTED).append_to(&mut names)?;
    names.push('\t')?;
    text.extend_from_slice(names.as_bytes())?;
    push_kind(alloc, text, row.entry.kind)
}

/// Appends the other fields of the line of a file, and a line feed: its first block, its number of blocks, the number
/// of bytes in its last block, the number of its bytes, and its date.
fn push_numbers(
    alloc: Global,
    text: &mut Vec<u8>,
    volume: &Volume,
    row: &TableRow,
) -> Result<(), AllocError>
    ensures text { OnOk result (text.new.items ≡ text.old.items ++ tabs.numbers_of volume.now row.now) }
{
    let first = row.entry.first;
    let blocks = row.entry.end.saturating_sub(first);
    let last = row.entry.last_bytes;
    let bytes = bytes_of(volume, &row.entry).len();
    let date = DateWord(row.entry.date);
    let numbers = format!(in alloc; "\t{first}\t{blocks}\t{last}\t{bytes}\t{date}\n")?;
    text.extend_from_slice(numbers.as_bytes())
}

/// Appends the lines of the files `rows` of `volume`.
fn push_lines(
    alloc: Global,
    text: &mut Vec<u8>,
    volume: &Volume,
    rows: &[TableRow],
) -> Result<(), AllocError>
    ensures text { OnOk result (text.new.items ≡ text.old.items ++ flat_map (tabs.line_of volume.now) rows.now) }
{
    match rows {
        [] => Ok(()),
        [row, more @ ..] => {
            push_names(alloc, text, row)?;
            push_numbers(alloc, text, volume, row)?;
            push_lines(alloc, text, volume, more)
        }
    }
}

/// Returns a line for each file of `volume` whose name matches `pattern`, or for each file if `pattern` is `None`. The
/// files are in the order of their slots.
///
/// A line has eight fields, with a tab between two of them, and ends with byte 10:
///
/// - the slot, from 1;
/// - the name, in which `%` and two hexadecimal digits replace each `%`, each byte from 0 to 32 and each byte from 127
///   on;
/// - the word for the kind, or its number if it has no word;
/// - the first block, the number of blocks, the number of bytes in the last block, and the number of all bytes;
/// - the date, as `files list` prints it.
///
/// # Errors
///
/// `AllocError`: memory was refused.
pub fn tabs_of(
    alloc: Global,
    volume: &Volume,
    pattern: &Option<String>,
) -> Result<Vec<u8>, AllocError>
    ensures text { IfOk result (λ text.
        text.items ≡ tabs.tabs_of (option_map string_bytes pattern.now) volume.now) }
{
    let rows = rows_of(alloc, volume, pattern)?;
    let mut text = Vec::new(alloc);
    push_lines(alloc, &mut text, volume, &rows)?;
    Ok(text)
}
