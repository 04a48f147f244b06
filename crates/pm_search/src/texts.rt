//! The lines of text files that contain some bytes.
ghost use Rattle.std.specs.Prelude.{◌≡◌, ◌≤◌, ◌++◌, IfOk, OnOk, length, option_map};
ghost use Rattle.pm_textfile.specs.Writing.{line_length, text_lines};
ghost use Rattle.pm_search.specs.Texts as texts;

use crate::lines::{file_front, push_match};
use memchr::memmem::Finder;
use pm_textfile::{TextFault, decode};
use pm_volume::{Entry, Volume, kinds};
use std::alloc::{AllocError, Global};

/// Returns whether `line` contains the bytes that `finder` searches.
#[tactic(auto, using(crate::proofs::ContainsLaws::found))]
fn contains(finder: &Finder<'_>, line: &[u8]) -> bool
    ensures contains { result ≡ texts.contains finder.now line.now }
{
    finder.find(line).is_some()
}

/// Returns the length of the first line of `text`, without its line feed.
fn line_length(text: &[u8]) -> usize
    ensures length { result ≡ line_length text.now }
    ensures within { result ≤ length text.now }
{
    text.iter().take_while(|c| **c != b'\n').count()
}

/// Appends the line for the line `line` of a text file, if it contains the bytes that `finder` searches. `number` is
/// the number of the line, and `front` has the path and the name of the file.
fn push_matching(
    alloc: Global,
    text: &mut Vec<u8>,
    front: &[u8],
    number: usize,
    line: &[u8],
    finder: &Finder<'_>,
) -> Result<(), AllocError>
    ensures text { OnOk result (text.new.items ≡ text.old.items
        ++ texts.matching finder.now front.now number line.now) }
{
    if contains(finder, line) {
        push_match(alloc, text, front, number, line)?;
    }
    Ok(())
}

/// Appends a line for each line of the text `lines` that contains the bytes that `finder` searches. `front` has the
/// path and the name of the file.
fn push_matches(
    alloc: Global,
    text: &mut Vec<u8>,
    front: &[u8],
    lines: &[u8],
    finder: &Finder<'_>,
) -> Result<(), AllocError>
    ensures text { OnOk result (text.new.items ≡ text.old.items
        ++ texts.matches_from finder.now front.now 1 (text_lines lines.now)) }
{
    let mut start = 0;
    let mut number = 1;
    while start < lines.len() {
        let end = start + line_length(&lines[start..]);
        push_matching(alloc, text, front, number, &lines[start..end], finder)?;
        start = end + 1;
        number += 1;
    }
    Ok(())
}

/// Returns the text of the text file with these bytes. `None` if it has no header.
fn decoded(alloc: Global, bytes: &[u8]) -> Result<Option<Vec<u8>>, AllocError>
    ensures text { IfOk result (λ text. option_map (λ text. text.items) text ≡ texts.decoded bytes.now) }
{
    match decode(alloc, bytes) {
        Ok(text) => Ok(Some(text)),
        Err(TextFault::NoHeader) => Ok(None),
        Err(_) => Err(AllocError),
    }
}

/// Returns the text of the file of `entry` on `volume`. `None` if its kind is not text, or if `files gettext` refuses
/// it.
fn text_in(alloc: Global, volume: &Volume, entry: &Entry) -> Result<Option<Vec<u8>>, AllocError>
    ensures text { IfOk result (λ text. option_map (λ text. text.items) text ≡ texts.text_in volume.now entry.now) }
{
    if entry.kind != kinds::TEXT {
        return Ok(None);
    }
    match volume.file(entry) {
        Some(bytes) => decoded(alloc, bytes),
        None => Ok(None),
    }
}

/// Appends the lines for the file of `entry`, if it has a text.
fn push_file_matches(
    alloc: Global,
    text: &mut Vec<u8>,
    path: &str,
    volume: &Volume,
    entry: &Entry,
    finder: &Finder<'_>,
) -> Result<(), AllocError>
    ensures text { OnOk result (text.new.items ≡ text.old.items
        ++ texts.file_text path.now finder.now volume.now entry.now) }
{
    let Some(lines) = text_in(alloc, volume, entry)? else {
        return Ok(());
    };
    let front = file_front(alloc, path, entry.characters())?;
    push_matches(alloc, text, &front, &lines, finder)
}

/// Returns a line for each line of the text files of `volume` that contains the bytes that `finder` searches. The files
/// are in directory order.
fn found_text(
    alloc: Global,
    path: &str,
    volume: &Volume,
    finder: &Finder<'_>,
) -> Result<Vec<u8>, AllocError>
    ensures text { IfOk result (λ text. text.items ≡ texts.lines_text path.now volume.now finder.now) }
{
    let mut text = Vec::new(alloc);
    let mut entries = volume.entries();
    'files: while let Some(entry) = entries.next() {
        push_file_matches(alloc, &mut text, path, volume, &entry, finder)?;
    }
    Ok(text)
}

/// Returns a line for each line of the text files of `volume` that contains the bytes `needle`. The files are in
/// directory order.
pub(crate) fn lines_text(
    alloc: Global,
    path: &str,
    volume: &Volume,
    needle: &[u8],
) -> Result<Vec<u8>, AllocError>
    ensures text { IfOk result (λ text. text.items ≡ texts.lines_text path.now volume.now needle.now) }
{
    let finder = Finder::new(needle);
    found_text(alloc, path, volume, &finder)
}
