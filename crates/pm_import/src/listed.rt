//! The lines of the file `LIST` of a folder.
ghost use Rattle.std.specs.Prelude.{◌≡◌, ◌≤◌, IfOk, IfSome, map, option_map};
ghost use Rattle.pm_import.specs.Listed as listed;
ghost use Rattle.pm_import.specs.Pieces.{pieces_seen};

use pm_folder::How;
use std::alloc::{AllocError, Global};

/// The byte between the fields of the line of a file.
const TAB: u8 = b'\t';

/// What the line of a file states.
#[derive(Clone, Copy)]
pub(crate) struct Listed<'a> {
    /// The name of the file in the folder.
    pub host: &'a str,
    /// The name of the file on the volume, with escapes.
    pub name: &'a [u8],
    /// The kind of the file.
    pub kind: u8,
    /// The date of the file, as a word.
    pub date: u16,
    /// Whether the text or the bytes of the file were written.
    pub how: How,
}

/// Returns the bytes before the first byte `mark`, and the bytes after it. `None` if no byte is `mark`.
pub(crate) fn cut(bytes: &[u8], mark: u8) -> Option<(&[u8], &[u8])>
    ensures pieces { option_map pieces_seen result ≡ listed.cut mark bytes.now }
{
    for at in 0..bytes.len() {
        if bytes[at] == mark {
            return Some((&bytes[..at], &bytes[at + 1..]));
        }
    }
    None
}

/// Returns the lines of a text, without the line feeds that end them. After the last line feed, one more line follows.
pub(crate) fn lines_of(alloc: Global, text: &[u8]) -> Result<Vec<&[u8]>, AllocError>
    ensures lines { IfOk result (λ lines. map (λ line. line.now) lines.items ≡ listed.lines_of text.now) }
{
    let mut lines = Vec::new(alloc);
    let mut rest = text;
    while let Some((line, more)) = cut(rest, b'\n') {
        lines.push(line)?;
        rest = more;
    }
    lines.push(rest)?;
    Ok(lines)
}

/// Returns the value of a decimal digit.
fn digit_of(byte: u8) -> Option<u8>
    ensures digit { result ≡ listed.digit_of byte }
{
    if byte.is_ascii_digit() {
        Some(byte - b'0')
    } else {
        None
    }
}

/// Returns a kind by its decimal number: one digit, or two digits from 10 to 15.
fn kind_number(text: &[u8]) -> Option<u8>
    ensures kind { result ≡ listed.kind_number text.now }
{
    match text {
        [digit] => digit_of(*digit),
        [b'1', digit] => {
            let digit = digit_of(*digit)?;
            if digit <= 5 { Some(10 + digit) } else { None }
        }
        _ => None,
    }
}

/// Returns a kind by its word, or by its decimal number up to 15.
#[tactic(auto, unfolding(crate::specs::Listed::kind_of))]
fn kind_of(text: &[u8]) -> Option<u8>
    ensures kind { result ≡ listed.kind_of text.now }
{
    if text == b"none".as_slice() {
        Some(0)
    } else if text == b"badb".as_slice() {
        Some(1)
    } else if text == b"code".as_slice() {
        Some(2)
    } else if text == b"text".as_slice() {
        Some(3)
    } else if text == b"info".as_slice() {
        Some(4)
    } else if text == b"data".as_slice() {
        Some(5)
    } else if text == b"graf".as_slice() {
        Some(6)
    } else if text == b"foto".as_slice() {
        Some(7)
    } else if text == b"secd".as_slice() {
        Some(8)
    } else {
        kind_number(text)
    }
}

/// Returns the number that two digits write.
fn two_digits(tens: u8, units: u8) -> Option<u8>
    ensures number { result ≡ listed.two_digits (listed.digit_of tens) (listed.digit_of units) }
    ensures most { IfSome result (λ n. n ≤ 99) }
{
    let tens = digit_of(tens)?;
    let units = digit_of(units)?;
    Some(10 * tens + units)
}

/// Returns the number that three digits write.
fn three_digits(hundreds: u8, tens: u8, units: u8) -> Option<u16>
    ensures number { result
        ≡ listed.three_digits (listed.digit_of hundreds) (listed.digit_of tens) (listed.digit_of units) }
{
    let hundreds = u16::from(digit_of(hundreds)?);
    let tens = u16::from(digit_of(tens)?);
    let units = u16::from(digit_of(units)?);
    Some(100 * hundreds + (10 * tens + units))
}

/// Returns the word of a date: year, month and day with hyphens between them. The year has three digits and is at most
/// 127, the month has two digits and is at most 15, and the day has two digits and is at most 31.
#[tactic(auto, unfolding(crate::specs::Listed::date_of))]
pub(crate) fn date_of(text: &[u8]) -> Option<u16>
    ensures date { result ≡ listed.date_of text.now }
{
    let [y1, y2, y3, b'-', m1, m2, b'-', d1, d2] = text else {
        return None;
    };
    let year = three_digits(*y1, *y2, *y3)?;
    let month = u16::from(two_digits(*m1, *m2)?);
    let day = u16::from(two_digits(*d1, *d2)?);
    if year <= 127 && month <= 15 && day <= 31 {
        Some(512 * year + (16 * day + month))
    } else {
        None
    }
}

/// Returns how a file is written, from its word in `LIST`.
fn how_of(word: &[u8]) -> Option<How>
    ensures how { result ≡ listed.how_of word.now }
{
    if word == b"text".as_slice() {
        Some(How::Text)
    } else if word == b"bytes".as_slice() {
        Some(How::Bytes)
    } else {
        None
    }
}

/// Returns the bytes before the first byte `mark`, or all bytes if none is `mark`.
fn first_or_all(bytes: &[u8], mark: u8) -> &[u8]
    ensures first { result.now ≡ listed.first_or_all bytes.now (listed.cut mark bytes.now) }
{
    match cut(bytes, mark) {
        Some((first, _)) => first,
        None => bytes,
    }
}

/// Returns the same bytes as a text. `None` if they are not UTF-8.
pub(crate) fn utf8_of(bytes: &[u8]) -> Option<&str>
    ensures text { option_map (λ text. text.now) result ≡ listed.utf8_of bytes.now }
{
    match str::from_utf8(bytes) {
        Ok(text) => Some(text),
        Err(_) => None,
    }
}

/// Returns what the line of a file states. `None` if the line has fewer than five fields with tabs between them, if the
/// first field is not UTF-8, or if the kind, the date or the last field is invalid.
#[tactic(auto, unfolding(crate::specs::Listed::listed_of))]
pub(crate) fn listed_of(line: &[u8]) -> Option<Listed<'_>>
    ensures listed { option_map listed.seen result ≡ listed.listed_of line.now }
{
    let (host, rest) = cut(line, TAB)?;
    let host = utf8_of(host)?;
    let (name, rest) = cut(rest, TAB)?;
    let (kind, rest) = cut(rest, TAB)?;
    let (date, rest) = cut(rest, TAB)?;
    let kind = kind_of(kind)?;
    let date = date_of(date)?;
    let how = how_of(first_or_all(rest, TAB))?;
    Some(Listed {
        host,
        name,
        kind,
        date,
        how,
    })
}

/// Returns the bytes after the first space, or none if there is no space.
fn after_space(text: &[u8]) -> &[u8]
    ensures after { result.now ≡ listed.after_space text.now }
{
    match cut(text, b' ') {
        Some((_, after)) => after,
        None => &[],
    }
}

/// Returns the last date of the volume from the first line of `LIST`. `None` if the line has no valid date.
pub(crate) fn last_date_in(line: &[u8]) -> Option<u16>
    ensures date { result ≡ listed.last_date_in line.now }
{
    date_of(after_space(after_space(after_space(line))))
}
