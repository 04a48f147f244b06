//! The files of a folder without `LIST`: their names and kinds on the volume, and how they are converted.
ghost use Rattle.std.specs.Prelude.{◌≡◌, ◌≤◌, IfOk, length, string_bytes};
ghost use Rattle.std.specs.Bool.{OnTrue};
ghost use Rattle.pm_import.specs.Listed.{seen};
ghost use Rattle.pm_import.specs.Plain as plain;

use crate::listed::{Listed, cut};
use percent_encoding::percent_encode;
use pm_folder::{How, LISTED, how_text};
use pm_volume::kinds;
use std::alloc::{AllocError, Global};

/// Returns the capital letter for a small ASCII letter, and any other byte unchanged.
fn upper(byte: u8) -> u8
    ensures upper { result ≡ plain.upper byte }
{
    if 97 <= byte && byte <= 122 {
        byte - 32
    } else {
        byte
    }
}

/// Returns `text` with capital ASCII letters.
fn upper_name(alloc: Global, text: &[u8]) -> Result<Vec<u8>, AllocError>
    ensures name { IfOk result (λ bytes. bytes.items ≡ plain.upper_name text.now) }
{
    let mut bytes = Vec::new(alloc);
    for byte in text {
        bytes.push(upper(*byte))?;
    }
    Ok(bytes)
}

/// Returns whether `name` ends with `ending`.
#[tactic(auto, unfolding(crate::specs::Plain::has_ending))]
fn has_ending(name: &[u8], ending: &[u8]) -> bool
    ensures value { result ≡ plain.has_ending ending.now name.now }
    ensures long { OnTrue result (length ending.now ≤ length name.now) }
{
    if name.len() < ending.len() {
        return false;
    }
    &name[name.len() - ending.len()..] == ending
}

/// Returns the name on the volume of the file `host` of a folder: in capital letters, and with the ending `.TEXT` in
/// place of `.TXT`.
fn plain_name(alloc: Global, host: &str) -> Result<Vec<u8>, AllocError>
    ensures name { IfOk result (λ name. name.items ≡ plain.plain_name host.now) }
{
    let mut name = upper_name(alloc, host.as_bytes())?;
    if has_ending(&name, b".TXT") {
        let count = name.len() - 3;
        name.truncate(count);
        name.extend_from_slice(b"TEXT")?;
    }
    Ok(name)
}

/// Returns the name of `plain_name` with escapes, as in `LIST`.
pub(crate) fn escaped_name(alloc: Global, host: &str) -> Result<String, AllocError>
    ensures name { IfOk result (λ name. string_bytes name ≡ plain.escaped_name host.now) }
{
    let name = plain_name(alloc, host)?;
    let mut escaped = String::new(alloc);
    percent_encode(&name, LISTED).append_to(&mut escaped)?;
    Ok(escaped)
}

/// Returns the kind of a file by its name on the volume: text for the ending `.TEXT`, code for `.CODE`, and data for
/// any other name.
#[tactic(auto, unfolding(crate::specs::Plain::kind_by_name))]
fn kind_by_name(name: &[u8]) -> u8
    ensures kind { result ≡ plain.kind_by_name name.now }
{
    if has_ending(name, b".TEXT") {
        kinds::TEXT
    } else if has_ending(name, b".CODE") {
        kinds::CODE
    } else {
        kinds::DATA
    }
}

/// Returns how a file with this kind and these contents is converted. A file of kind text is a plain text if no byte is
/// 0. A text file of the p-System has such bytes in its header.
fn how_by_bytes(kind: u8, contents: &[u8]) -> How
    ensures how { result ≡ plain.how_by_bytes kind contents.now }
{
    if kind == kinds::TEXT && cut(contents, 0).is_none() {
        How::Text
    } else {
        How::Bytes
    }
}

/// Returns what `LIST` would state for the file `host` with these contents. `name` is its name on the volume with
/// escapes. The file has no date.
pub(crate) fn plain_listed<'a>(host: &'a str, name: &'a str, contents: &[u8]) -> Listed<'a>
    ensures listed { seen result ≡ plain.listed_as host.now name.now contents.now }
{
    let kind = kind_by_name(name.as_bytes());
    Listed {
        host,
        name: name.as_bytes(),
        kind,
        date: 0,
        how: how_by_bytes(kind, contents),
    }
}

/// Returns the word of `LIST` for a kind that `kind_by_name` returns.
fn kind_text(kind: u8) -> &'static str
    ensures text { result.now ≡ plain.kind_text kind }
{
    match kind {
        kinds::TEXT => "text",
        kinds::CODE => "code",
        _ => "data",
    }
}

/// Returns the line that `LIST` would have for the file `host`: its name in the folder, its name on the volume, its
/// kind, no date, and how it is converted, with tabs between them.
pub(crate) fn plain_line(
    alloc: Global,
    host: &str,
    name: &str,
    listed: &Listed<'_>,
) -> Result<String, AllocError>
    ensures line { IfOk result (λ line. string_bytes line ≡ plain.line_of host.now name.now listed.now.kind listed.now.how) }
{
    let kind = kind_text(listed.kind);
    let how = how_text(listed.how);
    format!(in alloc; "{host}\t{name}\t{kind}\t000-00-00\t{how}\n")
}
