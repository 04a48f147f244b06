//! The contents of the files that are written to a folder.
ghost use Rattle.std.specs.Prelude.{◌≡◌, ◌++◌, [], IfOk, OnOk, unwrap_or};
ghost use Rattle.pm_folder.specs.Contents.{byte_with_ends, content_of, how_of, is_text, with_ends};
ghost use Rattle.pm_volume.specs.Files.{file_bytes};

use pm_textfile::{TextFault, decode};
use pm_volume::{Entry, Volume, kinds};
use std::alloc::{AllocError, Global};

/// The line ends of a text.
#[derive(Clone, Copy)]
pub enum Ends {
    /// Each line ends with byte 10.
    Lf,
    /// Each line ends with the bytes 13 and 10.
    CrLf,
    /// Each line ends with byte 13.
    Cr,
}

/// The form in which a file of a volume is written to the folder.
#[derive(Clone, Copy)]
pub enum How {
    /// The text of the file is written.
    Text,
    /// The bytes of the file are written unchanged.
    Bytes,
}

/// The length of the header of a text file in bytes.
const HEADER: usize = 1024;

/// Appends the character `byte` of a text to `text`. If `byte` is 10, appends the line end `ends` instead.
fn push_byte(text: &mut Vec<u8>, ends: Ends, byte: u8) -> Result<(), AllocError>
    ensures text { OnOk result (text.new.items ≡ text.old.items ++ byte_with_ends ends byte) }
{
    match ends {
        Ends::CrLf if byte == b'\n' => text.extend_from_slice(b"\r\n")?,
        Ends::Cr if byte == b'\n' => text.push(b'\r')?,
        _ => text.push(byte)?,
    }
    Ok(())
}

/// Returns the text `text` with the line ends `ends` instead of byte 10. Returns `AllocError` if memory is exhausted.
pub fn with_ends(alloc: Global, text: &[u8], ends: Ends) -> Result<Vec<u8>, AllocError>
    ensures text { IfOk result (λ bytes. bytes.items ≡ with_ends ends text.now) }
{
    let mut bytes = Vec::new(alloc);
    for byte in text {
        push_byte(&mut bytes, ends, *byte)?;
    }
    Ok(bytes)
}

/// Returns the bytes of the file of `entry` on `volume`.
pub(crate) fn stored<'a>(volume: &'a Volume, entry: &Entry) -> &'a [u8]
    ensures bytes { result.now ≡ unwrap_or (file_bytes volume.now entry.now) [] }
{
    volume.file(entry).unwrap_or(&[])
}

/// Returns whether a file with the kind `kind` and the bytes `bytes` is written as a text. `text` has the line ends, or
/// is `None` if no file is written as a text.
fn is_text(text: Option<Ends>, kind: u8, bytes: &[u8]) -> bool
    ensures text { result ≡ is_text text kind bytes.now }
{
    text.is_some() && kind == kinds::TEXT && HEADER <= bytes.len()
}

/// Returns the form in which a file with the kind `kind` and the bytes `bytes` is written.
pub(crate) fn how_of(text: Option<Ends>, kind: u8, bytes: &[u8]) -> How
    ensures how { result ≡ how_of text kind bytes.now }
{
    if is_text(text, kind, bytes) {
        How::Text
    } else {
        How::Bytes
    }
}

/// Returns the contents that are written for a file with the kind `kind` and the bytes `bytes`. `text` has the line
/// ends of texts, or is `None` if no file is written as a text.
pub(crate) fn content_of(
    alloc: Global,
    text: Option<Ends>,
    kind: u8,
    bytes: &[u8],
) -> Result<Vec<u8>, AllocError>
    ensures contents { IfOk result (λ contents. contents.items ≡ content_of text kind bytes.now) }
{
    match text {
        Some(ends) if is_text(text, kind, bytes) => match decode(alloc, bytes) {
            Ok(text) => with_ends(alloc, &text, ends),
            Err(_) => Err(AllocError),
        },
        _ => Vec::from_slice(alloc, bytes),
    }
}
