//! Decoding of text files to texts.

ghost use Rattle.std.specs.Prelude.{◌≡◌, ◌↔◌, [], ◌∷◌, ◌++◌, ◌<◌, ◌≤◌, ℕ, List, length, IfErr, IfOk, IsErrOf, OnOk};
ghost use Rattle.pm_textfile.specs.Reading.{text_from, text_of_file};

use crate::PAGE;
use crate::copies::push_copies;
use crate::fault::TextFault;
use std::alloc::{AllocError, Global};

// The state of the reader of a text file, between two bytes.
#[derive(Clone, Copy)]
pub(crate) enum LinePart {
    // The reader is at the start of a line: since the end of the previous line it has read only zeros.
    LineStart,
    // The reader has read the byte 16 that begins an indentation.
    Indentation,
    // The reader is inside a line.
    Line,
}

/// Returns the text of a text file. Each line of the text ends with a line feed.
///
/// The first 1,024 bytes are skipped. The other bytes have these meanings:
///
/// - A byte 16 at the start of a line and the byte after it are an indentation. Its number of spaces is the second byte
///   minus 32, or 0 if the second byte is less than 32.
/// - Byte 13 ends a line.
/// - Byte 0 is skipped.
/// - Any other byte is a character.
///
/// The bytes after the last byte 13 are a line too, unless all of them are 0.
///
/// # Errors
///
/// The errors are checked in this order:
/// - `NoHeader`: the file has fewer than 1,024 bytes.
/// - `NoMemory`: the host has no memory for the text.
pub fn decode(alloc: Global, bytes: &[u8]) -> Result<Vec<u8>, TextFault>
    ensures text { IfOk result (λ text. text.items ≡ text_of_file bytes.now) }
    ensures no_header { IsErrOf result TextFault.NoHeader ↔ (length bytes.now < 1024) }
    ensures memory { IfErr result (λ e. 1024 ≤ length bytes.now → e ≡ TextFault.NoMemory) }
{
    if bytes.len() < PAGE {
        return Err(TextFault::NoHeader);
    }
    let mut text = Vec::new(alloc);
    let mut place = LinePart::LineStart;
    for byte in &bytes[PAGE..] {
        place = add_byte(&mut text, place, *byte)?;
    }
    end_line(&mut text, place)?;
    Ok(text)
}

// Appends to `text` the characters that `byte` encodes in the state `place`. Returns the next state.
#[tactic(auto, unfolding(crate::specs::Reading::text_from))]
fn add_byte(text: &mut Vec<u8>, place: LinePart, byte: u8) -> Result<LinePart, AllocError>
    ensures added { IfOk result (λ next. (rest : List ℕ) →
        text.new.items ++ text_from next rest ≡ text.old.items ++ text_from place (byte ∷ rest)) }
{
    match (place, byte) {
        (LinePart::Indentation, _) => {
            push_copies(text, b' ', usize::from(byte.saturating_sub(32)))?;
            Ok(LinePart::Line)
        }
        (_, 0) => Ok(place),
        (_, 13) => {
            text.push(b'\n')?;
            Ok(LinePart::LineStart)
        }
        (LinePart::LineStart, 16) => Ok(LinePart::Indentation),
        _ => {
            text.push(byte)?;
            Ok(LinePart::Line)
        }
    }
}

// Appends a line feed to `text` if the state `place` is not the start of a line.
#[tactic(auto, unfolding(crate::specs::Reading::text_from))]
fn end_line(text: &mut Vec<u8>, place: LinePart) -> Result<(), AllocError>
    ensures ended { OnOk result (text.new.items ≡ text.old.items ++ text_from place []) }
{
    match place {
        LinePart::LineStart => Ok(()),
        LinePart::Indentation | LinePart::Line => {
            text.push(b'\n')?;
            Ok(())
        }
    }
}
