//! The part of a line before its comment, and the operands between its commas.

ghost use Rattle.std.specs.Prelude.{◌≡◌, ◌<◌, ◌∷◌, false, length, map, option_map, IfOk, IfSome};
ghost use Rattle.pm_source.specs.Words.{trimmed};
ghost use Rattle.pm_source.specs.Line.{operands, pieces, uncommented};
ghost use Rattle.pm_line.specs.Views.{pieces_behind, texts_seen};

use crate::words::{trimmed, unindented};
use std::alloc::{AllocError, Global};

/// Returns the text before the first `;` that is outside quotes, or the whole text if it has no such `;`.
pub(crate) fn uncommented(text: &[u8]) -> &[u8]
    ensures text { result.now ≡ uncommented false text.now }
{
    let mut quoted = false;
    for (i, byte) in text.iter().enumerate() {
        if *byte == b';' && !quoted {
            return text.split_at(i).0;
        }
        if *byte == b'"' {
            quoted = !quoted;
        }
    }
    text
}

/// Returns the text before the first comma that is outside quotes, and the text after this comma, if it exists.
#[tactic(auto, using(crate::proofs::Onto::onto_next, crate::proofs::Onto::onto_end))]
fn first_piece(text: &[u8]) -> (&[u8], Option<&[u8]>)
    ensures pieces { pieces false text.now ≡ result.0.now ∷ pieces_behind (option_map (λ rest. rest.now) result.1) }
    ensures shorter { IfSome result.1 (λ rest. length rest.now < length text.now) }
{
    let mut quoted = false;
    for (i, byte) in text.iter().enumerate() {
        if *byte == b',' && !quoted {
            return (text.split_at(i).0, Some(text.split_at(i + 1).1));
        }
        if *byte == b'"' {
            quoted = !quoted;
        }
    }
    (text, None)
}

/// Returns the pieces of `text` between the commas that are outside quotes, each without leading and trailing spaces
/// and tabs.
fn pieces<'a>(alloc: Global, text: &'a [u8]) -> Result<Vec<&'a [u8]>, AllocError>
    ensures pieces { IfOk result (λ list. texts_seen list.items ≡ map trimmed (pieces false text.now)) }
{
    let mut list = Vec::new(alloc);
    let mut rest = Some(text);
    'pieces: while let Some(text) = rest {
        let (piece, behind) = first_piece(text);
        list.push(trimmed(piece))?;
        rest = behind;
    }
    Ok(list)
}

/// Returns the operands after a mnemonic, which commas separate. The list is empty if `text` has only spaces and tabs.
pub(crate) fn operands<'a>(alloc: Global, text: &'a [u8]) -> Result<Vec<&'a [u8]>, AllocError>
    ensures operands { IfOk result (λ list. texts_seen list.items ≡ operands text.now) }
{
    if unindented(text).is_empty() {
        return Ok(Vec::new(alloc));
    }
    pieces(alloc, text)
}
