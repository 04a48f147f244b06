//! The pieces of a text. A piece is the text of one procedure, or the text before or after the procedures of a segment.
//! The pieces are written one after the other.

ghost use Rattle.std.specs.Prelude.{◌≡◌, ◌<◌, ◌≤◌, ℕ, Some, length, string_bytes, IfOk};
ghost use Rattle.pm_codefile.specs.Segments.{attributes_in};
ghost use Rattle.pm_disasm.specs.Offsets.{IsDecoded};
ghost use Rattle.pm_writing.specs.Pieces.{foot_piece, head_piece, missing_piece, raw_head, raw_table};
ghost use Rattle.pm_writing.specs.Pieces.{table_piece, told};

use crate::form::Form;
use pm_codefile::{Attributes, CodeFile};
use pm_disasm::{Decoded, decoded_procedure, dictionary_line, procedure_listing, slot_line};
use pm_notes::with_names;
use std::alloc::{AllocError, Global};

/// Returns the bytes of the piece `text`. If `form` is `Names`, notes are added to its lines.
fn told(alloc: Global, form: Form, file: &CodeFile<'_>, text: String) -> Result<Vec<u8>, AllocError>
    ensures piece { IfOk result (λ piece. piece.items ≡ told form file.now (string_bytes text)) }
{
    match form {
        Form::Names => with_names(alloc, file, text.as_bytes()),
        Form::Text | Form::Listing => Ok(text.into_bytes()),
    }
}

/// Returns the text of the procedure that has the given attribute table, without notes.
fn raw_table<'a>(
    alloc: Global,
    form: Form,
    slot: u8,
    segment: &'a [u8],
    decoded: &Decoded<'a>,
    table: &Attributes,
) -> Result<String, AllocError>
    requires short { length segment.now ≤ 65534 }
    requires of_segment { (p : ℕ) × (attributes_in segment.now p ≡ Some table.now) }
    requires decoded { IsDecoded decoded.now segment.now }
    ensures text { IfOk result (λ text. string_bytes text ≡ raw_table form slot segment.now table.now) }
{
    match form {
        Form::Text | Form::Names => decoded_procedure(alloc, segment, decoded, table),
        Form::Listing => procedure_listing(alloc, segment, slot, decoded, table),
    }
}

/// Returns the piece of the procedure that has the given attribute table.
pub(crate) fn table_piece<'a>(
    alloc: Global,
    form: Form,
    file: &CodeFile<'_>,
    slot: u8,
    segment: &'a [u8],
    decoded: &Decoded<'a>,
    table: &Attributes,
) -> Result<Vec<u8>, AllocError>
    requires short { length segment.now ≤ 65534 }
    requires of_segment { (p : ℕ) × (attributes_in segment.now p ≡ Some table.now) }
    requires decoded { IsDecoded decoded.now segment.now }
    ensures piece { IfOk result (λ piece. piece.items ≡ table_piece form file.now slot segment.now table.now) }
{
    let text = raw_table(alloc, form, slot, segment, decoded, table)?;
    told(alloc, form, file, text)
}

/// Returns the piece of a procedure whose number has no attribute table.
pub(crate) fn missing_piece(
    alloc: Global,
    form: Form,
    file: &CodeFile<'_>,
    number: u8,
) -> Result<Vec<u8>, AllocError>
    ensures piece { IfOk result (λ piece. piece.items ≡ missing_piece form file.now number) }
{
    let text = format!(in alloc; "; procedure {number}\n")?;
    told(alloc, form, file, text)
}

/// Returns the text before the procedures of the segment in slot `n`, without notes.
fn raw_head(alloc: Global, form: Form, file: &CodeFile<'_>, n: u8) -> Result<String, AllocError>
    requires slot { n < 16 }
    ensures text { IfOk result (λ text. string_bytes text ≡ raw_head form file.now n) }
{
    match form {
        Form::Text | Form::Names => slot_line(alloc, file, n),
        Form::Listing => Ok(String::new(alloc)),
    }
}

/// Returns the piece before the procedures of the segment in slot `n`.
pub(crate) fn head_piece(
    alloc: Global,
    form: Form,
    file: &CodeFile<'_>,
    n: u8,
) -> Result<Vec<u8>, AllocError>
    requires slot { n < 16 }
    ensures piece { IfOk result (λ piece. piece.items ≡ head_piece form file.now n) }
{
    let text = raw_head(alloc, form, file, n)?;
    told(alloc, form, file, text)
}

/// Returns the piece after the procedures of `segment`. It is the line of the dictionary in a listing, and else empty.
pub(crate) fn foot_piece(
    alloc: Global,
    form: Form,
    segment: &[u8],
    n: u8,
) -> Result<Vec<u8>, AllocError>
    ensures piece { IfOk result (λ piece. piece.items ≡ foot_piece form n segment.now) }
{
    match form {
        Form::Text | Form::Names => Ok(Vec::new(alloc)),
        Form::Listing => {
            let text = dictionary_line(alloc, segment, n)?;
            Ok(text.into_bytes())
        }
    }
}
