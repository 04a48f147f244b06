//! Writes the procedures of a segment one after the other. A piece is the text of one procedure in the requested form.

ghost use Rattle.std.specs.Prelude.{◌≡◌, ◌%◌, ◌≤◌, ℕ, List, Some, false, length, IfSome, OnOk};
ghost use Rattle.pm_codefile.specs.Segments.{attributes_in, procedures_in};
ghost use Rattle.pm_codefile.specs.declared.table.Attributes.{Attributes};
ghost use Rattle.pm_disasm.specs.Offsets.{IsDecoded};
ghost use Rattle.pm_writing.specs.Pieces.{number_piece, pieces, table_piece};
ghost use Rattle.pm_writing.specs.Written.{Writes};

use crate::form::Form;
use crate::pieces::{missing_piece, table_piece};
use pm_codefile::{Attributes, CodeFile, attributes, procedures};
use pm_disasm::{Decoded, decode_segment};
use pm_jobs::{Fault, Sink, write_all};
use std::alloc::Global;

/// A segment to write: its form, its slot and its bytes.
#[derive(Clone, Copy)]
pub(crate) struct Part<'a> {
    pub form: Form,
    pub slot: u8,
    pub segment: &'a [u8],
}

/// The procedure that was written last. It is cached because several numbers of a dictionary may lead to one attribute
/// table.
#[derive(Drop)]
struct Last {
    table: Attributes,
    piece: Vec<u8>,
}

/// Writes the bytes `piece` to `sink`.
pub(crate) fn write_piece<W: Sink>(sink: &mut W, piece: &[u8]) -> Result<(), Fault>
    requires well { (W.seen sink.old).failed ≡ false }
    ensures writes { Writes (W.seen sink.old) (W.seen sink.new) piece.now result }
{
    write_all(sink, piece)
}

/// Returns the cached piece in `last` if it was made from an attribute table equal to `table`, else `None`.
fn same<'l>(last: &'l Option<Last>, table: &Attributes) -> Option<&'l [u8]>
    ensures piece { (shows : Attributes → List ℕ) → IfSome last.now (λ l. l.piece.items ≡ shows l.table)
        → IfSome result (λ piece. piece.now ≡ shows table.now) }
{
    match last {
        Some(known) if known.table == *table => Some(&known.piece),
        _ => None,
    }
}

/// Writes the piece of the procedure that has the given attribute table, and caches this piece.
fn write_table<'a, W: Sink>(
    alloc: Global,
    sink: &mut W,
    file: &CodeFile<'_>,
    part: Part<'a>,
    decoded: &Decoded<'a>,
    last: &mut Option<Last>,
    table: Attributes,
) -> Result<(), Fault>
    requires well { (W.seen sink.old).failed ≡ false }
    requires short { length part.segment.now ≤ 65534 }
    requires of_segment { (p : ℕ) × (attributes_in part.segment.now p ≡ Some table) }
    requires decoded { IsDecoded decoded.now part.segment.now }
    requires last { IfSome last.old (λ l. l.piece.items
        ≡ table_piece part.form file.now part.slot part.segment.now l.table) }
    ensures writes { Writes (W.seen sink.old) (W.seen sink.new)
        (table_piece part.entry.form file.now part.entry.slot part.entry.segment.now table) result }
    ensures last { OnOk result (IfSome last.new (λ l. l.piece.items
        ≡ table_piece part.entry.form file.now part.entry.slot part.entry.segment.now l.table)) }
{
    if let Some(piece) = same(last, &table) {
        return write_piece(sink, piece);
    }
    let piece = table_piece(
        alloc,
        part.form,
        file,
        part.slot,
        part.segment,
        decoded,
        &table,
    )?;
    write_piece(sink, &piece)?;
    *last = Some(Last { table, piece });
    Ok(())
}

/// Writes the piece of the procedure with one number of a segment. The number may have no attribute table.
fn write_number<'a, W: Sink>(
    alloc: Global,
    sink: &mut W,
    file: &CodeFile<'_>,
    part: Part<'a>,
    decoded: &Decoded<'a>,
    last: &mut Option<Last>,
    number: u8,
) -> Result<(), Fault>
    requires well { (W.seen sink.old).failed ≡ false }
    requires even { length part.segment.now % 2 ≡ 0 }
    requires short { length part.segment.now ≤ 65534 }
    requires decoded { IsDecoded decoded.now part.segment.now }
    requires last { IfSome last.old (λ l. l.piece.items
        ≡ table_piece part.form file.now part.slot part.segment.now l.table) }
    ensures writes { Writes (W.seen sink.old) (W.seen sink.new) (number_piece part.entry.form file.now part.entry.slot
        part.entry.segment.now number (attributes_in part.entry.segment.now number)) result }
    ensures last { OnOk result (IfSome last.new (λ l. l.piece.items
        ≡ table_piece part.entry.form file.now part.entry.slot part.entry.segment.now l.table)) }
{
    match attributes(part.segment, number) {
        Some(table) => write_table(alloc, sink, file, part, decoded, last, table),
        None => {
            let piece = missing_piece(alloc, part.form, file, number)?;
            write_piece(sink, &piece)
        }
    }
}

/// Writes the pieces of all procedures of a segment, in the order of their numbers.
pub(crate) fn write_numbers<W: Sink>(
    alloc: Global,
    sink: &mut W,
    file: &CodeFile<'_>,
    part: Part<'_>,
) -> Result<(), Fault>
    requires well { (W.seen sink.old).failed ≡ false }
    requires even { length part.segment.now % 2 ≡ 0 }
    requires short { length part.segment.now ≤ 65534 }
    ensures writes { Writes (W.seen sink.old) (W.seen sink.new) (pieces part.entry.form file.now part.entry.slot
        part.entry.segment.now 1 (procedures_in part.entry.segment.now)) result }
{
    let decoded = decode_segment(alloc, part.segment)?;
    let mut last = None;
    for done in 0..procedures(part.segment) {
        write_number(alloc, sink, file, part, &decoded, &mut last, done + 1)?;
    }
    Ok(())
}
