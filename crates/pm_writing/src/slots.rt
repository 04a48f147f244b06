//! Writes the segments of a code file one after the other.

ghost use Rattle.std.specs.Prelude.{◌≡◌, ◌<◌, false};
ghost use Rattle.pm_codefile.specs.Dictionary.{segment_in};
ghost use Rattle.pm_writing.specs.Pieces.{form_text, slot_piece};
ghost use Rattle.pm_writing.specs.Written.{Writes};

use crate::form::Form;
use crate::numbers::{Part, write_numbers, write_piece};
use crate::pieces::{foot_piece, head_piece};
use pm_codefile::CodeFile;
use pm_jobs::{Fault, Sink};
use std::alloc::Global;

/// Writes the segment in slot `n` of `file` to `sink`. Writes nothing if the slot has no segment.
fn write_slot<W: Sink>(
    alloc: Global,
    sink: &mut W,
    file: &CodeFile<'_>,
    form: Form,
    n: u8,
) -> Result<(), Fault>
    requires well { (W.seen sink.old).failed ≡ false }
    requires slot { n < 16 }
    ensures writes { Writes (W.seen sink.old) (W.seen sink.new)
        (slot_piece form file.now n (segment_in file.now n)) result }
{
    let Some(segment) = file.segment(n) else {
        return Ok(());
    };
    let part = Part {
        form,
        slot: n,
        segment,
    };
    let head = head_piece(alloc, form, file, n)?;
    write_piece(sink, &head)?;
    write_numbers(alloc, sink, file, part)?;
    let foot = foot_piece(alloc, form, segment, n)?;
    write_piece(sink, &foot)
}

/// Writes the segments of `file` to `sink` in the order of their slots.
pub(crate) fn write_slots<W: Sink>(
    alloc: Global,
    sink: &mut W,
    file: &CodeFile<'_>,
    form: Form,
) -> Result<(), Fault>
    requires well { (W.seen sink.old).failed ≡ false }
    ensures writes { Writes (W.seen sink.old) (W.seen sink.new) (form_text form file.now) result }
{
    for n in 0..16 {
        write_slot(alloc, sink, file, form, n)?;
    }
    Ok(())
}
