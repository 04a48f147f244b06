//! Writes the statement view of a code file one procedure after the other.

ghost use Rattle.std.specs.Prelude.{◌≡◌, ◌%◌, ◌≤◌, [], false, length, IfSome, OnOk};
ghost use Rattle.std.specs.List.{AllByRecursion};
ghost use Rattle.pm_codefile.specs.Dictionary.{segment_in};
ghost use Rattle.pm_codefile.specs.Segments.{attributes_in, procedures_in};
ghost use Rattle.pm_disasm.specs.Offsets.{IsDecoded};
ghost use Rattle.pm_statements.specs.Files as files;
ghost use Rattle.pm_writing.specs.Written.{Writes};

use crate::numbers::write_piece;
use pm_codefile::{CodeFile, procedures};
use pm_disasm::Decoded;
use pm_jobs::{Fault, Sink};
use pm_statements::{
    Known, Layout, Sized, SizedSegment, file_sizes, push_numbered, size_segment, sized_as,
};
use std::alloc::Global;

/// Writes the statements of the procedure with one number of a segment.
fn write_numbered<'a, W: Sink>(
    alloc: Global,
    sink: &mut W,
    known: &Known<'_>,
    sized: &SizedSegment<'a>,
    decoded: &mut Option<Decoded<'a>>,
    shown: &mut Vec<u16>,
    number: u8,
) -> Result<(), Fault>
    requires well { (W.seen sink.old).failed ≡ false }
    requires even { length sized.now.segment.now % 2 ≡ 0 }
    requires short { length sized.now.segment.now ≤ 65534 }
    requires sized { files.IsSizedSegment sized.now }
    requires decoded { IfSome decoded.old (λ d. IsDecoded d sized.now.segment.now) }
    ensures writes { Writes (W.seen sink.old) (W.seen sink.new) (files.numbered_text known.now
        sized.now.segment.now shown.old.items number (attributes_in sized.now.segment.now number)) result }
    ensures shown { OnOk result (shown.new.items
        ≡ files.with_table shown.old.items (attributes_in sized.now.segment.now number)) }
    ensures decoded { OnOk result (IfSome decoded.new (λ d. IsDecoded d sized.now.segment.now)) }
{
    let mut text = String::new(alloc);
    push_numbered(alloc, &mut text, known, sized, decoded, shown, number)?;
    write_piece(sink, text.as_bytes())
}

/// Writes the statements of all procedures of a segment.
fn write_segment<W: Sink>(
    alloc: Global,
    sink: &mut W,
    known: &Known<'_>,
    sized: &SizedSegment<'_>,
) -> Result<(), Fault>
    requires well { (W.seen sink.old).failed ≡ false }
    requires even { length sized.now.segment.now % 2 ≡ 0 }
    requires short { length sized.now.segment.now ≤ 65534 }
    requires sized { files.IsSizedSegment sized.now }
    ensures writes { Writes (W.seen sink.old) (W.seen sink.new) (files.tables_text known.now
        sized.now.segment.now [] 1 (procedures_in sized.now.segment.now)) result }
{
    let mut decoded = None;
    let mut shown = Vec::new(alloc);
    for done in 0..procedures(sized.segment) {
        write_numbered(
            alloc,
            sink,
            known,
            sized,
            &mut decoded,
            &mut shown,
            done + 1,
        )?;
    }
    Ok(())
}

/// Writes the statements of the segment in slot `n` of `file`. Writes nothing if the slot has no segment.
fn write_slot<W: Sink>(
    alloc: Global,
    sink: &mut W,
    file: &CodeFile<'_>,
    sizes: &Sized<'_>,
    layout: Layout,
    n: u8,
) -> Result<(), Fault>
    requires well { (W.seen sink.old).failed ≡ false }
    requires sized { AllByRecursion files.IsSizedSegment sizes.now.segments.items }
    ensures writes { Writes (W.seen sink.old) (W.seen sink.new)
        (files.slot_text sizes.now.callees.items layout n (segment_in file.now n)) result }
{
    let Some(segment) = file.segment(n) else {
        return Ok(());
    };
    let known = Known {
        segment: n,
        callees: &sizes.callees,
        layout,
    };
    match sized_as(&sizes.segments, segment) {
        Some(sized) => write_segment(alloc, sink, &known, sized),
        None => {
            let sized = size_segment(alloc, segment, &mut 0)?;
            write_segment(alloc, sink, &known, &sized)
        }
    }
}

/// Writes the statements of all segments of a code file, in the order of their slots.
#[tactic(auto, unfolding(pm_statements::specs::Files::file_text))]
pub(crate) fn write_statements<W: Sink>(
    alloc: Global,
    sink: &mut W,
    file: &CodeFile<'_>,
    layout: Layout,
) -> Result<(), Fault>
    requires well { (W.seen sink.old).failed ≡ false }
    ensures writes { Writes (W.seen sink.old) (W.seen sink.new) (files.file_text layout file.now) result }
{
    let sizes = file_sizes(alloc, file)?;
    for n in 0..16 {
        write_slot(alloc, sink, file, &sizes, layout, n)?;
    }
    Ok(())
}
