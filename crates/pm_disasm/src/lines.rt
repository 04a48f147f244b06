//! The lines of the text of code.

ghost use Rattle.std.specs.Prelude.{◌≡◌, ◌<◌, ◌^◌, ◌+◌, ◌++◌, [], ◌∷◌, List, ℕ, length};
ghost use Rattle.std.specs.Prelude.{map, string_bytes, option_map, IfSome, OnOk};
ghost use Rattle.pm_code.specs.Item.{size};
ghost use Rattle.pm_code.specs.Item.Item.{OneByte};
ghost use Rattle.pm_disasm.specs.Follow.{Follow, Items, code_lines_by, items_or_bytes, lines_at_by, written_by};
ghost use Rattle.pm_code.specs.Shown.{joined};
ghost use Rattle.pm_disasm.specs.Views.{has, found_seen, part_seen};

use crate::found::Found;
use crate::parts::Part;
use crate::places::PlaceSet;
use crate::written::item_led;
use pm_code::Label;
use std::alloc::{AllocError, Global};
use std::fmt::Write;

/// The offsets that have additional lines: a label or `.EXIT`.
#[derive(Clone, Copy)]
pub(crate) struct Marks<'a> {
    /// The offsets at which a label is shown.
    pub named: &'a PlaceSet,
    /// The offset of the exit code.
    pub exit: usize,
}

/// Appends the lines before offset `place`: its label if it is in `marks.named`, and `.EXIT` if the exit code begins at
/// it.
fn push_place(text: &mut String, place: usize, marks: Marks<'_>) -> Result<(), AllocError>
    ensures text { OnOk result (string_bytes text.new
        ≡ string_bytes text.old ++ joined (lines_at_by (has marks.entry.named.now) marks.entry.exit place [])) }
{
    if marks.named.contains(place) {
        let label = Label(place);
        writeln!(text, "{label}:")?;
    }
    if marks.exit == place {
        writeln!(text, ".EXIT")?;
    }
    Ok(())
}

/// Appends a `.BYTE` line for each of `bytes`, the first of which is at offset `at`, with the lines of `marks`.
fn push_bytes(
    text: &mut String,
    bytes: &[u8],
    at: usize,
    marks: Marks<'_>,
) -> Result<(), AllocError>
    requires short { at + length bytes.now < 2 ^ 32 }
    ensures text { OnOk result ((rest : Items) → string_bytes text.new
        ++ joined (code_lines_by (has marks.entry.named.now) marks.entry.exit (at + length bytes.now) rest)
        ≡ string_bytes text.old ++ joined (code_lines_by (has marks.entry.named.now) marks.entry.exit at
        (map OneByte bytes.now ++ rest))) }
{
    let mut place = at;
    for byte in bytes {
        push_place(text, place, marks)?;
        writeln!(text, "  .BYTE {byte}")?;
        place += 1;
    }
    Ok(())
}

/// Appends the line of the instruction `found` at offset `at`, with the lines of `marks`.
fn push_item(
    alloc: Global,
    text: &mut String,
    found: Found<'_>,
    at: usize,
    marks: Marks<'_>,
) -> Result<(), AllocError>
    ensures text { OnOk result ((rest : Items) → string_bytes text.new
        ++ joined (code_lines_by (has marks.entry.named.now) marks.entry.exit
        (at + size at (found_seen found.entry)) rest)
        ≡ string_bytes text.old ++ joined (code_lines_by (has marks.entry.named.now) marks.entry.exit at
        (found_seen found.entry ∷ rest))) }
{
    let item = found.item(alloc)?;
    push_place(text, at, marks)?;
    writeln!(text, "  {item}")?;
    Ok(())
}

/// Appends the lines of `part`. If `item` is not `None`, it is shown; otherwise each byte of the part is shown.
fn push_part(
    alloc: Global,
    text: &mut String,
    part: Part<'_>,
    item: Option<Found<'_>>,
    marks: Marks<'_>,
) -> Result<(), AllocError>
    requires short { part.at + length part.bytes.now < 2 ^ 32 }
    requires sized { IfSome item (λ item. size part.at (found_seen item) ≡ length part.bytes.now) }
    ensures text { OnOk result ((rest : Items) → string_bytes text.new
        ++ joined (code_lines_by (has marks.entry.named.now) marks.entry.exit
        (part.entry.at + length part.entry.bytes.now) rest)
        ≡ string_bytes text.old ++ joined (code_lines_by (has marks.entry.named.now) marks.entry.exit part.entry.at
        (items_or_bytes part.entry.bytes.now (option_map found_seen item.entry) ++ rest))) }
{
    match item {
        Some(item) => push_item(alloc, text, item, part.at, marks)?,
        None => push_bytes(text, part.bytes, part.at, marks)?,
    }
    Ok(())
}

/// Appends the lines of the code that consists of `parts`. `end` is the offset after the code.
pub(crate) fn push_code(
    alloc: Global,
    text: &mut String,
    parts: &[Part<'_>],
    boundaries: &PlaceSet,
    allowed: bool,
    end: usize,
    marks: Marks<'_>,
) -> Result<(), AllocError>
    requires follow { Follow boundaries.now.begin end (map part_seen parts.now) }
    requires short { end < 2 ^ 32 }
    ensures text { OnOk result (string_bytes text.new
        ≡ string_bytes text.old ++ joined (code_lines_by
        (has marks.entry.named.now) marks.entry.exit boundaries.now.begin
        (written_by (has boundaries.now) allowed (map part_seen parts.now)))) }
{
    for part in parts {
        let item = item_led(*part, boundaries, allowed);
        push_part(alloc, text, *part, item, marks)?;
    }
    push_place(text, end, marks)
}
