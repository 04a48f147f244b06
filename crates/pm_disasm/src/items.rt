//! Procedures as items. The code of a procedure is divided into parts: a part is an instruction, or one byte that is
//! not part of an instruction.

ghost use Rattle.std.specs.Prelude.{◌≡◌, ◌≤◌, ◌++◌, ℕ, Some, length, map, option_map, IfOk, OnOk};
ghost use Rattle.pm_code.specs.Item.Item.{OneByte};
ghost use Rattle.pm_code.specs.Views.{placed_item, procedure_seen};
ghost use Rattle.pm_codefile.specs.Segments.{attributes_in};
ghost use Rattle.pm_disasm.specs.Follow.{items_or_bytes, written_by};
ghost use Rattle.pm_disasm.specs.Offsets.{IsDecoded};
ghost use Rattle.pm_disasm.specs.Split.{procedure_of};
ghost use Rattle.pm_disasm.specs.Views.{found_seen, has, part_seen};

use crate::counts::shown_code;
use crate::decoded::Decoded;
use crate::found::Found;
use crate::parts::Part;
use crate::places::PlaceSet;
use crate::procedures::entries_of;
use crate::written::item_led;
use pm_code::{Item, Procedure};
use pm_codefile::Attributes;
use std::alloc::{AllocError, Global};

/// Appends each of `bytes` to `items` as an item.
fn add_bytes(items: &mut Vec<Item<usize>>, bytes: &[u8]) -> Result<(), AllocError>
    ensures items { OnOk result (map placed_item items.new.items
        ≡ map placed_item items.old.items ++ map OneByte bytes.now) }
{
    for byte in bytes {
        items.push(Item::OneByte(*byte))?;
    }
    Ok(())
}

/// Appends the item `found` to `items`. If `found` is `None`, appends each of `bytes` as an item.
fn add_part(
    alloc: Global,
    items: &mut Vec<Item<usize>>,
    bytes: &[u8],
    found: Option<Found<'_>>,
) -> Result<(), AllocError>
    ensures items { OnOk result (map placed_item items.new.items
        ≡ map placed_item items.old.items ++ items_or_bytes bytes.now (option_map found_seen found.entry)) }
{
    let Some(found) = found else {
        return add_bytes(items, bytes);
    };
    let item = found.item(alloc)?;
    items.push(item)?;
    Ok(())
}

/// Returns the items that are shown for `parts`. A jump is shown only if it leads to one of `boundaries`, or through an
/// entry if `allowed` is true.
fn items_of(
    alloc: Global,
    parts: &[Part<'_>],
    boundaries: &PlaceSet,
    allowed: bool,
) -> Result<Vec<Item<usize>>, AllocError>
    ensures items { IfOk result (λ items. map placed_item items.items
        ≡ written_by (has boundaries.now) allowed (map part_seen parts.now)) }
{
    let mut items = Vec::new(alloc);
    for part in parts {
        let found = item_led(*part, boundaries, allowed);
        add_part(alloc, &mut items, part.bytes, found)?;
    }
    Ok(items)
}

/// Returns the offsets `places` as `usize`.
fn offsets_of(alloc: Global, places: &[u16]) -> Result<Vec<usize>, AllocError>
    ensures offsets { IfOk result (λ offsets. offsets.items ≡ places.now) }
{
    let mut offsets = Vec::new(alloc);
    for place in places {
        offsets.push(usize::from(*place))?;
    }
    Ok(offsets)
}

/// Returns the procedure of `segment` that has the attribute table `attributes`, as its text shows it. The procedure is
/// decoded with the lowest number of jump table entries from 0 to 60 that fits. If no number fits, it is decoded
/// without entries.
///
/// Bytes that are not part of an instruction are shown as bytes. The same holds for a jump that leads neither to the
/// beginning of a part nor to the end of the code. A part is an instruction, or one byte that is not part of an
/// instruction.
///
/// `attributes` must be those of a procedure of `segment`, and the exit code must not be before the code. `segment` may
/// have at most 65,534 bytes. `decoded` is the result of `decode_segment` for `segment`.
pub fn code<'a>(
    alloc: Global,
    segment: &'a [u8],
    decoded: &Decoded<'a>,
    attributes: &Attributes,
) -> Result<Procedure, AllocError>
    requires short { length segment.now ≤ 65534 }
    requires of_segment { (p : ℕ) × (attributes_in segment.now p ≡ Some attributes.now) }
    requires order { attributes.now.enter ≤ attributes.now.exit }
    requires decoded { IsDecoded decoded.now segment.now }
    ensures procedure { IfOk result (λ p. procedure_seen p ≡ procedure_of segment.now attributes.now) }
{
    let shown = shown_code(alloc, segment, decoded, attributes)?;
    let parts = &shown.reading.code.parts;
    let boundaries = &shown.reading.code.boundaries;
    let items = items_of(alloc, parts, boundaries, shown.allowed)?;
    let entries = offsets_of(alloc, entries_of(&shown.reading.forced))?;
    Ok(Procedure {
        level: segment[usize::from(attributes.jtab) + 1],
        parameters: attributes.parameters,
        locals: attributes.locals,
        start: usize::from(attributes.enter),
        items,
        exit: usize::from(attributes.exit),
        entries,
    })
}
