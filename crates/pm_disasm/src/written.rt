//! The items that are shown for the parts of code.

ghost use Rattle.std.specs.Prelude.{◌≡◌, ◌<◌, ◌≤◌, ◌+◌, ◌-◌, ◌||◌, ◌&&◌, ◌++◌};
ghost use Rattle.std.specs.Prelude.{ℕ, true, length, map, option_map, IfSome};
ghost use Rattle.std.specs.List.{AllByRecursion, list_all};
ghost use Rattle.pm_words.specs.Words.{words_of};
ghost use Rattle.pm_disasm.specs.Follow.{item_led, leading, written_by};
ghost use Rattle.pm_code.specs.Program.{entries_for, entries_needed, entries_used};
ghost use Rattle.pm_code.specs.Program.{is_among, item_places, target_places};
ghost use Rattle.pm_code.specs.Shown.{named_places};
ghost use Rattle.pm_disasm.specs.Split.{is_allowed, is_allowed_item, table_places};
ghost use Rattle.pm_code.specs.Views.{placed_target};
ghost use Rattle.pm_disasm.specs.Views.{IsSetOf, has, found_seen, part_seen};

use crate::found::{Found, Table, table_place};
use crate::parts::Part;
use crate::places::PlaceSet;
use pm_code::Target;

/// Whether a jump to `target` can be shown. The target must be an offset in `boundaries`, or an entry of the jump table
/// if `allowed` is true.
fn target_leads(target: Target<usize>, boundaries: &PlaceSet, allowed: bool) -> bool
    ensures leads { result ≡ (is_allowed allowed (placed_target target)
        && list_all (has boundaries.now) (target_places (placed_target target))) }
{
    match target {
        Target::To(place) => boundaries.contains(place),
        Target::Through(_) => allowed,
    }
}

/// Whether all targets of the case table `table` are in `boundaries`.
fn table_leads(table: Table<'_>, boundaries: &PlaceSet) -> bool
    ensures leads { result ≡ list_all (has boundaries.now)
        (table_places table.entry.at (words_of table.entry.words.now)) }
{
    let at = table.at;
    let words = table.words;
    for k in 0..words.len() / 2 {
        let word = u16::from(words[2 * k]) + 256 * u16::from(words[2 * k + 1]);
        if !boundaries.contains(table_place(at, k, word)) {
            return false;
        }
    }
    true
}

/// Whether all jumps of `item` can be shown: each leads to one of `boundaries`, or through an entry if `allowed` is
/// true.
fn leads(item: Found<'_>, boundaries: &PlaceSet, allowed: bool) -> bool
    ensures leads { result ≡ leading (has boundaries.now) allowed (found_seen item.entry) }
{
    match item {
        Found::Plain(_, _) => true,
        Found::Jump(_, target) => target_leads(target, boundaries, allowed),
        Found::Case(_, _, otherwise, table) => {
            target_leads(otherwise, boundaries, allowed) && table_leads(table, boundaries)
        }
    }
}

/// Returns the item that is shown for `part`, or `None` if the part is shown as bytes.
pub(crate) fn item_led<'a>(
    part: Part<'a>,
    boundaries: &PlaceSet,
    allowed: bool,
) -> Option<Found<'a>>
    ensures item { option_map found_seen result ≡ item_led (has boundaries.now) allowed (part_seen part.entry).item }
    ensures leads { IfSome result (λ item. list_all (has boundaries.now) (item_places (found_seen item)) ≡ true) }
{
    let item = part.item?;
    if !leads(item, boundaries, allowed) {
        return None;
    }
    Some(item)
}

/// Returns the number of entries that a jump table must have for `item`.
pub(crate) fn entries_used(item: Found<'_>) -> usize
    ensures entries { result ≡ entries_used (found_seen item.entry) }
{
    match item {
        Found::Plain(_, _) => 0,
        Found::Jump(_, target) => entries_for(target),
        Found::Case(_, _, otherwise, _) => entries_for(otherwise),
    }
}

/// Returns the number of entries that a jump table must have for a jump to `target`.
fn entries_for(target: Target<usize>) -> usize
    ensures entries { result ≡ entries_for (placed_target target) }
{
    match target {
        Target::To(_) => 0,
        Target::Through(entry) => usize::from(entry) + 1,
    }
}

/// Returns the number of entries that a jump table must have for those jumps of `parts` that are shown.
pub(crate) fn entries_needed(parts: &[Part<'_>], boundaries: &PlaceSet) -> usize
    ensures entries { result ≡ entries_needed (written_by (has boundaries.now) true (map part_seen parts.now)) }
{
    let mut needed = 0;
    for part in parts {
        if let Some(item) = item_led(*part, boundaries, true) {
            needed = entries_used(item).max(needed);
        }
    }
    needed
}
