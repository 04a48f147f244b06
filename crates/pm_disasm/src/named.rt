//! The offsets to which code jumps. The text of the code has a label at each of them.

ghost use Rattle.std.specs.Prelude.{◌≡◌, ◌<◌, ◌≤◌, ◌^◌, ◌+◌, ◌-◌, ◌*◌, ◌||◌, ◌++◌, ℕ, true, length, map, IfOk};
ghost use Rattle.std.specs.List.{AllByRecursion, list_all};
ghost use Rattle.pm_words.specs.Words.{words_of};
ghost use Rattle.pm_disasm.specs.Follow.{written_by};
ghost use Rattle.pm_code.specs.Program.{is_among, item_places, target_places};
ghost use Rattle.pm_code.specs.Shown.{named_places};
ghost use Rattle.pm_disasm.specs.Split.{table_places};
ghost use Rattle.pm_code.specs.Views.{placed_target};
ghost use Rattle.pm_disasm.specs.Views.{IsAlike, IsInside, has, found_seen, part_seen};

use crate::found::{Found, Table, table_place};
use crate::parts::Part;
use crate::places::PlaceSet;
use crate::written::item_led;
use pm_code::Target;
use std::alloc::{AllocError, Global};

/// Adds the target of a jump to `named` if the target is an offset. A jump through an entry adds nothing.
fn add_target(named: &mut PlaceSet, boundaries: &PlaceSet, target: Target<usize>)
    requires alike { IsAlike named.old boundaries.now }
    requires leads { list_all (has boundaries.now) (target_places (placed_target target)) ≡ true }
    ensures has { (p : ℕ) → has named.new p ≡ (is_among (target_places (placed_target target)) p || has named.old p) }
    ensures alike { IsAlike named.new boundaries.now }
{
    if let Target::To(place) = target {
        named.add(place);
    }
}

/// Adds the targets of the case table `table` to `named`.
fn add_table(named: &mut PlaceSet, boundaries: &PlaceSet, table: Table<'_>)
    requires alike { IsAlike named.old boundaries.now }
    requires leads { list_all (has boundaries.now) (table_places table.at (words_of table.words.now)) ≡ true }
    ensures has { (p : ℕ) → has named.new p ≡ (is_among
        (table_places table.entry.at (words_of table.entry.words.now)) p || has named.old p) }
    ensures alike { IsAlike named.new boundaries.now }
{
    let at = table.at;
    let words = table.words;
    for k in 0..words.len() / 2 {
        let word = u16::from(words[2 * k]) + 256 * u16::from(words[2 * k + 1]);
        named.add(table_place(at, k, word));
    }
}

/// Adds the offsets to which `item` jumps to `named`.
fn add_item(named: &mut PlaceSet, boundaries: &PlaceSet, item: Found<'_>)
    requires alike { IsAlike named.old boundaries.now }
    requires leads { list_all (has boundaries.now) (item_places (found_seen item)) ≡ true }
    ensures has { (p : ℕ) → has named.new p ≡ (is_among (item_places (found_seen item.entry)) p || has named.old p) }
    ensures alike { IsAlike named.new boundaries.now }
{
    match item {
        Found::Plain(_, _) => {}
        Found::Jump(_, target) => add_target(named, boundaries, target),
        Found::Case(_, _, otherwise, table) => {
            add_target(named, boundaries, otherwise);
            add_table(named, boundaries, table);
        }
    }
}

/// Returns the set of the offsets to which the items of `parts` jump. Only items that are shown count.
pub(crate) fn places_named(
    alloc: Global,
    parts: &[Part<'_>],
    boundaries: &PlaceSet,
    end: usize,
    allowed: bool,
) -> Result<PlaceSet, AllocError>
    requires end { length boundaries.now.marks.items ≡ end - boundaries.now.begin + 1 }
    requires order { boundaries.now.begin ≤ end }
    requires short { end < 2 ^ 32 }
    ensures has { IfOk result (λ named. (p : ℕ) → has named p
        ≡ is_among (named_places (written_by (has boundaries.now) allowed (map part_seen parts.now))) p) }
    ensures alike { IfOk result (λ named. IsAlike named boundaries.now) }
{
    let mut named = PlaceSet::new(alloc, boundaries.begin, end)?;
    for part in parts {
        if let Some(item) = item_led(*part, boundaries, allowed) {
            add_item(&mut named, boundaries, item);
        }
    }
    Ok(named)
}

/// Adds the targets `entries` of a jump table to `named`.
pub(crate) fn add_entries(named: &mut PlaceSet, entries: &[u16])
    requires inside { AllByRecursion (IsInside named.old) entries.now }
    ensures has { (p : ℕ) → has named.new p ≡ (has named.old p || is_among entries.now p) }
    ensures alike { IsAlike named.new named.old }
{
    for entry in entries {
        named.add(usize::from(*entry));
    }
}
