//! A set of marked offsets: the offsets of a procedure that have a label.

ghost use Rattle.std.specs.Prelude.{◌≡◌, ◌-◌, ◌≤◌, ◌<◌, ◌==◌, ◌||◌, ℕ, false, length, map, IfOk, OnOk};
ghost use Rattle.std.specs.Bool.{OnTrue};
ghost use Rattle.pm_code.specs.Program.{is_among, item_places, target_places};
ghost use Rattle.pm_code.specs.Shown.{named_places};
ghost use Rattle.pm_code.specs.Views.{placed_item, placed_target, procedure_seen};
ghost use Rattle.pm_trees.specs.Parts.{labelled_places};
ghost use Rattle.pm_statements.specs.Marks.{AreMarked, has, has_flag};

use pm_code::{Item, Procedure, Target};
use std::alloc::{AllocError, Global};
use std::marker::Model;

/// A set of marked offsets. Offsets in the code of a procedure are stored as flags, and all other offsets in a list.
#[derive(Drop)]
pub struct Marks {
    /// The offset that the first flag is for.
    start: usize,
    /// One flag for each offset from `start` on. The flag is true if the offset is marked.
    flags: Vec<bool>,
    /// The marked offsets that have no flag.
    others: Vec<usize>,
}

impl Model for Marks {
    ghost use Rattle.pm_statements.specs.Marks as marks;

    ghost Value = { marks.Marks };

    ghost view = { λ m. record { start = m.start; flags = m.flags.items; others = m.others.items } };
}

impl Marks {
    /// Creates an empty set that has a flag for each offset from `start` to `end`.
    #[tactic(auto, using(crate::proofs::Marked::none_marked))]
    pub(crate) fn none(alloc: Global, start: usize, end: usize) -> Result<Marks, AllocError>
        ensures none { IfOk result (λ m. (p : ℕ) → has m p ≡ false) }
    {
        let Some(count) = end.saturating_sub(start).checked_add(1) else {
            return Err(AllocError);
        };
        let mut flags = Vec::new(alloc);
        flags.resize(count, false)?;
        let others = Vec::new(alloc);
        Ok(Marks {
            start,
            flags,
            others,
        })
    }

    /// Returns whether the set has a flag for the offset `place`.
    fn has_flag(&self, place: usize) -> bool
        ensures value { result ≡ has_flag self.now place }
        ensures low { OnTrue result (self.now.start ≤ place) }
        ensures within { OnTrue result (place - self.now.start < length self.now.flags) }
    {
        place >= self.start && place - self.start < self.flags.len()
    }

    /// Returns whether the offset `place` is marked.
    #[tactic(auto, unfolding(crate::specs::Marks::has))]
    pub(crate) fn has(&self, place: usize) -> bool
        ensures value { result ≡ has self.now place }
    {
        if self.has_flag(place) {
            return self.flags[place - self.start];
        }
        self.others.contains(&place)
    }
}

/// Marks the offset `place`.
#[tactic(auto, unfolding(crate::specs::Marks::has), using(crate::proofs::Marked::flag_set, crate::proofs::Marked::other_added))]
fn mark(marks: &mut Marks, place: usize) -> Result<(), AllocError>
    ensures has { OnOk result ((p : ℕ) → has marks.new p ≡ ((place == p) || has marks.old p)) }
{
    if marks.has_flag(place) {
        marks.flags[place - marks.start] = true;
        return Ok(());
    }
    marks.others.push(place)?;
    Ok(())
}

/// Marks all offsets of `places`.
#[tactic(auto, using(crate::proofs::Marked::places_done))]
pub(crate) fn mark_places(marks: &mut Marks, places: &[usize]) -> Result<(), AllocError>
    ensures has { OnOk result ((p : ℕ) → has marks.new p ≡ (has marks.old p || is_among places.now p)) }
{
    for place in places {
        mark(marks, *place)?;
    }
    Ok(())
}

/// If `target` is a label, marks its offset. A target that is an entry of the jump table is not marked.
#[tactic(auto, using(crate::proofs::Marked::one_place, crate::proofs::Marked::or_false))]
pub(crate) fn mark_target(marks: &mut Marks, target: Target<usize>) -> Result<(), AllocError>
    ensures has { OnOk result ((p : ℕ) → has marks.new p
        ≡ (has marks.old p || is_among (target_places (placed_target target)) p)) }
{
    match target {
        Target::To(place) => mark(marks, place),
        Target::Through(_) => Ok(()),
    }
}

/// Marks the offsets that `item` names.
#[tactic(auto, using(crate::proofs::Marked::joined_places, crate::proofs::Marked::or_false))]
pub(crate) fn mark_item(marks: &mut Marks, item: &Item<usize>) -> Result<(), AllocError>
    ensures has { OnOk result ((p : ℕ) → has marks.new p
        ≡ (has marks.old p || is_among (item_places (placed_item item.now)) p)) }
{
    match item {
        Item::Jump(_, target) => mark_target(marks, *target),
        Item::Case {
            otherwise,
            places,
            ..
        } => {
            mark_target(marks, *otherwise)?;
            mark_places(marks, places)
        }
        Item::Plain(_, _) | Item::OneByte(_) => Ok(()),
    }
}

/// Marks the offsets that the items `items` name.
#[tactic(auto, using(crate::proofs::Marked::items_done))]
fn mark_items(marks: &mut Marks, items: &[Item<usize>]) -> Result<(), AllocError>
    ensures has { OnOk result ((p : ℕ) → has marks.new p
        ≡ (has marks.old p || is_among (named_places (map placed_item items.now)) p)) }
{
    for item in items {
        mark_item(marks, item)?;
    }
    Ok(())
}

/// Returns the offsets of `procedure` that have a label. The set has a flag for each offset from the start of the code
/// to `end`.
#[tactic(auto, using(crate::proofs::Marked::two_marked))]
pub(crate) fn labels_of(
    alloc: Global,
    procedure: &Procedure,
    end: usize,
) -> Result<Marks, AllocError>
    ensures marks { IfOk result (λ marks. AreMarked marks (labelled_places (procedure_seen procedure.now))) }
{
    let mut marks = Marks::none(alloc, procedure.start, end)?;
    mark_items(&mut marks, &procedure.items)?;
    mark_places(&mut marks, &procedure.entries)?;
    Ok(marks)
}
