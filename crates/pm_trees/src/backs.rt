//! Statements that jump back to the beginning of a loop, and case jumps. An *end* is the offset after the last byte of
//! such a statement.

ghost use Rattle.std.specs.Prelude.{◌≡◌, ◌<◌, ◌==◌, ℕ, List, length, if◌then◌else◌, IfOk, OnOk};
ghost use Rattle.pm_trees.specs.Backs as backs;
ghost use Rattle.pm_trees.specs.declared.statement.Statement.{Statement};
ghost use Rattle.pm_trees.specs.Backs.Way.{Always, ByCondition, ByValue};

use crate::statement::{Leads, Statement};
use std::alloc::{AllocError, Global};

/// Three ends for one statement: of the loops that begin at this statement, and of the case jump to which it jumps. An
/// end is 0 if no such loop or case jump exists.
#[derive(Clone, Copy, Drop)]
pub struct Loops {
    /// The end of the last statement that jumps back to this statement under a condition.
    pub by_condition: usize,
    /// The end of the last statement that always jumps back to this statement.
    pub always: usize,
    /// The end of the case jump at the target of this statement.
    pub by_value: usize,
}

/// Returns `place` if it is not after `at`. Otherwise returns `None`.
fn back_to(place: usize, at: usize) -> Option<usize>
    ensures place { result ≡ backs.back_to place at }
{
    if place <= at { Some(place) } else { None }
}

/// Appends zeros to `ends` until it has an item with the index `place`.
#[tactic(auto, using(crate::proofs::BlockEnds::has_more))]
fn make_room(ends: &mut Vec<usize>, place: usize) -> Result<(), AllocError>
    ensures same { OnOk result ((p : ℕ) → backs.written ends.new.items p ≡ backs.written ends.old.items p) }
    ensures room { OnOk result (place < length ends.new.items) }
{
    let Some(size) = place.checked_add(1) else {
        return Err(AllocError);
    };
    if ends.len() < size {
        ends.resize(size, 0)?;
    }
    Ok(())
}

/// Sets the end that is recorded for the offset `place` to `end`.
#[tactic(auto, using(crate::proofs::BlockEnds::has_set))]
fn set_end(ends: &mut Vec<usize>, place: usize, end: usize) -> Result<(), AllocError>
    ensures set { OnOk result ((p : ℕ) → backs.written ends.new.items p
        ≡ (if place == p then end else backs.written ends.old.items p)) }
{
    make_room(ends, place)?;
    ends[place] = end;
    Ok(())
}

/// Sets the end that is recorded for the offset `back` to `behind`. If `back` is `None`, nothing changes.
fn add_end(ends: &mut Vec<usize>, back: Option<usize>, behind: usize) -> Result<(), AllocError>
    ensures added { OnOk result ((p : ℕ) → backs.written ends.new.items p
        ≡ backs.later_end p (backs.written ends.old.items p) back behind) }
{
    match back {
        Some(place) => set_end(ends, place, behind),
        None => Ok(()),
    }
}

/// Returns the end that is recorded for the offset `place`, or 0 if none is recorded.
fn end_at(ends: &[usize], place: usize) -> usize
    ensures end { result ≡ backs.written ends.now place }
{
    ends.get(place).copied().unwrap_or(0)
}

/// Returns the target of a jump. Returns 0 if the statement does not jump, or if it is a case jump.
pub(crate) fn place_of(leads: Leads) -> usize
    ensures place { result ≡ backs.place_of leads }
{
    match leads {
        Leads::Nowhere | Leads::ByValue => 0,
        Leads::ByCondition(place) | Leads::Always(place) => place,
    }
}

/// Three lists of ends, indexed by offset. They have the end of the last statement that jumps back to the offset, and
/// of the case jump that begins at it.
#[derive(Drop)]
pub(crate) struct Backs {
    /// The ends of statements that jump back under a condition.
    by_condition: Vec<usize>,
    /// The ends of statements that always jump back.
    always: Vec<usize>,
    /// The ends of case jumps, by the offset at which the case jump begins.
    by_value: Vec<usize>,
}

/// Records the end of `statement` for the offset to which it jumps back. For a case jump, records it for the offset at
/// which the statement begins.
fn add_statement(ends: &mut Backs, statement: &Statement) -> Result<(), AllocError>
    ensures by_condition { OnOk result ((p : ℕ) → backs.written ends.new.by_condition.items p
        ≡ backs.later_end p (backs.written ends.old.by_condition.items p)
        (backs.back_place ByCondition statement.now.leads statement.now.at) statement.now.behind) }
    ensures always { OnOk result ((p : ℕ) → backs.written ends.new.always.items p
        ≡ backs.later_end p (backs.written ends.old.always.items p)
        (backs.back_place Always statement.now.leads statement.now.at) statement.now.behind) }
    ensures by_value { OnOk result ((p : ℕ) → backs.written ends.new.by_value.items p
        ≡ backs.later_end p (backs.written ends.old.by_value.items p)
        (backs.back_place ByValue statement.now.leads statement.now.at) statement.now.behind) }
{
    let (at, behind) = (statement.at, statement.behind);
    match statement.leads {
        Leads::Nowhere => Ok(()),
        Leads::ByCondition(place) => add_end(&mut ends.by_condition, back_to(place, at), behind),
        Leads::Always(place) => add_end(&mut ends.always, back_to(place, at), behind),
        Leads::ByValue => set_end(&mut ends.by_value, at, behind),
    }
}

impl Backs {
    ghost use Rattle.pm_trees.specs.Backs.{IsOf};

    /// Returns the ends of the list `statements`.
    pub(crate) fn of(alloc: Global, statements: &[Statement]) -> Result<Backs, AllocError>
        ensures of { IfOk result (λ backs. IsOf backs statements.now) }
    {
        let mut ends = Backs {
            by_condition: Vec::new(alloc),
            always: Vec::new(alloc),
            by_value: Vec::new(alloc),
        };
        for statement in statements {
            add_statement(&mut ends, statement)?;
        }
        Ok(ends)
    }

    /// Returns the ends of the loops that begin at `statement`, and of the case jump at its target.
    pub(crate) fn loops_at(&self, statement: &Statement) -> Loops
        ensures loops { (all : List Statement) → IsOf self.now all → result ≡ backs.loops_at all statement.now }
    {
        Loops {
            by_condition: end_at(&self.by_condition, statement.at),
            always: end_at(&self.always, statement.at),
            by_value: end_at(&self.by_value, place_of(statement.leads)),
        }
    }
}
