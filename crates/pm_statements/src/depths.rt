//! The nesting depth of the code of a procedure, computed from its jumps.

ghost use Rattle.std.specs.Prelude.{◌≡◌, ◌++◌, replicate, IfOk, OnOk};
ghost use Rattle.pm_code.specs.Program.{code_end};
ghost use Rattle.pm_code.specs.Views.{placed_item, procedure_seen};
ghost use Rattle.pm_statements.specs.Depths as depths;
ghost use Rattle.pm_statements.specs.Bodies as bodies;

use crate::procedure::behind;
use crate::spans::{close_ended, open_span};
use pm_code::{Item, JUMP, Procedure, Target};
use std::alloc::{AllocError, Global};
use std::marker::Model;

/// A list with one number for each byte of code. The first number is for the byte at offset `start`.
#[derive(Drop)]
pub struct Depths {
    /// The offset of the first byte that has a number.
    pub(crate) start: usize,
    /// The numbers, one for each byte.
    pub(crate) list: Vec<usize>,
}

impl Model for Depths {
    ghost use Rattle.pm_statements.specs.Depths as depths;

    ghost Value = { depths.Depths };

    ghost view = { λ d. record { start = d.start; list = d.list.items } };
}

impl Depths {
    /// Returns the number for the offset `place`, or 0 if the list has no number for it.
    pub(crate) fn at_place(&self, place: usize) -> usize
        ensures value { result ≡ depths.at_place self.now place }
    {
        let list = &self.list;
        list.get(place.saturating_sub(self.start))
            .copied()
            .unwrap_or(0)
    }
}

/// If `item` is a jump, returns its target. Returns None if `item` is no jump, or if `entries`, the jump table, lacks
/// the entry that it uses.
fn leads_to(entries: &[usize], item: &Item<usize>) -> Option<usize>
    ensures value { result ≡ depths.leads_to entries.now (placed_item item.now) }
{
    match item {
        Item::Jump(_, Target::To(place)) => Some(*place),
        Item::Jump(_, Target::Through(k)) => entries.get(usize::from(*k)).copied(),
        Item::Plain(_, _) | Item::Case { .. } | Item::OneByte(_) => None,
    }
}

/// If `item` is a conditional jump, returns its target. Otherwise returns None.
fn leads_by_condition(entries: &[usize], item: &Item<usize>) -> Option<usize>
    ensures value { result ≡ depths.leads_by_condition entries.now (placed_item item.now) }
{
    match item {
        Item::Jump(op, _) if *op != JUMP => leads_to(entries, item),
        _ => None,
    }
}

/// Records in `loops` that a loop ends at `end`, if the jump from `at` leads back to the offset `place` in the code.
/// `start` is the offset of the first byte of the code.
fn add_loop(loops: &mut Vec<usize>, start: usize, at: usize, end: usize, place: Option<usize>)
    ensures loops { loops.new.items ≡ depths.with_loop start at end place loops.old.items }
{
    let Some(place) = place else {
        return;
    };
    if start <= place && place <= at && place - start < loops.len() {
        loops[place - start] = end;
    }
}

/// Returns a number for each byte of the code of `procedure`: the end of the loop that begins at this byte, or 0 if no
/// loop begins there.
#[tactic(auto, unfolding(crate::specs::Depths::loops_from))]
fn loops_of(alloc: Global, procedure: &Procedure, end: usize) -> Result<Depths, AllocError>
    requires end { end ≡ code_end (procedure_seen procedure.now) }
    ensures loops { IfOk result (λ ls. ls ≡ depths.loops (procedure_seen procedure.now)) }
{
    let start = procedure.start;
    let mut loops = Vec::new(alloc);
    loops.resize(end.saturating_sub(start), 0)?;
    let mut at = start;
    let items = &procedure.items;
    for item in items {
        let next = behind(at, item)?;
        let place = leads_by_condition(&procedure.entries, item);
        add_loop(&mut loops, start, at, next, place);
        at = next;
    }
    Ok(Depths { start, list: loops })
}

/// Appends `depth` to `depths`, `count` times.
fn push_depth(depths: &mut Vec<usize>, count: usize, depth: usize) -> Result<(), AllocError>
    ensures depths { OnOk result (depths.new.items ≡ depths.old.items ++ replicate count depth) }
{
    let Some(size) = depths.len().checked_add(count) else {
        return Err(AllocError);
    };
    depths.resize(size, depth)?;
    Ok(())
}

/// Returns the nesting depth of each byte of the code of `procedure`.
#[tactic(auto, unfolding(crate::specs::Depths::depths))]
fn list_of(alloc: Global, procedure: &Procedure, end: usize) -> Result<Vec<usize>, AllocError>
    requires end { end ≡ code_end (procedure_seen procedure.now) }
    ensures depths { IfOk result (λ ds. ds.items ≡ depths.depths (procedure_seen procedure.now)) }
{
    let loops = loops_of(alloc, procedure, end)?;
    let mut depths = Vec::with_capacity(alloc, end.saturating_sub(procedure.start))?;
    let mut ends = Vec::new(alloc);
    let mut forward = None;
    let mut at = procedure.start;
    let items = &procedure.items;
    for item in items {
        close_ended(&mut ends, at);
        open_span(&mut ends, at, forward)?;
        open_span(&mut ends, at, Some(loops.at_place(at)))?;
        let next = behind(at, item)?;
        push_depth(&mut depths, next.saturating_sub(at), ends.len())?;
        forward = leads_to(&procedure.entries, item);
        at = next;
    }
    Ok(depths)
}

/// Returns the nesting depths of the code of `procedure` if `wanted` is true. Otherwise returns an empty list of
/// depths.
pub(crate) fn depths_if(
    alloc: Global,
    wanted: bool,
    procedure: &Procedure,
    end: usize,
) -> Result<Depths, AllocError>
    requires end { end ≡ code_end (procedure_seen procedure.now) }
    ensures depths { IfOk result (λ ds. ds ≡ bodies.depths_if wanted (procedure_seen procedure.now)) }
{
    let list = if wanted {
        list_of(alloc, procedure, end)?
    } else {
        Vec::new(alloc)
    };
    Ok(Depths {
        start: procedure.start,
        list,
    })
}
