//! Runs of a machine that stop at a breakpoint, at a watched word that has changed, at a depth of calls, or at a
//! position in the code.

ghost use Rattle.std.specs.Prelude.{◌≡◌, ◌+◌, ◌-◌, ◌≤◌, List, IfOk, OnErr};
ghost use Rattle.pm_machine.specs.Runs.{GaveUp};
ghost use Rattle.pm_debug.specs.Passes.{gone_past};
ghost use Rattle.pm_debug.specs.Runs.{behind_steps, gone_from, has_ended, is_there, later, reason_of, stopped_so};
ghost use Rattle.pm_debug.specs.Runs.{left_seen, left_so, stops_at};
ghost use Rattle.pm_debug.specs.declared.watches.WatchedWord.{WatchedWord};
ghost use Rattle.pm_debug.specs.Watches.{has_changed};

use crate::breaks::{Breakpoint, is_at_break, stands_at};
use crate::reason::BreakReason;
use crate::watches::{WatchedWord, first_changed};
use pm_machine::{CodePlace, Machine, RunEnd, Status, Stop, StopTest};
use std::alloc::AllocError;

/// The destination of a run: a depth of calls or a position in the code.
#[derive(Clone, Copy)]
pub(crate) enum Depth {
    /// No destination: the run ends at its limit or for another reason.
    Any,
    /// Runs until the machine is in the frame at this address again, or in a frame at a higher address.
    Back(u16),
    /// Runs until the frame at this address is left.
    Left(u16),
    /// Runs until the machine is at this position in the code.
    Place(CodePlace),
}

/// The outcome of the last run.
#[derive(Clone, Copy)]
pub(crate) enum LastRun {
    /// The run cannot be continued.
    Over,
    /// The limit of the run stopped it. The fields are its destination and the number of steps executed.
    AtLimit(Depth, u64),
    /// A breakpoint stopped the run. The fields are its destination and the number of steps executed.
    AtBreak(Depth, u64),
}

/// Whether `machine` is at the destination `depth` of a run.
fn is_there(machine: &Machine, depth: Depth) -> bool
    ensures there { result ≡ is_there depth machine.now.state }
{
    let mp = machine.registers().mp;
    match depth {
        Depth::Any => false,
        Depth::Back(frame) => frame <= mp,
        Depth::Left(frame) => frame < mp,
        Depth::Place(place) => stands_at(machine, place),
    }
}

/// What can stop a run before a step: its destination, a watched word that has changed, or a breakpoint.
#[derive(Clone, Copy)]
struct Stops<'a> {
    watched: &'a [WatchedWord],
    breaks: &'a [Breakpoint],
    depth: Depth,
    /// The number of steps that the run executed before it was continued.
    made: u64,
}

impl StopTest for Stops<'_> {
    ghost use Rattle.pm_debug.specs.Passes.{gone_past};
    ghost use Rattle.pm_debug.specs.Runs.{behind_steps, is_there, later, stops_at};

    ghost stops = { λ t. behind_steps t.made (later (stops_at t.watched.now t.breaks.now (is_there t.depth))) };

    fn stops(&self, count: u64, machine: &Machine) -> bool {
        (self.made != 0 || count != 0)
            && (is_there(machine, self.depth)
                || has_changed(self.watched, machine)
                || is_at_break(machine, self.breaks))
    }

    fn never_stops(&self) -> bool {
        self.watched.is_empty() && self.breaks.is_empty() && matches!(self.depth, Depth::Any)
    }
}

fn has_changed(watched: &[WatchedWord], machine: &Machine) -> bool
    ensures changed { result ≡ has_changed watched.now machine.now.state.memory }
{
    first_changed(watched, machine.memory()).is_some()
}

pub(crate) fn has_ended(status: Status) -> bool
    ensures ended { result ≡ has_ended status }
{
    matches!(status, Status::Ended)
}

/// Returns the reason why a run stops before the next step of `machine`. If a watched word has changed, the reason is
/// this word. Otherwise the reason is a breakpoint if one stops the run, and else the destination.
fn stopped_so(watched: &[WatchedWord], breaks: &[Breakpoint], machine: &Machine) -> BreakReason
    ensures reason { result ≡ stopped_so watched.now breaks.now machine.now.state }
{
    match first_changed(watched, machine.memory()) {
        Some(address) => BreakReason::Changed(address),
        None if is_at_break(machine, breaks) => BreakReason::Break,
        None => BreakReason::There,
    }
}

/// Returns the reason why a run has ended. `end` is how the run of the machine ended.
fn reason_of(
    watched: &[WatchedWord],
    breaks: &[Breakpoint],
    machine: &Machine,
    end: RunEnd,
) -> BreakReason
    ensures reason { result ≡ reason_of watched.now breaks.now end machine.now.state }
{
    match end {
        RunEnd::Limit | RunEnd::Answered(Stop::Went) => BreakReason::Limit,
        RunEnd::Stopped => stopped_so(watched, breaks, machine),
        RunEnd::Answered(Stop::Waiting) => BreakReason::Waiting,
        RunEnd::Answered(Stop::Ended) => BreakReason::Ended,
        RunEnd::Answered(Stop::Halted(error)) => BreakReason::Halted(error),
    }
}

/// Returns the outcome of a run with the destination `depth`. `ran` is its number of steps and the reason of its end.
/// The run can be continued if its limit or a breakpoint stopped it.
pub(crate) fn last_run(depth: Depth, ran: (u64, BreakReason)) -> LastRun
    ensures left { (watched : List WatchedWord) → left_seen result watched ≡ left_so depth watched ran.0 ran.1 }
{
    match ran {
        (steps, BreakReason::Limit) => LastRun::AtLimit(depth, steps),
        (steps, BreakReason::Break) => LastRun::AtBreak(depth, steps),
        _ => LastRun::Over,
    }
}

/// Executes at most `limit` more steps of a run that has executed `made` steps. The run stops earlier if a watched word
/// has changed since the run began, at a breakpoint, or at its destination. The returned number is the number of steps
/// of the whole run.
pub(crate) fn run(
    machine: &mut Machine,
    breaks: &[Breakpoint],
    watched: &[WatchedWord],
    depth: Depth,
    made: u64,
    limit: u64,
) -> Result<(u64, BreakReason), AllocError>
    requires counts { made + limit ≤ 18446744073709551615 }
    ensures gone { IfOk result (λ r. gone_from breaks.now watched.now (is_there depth) made limit machine.old.state
        ≡ record { steps = r.0; reason = r.1; machine = machine.new.state }) }
    ensures within { IfOk result (λ r. r.0 ≤ made + limit) }
    ensures err { OnErr result (GaveUp
        (behind_steps made (later (stops_at watched.now breaks.now (is_there depth))))
        limit machine.old machine.new) }
{
    let test = Stops {
        watched,
        breaks,
        depth,
        made,
    };
    let (steps, end) = machine.run_until(limit, &test)?;
    Ok((made + steps, reason_of(watched, breaks, machine, end)))
}

/// Passes over the breakpoint at which a run of `made` steps stopped. Executes the rest of the run, up to `most` steps
/// of the whole run. If the machine is at the destination, no step is executed.
#[tactic(auto, using(crate::proofs::OnLaws::gave_up_first))]
pub(crate) fn run_past(
    machine: &mut Machine,
    breaks: &[Breakpoint],
    watched: &[WatchedWord],
    depth: Depth,
    made: u64,
    most: u64,
) -> Result<(u64, BreakReason), AllocError>
    ensures gone { IfOk result (λ r. gone_past breaks.now watched.now depth made most machine.old.state
        ≡ record { steps = r.0; reason = r.1; machine = machine.new.state }) }
    ensures err { OnErr result (GaveUp (later (stops_at watched.now breaks.now (is_there depth)))
        (most - made) machine.old machine.new) }
{
    if is_there(machine, depth) {
        return Ok((made, BreakReason::There));
    }
    let rest = most.saturating_sub(made);
    let (steps, reason) = run(machine, breaks, watched, depth, 0, rest)?;
    Ok((made + steps, reason))
}
