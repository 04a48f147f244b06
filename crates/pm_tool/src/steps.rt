//! Executes the steps of a run and writes their output. Each time that the machine waits, it gets the next byte of the
//! input.
ghost use Rattle.std.specs.Prelude.{◌≡◌, false, true, [], ◌++◌, drop, length, IfOk, IfErr, OnOk, OnErr};
ghost use Rattle.std.specs.Io.KnownBytes.{Appends};
ghost use Rattle.pm_machine.specs.Steps.{stepped};
ghost use Rattle.pm_tool.specs.Run.{ComesToEnd, StopsShort, Unshown, is_console, shown_by};
ghost use Rattle.pm_jobs.specs.Streams.{AppendsBut, AppendsFront, IsCause, IsCounted, AreWell, both};

use crate::pace::Pace;
use pm_jobs::{Fault, Saving, Selection, Sink, Source, next_byte, write_all};
use pm_machine::{Machine, Stop};
use pm_session::Ending;
use pm_trace::Lines;
use std::alloc::{AllocError, Global};

/// The output of a run.
#[derive(Clone, Copy)]
pub enum Show {
    /// The trace: a line for each selected step, and a last line with the reason for the end.
    Trace(Selection),
    /// The bytes that the program writes to the console. `saving` selects the images that are saved.
    Console { saving: Saving },
}

/// Executes one step and returns how it ended. It tries `pace` first, and calls `step` of the machine if `pace`
/// executed nothing.
fn next_step<P: Pace>(machine: &mut Machine, pace: &mut P) -> Result<Stop, AllocError>
    ensures next { IfOk result (λ stop. stepped machine.old.state ≡ (machine.new.state, stop)) }
{
    if pace.quick_steps(machine, 1) == 1 {
        return Ok(Stop::Went);
    }
    let stop = machine.step()?;
    Ok(stop)
}

/// Executes one step. If `wanted` selects the step and the step does not wait, its trace line is appended to `page`.
#[inline(never)]
fn traced_step<P: Pace>(
    machine: &mut Machine,
    wanted: Selection,
    lines: &mut Lines,
    page: &mut Vec<u8>,
    pace: &mut P,
) -> Result<Stop, AllocError>
    ensures next { IfOk result (λ stop. stepped machine.old.state ≡ (machine.new.state, stop)) }
    ensures page { IfOk result (λ stop. page.new.items
        ≡ page.old.items ++ shown_by (Show.Trace wanted) machine.old.state machine.new.state stop) }
{
    let start = page.len();
    lines.add(page, machine, wanted)?;
    let stop = next_step(machine, pace)?;
    if matches!(stop, Stop::Waiting) {
        page.truncate(start);
    }
    Ok(stop)
}

/// Executes one step. Unless the step waits, the bytes that it writes to the console are appended to `page`.
fn console_step(machine: &mut Machine, page: &mut Vec<u8>) -> Result<Stop, AllocError>
    ensures next { IfOk result (λ stop. stepped machine.old.state ≡ (machine.new.state, stop)) }
    ensures page { IfOk result (λ stop. page.new.items
        ≡ page.old.items ++ shown_by (Show.Console Saving.Nothing) machine.old.state machine.new.state stop) }
{
    let before = machine.console().len();
    let stop = machine.step()?;
    let console = machine.console();
    if console.len() > before && !matches!(stop, Stop::Waiting) {
        page.extend_from_slice(&console[before..])?;
    }
    Ok(stop)
}

/// Executes one step. Its output, as selected by `show`, is appended to `page`.
fn step<P: Pace>(
    machine: &mut Machine,
    show: Show,
    lines: &mut Lines,
    page: &mut Vec<u8>,
    pace: &mut P,
) -> Result<Stop, AllocError>
    ensures next { IfOk result (λ stop. stepped machine.old.state ≡ (machine.new.state, stop)) }
    ensures page { IfOk result (λ stop. page.new.items
        ≡ page.old.items ++ shown_by show machine.old.state machine.new.state stop) }
{
    match show {
        Show::Trace(wanted) => traced_step(machine, wanted, lines, page, pace),
        Show::Console { .. } => console_step(machine, page),
    }
}

/// Executes at most `limit` steps that have no output. Returns the number of executed steps, which can be 0.
fn unshown_steps<P: Pace>(machine: &mut Machine, show: Show, limit: u64, pace: &mut P) -> u64
    ensures unshown { Unshown show limit machine.old.state result machine.new.state }
{
    match show {
        Show::Trace(_) => 0,
        Show::Console { .. } => pace.quick_steps(machine, limit),
    }
}

/// The number of bytes at which the page of a trace is full. A page is a buffer of output that is not yet written.
const PAGE: usize = 65_536;

/// Writes all bytes of `page` to `sink` and clears `page`.
fn write_page<W: Sink>(sink: &mut W, page: &mut Vec<u8>) -> Result<(), Fault>
    requires well { (W.seen sink.old).failed ≡ false }
    ensures written { OnOk result (Appends (W.seen sink.old).contents (W.seen sink.new).contents page.old.items) }
    ensures cleared { OnOk result (page.new.items ≡ []) }
    ensures well { OnOk result ((W.seen sink.new).failed ≡ false) }
    ensures front { OnErr result (AppendsFront (W.seen sink.old).contents (W.seen sink.new).contents page.old.items) }
    ensures cause { IfErr result (λ fault. IsCause fault false (W.seen sink.new).failed []) }
{
    write_all(sink, page)?;
    page.clear();
    Ok(())
}

/// Writes `page` to `sink` and clears it, if it must be written now. The page of a trace is written when it is full.
/// Console bytes are written after each step that adds some.
fn turn_page<W: Sink>(sink: &mut W, page: &mut Vec<u8>, show: Show) -> Result<(), Fault>
    requires well { (W.seen sink.old).failed ≡ false }
    ensures written { OnOk result (AppendsBut (W.seen sink.old).contents
        (W.seen sink.new).contents page.new.items page.old.items) }
    ensures at_once { is_console show ≡ true → OnOk result (page.new.items ≡ []) }
    ensures well { OnOk result ((W.seen sink.new).failed ≡ false) }
    ensures front { OnErr result (AppendsFront (W.seen sink.old).contents (W.seen sink.new).contents page.old.items) }
    ensures cause { IfErr result (λ fault. IsCause fault false (W.seen sink.new).failed []) }
{
    let full = match show {
        Show::Trace(_) => PAGE,
        Show::Console { .. } => 1,
    };
    if page.len() >= full {
        write_page(sink, page)?;
    }
    Ok(())
}

/// Executes at most `limit` steps and writes their output, except the bytes that are still in the page. Returns how the
/// run ended, and this page. Each time that the machine waits, the page is written and the machine gets the next byte
/// of `source`.
///
/// In a trace, `pace` executes all steps, one at a time. In a run, `pace` executes steps that write nothing to the
/// console, any number at a time, but not the first step.
///
/// Neither stream may have failed before. If a stream fails or memory runs out, a prefix of the output of the steps was
/// written.
pub fn drive<R: Source, W: Sink, P: Pace>(
    alloc: Global,
    source: &mut R,
    sink: &mut W,
    machine: &mut Machine,
    show: Show,
    limit: u64,
    pace: &mut P,
) -> Result<(Ending, Vec<u8>), Fault>
    requires well { AreWell (both (R.seen source.old) (W.seen sink.old)) }
    ensures over { IfOk result (λ r. ComesToEnd (both (R.seen source.old) (W.seen sink.old))
        (both (R.seen source.new) (W.seen sink.new)) r.1.items show limit machine.old.state r.0 machine.new.state) }
    ensures well { OnOk result (AreWell (both (R.seen source.new) (W.seen sink.new))) }
    ensures broken { IfErr result (λ fault. StopsShort (both (R.seen source.old) (W.seen sink.old))
        (both (R.seen source.new) (W.seen sink.new)) show limit machine.old.state fault) }
    ensures counts { IsCounted (R.seen source.old) (R.seen source.new) result }
{
    let mut lines = Lines::new(alloc);
    let mut page = Vec::new(alloc);
    let (mut went, mut taken) = (0, 0);
    'steps: while went < limit {
        match step(machine, show, &mut lines, &mut page, pace)? {
            Stop::Went => {
                went += 1;
                turn_page(sink, &mut page, show)?;
                went += unshown_steps(machine, show, limit - went, pace);
            }
            Stop::Ended => return Ok((Ending::Ended, page)),
            Stop::Halted(error) => return Ok((Ending::Error(error), page)),
            Stop::Waiting => {
                write_page(sink, &mut page)?;
                let Some(byte) = next_byte(source, &mut taken)? else {
                    return Ok((Ending::Waiting, page));
                };
                machine.key(byte)?;
            }
        }
    }
    Ok((Ending::Limit, page))
}
