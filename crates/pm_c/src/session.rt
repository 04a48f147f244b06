//! A session of the debugger on the machine of a handle. A call executes the command of one line and stores its answer.
//! Other calls set breakpoints and watched words, or execute a run.
ghost use Rattle.std.specs.Prelude.{◌≡◌, ◌≢◌, None, OnOk, string_bytes};
ghost use Rattle.pm_machine.specs.CodePlaces.{code_place};
ghost use Rattle.pm_debug.specs.Refusals.{or_refused};
ghost use Rattle.pm_debug.specs.Views.{local};
ghost use Rattle.pm_c.specs.Changes.{ChangesDebugger, Fills, Leads, Looks};
ghost use Rattle.pm_c.specs.Sessions.{Commands, Finds, Goes, GoesOn, LeadsOrEnds, SetsBreaks, SetsWatches};
ghost use Rattle.pm_c.specs.Sessions.{breaks_after, changed_at, go_code, set_code, watches_after};

use crate::buffer::give;
use crate::handle::{Handle, taken};
use crate::held::Held;
use crate::status::{AT_BREAK, CHANGED, DONE, ENDED, NO_MACHINE, NO_MEMORY, WAITING};
use pm_debug::{BreakReason, DebugRefusal, Debugger};
use pm_session::answer;
use std::alloc::{AllocError, Global};

// Executes the command in `line` with the debugger of `held`, and stores the answer in `held`.
fn do_line(alloc: Global, held: &mut Held, line: &[u8]) -> Result<(), AllocError>
    ensures answers { OnOk result (Commands line.now DONE held.old held.new) }
{
    held.answer = match answer(alloc, &mut held.debugger, line)? {
        Some(text) => text,
        None => String::new(alloc),
    };
    Ok(())
}

/// Executes the command in `line`, which is a line of the debugger without its line feed. Returns 0 if the call
/// succeeded. Then `pmach_answer` returns the answer until the next line is executed. The answer to `quit` is empty,
/// and `quit` does not change the session.
///
/// - 8: the handle is empty.
/// - 5: out of memory. The state of the machine would be unknown. So the machine is freed, and the handle is empty.
#[unsafe(no_mangle)]
pub extern "C" fn pmach_command(alloc: Global, handle: &mut Handle, line: &[u8]) -> u32
    ensures answers { LeadsOrEnds result handle.old.held handle.new.held (Commands line.now result) }
{
    let Some(held) = taken(alloc, handle) else {
        return NO_MACHINE;
    };
    let mut held = held;
    match do_line(alloc, &mut held, line) {
        Ok(()) => {
            *handle = Handle::of(held);
            DONE
        }
        Err(_) => NO_MEMORY,
    }
}

/// Copies the answer to the last line to `out`, as the program writes it, with its line feed. After the command
/// `console on`, the answer begins with the line of the console bytes. Returns 0 if the call succeeded.
///
/// Otherwise nothing is written to the buffer:
///
/// - 8: the handle is empty.
/// - 7: the buffer is too short.
#[unsafe(no_mangle)]
pub extern "C" fn pmach_answer(
    alloc: Global,
    handle: &mut Handle,
    out: &mut [u8],
    needed: &mut usize,
) -> u32
    ensures looks { Leads result handle.old.held handle.new.held (Looks (λ m.
        Fills (string_bytes m.answer) result out.old out.new needed.new)) }
    ensures same { handle.old.held ≡ None → out.new ≡ out.old }
{
    let Some(held) = taken(alloc, handle) else {
        return NO_MACHINE;
    };
    let code = give(held.answer.as_bytes(), out, needed);
    *handle = Handle::of(held);
    code
}

// Returns the status of a call that sets or clears a breakpoint or a watched word.
fn set_code(outcome: Result<(), DebugRefusal>) -> u32
    ensures value { result ≡ set_code outcome }
{
    match outcome {
        Ok(()) => DONE,
        Err(refusal) => 500 + u32::from(refusal.number()),
    }
}

/// Sets a breakpoint without a condition if `on` is true, and clears it if `on` is false. The position is the number of
/// a segment, the number of a procedure, and the offset in bytes from the entry of the procedure. All runs of the
/// session, such as the command `go N`, stop at the breakpoint. Returns 0 if the call succeeded.
///
/// Otherwise nothing has changed:
///
/// - 8: the handle is empty.
/// - 501: 64 breakpoints are already set.
/// - 502: `on` is false and no such breakpoint is set.
#[unsafe(no_mangle)]
pub extern "C" fn pmach_break(
    alloc: Global,
    handle: &mut Handle,
    segment: u8,
    procedure: u8,
    offset: u16,
    on: bool,
) -> u32
    ensures sets { Leads result handle.old.held handle.new.held (ChangesDebugger (λ d e.
        SetsBreaks (breaks_after on (code_place segment procedure offset) d.breaks) result d e)) }
{
    let Some(held) = taken(alloc, handle) else {
        return NO_MACHINE;
    };
    let mut held = held;
    let outcome = if on {
        held.debugger.set_break(segment, procedure, offset, None)
    } else {
        held.debugger.clear_break(segment, procedure, offset)
    };
    *handle = Handle::of(held);
    set_code(outcome)
}

/// Watches the word at `address` if `on` is true, and stops watching it if `on` is false. The address must be even. A
/// run of the session stops if a watched word has changed. Returns 0 if the call succeeded.
///
/// Otherwise nothing has changed:
///
/// - 8: the handle is empty.
/// - 503: the address is odd and `on` is true.
/// - 501: 64 words are already watched.
/// - 502: the word is not watched and `on` is false.
#[unsafe(no_mangle)]
pub extern "C" fn pmach_watch(alloc: Global, handle: &mut Handle, address: u16, on: bool) -> u32
    ensures sets { Leads result handle.old.held handle.new.held (ChangesDebugger (λ d e.
        SetsWatches (watches_after on address d.watches) result d e)) }
{
    let Some(held) = taken(alloc, handle) else {
        return NO_MACHINE;
    };
    let mut held = held;
    let outcome = if on {
        held.debugger.set_watch(address)
    } else {
        held.debugger.clear_watch(address)
    };
    *handle = Handle::of(held);
    set_code(outcome)
}

// Returns the status of a run that ended for `reason`. If a watched word has changed, sets `address` to its address.
fn reason_code(reason: BreakReason, address: &mut u16) -> u32
    ensures says { result ≡ go_code reason }
    ensures word { address.new ≡ changed_at reason address.old }
    ensures other { result ≢ NO_MEMORY }
{
    match reason {
        BreakReason::Limit | BreakReason::There => DONE,
        BreakReason::Waiting => WAITING,
        BreakReason::Ended => ENDED,
        BreakReason::Break => AT_BREAK,
        BreakReason::Changed(at) => {
            *address = at;
            CHANGED
        }
        BreakReason::Halted(error) => 100 + u32::from(error.number()),
    }
}

fn go_code(debugger: &mut Debugger, limit: u64, steps: &mut u64, address: &mut u16) -> u32
    ensures goes { Goes limit steps.new result address.old address.new debugger.old debugger.new }
{
    let Ok((count, reason)) = debugger.go(limit) else {
        *steps = 0;
        return NO_MEMORY;
    };
    *steps = count;
    reason_code(reason, address)
}

/// Executes at most `limit` steps, as the command `go` of a session does without `ignore`. Sets `steps` to the number
/// of counted steps. Returns one of these statuses:
///
/// - 0: the limit is reached.
/// - 1, 2, or 100 plus the number of an execution error, as for `pmach_step`.
/// - 15: a breakpoint stopped the run.
/// - 16: a watched word has changed. `address` is set to the address of this word. With any other status, `address` is
///   unchanged.
/// - 5: out of memory. The machine is in the state after the steps that succeeded, and `steps` is 0.
/// - 8: the handle is empty. `steps` is unchanged.
#[unsafe(no_mangle)]
pub extern "C" fn pmach_go(
    alloc: Global,
    handle: &mut Handle,
    limit: u64,
    steps: &mut u64,
    address: &mut u16,
) -> u32
    ensures goes { Leads result handle.old.held handle.new.held (ChangesDebugger
        (Goes limit steps.new result address.old address.new)) }
    ensures same { handle.old.held ≡ None → (steps.new ≡ steps.old) × (address.new ≡ address.old) }
{
    let Some(held) = taken(alloc, handle) else {
        return NO_MACHINE;
    };
    let mut held = held;
    let code = go_code(&mut held.debugger, limit, steps, address);
    *handle = Handle::of(held);
    code
}

fn on_code(debugger: &mut Debugger, limit: u64, steps: &mut u64, address: &mut u16) -> u32
    ensures goes { GoesOn limit steps.old steps.new result address.old address.new debugger.old debugger.new }
{
    match debugger.go_on(limit) {
        Ok((count, reason)) => {
            *steps = count;
            reason_code(reason, address)
        }
        Err(DebugRefusal::NoMemory) => {
            *steps = 0;
            NO_MEMORY
        }
        Err(refusal) => set_code(Err(refusal)),
    }
}

/// Continues the last run of the session, which its limit stopped, for at most `limit` more steps. The run may be that
/// of a call of `pmach_go` or `pmach_on`, or of a line of the session. The result is as if the limit had not stopped
/// the run: breakpoints are checked before the first of the new steps too, and watched words are compared with their
/// values when the whole run began. Sets `steps` to the number of counted steps of the whole run. Returns the statuses
/// of `pmach_go`, or:
///
/// - 506: the limit did not stop the last run, or a word was watched or no longer watched since. Nothing has changed.
#[unsafe(no_mangle)]
pub extern "C" fn pmach_on(
    alloc: Global,
    handle: &mut Handle,
    limit: u64,
    steps: &mut u64,
    address: &mut u16,
) -> u32
    ensures goes { Leads result handle.old.held handle.new.held (ChangesDebugger
        (GoesOn limit steps.old steps.new result address.old address.new)) }
    ensures same { handle.old.held ≡ None → (steps.new ≡ steps.old) × (address.new ≡ address.old) }
{
    let Some(held) = taken(alloc, handle) else {
        return NO_MACHINE;
    };
    let mut held = held;
    let code = on_code(&mut held.debugger, limit, steps, address);
    *handle = Handle::of(held);
    code
}

fn find(debugger: &mut Debugger, depth: u16, number: u16, word: &mut u16) -> u32
    ensures finds { Finds (or_refused (local debugger.old.machine.state depth number)) result word.old word.new }
    ensures same { debugger.new ≡ debugger.old }
{
    match debugger.local(depth, number) {
        Ok(found) => {
            *word = found;
            DONE
        }
        Err(reason) => set_code(Err(reason)),
    }
}

/// Sets `word` to the value of the variable `number` of the procedure that is `depth` static links up, as the command
/// `local` shows it. The running procedure has depth 0. Returns 0 if the call succeeded.
///
/// Otherwise `word` is unchanged:
///
/// - 8: the handle is empty.
/// - 505: `depth` is above 127.
/// - 503: a static link or the variable is at an odd address.
#[unsafe(no_mangle)]
pub extern "C" fn pmach_variable(
    alloc: Global,
    handle: &mut Handle,
    depth: u16,
    number: u16,
    word: &mut u16,
) -> u32
    ensures looks { Leads result handle.old.held handle.new.held (Looks (λ m.
        Finds (or_refused (local m.debugger.machine.state depth number)) result word.old word.new)) }
    ensures same { handle.old.held ≡ None → word.new ≡ word.old }
{
    let Some(held) = taken(alloc, handle) else {
        return NO_MACHINE;
    };
    let mut held = held;
    let code = find(&mut held.debugger, depth, number, word);
    *handle = Handle::of(held);
    code
}
