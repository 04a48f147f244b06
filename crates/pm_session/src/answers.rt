//! The answers of the debugger to a line.
ghost use Rattle.std.specs.Prelude.{◌≡◌, ◌++◌, ◌∷◌, [], drop, false, true, IfOk, IfNone, IfSome, OnOk};
ghost use Rattle.std.specs.Prelude.{option_map, string_bytes, codes, if◌then◌else◌};
ghost use Rattle.pm_debug.specs.Passes.{all_passed};
ghost use Rattle.pm_debug.specs.Session.{session_of};
ghost use Rattle.pm_calls.specs.Places.{keeps_of, placed};
ghost use Rattle.pm_words.specs.Stack.{is_even};
ghost use Rattle.pm_machine.specs.Events.{Key, Poke, next};
ghost use Rattle.pm_session.specs.Answers.{after_command, session_after, command_text, done_text};
ghost use Rattle.pm_debug.specs.Runs.{gone_on};
ghost use Rattle.pm_session.specs.Answers.{after_on, after_passing, gone_text, answer_text, on_text, passing_on};
ghost use Rattle.pm_session.specs.Answers.{place_text, ran_to, registers_text, word_text};
ghost use Rattle.pm_session.specs.Orders.{order_of};
ghost use Rattle.pm_session.specs.Sessions.{answer_line, console_line, is_quit};
ghost use Rattle.pm_session.specs.Texts.{refused_text};

use crate::commands::{Command, command_of};
use crate::ending::{Ending, LastLine};
use crate::texts::{chain, numbers, refused};
use crate::typed::{keys, typed};
use crate::views::shown;
use pm_code::Quoted;
use pm_debug::{BreakReason, DebugRefusal, Debugger};
use pm_machine::{Machine, Registers};
use pm_trace::trace_line;
use std::alloc::{AllocError, Global};

/// Returns the answer to a command that shows nothing: `ok` if `outcome` is a success, else its refusal.
fn done(alloc: Global, outcome: Result<(), DebugRefusal>) -> Result<String, AllocError>
    ensures text { IfOk result (λ text. string_bytes text ≡ done_text outcome) }
{
    match outcome {
        Ok(()) => format!(in alloc; "ok"),
        Err(refusal) => refused(alloc, refusal),
    }
}

/// Returns the answer that shows `word`, or its refusal.
fn word(alloc: Global, word: Result<u16, DebugRefusal>) -> Result<String, AllocError>
    ensures text { IfOk result (λ text. string_bytes text ≡ word_text word) }
{
    match word {
        Ok(word) => format!(in alloc; "{word}"),
        Err(refusal) => refused(alloc, refusal),
    }
}

/// Returns the answer that shows the reason of the end of a run and its number of steps.
fn gone(alloc: Global, gone: (u64, BreakReason)) -> Result<String, AllocError>
    ensures text { IfOk result (λ text. string_bytes text ≡ gone_text gone.1 gone.0) }
{
    let (steps, reason) = gone;
    let ending = match reason {
        BreakReason::Changed(address) => return format!(in alloc; "changed {steps} {address}"),
        BreakReason::Break => return format!(in alloc; "break {steps}"),
        BreakReason::There => return format!(in alloc; "stop {steps}"),
        BreakReason::Limit => Ending::Limit,
        BreakReason::Waiting => Ending::Waiting,
        BreakReason::Ended => Ending::Ended,
        BreakReason::Halted(error) => Ending::Error(error),
    };
    let last = LastLine { ending, steps };
    format!(in alloc; "{last}")
}

/// Continues the run whose outcome is `first`. While a breakpoint stops the run and a pass remains, the run passes over
/// this breakpoint. The whole run has at most `most` steps. Returns its number of steps and the reason of its end.
#[tactic(auto, using(crate::proofs::SessionLaws::pass_more, crate::proofs::SessionLaws::pass_over))]
fn pass(
    debugger: &mut Debugger,
    first: (u64, BreakReason),
    most: u64,
) -> Result<(u64, BreakReason), AllocError>
    ensures passed { IfOk result (λ r. all_passed debugger.old.breaks most debugger.old.passes debugger.old.left
        (ran_to first.0 first.1 debugger.old.machine.state) ≡ record {
          run = ran_to r.0 r.1 debugger.new.machine.state;
          left = debugger.new.left;
          passes = debugger.new.passes;
        }) }
    ensures breaks { debugger.new.breaks ≡ debugger.old.breaks }
    ensures watches { debugger.new.watches ≡ debugger.old.watches }
    ensures shows { debugger.new.shows_console ≡ debugger.old.shows_console }
{
    let mut ran = first;
    'passes: while let Some(next) = debugger.pass(most)? {
        ran = next;
    }
    Ok(ran)
}

/// Continues the run whose outcome is `ran` over breakpoints, as `pass` does, up to `limit` steps. Returns the answer
/// that shows the reason of its end and its number of steps.
fn told(
    alloc: Global,
    ran: (u64, BreakReason),
    limit: u32,
    debugger: &mut Debugger,
) -> Result<String, AllocError>
    ensures text { IfOk result (λ text.
        let p = all_passed debugger.old.breaks limit debugger.old.passes debugger.old.left
        (ran_to ran.0 ran.1 debugger.old.machine.state) in
        string_bytes text ≡ gone_text p.run.reason p.run.steps) }
    ensures session { OnOk result ((session_of debugger.new) ≡ after_passing (session_of debugger.old)
        (all_passed debugger.old.breaks limit debugger.old.passes debugger.old.left
        (ran_to ran.0 ran.1 debugger.old.machine.state))) }
{
    let ran = pass(debugger, ran, u64::from(limit))?;
    gone(alloc, ran)
}

/// Returns the answer for segment `n`: its address, the number of its calls, and how many times the program keeps it
/// loaded. The answer is `none` if the segment is not in memory.
fn place(alloc: Global, machine: &Machine, n: u8) -> Result<String, AllocError>
    ensures text { IfOk result (λ text. string_bytes text
        ≡ place_text (placed machine.now.state.places n) (keeps_of machine.now.state.places n)) }
{
    match (machine.place(n), machine.keeps(n)) {
        (Some((at, count)), Some(keeps)) => numbers(alloc, &[at, count, keeps]),
        _ => format!(in alloc; "none"),
    }
}

/// Returns the answer that shows the registers, each after its name.
#[tactic(auto, unfolding(crate::specs::Answers::registers_text))]
fn registers(alloc: Global, registers: Registers) -> Result<String, AllocError>
    ensures text { IfOk result (λ text. string_bytes text ≡ registers_text registers) }
{
    let Registers {
        sp,
        ipc,
        seg,
        jtab,
        mp,
        base,
        np,
        ioresult,
    } = registers;
    format!(in alloc;
        "IPC {ipc} SP {sp} SEG {seg} JTAB {jtab} MP {mp} BASE {base} NP {np} IO {ioresult}"
    )
}

/// Writes `word` at the even address `address` of the memory. If the address is odd, returns `OddAddress` and writes
/// nothing.
fn poke(debugger: &mut Debugger, address: u16, word: u16) -> Result<(), DebugRefusal>
    ensures text { done_text result ≡ (if is_even address then codes "ok" else refused_text DebugRefusal.OddAddress) }
    ensures session { (session_of debugger.new) ≡ record
        (session_of debugger.old) { machine = next debugger.old.machine.state (Poke address word) } }
{
    if debugger.machine().poke(address, word) {
        Ok(())
    } else {
        Err(DebugRefusal::OddAddress)
    }
}

/// Appends `byte` to the console input queue.
fn key(debugger: &mut Debugger, byte: u8) -> Result<(), AllocError>
    ensures session { OnOk result ((session_of debugger.new)
        ≡ record (session_of debugger.old) { machine = next debugger.old.machine.state (Key byte) }) }
{
    debugger.machine().key(byte)?;
    Ok(())
}

/// Continues the last run for at most `limit` steps. Returns the answer that shows the reason of its end, or the
/// refusal if no run can be continued.
fn go_on(alloc: Global, debugger: &mut Debugger, limit: u32) -> Result<String, AllocError>
    ensures text { IfOk result (λ text. string_bytes text
        ≡ on_text (passing_on (session_of debugger.old) limit
        (gone_on debugger.old.breaks debugger.old.left limit debugger.old.machine.state))) }
    ensures session { OnOk result ((session_of debugger.new) ≡ after_on (session_of debugger.old)
        (passing_on (session_of debugger.old) limit
        (gone_on debugger.old.breaks debugger.old.left limit debugger.old.machine.state))) }
{
    let made = debugger.made();
    let more = u64::from(limit).min(u64::MAX - made);
    match debugger.go_on(u64::from(limit)) {
        Ok(ran) => gone(alloc, pass(debugger, ran, made + more)?),
        Err(DebugRefusal::NoMemory) => Err(AllocError),
        Err(refusal) => refused(alloc, refusal),
    }
}

/// Executes `command`. Returns the answer without a line feed, or `None` for `quit`.
#[tactic(auto, unfolding(crate::specs::Answers::command_text, crate::specs::Answers::after_command))]
fn do_command(
    alloc: Global,
    debugger: &mut Debugger,
    command: Command,
) -> Result<Option<String>, AllocError>
    ensures text { IfOk result (λ text.
        option_map string_bytes text ≡ command_text command (session_of debugger.old)) }
    ensures session { OnOk result ((session_of debugger.new) ≡ after_command command (session_of debugger.old)) }
{
    let text = match command {
        Command::Break(s, p, o, condition) => done(alloc, debugger.set_break(s, p, o, condition)),
        Command::Clear(s, p, o) => done(alloc, debugger.clear_break(s, p, o)),
        Command::BreakOn(spot, condition) => done(alloc, debugger.set_break_on(spot, condition)),
        Command::ClearOn(spot) => done(alloc, debugger.clear_break_on(spot)),
        Command::Watch(address) => done(alloc, debugger.set_watch(address)),
        Command::Unwatch(address) => done(alloc, debugger.clear_watch(address)),
        Command::Poke(address, word) => done(alloc, poke(debugger, address, word)),
        Command::Key(byte) => done(alloc, Ok(key(debugger, byte)?)),
        Command::ShowConsole(shows) => done(alloc, Ok(debugger.set_shows_console(shows))),
        Command::Go(n) => told(alloc, debugger.go(u64::from(n))?, n, debugger),
        Command::Step(n) => told(alloc, debugger.step_over(u64::from(n))?, n, debugger),
        Command::Finish(n) => told(alloc, debugger.finish(u64::from(n))?, n, debugger),
        Command::Until(s, p, o, n) => {
            told(alloc, debugger.until(s, p, o, u64::from(n))?, n, debugger)
        }
        Command::On(limit) => go_on(alloc, debugger, limit),
        Command::Ignore(passes) => done(alloc, Ok(debugger.set_passes(passes))),
        Command::Stack(n) => numbers(alloc, &debugger.stack(alloc, n)?),
        Command::Static(limit) => chain(alloc, debugger.static_chain(alloc, limit)),
        Command::Dynamic(limit) => chain(alloc, debugger.dynamic_chain(alloc, limit)),
        Command::Local(depth, b) => word(alloc, debugger.local(depth, b)),
        Command::Registers => registers(alloc, debugger.machine().registers()),
        Command::Place(n) => place(alloc, debugger.as_machine(), n),
        Command::Trace => trace_line(alloc, debugger.as_machine()),
        Command::Show(view) => shown(alloc, debugger, view),
        Command::Quit => return Ok(None),
    };
    Ok(Some(text?))
}

/// Executes the command in `line`. Returns the answer without a line feed, or `None` for `quit`. The answer to an
/// invalid line is `?`.
fn answer_to(
    alloc: Global,
    debugger: &mut Debugger,
    line: &[u8],
) -> Result<Option<String>, AllocError>
    ensures text { IfOk result (λ text.
        option_map string_bytes text ≡ answer_text (order_of line.now) (session_of debugger.old)) }
    ensures session { OnOk result ((session_of debugger.new)
        ≡ session_after (order_of line.now) (session_of debugger.old)) }
{
    if let Some(bytes) = typed(alloc, line)? {
        keys(debugger, &bytes)?;
        return Ok(Some(format!(in alloc; "ok")?));
    }
    match command_of(line) {
        Some(command) => do_command(alloc, debugger, command),
        None => Ok(Some(format!(in alloc; "?")?)),
    }
}

/// Returns a line that shows the bytes of `console` after the first `before`. The line is empty if `wanted` is false or
/// if no such bytes exist.
fn console_line(
    alloc: Global,
    wanted: bool,
    console: &[u8],
    before: usize,
) -> Result<String, AllocError>
    ensures text { IfOk result (λ text. string_bytes text
        ≡ (if wanted then console_line (drop before console.now) else [])) }
{
    match console.get(before..) {
        Some(added) if wanted && !added.is_empty() => {
            format!(in alloc; "console {}\n", Quoted(added))
        }
        _ => Ok(String::new(alloc)),
    }
}

/// Executes the command in `line`, which is given without its line feed. Returns the answer with a line feed, or `None`
/// for `quit`. After `console on`, a line with the bytes that the command wrote to the console precedes the answer.
///
/// After `AllocError` the command may have been executed.
#[tactic(auto, using(crate::proofs::SessionLaws::unanswered))]
pub fn answer(
    alloc: Global,
    debugger: &mut Debugger,
    line: &[u8],
) -> Result<Option<String>, AllocError>
    ensures quit { IfOk result (λ text. IfNone text (is_quit (order_of line.now) ≡ true)) }
    ensures going { IfOk result (λ text. IfSome text (λ text. is_quit (order_of line.now) ≡ false)) }
    ensures text { IfOk result (λ text. IfSome text
        (λ text. string_bytes text ≡ answer_line (order_of line.now) (session_of debugger.old))) }
    ensures session { OnOk result ((session_of debugger.new)
        ≡ session_after (order_of line.now) (session_of debugger.old)) }
{
    let wanted = debugger.shows_console();
    let before = debugger.as_machine().console().len();
    let Some(text) = answer_to(alloc, debugger, line)? else {
        return Ok(None);
    };
    let console = debugger.as_machine().console();
    let console = console_line(alloc, wanted, console, before)?;
    Ok(Some(format!(in alloc; "{console}{text}\n")?))
}
