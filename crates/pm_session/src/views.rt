//! The answers of the commands that show the memory, the code, the breakpoints, the watched words, the frames, the
//! console and the commands.
ghost use Rattle.std.specs.Prelude.{◌≡◌, ◌<◌, ◌++◌, IfOk, OnOk, Option, Some, List, codes, map, string_bytes};
ghost use Rattle.pm_debug.specs.Session.{session_of};
ghost use Rattle.pm_debug.specs.Views.{ShowsChain};
ghost use Rattle.pm_debug.specs.declared.frames.Frame.{Frame};
ghost use Rattle.pm_session.specs.Texts.{parts_text};
ghost use Rattle.pm_session.specs.Views.{breaks_text, bytes_text, frames_text, list_text, offset_at};
ghost use Rattle.pm_session.specs.Views.{pair_text, passes_text, shown_character, view_text, where_text};

use crate::commands::View;
use crate::spelled::{BreakText, FrameText, Pair, Point};
use crate::texts::{chain, numbers, refused};
use pm_code::Quoted;
use pm_debug::{Breakpoint, DebugRefusal, Debugger, Frame};
use pm_disasm::Line;
use pm_machine::{CodePlace, Machine};
use std::alloc::{AllocError, Global};

/// The text of all commands.
const HELP: &str = concat!(
    "break S P O, clear S P O, poke A W, key B, go N, stack N, static N, dynamic N, local D B, regs, place N, trace, ",
    "peek A N, bytes A N, where, breaks, frames N, list N, console N, step [N], finish [N], until S P O [N], on N, ",
    "ignore K, watch A, unwatch A, watches, reads A N, writes A N, help, quit, console on, console off, ",
    "type \"TEXT\", break S P O if A = W, reads A N if B = W, writes A N if B = W, clear reads A N, clear writes A N",
);

/// Returns `breaks` as text, with a comma and a space between two breakpoints.
fn breaks(alloc: Global, breaks: &[Breakpoint]) -> Result<String, AllocError>
    ensures text { IfOk result (λ text. string_bytes text ≡ breaks_text breaks.now) }
{
    let Some((first, rest)) = breaks.split_first() else {
        return Ok(String::new(alloc));
    };
    let mut text = format!(in alloc; "{}", BreakText(*first))?;
    for known in rest {
        write!(text, ", {}", BreakText(*known))?;
    }
    Ok(text)
}

/// Returns the breakpoints `known` as text. If `passes` is not 0, this number follows. It is the number of breakpoints
/// that runs may still pass over.
fn breaks_and_passes(alloc: Global, known: &[Breakpoint], passes: u32) -> Result<String, AllocError>
    ensures text { IfOk result (λ text. string_bytes text ≡ breaks_text known.now ++ passes_text known.now passes) }
{
    let mut text = breaks(alloc, known)?;
    if passes != 0 {
        let comma = if known.is_empty() { "" } else { ", " };
        write!(text, "{comma}ignore {passes}")?;
    }
    Ok(text)
}

/// Returns as text the position `place` of the machine and its next instruction.
fn standing(
    alloc: Global,
    place: Option<CodePlace>,
    machine: &Machine,
) -> Result<String, AllocError>
    ensures text { IfOk result (λ text. string_bytes text ≡ where_text place machine.now.state) }
{
    let Some(place) = place else {
        return refused(alloc, DebugRefusal::OddAddress);
    };
    let line = Line::new(machine.memory(), machine.registers().ipc);
    format!(in alloc; "{} {line}", Point(place))
}

/// Returns `frames` as text, with a comma and a space between two frames.
fn frame_list(alloc: Global, frames: &[Frame]) -> Result<String, AllocError>
    ensures text { IfOk result (λ text. string_bytes text ≡ frames_text (Some frames.now)) }
{
    let Some((first, rest)) = frames.split_first() else {
        return Ok(String::new(alloc));
    };
    let mut text = format!(in alloc; "{}", FrameText(*first))?;
    for frame in rest {
        write!(text, ", {}", FrameText(*frame))?;
    }
    Ok(text)
}

/// Returns `frames` as text, or the answer for its refusal.
fn frames(alloc: Global, frames: Result<Vec<Frame>, DebugRefusal>) -> Result<String, AllocError>
    ensures text { IfOk result (λ text. (chain : Option (List Frame)) → ShowsChain (λ v. v.items) frames chain
        → string_bytes text ≡ frames_text chain) }
{
    match frames {
        Ok(frames) => frame_list(alloc, &frames),
        Err(DebugRefusal::NoMemory) => Err(AllocError),
        Err(refusal) => refused(alloc, refusal),
    }
}

/// Returns the offset of `address` from the entry of the running procedure, in bytes. `place` is the position at IPC.
fn offset_at(place: CodePlace, machine: &Machine, address: u16) -> u16
    ensures offset { result ≡ offset_at place machine.now.state address }
{
    let behind = address.wrapping_sub(machine.registers().ipc);
    place.offset.wrapping_add(behind)
}

/// Returns the instructions at `addresses` as text, each after its offset. `place` is the position at IPC.
fn list(
    alloc: Global,
    place: Option<CodePlace>,
    machine: &Machine,
    addresses: &[u16],
) -> Result<String, AllocError>
    ensures text { IfOk result (λ text. string_bytes text ≡ list_text place machine.now.state addresses.now) }
{
    let Some(place) = place else {
        return refused(alloc, DebugRefusal::OddAddress);
    };
    let Some((first, rest)) = addresses.split_first() else {
        return Ok(String::new(alloc));
    };
    let offset = offset_at(place, machine, *first);
    let mut text = format!(in alloc; "{offset} {}", Line::new(machine.memory(), *first))?;
    for address in rest {
        let offset = offset_at(place, machine, *address);
        write!(text, "; {offset} {}", Line::new(machine.memory(), *address))?;
    }
    Ok(text)
}

/// Returns `bytes` as pairs of hexadecimal digits, with single spaces between them.
fn pairs(alloc: Global, bytes: &[u8]) -> Result<String, AllocError>
    ensures text { IfOk result (λ text. string_bytes text ≡ parts_text (codes " ") pair_text bytes.now) }
{
    let Some((first, rest)) = bytes.split_first() else {
        return Ok(String::new(alloc));
    };
    let mut text = format!(in alloc; "{}", Pair(*first))?;
    for byte in rest {
        write!(text, " {}", Pair(*byte))?;
    }
    Ok(text)
}

fn shown_character(byte: u8) -> u8
    ensures shown { result ≡ shown_character byte }
    ensures ascii { result < 128 }
{
    if byte >= 32 && byte <= 126 {
        byte
    } else {
        b'.'
    }
}

/// Appends each of `bytes` to `text` as a character, or as a full stop if it is not printable.
fn push_characters(text: &mut String, bytes: &[u8]) -> Result<(), AllocError>
    ensures text { OnOk result (string_bytes text.new ≡ string_bytes text.old ++ map shown_character bytes.now) }
{
    for byte in bytes {
        text.push(char::from(shown_character(*byte)))?;
    }
    Ok(())
}

/// Returns `bytes` as pairs of hexadecimal digits, and then as characters.
fn bytes(alloc: Global, bytes: &[u8]) -> Result<String, AllocError>
    ensures text { IfOk result (λ text. string_bytes text ≡ bytes_text bytes.now) }
{
    if bytes.is_empty() {
        return Ok(String::new(alloc));
    }
    let mut text = pairs(alloc, bytes)?;
    text.push_str("  ")?;
    push_characters(&mut text, bytes)?;
    Ok(text)
}

/// Returns the answer to a command that shows `view`.
#[tactic(auto, unfolding(crate::specs::Views::view_text, crate::specs::Views::help_text, crate::specs::Commands::command_rows, crate::specs::Commands::setting_rows))]
pub(crate) fn shown(alloc: Global, debugger: &Debugger, view: View) -> Result<String, AllocError>
    ensures text { IfOk result (λ text. string_bytes text ≡ view_text view (session_of debugger.now)) }
{
    let machine = debugger.as_machine();
    match view {
        View::Peek(address, n) => chain(alloc, debugger.words(alloc, address, n)),
        View::Bytes(address, n) => bytes(alloc, debugger.bytes(address, n)),
        View::Where => standing(alloc, debugger.place_in_code(), machine),
        View::Breaks => breaks_and_passes(alloc, debugger.breaks(), debugger.passes()),
        View::Watches => numbers(alloc, debugger.watches()),
        View::Frames(limit) => frames(alloc, debugger.frames(alloc, limit)),
        View::Ahead(n) => {
            let addresses = debugger.addresses_ahead(alloc, n)?;
            list(alloc, debugger.place_in_code(), machine, &addresses)
        }
        View::Console(n) => format!(in alloc; "{}", Quoted(debugger.console(n))),
        View::Help => format!(in alloc; "{HELP}"),
    }
}
