//! Actions on a machine, as lines of a scene spell them.
use crate::scene::{asked, mount_blank, with_refusal};
use crate::spelled::words;
use pm_machine::{Machine, Stop};
use std::alloc::{AllocError, Global};
use std::io;
use test_parts::{byte, hex_bytes, steps, unreadable, word};

/// The maximum number of steps of a run that does not state its limit.
const STEPS: u64 = 1_000_000;

/// Returns the text of the result of a step.
pub fn outcome(alloc: Global, stop: Stop) -> Result<String, AllocError> {
    match stop {
        Stop::Went => String::from_str(alloc, "went"),
        Stop::Waiting => String::from_str(alloc, "waiting"),
        Stop::Ended => String::from_str(alloc, "ended"),
        Stop::Halted(error) => {
            let number = error.number();
            format!(in alloc; "error {number}")
        }
    }
}

/// Executes one step. If it waits or fails, the state must be unchanged.
fn step(alloc: Global, machine: &mut Machine) -> io::Result<String> {
    let (registers, steps) = (machine.registers(), machine.steps());
    let (console, printer) = (machine.console().len(), machine.printer().len());
    let memory = machine.memory().bytes().to_vec(alloc)?;
    let stop = machine.step()?;
    let stays = machine.registers() == registers
        && machine.steps() == steps
        && machine.console().len() == console
        && machine.printer().len() == printer
        && machine.memory().bytes() == memory.as_slice();
    let mut text = outcome(alloc, stop)?;
    if !stays && matches!(stop, Stop::Waiting | Stop::Halted(_)) {
        text.push_str(" and changes something")?;
    }
    Ok(format!(in alloc; "step {text}")?)
}

/// Runs the machine. `rest` is `COUNT OUTCOME`. If the outcome is `went`, the count is the limit.
fn run(alloc: Global, machine: &mut Machine, rest: &str) -> io::Result<String> {
    let (count, wanted) = rest.split_once(' ').ok_or_else(unreadable)?;
    let limit = match wanted {
        "went" => u64::from(steps(count)?),
        _ => STEPS,
    };
    let (made, stop) = machine.run(limit)?;
    let text = outcome(alloc, stop)?;
    Ok(format!(in alloc; "run {made} {text}")?)
}

/// Writes words from an address on. `rest` is `A W ..`. Returns whether all words were written.
fn poke(alloc: Global, machine: &mut Machine, rest: &str) -> io::Result<bool> {
    let (address, text) = rest.split_once(' ').ok_or_else(unreadable)?;
    let mut address = word(address)?;
    let mut all = true;
    for word in words(alloc, text)?.iter() {
        all = machine.poke(address, *word) && all;
        address = address.wrapping_add(2);
    }
    Ok(all)
}

/// Mounts a disk without files. `rest` is `UNIT BLOCKS`.
fn disk(alloc: Global, machine: &mut Machine, line: &str, rest: &str) -> io::Result<String> {
    let (unit, blocks) = asked(rest).split_once(' ').ok_or_else(unreadable)?;
    let refusal = mount_blank(alloc, machine, byte(unit)?, word(blocks)?)?;
    with_refusal(alloc, asked(line), refusal)
}

/// Removes a disk. `rest` is `UNIT BLOCKS`, or `UNIT none`.
fn eject(alloc: Global, machine: &mut Machine, rest: &str) -> io::Result<String> {
    let (unit, _) = rest.split_once(' ').ok_or_else(unreadable)?;
    match machine.eject(byte(unit)?) {
        Some(disk) => {
            let blocks = disk.blocks();
            Ok(format!(in alloc; "eject {unit} {blocks}")?)
        }
        None => Ok(format!(in alloc; "eject {unit} none")?),
    }
}

/// Appends bytes to the console input queue.
fn keys(alloc: Global, machine: &mut Machine, line: &str, rest: &str) -> io::Result<String> {
    for byte in hex_bytes(alloc, rest)?.iter() {
        machine.key(*byte)?;
    }
    Ok(String::from_str(alloc, line)?)
}

/// Writes words, and returns the line. The line ends with `refused` if a word was not written.
fn pokes(alloc: Global, machine: &mut Machine, line: &str, rest: &str) -> io::Result<String> {
    let all = poke(alloc, machine, asked(rest))?;
    let mut answer = String::from_str(alloc, asked(line))?;
    if !all {
        answer.push_str(" refused")?;
    }
    Ok(answer)
}

/// Returns whether a line with the first word `word` is an action on a machine. Any other line prints a part of the
/// state.
pub fn is_event(word: &str) -> bool {
    matches!(word, "step" | "run" | "disk" | "eject" | "key" | "poke")
}

/// Executes the action of a line and returns the line with the actual result.
pub fn on_machine(alloc: Global, machine: &mut Machine, line: &str) -> io::Result<String> {
    let (word, rest) = line.split_once(' ').unwrap_or((line, ""));
    match word {
        "step" => step(alloc, machine),
        "run" => run(alloc, machine, rest),
        "disk" => disk(alloc, machine, line, rest),
        "eject" => eject(alloc, machine, rest),
        "key" => keys(alloc, machine, line, rest),
        _ => pokes(alloc, machine, line, rest),
    }
}
