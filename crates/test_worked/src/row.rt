//! Test rows of one instruction: `MNEMONIC HEX | STACK ; MORE | STACK ; MORE`. The first word of a stack is its top.
use crate::events::outcome;
use crate::sides::Side;
use crate::start::machine;
use pm_machine::Machine;
use pm_opcode::row_at;
use pm_words::Memory;
use std::alloc::{AllocError, Global};
use std::io;
use test_parts::{hex_bytes, hex_text, unreadable};

/// The maximum number of stack words that are printed.
const WORDS: u16 = 8;

/// The end of the stack.
const STACK_END: u16 = 65504;

/// Appends the words from SP on to `text`.
fn add_stack(alloc: Global, machine: &Machine, text: &mut String) -> Result<(), AllocError> {
    let sp = machine.registers().sp;
    for place in 0..WORDS {
        let address = sp.saturating_add(2 * place);
        if address < STACK_END
            && let Some(word) = machine.memory().word(address)
        {
            let more = format!(in alloc; " {word}")?;
            text.push_str(more.as_str())?;
        }
    }
    Ok(())
}

/// Appends the first byte that differs in the memories `there` and `wanted` to `text`.
fn add_byte(
    alloc: Global,
    there: &Memory,
    wanted: &Memory,
    text: &mut String,
) -> Result<(), AllocError> {
    for (address, (byte, other)) in there.bytes().iter().zip(wanted.bytes()).enumerate() {
        if *byte != *other {
            let more = format!(in alloc; "; byte {address} is {byte:02X}, expected {other:02X}")?;
            return text.push_str(more.as_str());
        }
    }
    Ok(())
}

/// Appends the output `there` to `text` if it is not the expected output `wanted`.
fn add_output(
    alloc: Global,
    what: &str,
    there: &[u8],
    wanted: &[u8],
    text: &mut String,
) -> Result<(), AllocError> {
    if there != wanted {
        text.push_str(what)?;
        text.push_str(hex_text(alloc, there)?.as_str())?;
    }
    Ok(())
}

/// Returns the actual result: the outcome, the stack, and the differences.
fn told(
    alloc: Global,
    machine: &Machine,
    outcome: &str,
    wanted: &Side,
) -> Result<String, AllocError> {
    let mut text = String::from_str(alloc, outcome)?;
    add_stack(alloc, machine, &mut text)?;
    let (there, other) = (machine.registers(), wanted.registers);
    if there != other {
        let more = format!(in alloc; "; {there:?}, expected {other:?}")?;
        text.push_str(more.as_str())?;
    }
    add_byte(alloc, machine.memory(), &wanted.memory, &mut text)?;
    add_output(
        alloc,
        "; console ",
        machine.console(),
        &wanted.console,
        &mut text,
    )?;
    add_output(
        alloc,
        "; printer ",
        machine.printer(),
        &wanted.printer,
        &mut text,
    )?;
    Ok(text)
}

/// Returns whether the state of the machine is the expected state.
fn agrees(machine: &Machine, wanted: &Side) -> bool {
    machine.registers() == wanted.registers
        && machine.memory().bytes() == wanted.memory.bytes()
        && machine.console() == wanted.console.as_slice()
        && machine.printer() == wanted.printer.as_slice()
}

/// Returns the bytes of an instruction. The mnemonic before them must be that of the table; `-` means that there is no
/// mnemonic.
fn code(alloc: Global, text: &str) -> io::Result<Vec<u8>> {
    let (name, digits) = text.split_once(' ').ok_or_else(unreadable)?;
    let code = hex_bytes(alloc, digits)?;
    let first = code.first().copied().ok_or_else(unreadable)?;
    let mnemonic = row_at(first).mnemonic;
    if name == mnemonic || name == "-" && mnemonic.is_empty() {
        Ok(code)
    } else {
        Err(unreadable())
    }
}

/// Returns the actual result if the test row does not agree, and `None` otherwise.
pub fn differing(alloc: Global, line: &str) -> io::Result<Option<String>> {
    let (instruction, sides) = line.split_once('|').ok_or_else(unreadable)?;
    let (before, after) = sides.split_once('|').ok_or_else(unreadable)?;
    let code = code(alloc, instruction.trim())?;
    if code.len() > 65535 {
        return Err(unreadable());
    }
    let given = Side::given(alloc, &code, before)?;
    let wanted = Side::wanted(alloc, &given, code.len() as u16, after)?;
    let mut machine = machine(alloc, &given)?;
    let came = outcome(alloc, machine.step()?)?;
    if came.as_str() == wanted.outcome.as_str() && agrees(&machine, &wanted) {
        return Ok(None);
    }
    Ok(Some(told(alloc, &machine, came.as_str(), &wanted)?))
}
