//! Lines of a scene that print a part of a machine's state, here called views.
use pm_machine::Machine;
use std::alloc::{AllocError, Global};
use std::io;
use test_parts::{byte, hex_text, number, unreadable, word};

/// Returns numbers with spaces between them.
fn numbers(alloc: Global, numbers: &[u16]) -> Result<String, AllocError> {
    let mut text = String::new(alloc);
    for number in numbers {
        if !text.is_empty() {
            text.push(' ')?;
        }
        let more = format!(in alloc; "{number}")?;
        text.push_str(more.as_str())?;
    }
    Ok(text)
}

/// Returns the number of words in a text.
fn count(text: &str) -> usize {
    if text.is_empty() {
        return 0;
    }
    text.split(' ').count()
}

/// Returns the first of the registers IPC, SP, MP, BASE, NP and IORESULT. Their number is the number of words in
/// `rest`.
fn registers(alloc: Global, machine: &Machine, rest: &str) -> io::Result<String> {
    let r = machine.registers();
    let all = [r.ipc, r.sp, r.mp, r.base, r.np, r.ioresult];
    let some = all.get(..count(rest)).ok_or_else(unreadable)?;
    Ok(numbers(alloc, some)?)
}

/// Returns `count` words of memory from the address `address` on.
fn words(
    alloc: Global,
    machine: &Machine,
    address: u16,
    count: usize,
) -> Result<Vec<u16>, AllocError> {
    let mut words = Vec::new(alloc);
    let mut place = address;
    for _ in 0..count {
        if let Some(word) = machine.memory().word(place) {
            words.push(word)?;
        }
        place = place.wrapping_add(2);
    }
    Ok(words)
}

/// Returns words of memory from an address on. `rest` is `A W ..`, and states their number.
fn words_at(alloc: Global, machine: &Machine, rest: &str) -> io::Result<String> {
    let (address, asked) = rest.split_once(' ').ok_or_else(unreadable)?;
    let there = words(alloc, machine, word(address)?, count(asked))?;
    let text = numbers(alloc, &there)?;
    Ok(format!(in alloc; "{address} {text}")?)
}

/// Returns bytes of memory from an address on. `rest` is `A HEX`, and states their number.
fn bytes_at(alloc: Global, machine: &Machine, rest: &str) -> io::Result<String> {
    let (address, asked) = rest.split_once(' ').ok_or_else(unreadable)?;
    let begin = number(address)?;
    let end = begin.saturating_add(count(asked));
    let there = machine
        .memory()
        .bytes()
        .get(begin..end)
        .ok_or_else(unreadable)?;
    let text = hex_text(alloc, there)?;
    Ok(format!(in alloc; "{address} {text}")?)
}

/// Returns the address of the segment of a slot, the number of its calls, and the number of its keeps. `rest` is `N A
/// CALLS KEEPS`, or `N none`.
fn place(alloc: Global, machine: &Machine, rest: &str) -> io::Result<String> {
    let (slot, _) = rest.split_once(' ').ok_or_else(unreadable)?;
    let n = byte(slot)?;
    match (machine.place(n), machine.keeps(n)) {
        (Some((address, calls)), Some(keeps)) => {
            Ok(format!(in alloc; "{slot} {address} {calls} {keeps}")?)
        }
        (None, Some(0)) => Ok(format!(in alloc; "{slot} none")?),
        (None, None) => Ok(format!(in alloc; "{slot} no slot")?),
        _ => Ok(format!(in alloc; "{slot} none and yet kept")?),
    }
}

/// Returns the contents of a view, without its first word.
fn shown(alloc: Global, machine: &Machine, word: &str, rest: &str) -> io::Result<String> {
    let r = machine.registers();
    let one = match word {
        "sp" => r.sp,
        "mp" => r.mp,
        "np" => r.np,
        "io" => r.ioresult,
        _ => return many(alloc, machine, word, rest),
    };
    Ok(numbers(alloc, &[one])?)
}

/// Returns the contents of a view that is not a single register.
fn many(alloc: Global, machine: &Machine, word: &str, rest: &str) -> io::Result<String> {
    let r = machine.registers();
    match word {
        "regs" => registers(alloc, machine, rest),
        "stack" => Ok(numbers(alloc, &words(alloc, machine, r.sp, count(rest))?)?),
        "word" => words_at(alloc, machine, rest),
        "bytes" => bytes_at(alloc, machine, rest),
        "console" => Ok(hex_text(alloc, machine.console())?),
        "printer" => Ok(hex_text(alloc, machine.printer())?),
        "made" => {
            let steps = machine.steps();
            Ok(format!(in alloc; "{steps}")?)
        }
        "place" => place(alloc, machine, rest),
        _ => Err(unreadable()),
    }
}

/// Returns a view of the machine, with its first word.
pub fn view(alloc: Global, machine: &Machine, word: &str, rest: &str) -> io::Result<String> {
    let text = shown(alloc, machine, word, rest)?;
    let mut line = String::from_str(alloc, word)?;
    if !text.is_empty() {
        line.push(' ')?;
        line.push_str(text.as_str())?;
    }
    Ok(line)
}
