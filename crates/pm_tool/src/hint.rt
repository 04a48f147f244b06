//! Hints for a program that does not start.
ghost use Rattle.std.specs.Prelude.{◌≡◌, IfSome, true};
ghost use Rattle.pm_codefile.specs.Dictionary.{segment_in};
ghost use Rattle.pm_tool.specs.Hints.{has_number};

use pm_codefile::{CodeFault, CodeFile};
use pm_machine::BootFault;
use pm_volume::Volume;
use std::alloc::Global;
use std::fmt;

/// A hint for a program that does not start.
#[derive(Drop)]
pub enum Hint {
    /// No file has the name of the program. But a file exists with this name, which is the program's name with `.CODE`
    /// appended.
    Named(String),
    /// The file of the program is a code file, but its slot 1 is empty.
    NoFirst {
        /// The first slot with a segment of number 1, if such a slot exists.
        first: Option<u8>,
        /// Whether slot 0 has a segment.
        has_system: bool,
    },
    /// The file of the program is no code file. This is the fault that was found.
    NoCode(CodeFault),
}

impl fmt::Display for Hint {
    fn fmt<W: fmt::Write>(&self, f: &mut fmt::Formatter<W>) -> fmt::Result {
        match self {
            Hint::Named(name) => write!(f, "{name} exists"),
            Hint::NoFirst {
                first: Some(slot),
                ..
            } => write!(
                f,
                "slot 1 is empty, and slot {slot} has the segment with number 1; examples/renumber.sh moves it"
            ),
            Hint::NoFirst {
                first: None,
                has_system: true,
            } => f.write_str(
                "slot 1 is empty, and no slot has a segment with number 1; slot 0 has one, as in a file for --system",
            ),
            Hint::NoFirst {
                first: None,
                has_system: false,
            } => f.write_str("slot 1 is empty, and no slot has a segment with number 1"),
            Hint::NoCode(fault) => write!(f, "{fault}"),
        }
    }
}

/// Returns whether slot `slot` of `file` has a segment with number `number`. The number of a segment is the low byte of
/// its highest word.
fn has_number(file: &CodeFile<'_>, slot: u8, number: u8) -> bool
    ensures value { result ≡ has_number number (segment_in file.now slot) }
{
    match file.segment(slot) {
        Some(code) if code.len() >= 2 => code[code.len() - 2] == number,
        _ => false,
    }
}

/// Returns the first slot of `file` that has a segment with number `number`, or None if no slot has one.
fn slot_of(file: &CodeFile<'_>, number: u8) -> Option<u8>
    ensures has { IfSome result (λ slot. has_number number (segment_in file.now slot) ≡ true) }
{
    for slot in 0..16 {
        if has_number(file, slot, number) {
            return Some(slot);
        }
    }
    None
}

/// Returns a hint about the file `name` of `volume`: the contents of its slots, or its fault if it is no code file.
/// Returns None if `volume` has no such file.
fn hint_of_code(volume: &Volume, name: &str) -> Option<Hint> {
    let entry = volume.find(name)?;
    match CodeFile::read(volume.file(&entry)?) {
        Ok(file) => Some(Hint::NoFirst {
            first: slot_of(&file, 1),
            has_system: file.segment(0).is_some(),
        }),
        Err(fault) => Some(Hint::NoCode(fault)),
    }
}

/// Returns the hint `name` with `.CODE` appended. Returns None if `volume` has no such file, if `name` has control
/// characters, or if memory is refused.
fn hint_of_name(alloc: Global, volume: &Volume, name: &str) -> Option<Hint> {
    let longer = format!(in alloc; "{name}.CODE").ok()?;
    volume.find(longer.as_str())?;
    if name.chars().any(char::is_control) {
        return None;
    }
    Some(Hint::Named(longer))
}

/// Returns a hint for the program `name` on `volume`, which does not start because of `fault`. Returns None if no hint
/// exists.
pub(crate) fn hint_for(
    alloc: Global,
    volume: &Option<Volume>,
    name: &str,
    fault: BootFault,
) -> Option<Hint> {
    let volume = volume.as_ref()?;
    match fault {
        BootFault::NoFile => hint_of_name(alloc, volume, name),
        BootFault::BadCode => hint_of_code(volume, name),
        _ => None,
    }
}
