//! Behavior that no job shows, so that no case can test it.
ghost use Rattle.std.specs.Prelude.{◌≡◌, ◌++◌, ◌∷◌, [], OnOk};

use pm_codefile::CodeFile;
use pm_machine::{Machine, Status};
use pm_words::ExecError;
use std::alloc::{AllocError, Global};
use std::io;

/// Raw p-code: XIT, which ends the program, and a division by 0, which halts the machine.
const ENDS: &[u8] = &[0xd6];

const HALTS: &[u8] = &[0x00, 0x86];

/// Appends `byte` to the console input queue of `machine`, which can have any status. Nothing else of the state
/// changes.
fn key_waits(machine: &mut Machine, byte: u8) -> Result<(), AllocError>
    ensures waits { OnOk result (machine.new.state ≡ record machine.old.state {
      devices =
          record machine.old.state.devices { queue = machine.old.state.devices.queue ++ byte ∷ [] };
    }) }
{
    machine.key(byte)
}

/// Returns the status of a machine with the raw p-code `code` after at most two steps and a key.
fn status_with_key(alloc: Global, code: &[u8]) -> io::Result<Option<Status>> {
    let Ok(mut machine) = Machine::raw(alloc, code) else {
        return Ok(None);
    };
    machine.run(2)?;
    key_waits(&mut machine, b'A')?;
    Ok(Some(machine.status()))
}

/// Returns the kind of slot 1 of a code file with empty slots, whose byte 194 is 5. The kinds are words from offset 192
/// on.
fn kind_of_slot(alloc: Global) -> io::Result<Option<u16>> {
    let mut file = vec![in alloc; 0; 512]?;
    file[194] = 5;
    let Ok(file) = CodeFile::read(&file) else {
        return Ok(None);
    };
    Ok(file.slot(1).map(|slot| slot.kind))
}

/// Returns test rows for behavior that no job shows: a key to a machine that has ended or halted; the number of the
/// error of code that cannot be loaded from its disk, because the disk was removed; and the kind of a slot.
pub fn rows(alloc: Global) -> io::Result<String> {
    let ended = status_with_key(alloc, ENDS)?;
    let halted = status_with_key(alloc, HALTS)?;
    let error = ExecError::SystemIo.number();
    let mut text = format!(in alloc;
        "a key waits: {ended:?}, {halted:?}\nno disk to load from: error {error}\n"
    )?;
    let kind = kind_of_slot(alloc)?;
    write!(text, "kind of a slot: {kind:?}")?;
    Ok(text)
}
