//! A machine in the state before a test row. Only public calls lead to this state: pokes and six steps.
use crate::scene::mount_blank;
use crate::sides::Side;
use pm_machine::{Machine, Stop};
use std::alloc::Global;
use std::io;
use test_parts::unreadable;

/// RNP 0, executed in the frame of the system. The dynamic link and the IPC of this frame are overwritten before.
const RETURN: &[u8] = &[0xAD, 0x00];

/// The address of the code `RETURN`.
const RETURNS: u16 = 1024;

/// The address of the second frame. The word below it is BASE.
const FRAME: u16 = 5000;

/// The address of the word that RELEASE loads into NP.
const MARKED: u16 = 5100;

/// The address of the code to which the first return leads.
const CODE: u16 = 1000;

/// Returns the first word of an LDCI of a unit for which UNITCLEAR sets IORESULT to `ioresult`. The unit is 1, 0 or 3.
fn load_unit(ioresult: u16) -> io::Result<u16> {
    match ioresult {
        0 => Ok(0x01C7),
        2 => Ok(0x00C7),
        9 => Ok(0x03C7),
        _ => Err(unreadable()),
    }
}

/// Writes the frames and the code: UNITCLEAR of a unit, RELEASE, and RBP 0.
fn put_code(machine: &mut Machine, side: &Side) -> io::Result<()> {
    let r = &side.registers;
    let load = load_unit(r.ioresult)?;
    let words = [
        (65494, FRAME),
        (65500, CODE),
        (FRAME - 2, r.base),
        (FRAME + 2, r.mp),
        (FRAME + 4, r.jtab),
        (FRAME + 6, r.seg),
        (FRAME + 8, r.ipc),
        (FRAME + 10, r.sp),
        (MARKED, r.np),
        (CODE, load),
        (CODE + 2, 0x9E00),
        (CODE + 4, 0xC726),
        (CODE + 6, MARKED),
        (CODE + 8, 0x219E),
        (CODE + 10, 0x00C1),
    ];
    for (address, word) in words {
        machine.poke(address, word);
    }
    Ok(())
}

/// The ranges of words that are overwritten before the test row: the frames, the code, and words below the end of the
/// stack.
const WRITTEN: [(u16, u16); 4] = [(CODE, 6), (RETURNS, 1), (FRAME - 2, 52), (65492, 6)];

/// Sets the memory to the memory of the test row. Words that the row does not write are zero.
fn put_memory(machine: &mut Machine, side: &Side) {
    for (first, count) in WRITTEN {
        for n in 0..count {
            machine.poke(first.wrapping_add(2 * n), 0);
        }
    }
    for address in side.written.iter() {
        machine.poke(*address, side.memory.word(*address).unwrap_or(0));
    }
}

/// Leads the new machine `machine` to the state `side`.
fn put_state(alloc: Global, machine: &mut Machine, side: &Side) -> io::Result<()> {
    put_code(machine, side)?;
    if machine.run(6)? != (6, Stop::Went) || machine.registers() != side.registers {
        return Err(unreadable());
    }
    put_memory(machine, side);
    for byte in side.keys.iter() {
        machine.key(*byte)?;
    }
    for (unit, blocks) in side.disks.iter() {
        mount_blank(alloc, machine, *unit, *blocks)?;
    }
    Ok(())
}

/// Returns the machine in the state before a test row.
pub fn machine(alloc: Global, side: &Side) -> io::Result<Machine> {
    let mut machine = Machine::raw(alloc, RETURN).map_err(|_| unreadable())?;
    put_state(alloc, &mut machine, side)?;
    Ok(machine)
}
