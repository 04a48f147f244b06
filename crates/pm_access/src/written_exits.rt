//! What EXIT writes: in each frame that it leaves, the saved IPC, the address at which the caller continues.

ghost use Rattle.std.specs.Prelude.{◌≡◌, ◌≤◌, IfOk};
ghost use Rattle.pm_calls.specs.Exits.{last_frame};
ghost use Rattle.pm_machine.specs.Procedures.{parts};
ghost use Rattle.pm_machine.specs.Written.{exit_written, ips_written, left_by_exit, wanted_at};
ghost use Rattle.pm_access.specs.Writing.{meets};

use crate::stretches::{Bytes, meets, word_at, word_in};
use pm_calls::{Wanted, is_wanted, meet};
use pm_machine::Machine;
use pm_words::{ExecError, Memory};

// The maximum number of frames of a chain of dynamic links. A longer chain contains a cycle.
const MOST_FRAMES: u16 = 32_768;

/// Returns the procedure that an EXIT requests. The procedure number is on the top of the stack, and the segment number
/// is below it.
pub(crate) fn wanted_at(memory: &Memory, sp: u16) -> Wanted
    ensures wanted { result ≡ wanted_at memory.now.words sp }
{
    let top = usize::from(sp);
    Wanted {
        segment: word_in(memory, top + 2),
        procedure: word_in(memory, top),
    }
}

// Returns the number of dynamic links from the frame at `mp` to the first frame whose caller is the requested procedure
// `wanted`. Returns `NoProcedure` if none of 32,768 frames is such a frame.
fn last_frame(memory: &Memory, wanted: Wanted, mp: u16) -> Result<u16, ExecError>
    ensures last { result ≡ last_frame memory.now.words wanted mp }
    ensures most { IfOk result (λ n. n ≤ 32767) }
{
    let mut frame = mp;
    for count in 0..MOST_FRAMES {
        if meet(memory, wanted, frame)? {
            return Ok(count);
        }
        frame = word_at(memory, frame.wrapping_add(2));
    }
    Err(ExecError::NoProcedure)
}

/// Returns the number of frames that an EXIT to the procedure `wanted` leaves.
pub(crate) fn left_by_exit(machine: &Machine, wanted: Wanted) -> Result<u16, ExecError>
    ensures left { result ≡ left_by_exit (parts machine.now.state) wanted }
{
    let (memory, registers) = (machine.memory(), machine.registers());
    if is_wanted(memory, wanted, registers.seg, registers.jtab)? {
        return Ok(0);
    }
    Ok(last_frame(memory, wanted, registers.mp)? + 1)
}

// Is true if one of the bytes `bytes` belongs to the saved IPC of one of the first `frames` frames, of which the first
// is at `mp`.
fn is_ip_kept(bytes: Bytes, memory: &Memory, mp: u16, frames: u16) -> bool
    ensures kept { result ≡ meets bytes (ips_written memory.now.words mp frames) }
{
    let mut frame = mp;
    let mut is_kept = false;
    for _count in 0..frames {
        is_kept = meets(bytes, usize::from(frame.wrapping_add(8)), 2) || is_kept;
        frame = word_at(memory, frame.wrapping_add(2));
    }
    is_kept
}

/// Is true if EXIT writes one of the bytes `bytes`. The procedure number is on the top of the stack, and the segment
/// number is below it.
pub(crate) fn exit_written(bytes: Bytes, machine: &Machine) -> bool
    ensures written { result ≡ meets bytes (exit_written machine.now.state) }
{
    let (memory, registers) = (machine.memory(), machine.registers());
    match left_by_exit(machine, wanted_at(memory, registers.sp)) {
        Ok(frames) => is_ip_kept(bytes, memory, registers.mp, frames),
        Err(_) => false,
    }
}
