//! What EXIT reads in the frames that it leaves and in the tables of their procedures. A query asks whether one of the
//! bytes `bytes` is read.

ghost use Rattle.std.specs.Prelude.{◌≡◌, ◌∷◌, []};
ghost use Rattle.pm_machine.specs.ReadStretches.{asked_read, exit_leads, exit_read, frames_read, left_read};
ghost use Rattle.pm_machine.specs.Written.{stretch};
ghost use Rattle.pm_access.specs.Writing.{meets};

use crate::stretches::{Bytes, meets, word_at};
use crate::written_exits::{left_by_exit, wanted_at};
use pm_machine::Machine;
use pm_words::Memory;

// Is true if one of the bytes `bytes` belongs to the word at `address`.
fn is_of_word_at(bytes: Bytes, address: u16) -> bool
    ensures word { result ≡ meets bytes (stretch address 2 ∷ []) }
{
    meets(bytes, usize::from(address), 2)
}

// Is true if one of the bytes `bytes` belongs to the exit address in the table at `jtab`.
fn exit_read(bytes: Bytes, jtab: u16) -> bool
    ensures read { result ≡ meets bytes (exit_read jtab ∷ []) }
{
    is_of_word_at(bytes, jtab.wrapping_sub(4))
}

// Is true if EXIT reads one of the bytes `bytes` to check whether a procedure is the requested one. It reads the
// highest word of the segment, at `seg`, and the highest word of the table, at `jtab`.
fn asked_read(bytes: Bytes, seg: u16, jtab: u16) -> bool
    ensures read { result ≡ meets bytes (asked_read seg jtab) }
{
    is_of_word_at(bytes, seg) || is_of_word_at(bytes, jtab)
}

// Is true if EXIT reads one of the bytes `bytes` when it leaves the frame at `frame`. It reads the control words of
// this frame that state the caller, and the words to which these lead.
fn left_read(bytes: Bytes, memory: &Memory, frame: u16) -> bool
    ensures read { result ≡ meets bytes (left_read memory.now.words frame) }
{
    let (jtab_at, seg_at) = (frame.wrapping_add(4), frame.wrapping_add(6));
    let (jtab, seg) = (word_at(memory, jtab_at), word_at(memory, seg_at));
    is_of_word_at(bytes, frame.wrapping_add(2))
        || is_of_word_at(bytes, jtab_at)
        || is_of_word_at(bytes, seg_at)
        || exit_read(bytes, jtab)
        || asked_read(bytes, seg, jtab)
}

// Is true if EXIT reads one of the bytes `bytes` when it leaves the first `frames` frames, of which the first is at
// `mp`.
fn frames_read(bytes: Bytes, memory: &Memory, mp: u16, frames: u16) -> bool
    ensures read { result ≡ meets bytes (frames_read memory.now.words mp frames) }
{
    let mut frame = mp;
    let mut is_read = false;
    for _count in 0..frames {
        is_read = left_read(bytes, memory, frame) || is_read;
        frame = word_at(memory, frame.wrapping_add(2));
    }
    is_read
}

/// Is true if EXIT reads one of the bytes `bytes`, except for the two words that it takes off the stack. The procedure
/// number is on the top of the stack, and the segment number is below it.
#[tactic(auto, using(crate::proofs::ReadingLaws::meets_both))]
pub(crate) fn exit_leads(bytes: Bytes, machine: &Machine) -> bool
    ensures read { result ≡ meets bytes (exit_leads machine.now.state) }
{
    let (memory, registers) = (machine.memory(), machine.registers());
    if exit_read(bytes, registers.jtab) || asked_read(bytes, registers.seg, registers.jtab) {
        return true;
    }
    match left_by_exit(machine, wanted_at(memory, registers.sp)) {
        Ok(frames) => frames_read(bytes, memory, registers.mp, frames),
        Err(_) => false,
    }
}
