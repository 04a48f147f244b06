//! What the standard procedures write. A query asks whether one of the bytes `bytes` is written.

ghost use Rattle.std.specs.Prelude.{◌≡◌, ◌∷◌, []};
ghost use Rattle.pm_stdproc.specs.Loads.{slot_code};
ghost use Rattle.pm_stdproc.specs.Procedures.{procedure_numbered};
ghost use Rattle.pm_machine.specs.Written.{counted_stretch, kept_written, memory_written, procedure_written};
ghost use Rattle.pm_machine.specs.Written.{transfer_stretch, units_written};
ghost use Rattle.pm_access.specs.Writing.{meets};

use crate::stretches::{Bytes, meets, meets_to, place_on_stack, pushes_words, word_in};
use crate::written_exits::exit_written;
use pm_effects::words;
use pm_machine::Machine;
use pm_stdproc::{OnMemory, OnUnits, Procedure, procedure_of};
use pm_words::Memory;

/// Is true if one of the bytes `bytes` is among the `count` bytes from `place` on. `count` is a signed number; if it is
/// 0 or negative, the result is false.
pub(crate) fn is_counted(bytes: Bytes, place: u16, count: u16) -> bool
    ensures counted { result ≡ meets bytes (counted_stretch place count) }
{
    0 < count && count < 32768 && meets(bytes, usize::from(place), usize::from(count))
}

// Is true if the standard procedure `what` on the memory writes one of the bytes `bytes`.
fn memory_written(bytes: Bytes, what: OnMemory, memory: &Memory, sp: u16) -> bool
    ensures written { result ≡ meets bytes (memory_written what memory.now.words sp) }
{
    let top = usize::from(sp);
    match what {
        OnMemory::New => meets(bytes, usize::from(word_in(memory, top + 2)), 2),
        OnMemory::MoveLeft | OnMemory::MoveRight => {
            let count = word_in(memory, top);
            is_counted(bytes, place_on_stack(memory, top + 2), count)
        }
        OnMemory::Fill => {
            let count = word_in(memory, top + 2);
            is_counted(bytes, place_on_stack(memory, top + 4), count)
        }
        OnMemory::Scan => pushes_words(bytes, words(6, 1), memory, sp),
        OnMemory::Mark => meets(bytes, usize::from(word_in(memory, top)), 2),
        OnMemory::IoResult | OnMemory::FreeMemory => {
            pushes_words(bytes, words(0, 1), memory, sp)
        }
        OnMemory::CheckIo | OnMemory::Release | OnMemory::Halt => false,
    }
}

/// Is true if one of the bytes `bytes` belongs to the memory that a UNITREAD or UNITWRITE transfers.
pub(crate) fn is_transferred(bytes: Bytes, memory: &Memory, sp: u16) -> bool
    ensures transfer { result ≡ meets bytes (transfer_stretch memory.now.words sp ∷ []) }
{
    let top = usize::from(sp);
    let count = usize::from(word_in(memory, top + 4));
    meets(bytes, usize::from(place_on_stack(memory, top + 6)), count)
}

// Is true if the standard procedure `what` on the units or the clock writes one of the bytes `bytes`.
fn units_written(bytes: Bytes, what: OnUnits, memory: &Memory, sp: u16) -> bool
    ensures written { result ≡ meets bytes (units_written what memory.now.words sp) }
{
    let top = usize::from(sp);
    match what {
        OnUnits::Read => is_transferred(bytes, memory, sp),
        OnUnits::Time => {
            meets(bytes, usize::from(word_in(memory, top + 2)), 2)
                || meets(bytes, usize::from(word_in(memory, top)), 2)
        }
        OnUnits::Busy => pushes_words(bytes, words(1, 1), memory, sp),
        OnUnits::Write | OnUnits::Wait | OnUnits::Clear => false,
    }
}

// Is true if loading the segment of `slot`, which the program requests to keep, writes one of the bytes `bytes`.
fn kept_written(bytes: Bytes, slot: u16, machine: &Machine) -> bool
    ensures written { result ≡ meets bytes (kept_written machine.now.state.registers.sp
        (slot_code slot machine.now.state.places machine.now.state.rows machine.now.state.devices)) }
{
    let end = usize::from(machine.registers().sp) + 2;
    match machine.code_wanted(slot) {
        Ok(Some(code)) => meets_to(bytes, end, code.len()),
        Ok(None) | Err(_) => false,
    }
}

/// Is true if the standard procedure `number` writes one of the bytes `bytes`.
pub(crate) fn procedure_written(bytes: Bytes, number: u8, machine: &Machine) -> bool
    ensures written { result ≡ meets bytes (procedure_written (procedure_numbered number) machine.now.state) }
{
    let (memory, sp) = (machine.memory(), machine.registers().sp);
    match procedure_of(number) {
        Procedure::OnMemory(what) => memory_written(bytes, what, memory, sp),
        Procedure::OnUnits(what) => units_written(bytes, what, memory, sp),
        Procedure::Exit => exit_written(bytes, machine),
        Procedure::Keep => kept_written(bytes, word_in(memory, usize::from(sp)), machine),
        Procedure::Unkeep | Procedure::Unimplemented => false,
    }
}
