//! What the standard procedures read. A query asks whether one of the bytes `bytes` is read.

ghost use Rattle.std.specs.Prelude.{◌≡◌, ◌∷◌, [], ◌++◌};
ghost use Rattle.pm_effects.specs.Effects.{standard_effect};
ghost use Rattle.pm_stdproc.specs.Procedures.{procedure_numbered};
ghost use Rattle.pm_machine.specs.ReadStretches.{memory_leads, procedure_leads, scan_stretch};
ghost use Rattle.pm_machine.specs.ReadStretches.{taken_if, units_lead};
ghost use Rattle.pm_access.specs.Writing.{meets};

use crate::read_exits::exit_leads;
use crate::stretches::{Bytes, meets, meets_to, place_on_stack, takes_words, word_in};
use crate::written_procedures::{is_counted, is_transferred};
use pm_machine::Machine;
use pm_opcode::Operation;
use pm_stdproc::{OnMemory, OnUnits, Procedure, procedure_of};
use pm_words::Memory;

// Is true if a scan from address `place` on can read one of the bytes `bytes`. The scan covers at most `limit` bytes;
// it moves to lower addresses if `limit` is negative.
fn is_scanned(bytes: Bytes, place: u16, limit: i16) -> bool
    ensures scanned { result ≡ meets bytes (scan_stretch place limit ∷ []) }
{
    let start = usize::from(place);
    let count = usize::from(limit.unsigned_abs());
    if limit >= 0 {
        return meets(bytes, start, count);
    }
    meets_to(bytes, start + 1, count)
}

// Is true if the standard procedure `what` on the memory reads one of the bytes `bytes`, except for the words that it
// takes off the stack.
fn memory_leads(bytes: Bytes, what: OnMemory, memory: &Memory, sp: u16) -> bool
    ensures read { result ≡ meets bytes (memory_leads what memory.now.words sp) }
{
    let top = usize::from(sp);
    match what {
        OnMemory::MoveLeft | OnMemory::MoveRight => {
            let count = word_in(memory, top);
            is_counted(bytes, place_on_stack(memory, top + 6), count)
        }
        OnMemory::Scan => {
            let limit = word_in(memory, top + 10).cast_signed();
            is_scanned(bytes, place_on_stack(memory, top + 2), limit)
        }
        OnMemory::Release => meets(bytes, usize::from(word_in(memory, top)), 2),
        _ => false,
    }
}

// Is true if the standard procedure `what` on the units or the clock reads one of the bytes `bytes`, except for the
// words that it takes off the stack.
fn units_lead(bytes: Bytes, what: OnUnits, memory: &Memory, sp: u16) -> bool
    ensures read { result ≡ meets bytes (units_lead what memory.now.words sp) }
{
    match what {
        OnUnits::Write => is_transferred(bytes, memory, sp),
        _ => false,
    }
}

// Is true if the standard procedure `what` reads one of the bytes `bytes`, except for the words that it takes off the
// stack.
fn procedure_leads(bytes: Bytes, what: Procedure, machine: &Machine) -> bool
    ensures read { result ≡ meets bytes (procedure_leads what machine.now.state) }
{
    let (memory, sp) = (machine.memory(), machine.registers().sp);
    match what {
        Procedure::OnMemory(what) => memory_leads(bytes, what, memory, sp),
        Procedure::OnUnits(what) => units_lead(bytes, what, memory, sp),
        Procedure::Exit => exit_leads(bytes, machine),
        Procedure::Keep | Procedure::Unkeep | Procedure::Unimplemented => false,
    }
}

/// Is true if the standard procedure `number` reads one of the bytes `bytes`.
#[tactic(auto, using(crate::proofs::ReadingLaws::meets_both))]
pub(crate) fn standard_read(bytes: Bytes, number: u8, machine: &Machine) -> bool
    ensures read { result ≡ meets bytes (taken_if (standard_effect number) machine.now.state.memory
        machine.now.state.registers.sp ++ procedure_leads (procedure_numbered number) machine.now.state) }
{
    let (memory, sp) = (machine.memory(), machine.registers().sp);
    takes_words(bytes, Operation::Standard(number), memory, sp)
        || procedure_leads(bytes, procedure_of(number), machine)
}
