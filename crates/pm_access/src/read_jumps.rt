//! What jumps read. A query asks whether one of the bytes `bytes` is read.

ghost use Rattle.std.specs.Prelude.{◌≡◌};
ghost use Rattle.pm_machine.specs.ReadStretches.{entry_read, is_taken, jump_read};
ghost use Rattle.pm_access.specs.Writing.{meets};

use crate::stretches::{Bytes, meets, takes_words, word_in};
use pm_calls::Registers;
use pm_families::{Condition, Jump};
use pm_opcode::Operation;
use pm_words::Memory;

// Is true if a jump with the condition `condition` is taken, with the operands that are on the stack at `sp`.
fn is_taken(condition: Condition, memory: &Memory, sp: u16) -> bool
    ensures taken { result ≡ is_taken condition memory.now.words sp }
{
    let right = word_in(memory, usize::from(sp));
    let left = word_in(memory, usize::from(sp) + 2);
    match condition {
        Condition::Always => true,
        Condition::IfFalse => right % 2 == 0,
        Condition::IfDifferent => left != right,
        Condition::IfEqual => left == right,
    }
}

// Is true if a jump with the offset `offset` reads one of the bytes `bytes` in the jump table. Only a jump with a
// negative offset reads an entry of the jump table.
fn entry_read(bytes: Bytes, registers: Registers, offset: u16) -> bool
    ensures read { result ≡ meets bytes (entry_read registers offset) }
{
    offset >= 32768 && meets(bytes, usize::from(registers.jtab.wrapping_add(offset)), 2)
}

/// Is true if the jump `what` reads one of the bytes `bytes`.
#[tactic(auto, using(crate::proofs::ReadingLaws::meets_both))]
pub(crate) fn jump_read(bytes: Bytes, what: Jump, memory: &Memory, registers: Registers) -> bool
    ensures read { result ≡ meets bytes (jump_read what memory.now.words registers) }
{
    let sp = registers.sp;
    if takes_words(bytes, Operation::Jump(what), memory, sp) {
        return true;
    }
    match what {
        Jump::Short(condition, offset) => {
            is_taken(condition, memory, sp) && entry_read(bytes, registers, offset)
        }
        Jump::Case { .. } => false,
    }
}
