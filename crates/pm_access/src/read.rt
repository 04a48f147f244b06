//! Whether the next step reads one of the bytes `bytes` of a query, which are a range of memory. The bytes of the
//! instruction itself are not included.

ghost use Rattle.std.specs.Prelude.{◌≡◌};
ghost use Rattle.pm_machine.specs.Procedures.{is_base_return};
ghost use Rattle.pm_machine.specs.ReadStretches.{led_to, operation_read, pointer_read, reads, return_read};
ghost use Rattle.pm_machine.specs.ReadStretches.{variable_read};
ghost use Rattle.pm_access.specs.Writing.{meets};

use crate::read_calls::call_read;
use crate::read_jumps::jump_read;
use crate::read_links::frame_read;
use crate::read_procedures::standard_read;
use crate::read_values::value_read;
use crate::stretches::{Bytes, meets, takes_words, word_in};
use crate::written::{is_of_variable, words_of_return};
use pm_families::{Pointer, Return, Variable};
use pm_machine::Machine;
use pm_opcode::{Operation, decode};
use pm_words::Memory;

// Is true if the operation `what` on a variable reads one of the bytes `bytes`.
#[tactic(auto, using(crate::proofs::ReadingLaws::meets_both))]
fn variable_read(bytes: Bytes, what: Variable, machine: &Machine) -> bool
    ensures read { result ≡ meets bytes (variable_read what machine.now.state) }
{
    let (memory, registers) = (machine.memory(), machine.registers());
    match what {
        Variable::Address(scope, _) => frame_read(bytes, scope, memory, registers.mp),
        Variable::Load(scope, number) => {
            is_of_variable(bytes, scope, number, memory, registers)
                || frame_read(bytes, scope, memory, registers.mp)
        }
        Variable::Store(scope, _) => {
            takes_words(bytes, Operation::Variable(what), memory, registers.sp)
                || frame_read(bytes, scope, memory, registers.mp)
        }
    }
}

// Is true if the operation `what` reads one of the bytes `bytes` at the address that is on the top of the stack.
fn led_to(bytes: Bytes, what: Pointer, memory: &Memory, sp: u16) -> bool
    ensures read { result ≡ meets bytes (led_to what memory.now.words sp) }
{
    let address = word_in(memory, usize::from(sp));
    let start = usize::from(address);
    match what {
        Pointer::Load(number) => {
            let place = address.wrapping_add(number.wrapping_mul(2));
            meets(bytes, usize::from(place), 2)
        }
        Pointer::LoadWords(words) => meets(bytes, start, 2 * usize::from(words)),
        Pointer::Move(words) => meets(bytes, start, 2 * usize::from(words)),
        _ => false,
    }
}

// Is true if the operation `what` on an address that is on the stack reads one of the bytes `bytes`.
#[tactic(auto, using(crate::proofs::ReadingLaws::meets_both))]
fn pointer_read(bytes: Bytes, what: Pointer, memory: &Memory, sp: u16) -> bool
    ensures read { result ≡ meets bytes (pointer_read what memory.now.words sp) }
{
    takes_words(bytes, Operation::Pointer(what), memory, sp) || led_to(bytes, what, memory, sp)
}

// Is true if the return `what` restores BASE.
fn is_base_return(what: Return) -> bool
    ensures base { result ≡ is_base_return what }
{
    match what {
        Return::Normal(_) => false,
        Return::Base(_) => true,
    }
}

// Is true if a return from the frame at `mp`, with a result of `words` words, reads one of the bytes `bytes`. `base`
// states whether the return restores BASE.
fn return_read(bytes: Bytes, words: u8, base: bool, mp: u16) -> bool
    ensures read { result ≡ meets bytes (return_read words base mp) }
{
    let frame = usize::from(mp);
    meets(bytes, frame + 2, 10)
        || meets(bytes, frame + 12, 2 * usize::from(words))
        || base && meets(bytes, usize::from(mp.wrapping_sub(2)), 2)
}

// Is true if the operation `what` reads one of the bytes `bytes`.
fn operation_read(bytes: Bytes, what: Operation, machine: &Machine) -> bool
    ensures read { result ≡ meets bytes (operation_read what machine.now.state) }
{
    let (memory, registers) = (machine.memory(), machine.registers());
    let sp = registers.sp;
    match what {
        Operation::Arithmetic(_) => takes_words(bytes, what, memory, sp),
        Operation::Variable(what) => variable_read(bytes, what, machine),
        Operation::Pointer(what) => pointer_read(bytes, what, memory, sp),
        Operation::Value(what) => value_read(bytes, what, memory, sp),
        Operation::Jump(what) => jump_read(bytes, what, memory, registers),
        Operation::Call(what) => call_read(bytes, what, machine),
        Operation::Return(what) => {
            let words = words_of_return(what);
            return_read(bytes, words, is_base_return(what), registers.mp)
        }
        Operation::Standard(number) => standard_read(bytes, number, machine),
        Operation::Literal(_) | Operation::Nothing | Operation::End | Operation::Unimplemented =>
            false,
    }
}

/// Is true if the instruction at IPC reads one of the `count` bytes from `address` on. The bytes of the instruction
/// itself are not included: its opcode, its operands, and words or a table of jumps in the code.
///
/// For a step that ends with an error, the result is that for the step without the error. These are the exceptions:
///
/// - An EXIT that does not find its procedure reads no frame.
/// - A call that does not reach its segment reads nothing. A call that does not find its table reads no parameters and
///   no links.
/// - An operation on sets or WORDS that this machine does not have reads what it would compare; a comparison of REAL
///   reads nothing.
/// - STP reads its word even if it replaces all of it.
#[tactic(auto, unfolding(pm_machine::specs::ReadStretches::read, pm_machine::specs::Rows::fetched))]
pub fn reads(machine: &Machine, address: u16, count: u32) -> bool
    ensures reads { result ≡ reads address count machine.now.state }
{
    let bytes = Bytes { address, count };
    let ipc = usize::from(machine.registers().ipc);
    match decode(machine.memory().bytes(), ipc) {
        Ok(instr) => operation_read(bytes, Operation::of(&instr), machine),
        Err(_) => false,
    }
}
