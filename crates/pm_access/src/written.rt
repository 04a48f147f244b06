//! Whether the next step writes one of the bytes `bytes` of a query, which are a range of memory.

ghost use Rattle.std.specs.Prelude.{◌≡◌};
ghost use Rattle.pm_rows.specs.Variables.{frame_of, variable_at};
ghost use Rattle.pm_calls.specs.Links.{link};
ghost use Rattle.pm_machine.specs.Written.{operation_written, pointer_written, return_written, variable_written};
ghost use Rattle.pm_machine.specs.Written.{word_stretch, writes};
ghost use Rattle.pm_machine.specs.Procedures.{words_of_return};
ghost use Rattle.pm_access.specs.Writing.{meets};

use crate::stretches::{Bytes, leaves_words, meets, meets_to, word_in};
use crate::written_calls::call_written;
use crate::written_procedures::procedure_written;
use crate::written_values::value_written;
use pm_calls::Registers;
use pm_families::{Pointer, Return, Scope, Variable};
use pm_machine::Machine;
use pm_opcode::{Operation, decode};
use pm_words::stack::load;
use pm_words::{ExecError, Memory};

// Returns the address of the frame to which `links` static links lead from the frame at `mp`.
//
// # Errors
//
// - `NoSegment`: `links` is above 127.
// - `InvalidMemory`: a static link on this path is at an odd address.
fn link(memory: &Memory, mp: u16, links: u8) -> Result<u16, ExecError>
    ensures frame { result ≡ link memory.now.words mp links }
{
    if links > 127 {
        return Err(ExecError::NoSegment);
    }
    let mut frame = mp;
    for _count in 0..links {
        frame = load(memory, frame)?;
    }
    Ok(frame)
}

// Returns the address of the frame that contains the variables of `scope`.
fn frame_of(scope: Scope, memory: &Memory, registers: Registers) -> Result<u16, ExecError>
    ensures frame { result ≡ frame_of scope memory.now.words registers }
{
    match scope {
        Scope::Global => Ok(registers.base),
        Scope::Local => Ok(registers.mp),
        Scope::Intermediate(links) => link(memory, registers.mp, links),
    }
}

/// Is true if one of the bytes `bytes` belongs to variable `number` of `scope`.
pub(crate) fn is_of_variable(
    bytes: Bytes,
    scope: Scope,
    number: u16,
    memory: &Memory,
    registers: Registers,
) -> bool
    ensures variable { result ≡ meets bytes
        (word_stretch (variable_at scope number memory.now.words registers)) }
{
    match frame_of(scope, memory, registers) {
        Ok(frame) => {
            let place = frame.wrapping_add(10).wrapping_add(number.wrapping_mul(2));
            meets(bytes, usize::from(place), 2)
        }
        Err(_) => false,
    }
}

// Is true if the operation `what` on a variable writes one of the bytes `bytes`.
fn variable_written(bytes: Bytes, what: Variable, machine: &Machine) -> bool
    ensures written { result ≡ meets bytes (variable_written what machine.now.state) }
{
    let (memory, registers) = (machine.memory(), machine.registers());
    match what {
        Variable::Store(scope, number) => is_of_variable(bytes, scope, number, memory, registers),
        Variable::Address(_, _) | Variable::Load(_, _) => {
            leaves_words(bytes, Operation::Variable(what), memory, registers.sp)
        }
    }
}

// Is true if the operation `what` on an address that is on the stack writes one of the bytes `bytes`.
fn pointer_written(bytes: Bytes, what: Pointer, memory: &Memory, sp: u16) -> bool
    ensures written { result ≡ meets bytes (pointer_written what memory.now.words sp) }
{
    let top = usize::from(sp);
    match what {
        Pointer::Store => meets(bytes, usize::from(word_in(memory, top + 2)), 2),
        Pointer::StoreWords(n) => {
            let words = 2 * usize::from(n);
            meets(bytes, usize::from(word_in(memory, top + words)), words)
        }
        Pointer::Move(n) => {
            let to = usize::from(word_in(memory, top + 2));
            meets(bytes, to, 2 * usize::from(n))
        }
        _ => leaves_words(bytes, Operation::Pointer(what), memory, sp),
    }
}

/// Returns the number of words of the result that the return `what` passes to the caller.
pub(crate) fn words_of_return(what: Return) -> u8
    ensures words { result ≡ words_of_return what }
{
    match what {
        Return::Normal(words) | Return::Base(words) => words,
    }
}

// Is true if a return from the frame at `mp` with a result of `words` words writes one of the bytes `bytes`.
fn return_written(bytes: Bytes, words: u8, memory: &Memory, mp: u16) -> bool
    ensures written { result ≡ meets bytes (return_written words memory.now.words mp) }
{
    let words = 2 * usize::from(words);
    let above = usize::from(word_in(memory, usize::from(mp) + 10));
    meets_to(bytes, above, words)
}

// Is true if the operation `what` writes one of the bytes `bytes`.
fn operation_written(bytes: Bytes, what: Operation, machine: &Machine) -> bool
    ensures written { result ≡ meets bytes (operation_written what machine.now.state) }
{
    let (memory, registers) = (machine.memory(), machine.registers());
    let sp = registers.sp;
    match what {
        Operation::Arithmetic(_) | Operation::Literal(_) => leaves_words(bytes, what, memory, sp),
        Operation::Variable(what) => variable_written(bytes, what, machine),
        Operation::Pointer(what) => pointer_written(bytes, what, memory, sp),
        Operation::Value(what) => value_written(bytes, what, memory, sp),
        Operation::Call(what) => call_written(bytes, what, machine),
        Operation::Return(what) => return_written(
            bytes,
            words_of_return(what),
            memory,
            registers.mp,
        ),
        Operation::Standard(number) => procedure_written(bytes, number, machine),
        Operation::Jump(_) | Operation::Nothing | Operation::End | Operation::Unimplemented =>
            false,
    }
}

/// Is true if the instruction at IPC writes one of the `count` bytes from `address` on.
///
/// For a step that ends with an error, the result is that for the step without the error. These are the exceptions:
///
/// - An EXIT that does not find its procedure writes nothing.
/// - A call that does not reach its segment writes nothing. A call that does not find its table writes no frame.
/// - An operation on sets or WORDS that this machine does not have writes its result; a comparison of REAL writes
///   nothing.
/// - CHK writes the word that it leaves on the stack.
#[tactic(auto, unfolding(pm_machine::specs::Written::written, pm_machine::specs::Rows::fetched))]
pub fn writes(machine: &Machine, address: u16, count: u32) -> bool
    ensures writes { result ≡ writes address count machine.now.state }
{
    let bytes = Bytes { address, count };
    let ipc = usize::from(machine.registers().ipc);
    match decode(machine.memory().bytes(), ipc) {
        Ok(instr) => operation_written(bytes, Operation::of(&instr), machine),
        Err(_) => false,
    }
}
