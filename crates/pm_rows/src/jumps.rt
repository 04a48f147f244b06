//! The rules of the jump instructions. A line such as `.., a, b -> .., c` shows the stack before and after the
//! instruction, with the top at the right.

ghost use Rattle.std.specs.Prelude.{◌≡◌, ◌<◌, IfOk};
ghost use Rattle.pm_opcode.specs.Spelling.{rank, signed_byte};
ghost use Rattle.pm_rows.specs.Jumps.{OnlySpAndIpcDiffer, case_row, case_target, entry_target, jump_row, jumped};
ghost use Rattle.pm_rows.specs.Jumps.{short_row, target};

use pm_calls::ValidRegisters;
use pm_families::{Condition, Jump};
use pm_words::stack::load;
use pm_words::{ExecError, Memory};

/// Returns a signed byte, extended to a word. A jump of two bytes has such a byte as its offset.
#[inline(always)]
pub fn signed(byte: u8) -> u16
    ensures word { result ≡ signed_byte byte }
{
    let word = u16::from(byte);
    if word < 128 { word } else { word + 65280 }
}

// Returns the target of a jump. If `offset` is at least 0 as a signed number, the jump leads forward from the next
// instruction. Otherwise the target is that of the entry of the jump table at JTAB + `offset`.
#[inline(always)]
#[tactic(auto, unfolding(crate::specs::Jumps::target))]
fn target(memory: &Memory, registers: ValidRegisters, offset: u16) -> Result<u16, ExecError>
    ensures target { result ≡ target memory.now.words registers offset }
{
    let registers = registers.registers();
    if offset < 32768 {
        return Ok(registers.ipc.wrapping_add(offset));
    }
    if offset % 2 != 0 {
        return Err(ExecError::InvalidMemory);
    }
    entry_target(memory, registers.jtab.wrapping_add(offset))
}

// Returns the target of the entry of a jump table at address `entry`: this address less the word at it.
#[inline(always)]
fn entry_target(memory: &Memory, entry: u16) -> Result<u16, ExecError>
    ensures target { result ≡ entry_target memory.now.words entry }
{
    let distance = load(memory, entry)?;
    Ok(entry.wrapping_sub(distance))
}

// Returns the registers after a jump. If `taken` is false, the registers are unchanged.
#[inline(always)]
fn jump_if(
    taken: bool,
    memory: &Memory,
    registers: ValidRegisters,
    offset: u16,
) -> Result<ValidRegisters, ExecError>
    ensures row { result ≡ jumped taken memory.now.words registers offset }
    ensures others { IfOk result (λ r. OnlySpAndIpcDiffer registers r) }
{
    if !taken {
        return Ok(registers);
    }
    let ipc = target(memory, registers, offset)?;
    Ok(registers.with_ipc(ipc))
}

// UJP, FJP, EFJ and NFJ. Returns the registers after a jump of two bytes.
#[inline(always)]
#[tactic(auto, unfolding(crate::specs::Jumps::short_row))]
fn short(
    memory: &Memory,
    registers: ValidRegisters,
    condition: Condition,
    offset: u16,
) -> Result<ValidRegisters, ExecError>
    ensures row { result ≡ short_row condition memory.now.words registers offset }
    ensures others { IfOk result (λ r. OnlySpAndIpcDiffer registers r) }
{
    match condition {
        Condition::Always => jump_if(true, memory, registers, offset),
        Condition::IfFalse => {
            let mut top = registers.top();
            let a = top.pop(memory)?;
            jump_if(a % 2 == 0, memory, registers.with_top(top), offset)
        }
        Condition::IfDifferent => {
            let mut top = registers.top();
            let b = top.pop(memory)?;
            let a = top.pop(memory)?;
            jump_if(a != b, memory, registers.with_top(top), offset)
        }
        Condition::IfEqual => {
            let mut top = registers.top();
            let b = top.pop(memory)?;
            let a = top.pop(memory)?;
            jump_if(a == b, memory, registers.with_top(top), offset)
        }
    }
}

// Returns the position of `word` in the order of signed words, where -32,768 has position 0.
#[inline(always)]
fn rank(word: u16) -> u16
    ensures rank { result ≡ rank word }
{
    word.wrapping_add(32768)
}

// Returns the target of the case jump with the bounds `low` and `high` and the table at address `table`, for the value
// `value`.
#[inline(always)]
fn case_target(
    memory: &Memory,
    low: u16,
    high: u16,
    table: u32,
    value: u16,
) -> Result<u16, ExecError>
    ensures target { result ≡ case_target low high table memory.now.words value }
{
    let table = (table % 65536) as u16;
    let place = rank(value);
    if rank(low) > place || place > rank(high) {
        return Ok(table.wrapping_sub(2));
    }
    let further = place - rank(low);
    entry_target(memory, table.wrapping_add(further.wrapping_mul(2)))
}

// XJP. .., value -> ..: returns the registers after the jump to the case of the value.
#[inline(always)]
#[tactic(auto, unfolding(crate::specs::Jumps::case_row))]
fn case(
    memory: &Memory,
    registers: ValidRegisters,
    low: u16,
    high: u16,
    table: u32,
) -> Result<ValidRegisters, ExecError>
    ensures row { result ≡ case_row low high table memory.now.words registers }
    ensures others { IfOk result (λ r. OnlySpAndIpcDiffer registers r) }
{
    let mut top = registers.top();
    let value = top.pop(memory)?;
    let ipc = case_target(memory, low, high, table, value)?;
    Ok(registers.with_top(top).with_ipc(ipc))
}

/// Returns the registers after the jump `operation`. IPC in `registers` is the address of the next instruction. Only SP
/// and IPC change.
///
/// # Errors
///
/// `InvalidMemory`: the stack has too few words; or the jump is taken, and the offset to its entry of the jump table or
/// the address of the entry is odd.
#[inline(always)]
#[tactic(auto, unfolding(crate::specs::Jumps::jump_row))]
pub fn perform(
    memory: &Memory,
    registers: ValidRegisters,
    operation: Jump,
) -> Result<ValidRegisters, ExecError>
    ensures row { result ≡ jump_row operation memory.now.words registers }
    ensures others { IfOk result (λ r. OnlySpAndIpcDiffer registers r) }
{
    match operation {
        Jump::Short(condition, offset) => short(memory, registers, condition, offset),
        Jump::Case { low, high, table } => case(memory, registers, low, high, table),
    }
}
