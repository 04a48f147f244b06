//! The standard procedures that use only the stack, the heap and the memory. Each pops its operands from the stack. If
//! it fails, nothing changes.

ghost use Rattle.std.specs.Prelude.{◌≡◌, ◌-◌, ◌/◌, IfOk};
ghost use Rattle.pm_words.specs.Watch.{WatchStays};
ghost use Rattle.pm_words.specs.Stack.{Changes, Writes};
ghost use Rattle.pm_words.specs.Top.{Pops};
ghost use Rattle.pm_words.specs.Words.{moved_up, moved_down};
ghost use Rattle.pm_stdproc.specs.MemoryRows.{check_io_row, fill_row, filled_with, is_positive, mark_row, memory_row};
ghost use Rattle.pm_stdproc.specs.MemoryRows.{move_bytes_row, moved, new_row, passed_by, pop_place, push_row};
ghost use Rattle.pm_stdproc.specs.MemoryRows.{release_row, scan_row};

use crate::procedures::OnMemory;
use pm_calls::ValidRegisters;
use pm_words::stack::{load, store};
use pm_words::{ExecError, Memory, Top};

/// Pops a byte pointer, which is an index and a base below it, and returns the address to which it points: their sum,
/// modulo 65,536. If it fails, nothing changes.
pub fn pop_place(top: &mut Top, memory: &Memory) -> Result<u16, ExecError>
    ensures place { Pops result top.old top.new (pop_place memory.now.words top.old.sp) }
{
    let mut stack = *top;
    let index = stack.pop(memory)?;
    let base = stack.pop(memory)?;
    *top = stack;
    Ok(base.wrapping_add(index))
}

// Is true if `word` is above 0 as a signed number.
fn is_positive(word: u16) -> bool
    ensures positive { result ≡ is_positive word }
{
    word > 0 && word < 32768
}

// IOCHECK: fails with `UserIo` if IORESULT is not 0.
#[tactic(auto, unfolding(crate::specs::MemoryRows::check_io_row), using(pm_words::proofs::WatchLaws::stays))]
fn check_io(memory: &mut Memory, registers: ValidRegisters) -> Result<ValidRegisters, ExecError>
    ensures row { Changes result memory.old memory.new (check_io_row memory.old.words registers) }
    ensures mp { IfOk result (λ r. r.mp ≡ registers.mp) }
{
    if registers.registers().ioresult != 0 {
        return Err(ExecError::UserIo);
    }
    Ok(registers)
}

// NEW: writes NP to the word at an address, and moves NP up by a number of words.
#[tactic(auto, unfolding(crate::specs::MemoryRows::new_row), using(pm_words::proofs::WatchLaws::stays))]
fn new(memory: &mut Memory, registers: ValidRegisters) -> Result<ValidRegisters, ExecError>
    ensures row { Changes result memory.old memory.new (new_row memory.old.words registers) }
    ensures mp { IfOk result (λ r. r.mp ≡ registers.mp) }
{
    let mut stack = registers.top();
    let count = stack.pop(memory)?;
    let address = stack.pop(memory)?;
    if address % 2 != 0 {
        return Err(ExecError::InvalidMemory);
    }
    let np = stack.np();
    let heap = u32::from(np) + 2 * u32::from(count);
    if heap > u32::from(stack.sp()) {
        return Err(ExecError::StackOverflow);
    }
    store(memory, address, np)?;
    Ok(registers.with_top(Top::of(stack.sp(), heap as u16)))
}

// Copies `count` bytes from address `from` to address `to`, one by one, from the low end. Does nothing if `count` is 0
// or negative.
#[tactic(auto, using(pm_words::proofs::WatchLaws::stays))]
fn move_up(memory: &mut Memory, from: u16, to: u16, count: u16) -> Result<(), ExecError>
    ensures moved { Writes result memory.old memory.new (moved moved_up memory.old.words from to count) }
{
    if !is_positive(count) || memory.copy_up(from, to, count) {
        Ok(())
    } else {
        Err(ExecError::InvalidMemory)
    }
}

// Copies `count` bytes from address `from` to address `to`, one by one, from the high end. Does nothing if `count` is 0
// or negative.
#[tactic(auto, using(pm_words::proofs::WatchLaws::stays))]
fn move_down(memory: &mut Memory, from: u16, to: u16, count: u16) -> Result<(), ExecError>
    ensures moved { Writes result memory.old memory.new (moved moved_down memory.old.words from to count) }
{
    if !is_positive(count) || memory.copy_down(from, to, count) {
        Ok(())
    } else {
        Err(ExecError::InvalidMemory)
    }
}

// MOVELEFT: copies bytes, one by one, from the low end.
#[tactic(auto, unfolding(crate::specs::MemoryRows::move_bytes_row), using(pm_words::proofs::WatchLaws::stays))]
fn move_left(memory: &mut Memory, registers: ValidRegisters) -> Result<ValidRegisters, ExecError>
    ensures row { Changes result memory.old memory.new
        (move_bytes_row moved_up memory.old.words registers) }
    ensures mp { IfOk result (λ r. r.mp ≡ registers.mp) }
{
    let mut stack = registers.top();
    let count = stack.pop(memory)?;
    let to = pop_place(&mut stack, memory)?;
    let from = pop_place(&mut stack, memory)?;
    move_up(memory, from, to, count)?;
    Ok(registers.with_top(stack))
}

// MOVERIGHT: copies bytes, one by one, from the high end.
#[tactic(auto, unfolding(crate::specs::MemoryRows::move_bytes_row), using(pm_words::proofs::WatchLaws::stays))]
fn move_right(memory: &mut Memory, registers: ValidRegisters) -> Result<ValidRegisters, ExecError>
    ensures row { Changes result memory.old memory.new
        (move_bytes_row moved_down memory.old.words registers) }
    ensures mp { IfOk result (λ r. r.mp ≡ registers.mp) }
{
    let mut stack = registers.top();
    let count = stack.pop(memory)?;
    let to = pop_place(&mut stack, memory)?;
    let from = pop_place(&mut stack, memory)?;
    move_down(memory, from, to, count)?;
    Ok(registers.with_top(stack))
}

// Sets the `count` bytes from address `at` on to `byte`. Does nothing if `count` is 0 or negative.
#[tactic(auto, using(pm_words::proofs::WatchLaws::stays))]
fn fill_with(memory: &mut Memory, at: u16, count: u16, byte: u8) -> Result<(), ExecError>
    ensures filled { Writes result memory.old memory.new (filled_with memory.old.words at count byte) }
{
    if !is_positive(count) || memory.fill(at, count, byte) {
        Ok(())
    } else {
        Err(ExecError::InvalidMemory)
    }
}

// FILLCHAR: sets a range of bytes to one character.
#[tactic(auto, unfolding(crate::specs::MemoryRows::fill_row), using(pm_words::proofs::WatchLaws::stays))]
fn fill(memory: &mut Memory, registers: ValidRegisters) -> Result<ValidRegisters, ExecError>
    ensures row { Changes result memory.old memory.new (fill_row memory.old.words registers) }
    ensures mp { IfOk result (λ r. r.mp ≡ registers.mp) }
{
    let mut stack = registers.top();
    let character = stack.pop(memory)?;
    let count = stack.pop(memory)?;
    let at = pop_place(&mut stack, memory)?;
    fill_with(memory, at, count, (character % 256) as u8)?;
    Ok(registers.with_top(stack))
}

// Returns the number of bytes before the first byte that equals `byte`, or that differs from `byte` if `equal` is
// false. The scan starts at address `at`. `limit` is signed, and so is the result.
fn passed_by(memory: &Memory, at: u16, limit: u16, byte: u8, equal: bool) -> Result<u16, ExecError>
    ensures passed { result ≡ passed_by memory.now.words at limit byte equal }
{
    let passed = memory.scan(at, limit.cast_signed(), byte, equal);
    Ok(passed.ok_or(ExecError::InvalidMemory)?.cast_unsigned())
}

// SCAN: searches a byte that equals or differs from a character, and pushes the number of bytes before it.
#[tactic(auto, unfolding(crate::specs::MemoryRows::scan_row), using(pm_words::proofs::WatchLaws::stays))]
fn scan(memory: &mut Memory, registers: ValidRegisters) -> Result<ValidRegisters, ExecError>
    ensures row { Changes result memory.old memory.new (scan_row memory.old.words registers) }
    ensures mp { IfOk result (λ r. r.mp ≡ registers.mp) }
{
    let mut stack = registers.top();
    let _mask = stack.pop(memory)?;
    let at = pop_place(&mut stack, memory)?;
    let character = stack.pop(memory)?;
    let kind = stack.pop(memory)?;
    let limit = stack.pop(memory)?;
    let passed = passed_by(memory, at, limit, (character % 256) as u8, kind % 2 == 0)?;
    stack.push(memory, passed)?;
    Ok(registers.with_top(stack))
}

// MARK: writes NP to the word at an address.
#[tactic(auto, unfolding(crate::specs::MemoryRows::mark_row), using(pm_words::proofs::WatchLaws::stays))]
fn mark(memory: &mut Memory, registers: ValidRegisters) -> Result<ValidRegisters, ExecError>
    ensures row { Changes result memory.old memory.new (mark_row memory.old.words registers) }
    ensures mp { IfOk result (λ r. r.mp ≡ registers.mp) }
{
    let mut stack = registers.top();
    let address = stack.pop(memory)?;
    store(memory, address, stack.np())?;
    Ok(registers.with_top(stack))
}

// RELEASE: sets NP to the word at an address.
#[tactic(auto, unfolding(crate::specs::MemoryRows::release_row), using(pm_words::proofs::WatchLaws::stays))]
fn release(memory: &mut Memory, registers: ValidRegisters) -> Result<ValidRegisters, ExecError>
    ensures row { Changes result memory.old memory.new (release_row memory.old.words registers) }
    ensures mp { IfOk result (λ r. r.mp ≡ registers.mp) }
{
    let mut stack = registers.top();
    let address = stack.pop(memory)?;
    let np = load(memory, address)?;
    if np % 2 != 0 {
        return Err(ExecError::InvalidMemory);
    }
    if np > stack.sp() {
        return Err(ExecError::StackOverflow);
    }
    Ok(registers.with_top(Top::of(stack.sp(), np)))
}

// Pushes `word`. IORESULT and MEMAVAIL use this function.
#[tactic(auto, unfolding(crate::specs::MemoryRows::push_row), using(pm_words::proofs::WatchLaws::stays))]
fn put(
    memory: &mut Memory,
    registers: ValidRegisters,
    word: u16,
) -> Result<ValidRegisters, ExecError>
    ensures row { Changes result memory.old memory.new (push_row word memory.old.words registers) }
    ensures mp { IfOk result (λ r. r.mp ≡ registers.mp) }
{
    let mut stack = registers.top();
    stack.push(memory, word)?;
    Ok(registers.with_top(stack))
}

// Returns the number of words between NP and SP, which MEMAVAIL pushes.
fn free_words(top: Top) -> u16
    ensures words { result ≡ (top.sp - top.np) / 2 }
{
    (top.sp() - top.np()) / 2
}

/// Executes the standard procedure `procedure` and returns the new registers. If it fails, the memory is unchanged.
#[tactic(auto, unfolding(crate::specs::MemoryRows::memory_row), using(pm_words::proofs::WatchLaws::stays))]
pub fn perform(
    memory: &mut Memory,
    registers: ValidRegisters,
    procedure: OnMemory,
) -> Result<ValidRegisters, ExecError>
    ensures row { Changes result memory.old memory.new (memory_row procedure memory.old.words registers) }
    ensures mp { IfOk result (λ r. r.mp ≡ registers.mp) }
{
    match procedure {
        OnMemory::CheckIo => check_io(memory, registers),
        OnMemory::New => new(memory, registers),
        OnMemory::MoveLeft => move_left(memory, registers),
        OnMemory::MoveRight => move_right(memory, registers),
        OnMemory::Fill => fill(memory, registers),
        OnMemory::Scan => scan(memory, registers),
        OnMemory::Mark => mark(memory, registers),
        OnMemory::Release => release(memory, registers),
        OnMemory::IoResult => put(memory, registers, registers.registers().ioresult),
        OnMemory::Halt => Err(ExecError::Halt),
        OnMemory::FreeMemory => put(memory, registers, free_words(registers.top())),
    }
}
