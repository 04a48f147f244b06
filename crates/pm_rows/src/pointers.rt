//! The rules of the instructions that use an address on the stack. A line such as `.., a, b -> .., c` shows the stack
//! before and after the instruction, with the top at the right.

ghost use Rattle.std.specs.Prelude.{◌≡◌, ◌+◌, ◌*◌, ◌%◌};
ghost use Rattle.pm_words.specs.Top.{MovesTop};
ghost use Rattle.pm_rows.specs.Pointers.{increment_row, index_row, indirect_row, load_words_row, move_row};
ghost use Rattle.pm_rows.specs.Pointers.{pointer_row, store_indirect_row, store_words_row};

use pm_families::Pointer;
use pm_words::layout::HIGHEST_WORD;
use pm_words::stack::{load, pop, store};
use pm_words::{ExecError, Memory, Top};

// INC. .., a -> .., a + 2 * by: adds `by` words to the address a.
#[inline(always)]
#[tactic(auto, unfolding(crate::specs::Pointers::increment_row), using(pm_words::proofs::WatchLaws::stays))]
fn increment(memory: &mut Memory, top: Top, by: u16) -> Result<Top, ExecError>
    ensures row { MovesTop result top memory.old memory.new
        (increment_row by memory.old.words top.sp top.np) }
{
    let mut stack = top;
    let a = stack.one(memory)?;
    stack.replace_one(memory, a.wrapping_add(by.wrapping_mul(2)))?;
    Ok(stack)
}

// IND and SIND. .., a -> .., w: replaces the address a by the word at a + 2 * by.
#[inline(always)]
#[tactic(auto, unfolding(crate::specs::Pointers::indirect_row), using(pm_words::proofs::WatchLaws::stays))]
fn indirect(memory: &mut Memory, top: Top, by: u16) -> Result<Top, ExecError>
    ensures row { MovesTop result top memory.old memory.new
        (indirect_row by memory.old.words top.sp top.np) }
{
    let mut stack = top;
    let a = stack.one(memory)?;
    let word = load(memory, a.wrapping_add(by.wrapping_mul(2)))?;
    stack.replace_one(memory, word)?;
    Ok(stack)
}

// Returns the address of item `i` of the array at address `a`, whose items have `size` words.
#[inline(always)]
fn item_at(a: u16, size: u16, i: u16) -> u16
    ensures address { result ≡ (a + 2 * size * i) % 65536 }
{
    let bytes = 2 * u64::from(size) * u64::from(i);
    ((u64::from(a) + bytes) % 65536) as u16
}

// IXA. .., a, i -> .., x: replaces the address a and the index i by the address of item i. Each item has `size` words.
#[inline(always)]
#[tactic(auto, unfolding(crate::specs::Pointers::index_row), using(pm_words::proofs::WatchLaws::stays))]
fn index(memory: &mut Memory, top: Top, size: u16) -> Result<Top, ExecError>
    ensures row { MovesTop result top memory.old memory.new
        (index_row size memory.old.words top.sp top.np) }
{
    let mut stack = top;
    let (a, i) = stack.two(memory)?;
    stack.replace_two(memory, item_at(a, size, i))?;
    Ok(stack)
}

// STO. .., a, v -> ..: writes the word v at address a.
#[inline(always)]
#[tactic(auto, unfolding(crate::specs::Pointers::store_indirect_row), using(pm_words::proofs::WatchLaws::stays))]
fn store_indirect(memory: &mut Memory, top: Top) -> Result<Top, ExecError>
    ensures row { MovesTop result top memory.old memory.new
        (store_indirect_row memory.old.words top.sp top.np) }
{
    let mut stack = top;
    let v = stack.pop(memory)?;
    let a = stack.pop(memory)?;
    store(memory, a, v)?;
    Ok(stack)
}

// LDM. .., a -> .., words: pushes the `words` words from address a on.
#[tactic(auto, unfolding(crate::specs::Pointers::load_words_row), using(pm_words::proofs::WatchLaws::stays))]
fn load_words(memory: &mut Memory, top: Top, words: u8) -> Result<Top, ExecError>
    ensures row { MovesTop result top memory.old memory.new
        (load_words_row words memory.old.words top.sp top.np) }
{
    let size = 2 * u16::from(words);
    let np = top.np();
    let a = pop(memory, top.sp())?;
    if a.word % 2 != 0 || u32::from(a.word) + u32::from(size) > 65536 {
        return Err(ExecError::InvalidMemory);
    }
    if u32::from(np) + u32::from(size) > u32::from(a.above) {
        return Err(ExecError::StackOverflow);
    }
    memory.copy(a.word, a.above - size, size);
    Ok(Top::of(a.above - size, np))
}

// STM. .., a, words -> ..: pops `words` words and writes them from address a on.
#[tactic(auto, unfolding(crate::specs::Pointers::store_words_row), using(pm_words::proofs::WatchLaws::stays))]
fn store_words(memory: &mut Memory, top: Top, words: u8) -> Result<Top, ExecError>
    ensures row { MovesTop result top memory.old memory.new
        (store_words_row words memory.old.words top.sp top.np) }
{
    let size = 2 * u16::from(words);
    let sp = top.sp();
    if u32::from(sp) + u32::from(size) > u32::from(HIGHEST_WORD) {
        return Err(ExecError::InvalidMemory);
    }
    let a = pop(memory, sp + size)?;
    if a.word % 2 != 0 || u32::from(a.word) + u32::from(size) > 65536 {
        return Err(ExecError::InvalidMemory);
    }
    memory.copy(sp, a.word, size);
    Ok(Top::of(a.above, top.np()))
}

// MOV. .., to, from -> ..: copies `words` words from address `from` to address `to`.
#[tactic(auto, unfolding(crate::specs::Pointers::move_row), using(pm_words::proofs::WatchLaws::stays))]
fn move_words(memory: &mut Memory, top: Top, words: u16) -> Result<Top, ExecError>
    ensures row { MovesTop result top memory.old memory.new
        (move_row words memory.old.words top.sp top.np) }
{
    let mut stack = top;
    let from = stack.pop(memory)?;
    let to = stack.pop(memory)?;
    if words >= 32768 {
        return Err(ExecError::InvalidMemory);
    }
    let size = 2 * words;
    if from % 2 != 0 || u32::from(from) + u32::from(size) > 65536 {
        return Err(ExecError::InvalidMemory);
    }
    if to % 2 != 0 || u32::from(to) + u32::from(size) > 65536 {
        return Err(ExecError::InvalidMemory);
    }
    memory.copy(from, to, size);
    Ok(stack)
}

/// Executes an operation that uses an address on the stack. Returns SP and NP after the operation.
///
/// # Errors
///
/// An error leaves the memory unchanged. The errors are checked in this order:
/// - `InvalidMemory`: the stack has too few words.
/// - `InvalidMemory`: an address is odd, words are outside memory, or `MOV` has more than 32,767 words.
/// - `StackOverflow`: SP would be below NP.
#[inline(always)]
#[tactic(auto, unfolding(crate::specs::Pointers::pointer_row), using(pm_words::proofs::WatchLaws::stays))]
pub fn perform(memory: &mut Memory, top: Top, operation: Pointer) -> Result<Top, ExecError>
    ensures row { MovesTop result top memory.old memory.new
        (pointer_row operation memory.old.words top.sp top.np) }
{
    match operation {
        Pointer::Increment(by) => increment(memory, top, by),
        Pointer::Load(by) => indirect(memory, top, by),
        Pointer::Index(size) => index(memory, top, size),
        Pointer::Store => store_indirect(memory, top),
        Pointer::LoadWords(words) => load_words(memory, top, words),
        Pointer::StoreWords(words) => store_words(memory, top, words),
        Pointer::Move(words) => move_words(memory, top, words),
    }
}
