//! The rules of the instructions that push constants in the code. A line such as `.., a, b -> .., c` shows the stack
//! before and after the instruction, with the top at the right.

ghost use Rattle.std.specs.Prelude.{◌≡◌, ◌+◌, ◌-◌, ◌*◌, ◌%◌, ◌≤◌, length, reverse};
ghost use Rattle.pm_words.specs.Watch.{WatchStays};
ghost use Rattle.pm_words.specs.Top.{MovesTop};
ghost use Rattle.pm_words.specs.Words.{with_words, words_at};
ghost use Rattle.pm_rows.specs.Literals.{literal_address_row, literal_row, words_row};

use arrayvec::ArrayVec;
use pm_families::Literal;
use pm_words::{ExecError, Memory, Top};

// Returns the `count` words of memory from the even address `start` on.
fn words_in(memory: &Memory, start: u32, count: u8) -> ArrayVec<u16, 255>
    requires even { start % 2 ≡ 0 }
    requires inside { start + 2 * count ≤ 65536 }
    ensures words { result.items ≡ words_at memory.now.words start count }
    ensures count { length result.items ≡ count }
{
    let mut words = ArrayVec::new();
    for i in 0..count {
        let address = (start + 2 * u32::from(i)) as u16;
        words.push(memory.word(address).unwrap_or(0));
    }
    words
}

// Writes the items of `words` below the even address `sp`, the first item at the highest address.
#[tactic(auto, using(pm_words::proofs::WatchLaws::stays))]
fn put_words(memory: &mut Memory, sp: u16, words: &[u16])
    requires even { sp % 2 ≡ 0 }
    requires room { 2 * length words.now ≤ sp }
    ensures written { memory.new.words ≡ with_words memory.old.words (sp - 2 * length words.now) (reverse words.now) }
    ensures watch { WatchStays memory.old memory.new }
{
    let _ = memory.bytes(); // for the size of the memory
    let mut at = sp;
    for word in words {
        at -= 2;
        memory.set_word(at, *word);
    }
}

// LDC. .. -> .., words: pushes `count` words of the code from address `start` on.
#[tactic(auto, unfolding(crate::specs::Literals::words_row), using(pm_words::proofs::WatchLaws::stays))]
fn words(memory: &mut Memory, top: Top, start: u32, count: u8) -> Result<Top, ExecError>
    ensures row { MovesTop result top memory.old memory.new
        (words_row start count memory.old.words top.sp top.np) }
{
    let (sp, np) = (top.sp(), top.np());
    let size = 2 * u16::from(count);
    if start % 2 != 0 || u64::from(start) + u64::from(size) > 65536 || sp % 2 != 0 {
        return Err(ExecError::InvalidMemory);
    }
    if u32::from(np) + u32::from(size) > u32::from(sp) {
        return Err(ExecError::StackOverflow);
    }
    let words = words_in(memory, start, count);
    put_words(memory, sp, &words);
    Ok(Top::of(sp - size, np))
}

// LSA and LPA. .. -> .., address: pushes `address`.
#[tactic(auto, unfolding(crate::specs::Literals::literal_address_row), using(pm_words::proofs::WatchLaws::stays))]
fn address(memory: &mut Memory, top: Top, address: u16) -> Result<Top, ExecError>
    ensures row { MovesTop result top memory.old memory.new
        (literal_address_row address memory.old.words top.sp top.np) }
{
    let mut stack = top;
    stack.push(memory, address)?;
    Ok(stack)
}

/// Pushes a constant in the code: the address of a text, or words. Returns SP and NP after the push.
///
/// # Errors
///
/// An error leaves the memory unchanged. The errors are checked in this order:
/// - `InvalidMemory` (words only): the words are not in memory from an even address on, or SP is odd.
/// - `StackOverflow`: SP would be below NP.
#[tactic(auto, unfolding(crate::specs::Literals::literal_row), using(pm_words::proofs::WatchLaws::stays))]
pub fn perform(memory: &mut Memory, top: Top, operation: Literal) -> Result<Top, ExecError>
    ensures row { MovesTop result top memory.old memory.new
        (literal_row operation memory.old.words top.sp top.np) }
{
    match operation {
        Literal::String(start) => {
            let characters = (start % 65536) as u16;
            address(memory, top, characters.wrapping_sub(1))
        }
        Literal::Characters(start) => address(memory, top, (start % 65536) as u16),
        Literal::Words { start, count } => { words(memory, top, start, (count / 2 % 256) as u8) }
    }
}
