//! The stack operations that the rules of instructions use. The stack grows down: SP is the address of the word on top
//! of the stack. SP is never below NP, the address at which the heap ends.

ghost use Rattle.std.specs.Prelude.{◌≡◌, ℕ, IfOk};
ghost use Rattle.pm_words.specs.Stack.{Changes, IsStack, Writes, load, pop, push, store};

use crate::layout::HIGHEST_WORD;
use crate::{ExecError, Memory};

/// Returns the word at `address`.
///
/// # Errors
///
/// `InvalidMemory`: the address is odd.
#[inline(always)]
pub fn load(memory: &Memory, address: u16) -> Result<u16, ExecError>
    ensures word { result ≡ load memory.now.words address }
{
    memory.word(address).ok_or(ExecError::InvalidMemory)
}

/// Writes `word` at `address`.
///
/// # Errors
///
/// `InvalidMemory`: the address is odd. Nothing changes.
#[inline(always)]
pub fn store(memory: &mut Memory, address: u16, word: u16) -> Result<(), ExecError>
    ensures stored { Writes result memory.old memory.new (store memory.old.words address word) }
{
    if memory.set_word(address, word) {
        Ok(())
    } else {
        Err(ExecError::InvalidMemory)
    }
}

/// A word that was popped, and SP after the pop.
#[derive(Clone, Copy)]
pub struct Popped {
    /// The word that was on the top of the stack.
    pub word: u16,
    /// SP after the pop.
    pub above: u16,
}

/// Returns the word on top of the stack (at address `sp`), and SP after the pop.
///
/// # Errors
///
/// `InvalidMemory`: SP after the pop would be above 65,504, or `sp` is odd.
#[inline(always)]
pub fn pop(memory: &Memory, sp: u16) -> Result<Popped, ExecError>
    ensures row { result ≡ pop memory.now.words sp }
    ensures stack { (np : ℕ) → IsStack sp np → IfOk result (λ p. IsStack p.above np) }
{
    if sp > HIGHEST_WORD {
        return Err(ExecError::InvalidMemory);
    }
    let word = load(memory, sp)?;
    Ok(Popped {
        word,
        above: sp + 2,
    })
}

/// Pushes `word` on the stack, and returns the new SP.
///
/// # Errors
///
/// If a call fails, nothing changes. The errors are checked in this order:
/// - `StackOverflow`: the new SP would be below `np`.
/// - `InvalidMemory`: `sp` is odd.
#[inline(always)]
pub fn push(memory: &mut Memory, sp: u16, np: u16, word: u16) -> Result<u16, ExecError>
    ensures row { Changes result memory.old memory.new (push memory.old.words sp np word) }
    ensures stack { IsStack sp np → IfOk result (λ sp. IsStack sp np) }
{
    if u32::from(sp) < u32::from(np) + 2 {
        return Err(ExecError::StackOverflow);
    }
    store(memory, sp - 2, word)?;
    Ok(sp - 2)
}
