//! A stack operation that pushes several words.

ghost use Rattle.std.specs.Prelude.{◌≡◌, ◌%◌, ◌≤◌, IfOk, length};
ghost use Rattle.pm_words.specs.Stack.{IsStack, Changes};
ghost use Rattle.pm_values.specs.Several.{push_words};

use pm_words::{ExecError, Memory};

/// Pushes the items of `words`, so that the first item is on top of the stack, and returns the new SP.
///
/// # Errors
///
/// `StackOverflow`: SP would be below NP. Nothing changes.
#[tactic(auto, using(pm_words::proofs::WatchLaws::stays))]
pub fn push_words(memory: &mut Memory, sp: u16, np: u16, words: &[u16]) -> Result<u16, ExecError>
    requires even { sp % 2 ≡ 0 }
    requires few { length words.now ≤ 256 }
    ensures row { Changes result memory.old memory.new (push_words memory.old.words sp np words.now) }
    ensures stack { IsStack sp np → IfOk result (λ sp. IsStack sp np) }
{
    let _ = memory.bytes(); // its clause states that the words are a memory
    let size = 2 * words.len() as u16;
    if u32::from(sp) < u32::from(np) + u32::from(size) {
        return Err(ExecError::StackOverflow);
    }
    let top = sp - size;
    let mut place = top;
    for word in words {
        memory.set_word(place, *word);
        place += 2;
    }
    Ok(top)
}
