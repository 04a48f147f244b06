//! Ranges of memory that a step writes or reads. These include the words that an instruction takes off the stack, and
//! those that it pushes.

ghost use Rattle.std.specs.Prelude.{◌≡◌, ◌≤◌, ◌∷◌, []};
ghost use Rattle.pm_words.specs.Words.{word_at};
ghost use Rattle.pm_effects.specs.Effects.{effect_of};
ghost use Rattle.pm_machine.specs.Written.{compare_written, place_on_stack, pushes, pushes_words, stretch};
ghost use Rattle.pm_machine.specs.Written.{stretch_to, words_of, words_taken};
ghost use Rattle.pm_machine.specs.ReadStretches.{taken_if};
ghost use Rattle.pm_access.specs.Writing.{meets};

use pm_effects::{Effect, Share, effect_of};
use pm_opcode::Operation;
use pm_words::Memory;

/// Returns the word of `memory` at `address`. The lowest bit of `address` is ignored.
pub fn word_at(memory: &Memory, address: u16) -> u16
    ensures word { result ≡ word_at memory.now.words address }
{
    memory.word(address - address % 2).unwrap_or(0)
}

/// The bytes that a query asks for: `count` bytes from `address` on.
#[derive(Clone, Copy)]
pub(crate) struct Bytes {
    /// The address of the first byte.
    pub address: u16,
    /// The number of bytes.
    pub count: u32,
}

/// Is true if one of the bytes `bytes` is among the `count` bytes from address `start` on.
pub(crate) fn meets(bytes: Bytes, start: usize, count: usize) -> bool
    ensures meets { result ≡ meets bytes (stretch start count ∷ []) }
{
    let first = usize::from(bytes.address);
    let end = first + bytes.count as usize;
    bytes.count > 0 && count > 0 && start < end && first < start.saturating_add(count)
}

/// Is true if one of the bytes `bytes` is among the `count` bytes before address `end`. If fewer than `count` bytes
/// exist before `end`, all of them are included.
pub(crate) fn meets_to(bytes: Bytes, end: usize, count: usize) -> bool
    ensures meets { result ≡ meets bytes (stretch_to end count ∷ []) }
{
    meets(bytes, end.saturating_sub(count), count.min(end))
}

/// Returns the word of `memory` at `address`, or 0 if `address` is above 65,535. The lowest bit of `address` is
/// ignored.
pub(crate) fn word_in(memory: &Memory, address: usize) -> u16
    ensures word { result ≡ word_at memory.now.words address }
{
    if address > 65535 {
        let _ = memory.word(0); // for the memory's length
        return 0;
    }
    word_at(memory, address as u16)
}

/// Returns the sum of a base and an index on the stack, modulo 65,536. The index is the word at `sp`, and the base is
/// the word above it.
pub(crate) fn place_on_stack(memory: &Memory, sp: usize) -> u16
    requires low { sp ≤ 70000 }
    ensures place { result ≡ place_on_stack memory.now.words sp }
{
    word_in(memory, sp + 2).wrapping_add(word_in(memory, sp))
}

// Returns the number of words of an operand on the stack that begins at `address`. The operand is as `share` states: a
// fixed number of words, or a set, whose first word is the number of the others.
fn words_of(share: Share, memory: &Memory, address: usize) -> usize
    ensures words { result ≡ words_of share memory.now.words address }
    ensures most { result ≤ 65536 }
{
    match share {
        Share::Words(n) => usize::from(n),
        Share::Set => usize::from(word_in(memory, address)) + 1,
    }
}

// Returns the number of words that an instruction with the effect `effect` takes off the stack.
fn words_taken(effect: Effect, memory: &Memory, sp: u16) -> usize
    ensures words { result ≡ words_taken effect memory.now.words sp }
    ensures most { result ≤ 131072 }
{
    let sp = usize::from(sp);
    let top = words_of(effect.top, memory, sp);
    top + words_of(effect.below, memory, sp + 2 * top)
}

/// Is true if an instruction that takes words off the stack as `effect` states, and then pushes `words` words, writes
/// one of the bytes `bytes`.
pub(crate) fn pushes(bytes: Bytes, effect: Effect, words: usize, memory: &Memory, sp: u16) -> bool
    requires few { words ≤ 131072 }
    ensures pushes { result ≡ meets bytes (pushes effect words memory.now.words sp) }
{
    let end = usize::from(sp) + 2 * words_taken(effect, memory, sp);
    meets_to(bytes, end, 2 * words)
}

/// Is true if an instruction with the effect `effect` writes one of the bytes `bytes` when it pushes its result.
pub(crate) fn pushes_words(bytes: Bytes, effect: Effect, memory: &Memory, sp: u16) -> bool
    ensures pushes { result ≡ meets bytes (pushes_words effect memory.now.words sp) }
{
    let words = words_of(effect.leaves, memory, usize::from(sp));
    pushes(bytes, effect, words, memory, sp)
}

/// Is true if the operation `what` writes one of the bytes `bytes` when it pushes its result. Is false if no effect is
/// defined for `what`.
pub(crate) fn leaves_words(bytes: Bytes, what: Operation, memory: &Memory, sp: u16) -> bool
    ensures leaves { result ≡ meets bytes (compare_written (effect_of what) memory.now.words sp) }
{
    match effect_of(what) {
        Some(effect) => pushes_words(bytes, effect, memory, sp),
        None => false,
    }
}

/// Is true if one of the bytes `bytes` belongs to the words that the operation `what` takes off the stack. Is false if
/// no effect is defined for `what`.
pub(crate) fn takes_words(bytes: Bytes, what: Operation, memory: &Memory, sp: u16) -> bool
    ensures takes { result ≡ meets bytes (taken_if (effect_of what) memory.now.words sp) }
{
    match effect_of(what) {
        Some(effect) => meets(bytes, usize::from(sp), 2 * words_taken(effect, memory, sp)),
        None => false,
    }
}
