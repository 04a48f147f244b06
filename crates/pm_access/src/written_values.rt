//! What the instructions on bytes, sets, strings and fields write. A query asks whether one of the bytes `bytes` is
//! written.

ghost use Rattle.std.specs.Prelude.{◌≡◌, ◌≤◌};
ghost use Rattle.pm_machine.specs.Written.{lower_words, pushes, set_words, text_length, value_written};
ghost use Rattle.pm_effects.specs.Effects.{set_effect};
ghost use Rattle.pm_access.specs.Writing.{meets};

use crate::stretches::{Bytes, leaves_words, meets, place_on_stack, pushes, word_in};
use pm_effects::effect_of;
use pm_families::{Byte, Field, Set, Text, Value};
use pm_opcode::Operation;
use pm_words::Memory;

// Returns the number of words of the lower of the two sets on the stack, which is below the set on the top.
fn lower_words(memory: &Memory, sp: u16) -> u16
    ensures words { result ≡ lower_words memory.now.words sp }
{
    let top = usize::from(sp);
    let upper = usize::from(word_in(memory, top));
    word_in(memory, top + 2 * (upper + 1))
}

// Returns the number of words that the instruction `what` on sets pushes.
fn set_words(what: Set, memory: &Memory, sp: u16) -> usize
    ensures words { result ≡ set_words what memory.now.words sp }
    ensures most { result ≤ 65536 }
{
    let top = word_in(memory, usize::from(sp));
    match what {
        Set::Member => 1,
        Set::Intersection => 1 + usize::from(lower_words(memory, sp).min(top)),
        Set::Union => 1 + usize::from(lower_words(memory, sp).max(top)),
        Set::Difference => 1 + usize::from(lower_words(memory, sp)),
        Set::Singleton => 2 + usize::from(top / 16),
        Set::Subrange => {
            let first = word_in(memory, usize::from(sp) + 2);
            if top.cast_signed() < first.cast_signed() {
                1
            } else {
                2 + usize::from(top / 16)
            }
        }
        Set::Adjust(words) => usize::from(words),
    }
}

// Is true if the instruction `what` on sets writes one of the bytes `bytes`.
fn set_written(bytes: Bytes, what: Set, memory: &Memory, sp: u16) -> bool
    ensures written { result ≡ meets bytes
        (pushes (set_effect what) (set_words what memory.now.words sp) memory.now.words sp) }
{
    match effect_of(Operation::Value(Value::Set(what))) {
        Some(effect) => pushes(bytes, effect, set_words(what, memory, sp), memory, sp),
        None => false,
    }
}

// Returns the number of characters of the string at the address `word`, or 1 if `word` is a character (below 256).
fn text_length(memory: &Memory, word: u16) -> u8
    ensures length { result ≡ text_length memory.now.words word }
{
    if word < 256 { 1 } else { memory.byte(word) }
}

/// Is true if the instruction `what`, on bytes, sets, strings or fields, writes one of the bytes `bytes`.
pub(crate) fn value_written(bytes: Bytes, what: Value, memory: &Memory, sp: u16) -> bool
    ensures written { result ≡ meets bytes (value_written what memory.now.words sp) }
{
    let top = usize::from(sp);
    match what {
        Value::Byte(Byte::Store) => {
            meets(bytes, usize::from(place_on_stack(memory, top + 2)), 1)
        }
        Value::Set(what) => set_written(bytes, what, memory, sp),
        Value::Text(Text::Index) => false,
        Value::Text(Text::Assign(_)) => {
            let from = word_in(memory, top);
            let to = usize::from(word_in(memory, top + 2));
            meets(bytes, to, 1 + usize::from(text_length(memory, from)))
        }
        Value::Field(Field::Store) => meets(bytes, usize::from(word_in(memory, top + 6)), 2),
        Value::Byte(Byte::Load) | Value::Field(Field::Index { .. } | Field::Load) => {
            leaves_words(bytes, Operation::Value(what), memory, sp)
        }
        Value::Compare(_, _) => leaves_words(bytes, Operation::Value(what), memory, sp),
    }
}
