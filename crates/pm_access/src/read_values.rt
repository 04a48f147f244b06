//! What the instructions on bytes, sets, strings and fields read. A query asks whether one of the bytes `bytes` is
//! read.

ghost use Rattle.std.specs.Prelude.{◌≡◌, ◌∷◌, []};
ghost use Rattle.pm_machine.specs.ReadStretches.{compared_read, source_read, text_stretch, value_leads, value_read};
ghost use Rattle.pm_access.specs.Writing.{meets};

use crate::stretches::{Bytes, meets, place_on_stack, takes_words, word_in};
use pm_families::{Byte, Field, Kind, Text, Value};
use pm_opcode::Operation;
use pm_words::Memory;

// Is true if one of the bytes `bytes` belongs to the string at `address`, including its length byte.
fn is_of_text(bytes: Bytes, memory: &Memory, address: u16) -> bool
    ensures text { result ≡ meets bytes (text_stretch memory.now.words address ∷ []) }
{
    meets(
        bytes,
        usize::from(address),
        1 + usize::from(memory.byte(address)),
    )
}

// Is true if one of the bytes `bytes` belongs to the string at the address `word`. A word below 256 is a character, not
// an address; the result is then false.
fn source_read(bytes: Bytes, memory: &Memory, word: u16) -> bool
    ensures read { result ≡ meets bytes (source_read memory.now.words word) }
{
    word >= 256 && is_of_text(bytes, memory, word)
}

// Is true if a comparison of kind `kind` reads one of the bytes `bytes` at the addresses that are on the stack. The
// operands on the stack itself are not included.
fn compared_read(bytes: Bytes, kind: Kind, memory: &Memory, sp: u16) -> bool
    ensures read { result ≡ meets bytes (compared_read kind memory.now.words sp) }
{
    let right = word_in(memory, usize::from(sp));
    let left = word_in(memory, usize::from(sp) + 2);
    match kind {
        Kind::Real | Kind::Boolean | Kind::Set => false,
        Kind::String => is_of_text(bytes, memory, left) || is_of_text(bytes, memory, right),
        Kind::Bytes(size) => {
            let size = usize::from(size);
            meets(bytes, usize::from(left), size) || meets(bytes, usize::from(right), size)
        }
        Kind::Words(size) => {
            let size = 2 * usize::from(size);
            meets(bytes, usize::from(left), size) || meets(bytes, usize::from(right), size)
        }
    }
}

// Is true if the instruction `what` reads one of the bytes `bytes` at an address that is on the stack. The operands on
// the stack itself are not included.
fn value_leads(bytes: Bytes, what: Value, memory: &Memory, sp: u16) -> bool
    ensures read { result ≡ meets bytes (value_leads what memory.now.words sp) }
{
    let top = usize::from(sp);
    match what {
        Value::Byte(Byte::Load) => meets(bytes, usize::from(place_on_stack(memory, top)), 1),
        Value::Text(Text::Index) => meets(bytes, usize::from(word_in(memory, top + 2)), 1),
        Value::Text(Text::Assign(_)) => source_read(bytes, memory, word_in(memory, top)),
        Value::Field(Field::Load) => meets(bytes, usize::from(word_in(memory, top + 4)), 2),
        Value::Field(Field::Store) => meets(bytes, usize::from(word_in(memory, top + 6)), 2),
        Value::Compare(_, kind) => compared_read(bytes, kind, memory, sp),
        Value::Byte(Byte::Store) | Value::Set(_) | Value::Field(Field::Index { .. }) => false,
    }
}

/// Is true if the instruction `what`, on bytes, sets, strings or fields, reads one of the bytes `bytes`.
#[tactic(auto, using(crate::proofs::ReadingLaws::meets_both))]
pub(crate) fn value_read(bytes: Bytes, what: Value, memory: &Memory, sp: u16) -> bool
    ensures read { result ≡ meets bytes (value_read what memory.now.words sp) }
{
    takes_words(bytes, Operation::Value(what), memory, sp) || value_leads(bytes, what, memory, sp)
}
