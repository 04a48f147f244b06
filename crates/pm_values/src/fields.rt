//! The rules of instructions on bytes and on packed fields. A packed field is a range of bits of a word.

ghost use Rattle.std.specs.Prelude.{◌≡◌, ◌+◌, ◌≤◌, IfOk, Err};
ghost use Rattle.pm_words.specs.Stack.{IsStack, Changes, demand};
ghost use Rattle.pm_words.specs.declared.error.ExecError.TheVariants.{InvalidIndex};
ghost use Rattle.pm_values.specs.Fields.{field_of, index_field_row, is_field, load_byte_row, load_field_row};
ghost use Rattle.pm_values.specs.Fields.{store_byte_row, store_field_row, with_field};

use crate::stack::push_words;
use pm_words::stack::{load, pop, push, store};
use pm_words::{ExecError, Memory};

/// `LDB`: pops an index (a number of bytes) and a base address, and pushes the byte at their sum. Returns the new SP.
///
/// # Errors
///
/// `InvalidMemory`: the stack has too few words. Nothing changes.
#[tactic(auto, unfolding(crate::specs::Fields::load_byte_row), using(pm_words::proofs::WatchLaws::stays))]
pub fn load_byte(memory: &mut Memory, sp: u16, np: u16) -> Result<u16, ExecError>
    ensures row { Changes result memory.old memory.new (load_byte_row memory.old.words sp np) }
    ensures stack { IsStack sp np → IfOk result (λ sp. IsStack sp np) }
{
    let index = pop(memory, sp)?;
    let base = pop(memory, index.above)?;
    let byte = memory.byte(base.word.wrapping_add(index.word));
    push(memory, base.above, np, u16::from(byte))
}

/// `STB`: pops a value, an index (a number of bytes) and a base address. Writes the low byte of the value at the sum of
/// index and base. Returns the new SP.
///
/// # Errors
///
/// `InvalidMemory`: the stack has too few words. Nothing changes.
#[tactic(auto, unfolding(crate::specs::Fields::store_byte_row), using(pm_words::proofs::WatchLaws::stays))]
pub fn store_byte(memory: &mut Memory, sp: u16, np: u16) -> Result<u16, ExecError>
    ensures row { Changes result memory.old memory.new (store_byte_row memory.old.words sp np) }
    ensures stack { IsStack sp np → IfOk result (λ sp. IsStack sp np) }
{
    let value = pop(memory, sp)?;
    let index = pop(memory, value.above)?;
    let base = pop(memory, index.above)?;
    memory.set_byte(base.word.wrapping_add(index.word), (value.word % 256) as u8);
    Ok(base.above)
}

/// `IXP`: pops an index (a number of fields) and a base address, and pushes the location of the field with this index.
/// The location is three words: the address of the field's word, the width in bits, and the lowest bit, which is on top
/// of the stack. Returns the new SP.
///
/// The array packs `per_word` fields of `width` bits into each word, the first field in the lowest bits.
///
/// # Errors
///
/// If a call fails, nothing changes. The errors are checked in this order:
/// - `InvalidMemory`: the stack has too few words.
/// - `InvalidIndex`: the index is negative, `per_word` is 0, `width` is 0, or the field would extend past bit 15.
/// - `StackOverflow`: SP would be below NP.
#[tactic(auto, unfolding(crate::specs::Fields::index_field_row), using(pm_words::proofs::WatchLaws::stays))]
pub fn index_field(
    memory: &mut Memory,
    sp: u16,
    np: u16,
    per_word: u8,
    width: u8,
) -> Result<u16, ExecError>
    ensures row { Changes result memory.old memory.new
        (index_field_row per_word width memory.old.words sp np) }
    ensures stack { IsStack sp np → IfOk result (λ sp. IsStack sp np) }
{
    let index = pop(memory, sp)?;
    let base = pop(memory, index.above)?;
    let (per_word, width) = (u16::from(per_word), u16::from(width));
    if per_word == 0 || index.word > 32767 {
        return Err(ExecError::InvalidIndex);
    }
    let lowest = (index.word % per_word) * width;
    check_field(lowest, width)?;
    let address = base.word.wrapping_add(2 * (index.word / per_word));
    push_words(memory, base.above, np, &[lowest, width, address])
}

/// `LDP`: pops the location of a field (its lowest bit, its width and the address of its word), and pushes the field.
/// Returns the new SP.
///
/// # Errors
///
/// If a call fails, nothing changes. The errors are checked in this order:
/// - `InvalidMemory`: the stack has too few words.
/// - `InvalidIndex`: the width is 0, or the field would extend past bit 15.
/// - `InvalidMemory`: the address is odd.
#[tactic(auto, unfolding(crate::specs::Fields::load_field_row), using(pm_words::proofs::WatchLaws::stays))]
pub fn load_field(memory: &mut Memory, sp: u16, np: u16) -> Result<u16, ExecError>
    ensures row { Changes result memory.old memory.new (load_field_row memory.old.words sp np) }
    ensures stack { IsStack sp np → IfOk result (λ sp. IsStack sp np) }
{
    let lowest = pop(memory, sp)?;
    let width = pop(memory, lowest.above)?;
    let address = pop(memory, width.above)?;
    check_field(lowest.word, width.word)?;
    let word = load(memory, address.word)?;
    push(
        memory,
        address.above,
        np,
        extracted(word, lowest.word, width.word),
    )
}

/// `STP`: pops a value and the location of a field, and writes the low bits of the value to the field. The location is
/// the field's lowest bit, its width and the address of its word. Returns the new SP.
///
/// # Errors
///
/// If a call fails, nothing changes. The errors are checked in this order:
/// - `InvalidMemory`: the stack has too few words.
/// - `InvalidIndex`: the width is 0, or the field would extend past bit 15.
/// - `InvalidMemory`: the address is odd.
#[tactic(auto, unfolding(crate::specs::Fields::store_field_row), using(pm_words::proofs::WatchLaws::stays))]
pub fn store_field(memory: &mut Memory, sp: u16, np: u16) -> Result<u16, ExecError>
    ensures row { Changes result memory.old memory.new (store_field_row memory.old.words sp np) }
    ensures stack { IsStack sp np → IfOk result (λ sp. IsStack sp np) }
{
    let value = pop(memory, sp)?;
    let lowest = pop(memory, value.above)?;
    let width = pop(memory, lowest.above)?;
    let address = pop(memory, width.above)?;
    check_field(lowest.word, width.word)?;
    let word = load(memory, address.word)?;
    store(
        memory,
        address.word,
        replaced(word, lowest.word, width.word, value.word),
    )?;
    Ok(address.above)
}

// Returns the error `InvalidIndex` if `width` is 0, or if `width` bits from bit `lowest` on extend past bit 15.
fn check_field(lowest: u16, width: u16) -> Result<(), ExecError>
    ensures field { result ≡ demand (is_field lowest width) InvalidIndex }
{
    if width == 0 || width > 16 || lowest > 16 - width {
        return Err(ExecError::InvalidIndex);
    }
    Ok(())
}

// Returns the `width` bits of `word` from bit `lowest` on, as a number.
fn extracted(word: u16, lowest: u16, width: u16) -> u16
    requires field { lowest + width ≤ 16 }
    ensures field { result ≡ field_of word lowest width }
{
    let place = 1u32 << lowest;
    let size = 1u32 << width;
    ((u32::from(word) / place) % size) as u16
}

// Returns `word` after its `width` bits from bit `lowest` on are replaced by the low `width` bits of `value`.
fn replaced(word: u16, lowest: u16, width: u16, value: u16) -> u16
    requires field { lowest + width ≤ 16 }
    ensures word { result ≡ with_field word lowest width value }
{
    let place = 1u32 << lowest;
    let size = 1u32 << width;
    let (word, value) = (u32::from(word), u32::from(value));
    let field = (word / place) % size;
    (word - field * place + (value % size) * place) as u16
}
