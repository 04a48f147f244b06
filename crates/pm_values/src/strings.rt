//! The rules of the instructions on strings. A string is in memory: a byte with the number of characters, then the
//! characters.

ghost use Rattle.std.specs.Prelude.{◌≡◌, ◌≤◌, IfOk, MatchResult, Ok, Err, length};
ghost use Rattle.pm_words.specs.Stack.{IsStack, Changes};
ghost use Rattle.pm_words.specs.Words.{IsMemory, byte_at};
ghost use Rattle.pm_values.specs.Strings.{assign_row, index_string_row, string_at};

use pm_words::stack::pop;
use pm_words::{ExecError, Memory};

/// `IXS`: checks that the index on top of the stack is not greater than the length of the string. The address of the
/// string is the word below the index. Both words remain on the stack. Returns SP. Nothing changes.
///
/// # Errors
///
/// - `InvalidMemory`: the stack has too few words.
/// - `InvalidIndex`: the index is greater than the length of the string. Both numbers are unsigned.
#[tactic(auto, unfolding(crate::specs::Strings::index_string_row), using(pm_words::proofs::WatchLaws::stays))]
pub fn index_string(memory: &mut Memory, sp: u16, np: u16) -> Result<u16, ExecError>
    ensures row { Changes result memory.old memory.new (index_string_row memory.old.words sp np) }
    ensures stack { IsStack sp np → IfOk result (λ sp. IsStack sp np) }
{
    let index = pop(memory, sp)?;
    let string = pop(memory, index.above)?;
    if index.word > u16::from(memory.byte(string.word)) {
        return Err(ExecError::InvalidIndex);
    }
    Ok(sp)
}

/// `SAS`: pops a source and a destination address, and writes the length and the characters of the source at the
/// destination. Returns the new SP. If the source is below 256, it is one character; otherwise it is the address of a
/// string.
///
/// # Errors
///
/// If a call fails, nothing changes. The errors are checked in this order:
/// - `InvalidMemory`: the stack has too few words, or the source extends after the end of memory.
/// - `StringTooLong`: the source has more than `limit` characters.
/// - `InvalidMemory`: the destination extends after the end of memory.
#[tactic(auto, unfolding(crate::specs::Strings::assign_row), using(pm_words::proofs::WatchLaws::stays, crate::proofs::StringLaws::strings))]
pub fn assign(memory: &mut Memory, sp: u16, np: u16, limit: u8) -> Result<u16, ExecError>
    ensures row { Changes result memory.old memory.new (assign_row limit memory.old.words sp np) }
    ensures stack { IsStack sp np → IfOk result (λ sp. IsStack sp np) }
{
    let source = pop(memory, sp)?;
    let place = pop(memory, source.above)?;
    if source.word < 256 {
        if limit < 1 {
            return Err(ExecError::StringTooLong);
        }
        if !memory.write(place.word, &[1, source.word as u8]) {
            return Err(ExecError::InvalidMemory);
        }
        return Ok(place.above);
    }
    let length = characters(memory, source.word)?.len();
    if length > usize::from(limit) {
        return Err(ExecError::StringTooLong);
    }
    if !memory.copy(source.word, place.word, length as u16 + 1) {
        return Err(ExecError::InvalidMemory);
    }
    Ok(place.above)
}

/// Returns the characters of the string at `address`.
///
/// # Errors
///
/// `InvalidMemory`: the characters extend after the end of memory.
#[tactic(auto, unfolding(pm_words::specs::Words::byte_at, pm_words::specs::Words::bytes_at))]
pub fn characters(memory: &Memory, address: u16) -> Result<&[u8], ExecError>
    ensures memory { IsMemory memory.now.words }
    ensures string { MatchResult result
        (λ s. string_at memory.now.words address ≡ Ok s.now)
        (λ e. string_at memory.now.words address ≡ Err e) }
    ensures length { IfOk result (λ s. length s.now ≡ byte_at memory.now.words address) }
    ensures few { IfOk result (λ s. length s.now ≤ 255) }
{
    let bytes = memory.bytes();
    let address = usize::from(address);
    let start = address + 1;
    let end = start + usize::from(bytes[address]);
    if end > bytes.len() {
        return Err(ExecError::InvalidMemory);
    }
    Ok(&bytes[start..end])
}
