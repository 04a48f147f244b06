//! Operations on ranges of bytes in memory: copy, fill and scan. A scan for a byte is stopped by an equal byte if
//! `equal` is true, otherwise by a different byte.

ghost use Rattle.std.specs.Prelude.{◌≡◌, ◌+◌, ◌/◌, ◌%◌, ◌∷◌, [], ◌⊎◌, ◌<◌, ◌≤◌, ◌↔◌, All};
ghost use Rattle.std.specs.Prelude.{IfOk, IfSome, IsTrue, length, position, replicate, reverse};
ghost use Rattle.pm_words.specs.Words.{IsInMemory, overwritten, passed, stops};

use byteorder::{ByteOrder, LittleEndian};

// Returns whether the `count` bytes from `address` on are in memory.
pub fn is_in_memory(address: u16, count: u16) -> bool
    ensures inside { IsTrue result ↔ IsInMemory address count }
{
    usize::from(address) + usize::from(count) <= 65536
}

// Returns whether a copy of `count` bytes from address `from` to address `to`, the lowest address first, reads no byte
// that it has written. For a copy that begins with the highest address, exchange `from` and `to`.
pub fn is_apart(from: u16, to: u16, count: u16) -> bool
    ensures apart { IsTrue result ↔ ((to ≤ from) ⊎ (from + count ≤ to)) }
{
    to <= from || usize::from(from) + usize::from(count) <= usize::from(to)
}

// Overwrites the items of `bytes` from index `at` on with the items of `source`.
pub fn overwrite(bytes: &mut [u8], at: usize, source: &[u8])
    requires inside { at + length source.now ≤ length bytes.old }
    ensures written { bytes.new ≡ overwritten bytes.old at source.now }
    ensures fit { All (λ b. b < 256) bytes.old → All (λ b. b < 256) bytes.new }
{
    bytes[at..at + source.len()].copy_from_slice(source);
}

// Overwrites the two items of `bytes` at `at` and `at + 1` with `word`, the low byte first.
#[inline(always)]
pub fn put_word(bytes: &mut [u8], at: usize, word: u16)
    requires inside { at + 2 ≤ length bytes.old }
    ensures written { bytes.new ≡ overwritten bytes.old at (word % 256 ∷ word / 256 ∷ []) }
    ensures fit { All (λ b. b < 256) bytes.old → All (λ b. b < 256) bytes.new }
{
    LittleEndian::write_u16(&mut bytes[at..at + 2], word);
}

// Overwrites the `count` items of `bytes` from index `at` on with `byte`.
pub fn overwrite_all(bytes: &mut [u8], at: usize, count: usize, byte: u8)
    requires inside { at + count ≤ length bytes.old }
    ensures written { bytes.new ≡ overwritten bytes.old at (replicate count byte) }
    ensures fit { All (λ b. b < 256) bytes.old → All (λ b. b < 256) bytes.new }
{
    bytes[at..at + count].fill(byte);
}

// Returns whether the byte `at` stops a scan for `byte`. If `equal` is true, an equal byte stops the scan; otherwise a
// different byte stops it.
fn stops(equal: bool, byte: u8, at: u8) -> bool
    ensures stops { result ≡ stops equal byte at }
{
    (at == byte) == equal
}

// Returns the number of bytes before the first one that stops a scan for `byte` (see `stops`). If no byte stops the
// scan, returns the length of `bytes`.
pub fn passed(bytes: &[u8], byte: u8, equal: bool) -> usize
    ensures count { result ≡ passed bytes.now byte equal }
    ensures within { result ≤ length bytes.now }
{
    first_stop(bytes, byte, equal).unwrap_or(bytes.len())
}

// Returns the number of bytes after the last one that stops a scan for `byte` (see `stops`). If no byte stops the scan,
// returns the length of `bytes`.
pub fn passed_back(bytes: &[u8], byte: u8, equal: bool) -> usize
    ensures count { result ≡ passed (reverse bytes.now) byte equal }
    ensures within { result ≤ length bytes.now }
{
    last_stop(bytes, byte, equal).unwrap_or(bytes.len())
}

// Returns the index of the first byte that stops a scan for `byte`, or `None` if no byte stops it.
fn first_stop(bytes: &[u8], byte: u8, equal: bool) -> Option<usize>
    ensures place { result ≡ position (λ x. stops equal byte x) bytes.now }
    ensures within { IfSome result (λ k. k < length bytes.now) }
{
    bytes.iter().position(|x| stops(equal, byte, *x))
}

// Returns the number of bytes after the last byte that stops a scan for `byte`, or `None` if no byte stops it.
fn last_stop(bytes: &[u8], byte: u8, equal: bool) -> Option<usize>
    ensures place { result ≡ position (λ x. stops equal byte x) (reverse bytes.now) }
    ensures within { IfSome result (λ k. k < length bytes.now) }
{
    bytes.iter().rev().position(|x| stops(equal, byte, *x))
}
