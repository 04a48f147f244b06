//! Functions that read and write words (16 bits) and bytes in a slice of bytes.

ghost use Rattle.std.specs.Prelude.{◌≡◌, ◌+◌, ◌≤◌, length, replicate};
ghost use Rattle.byteorder.specs.Endian.{little_bytes};
ghost use Rattle.pm_bytes.specs.Words.{word_in, written, zeros};

use byteorder::{ByteOrder, LittleEndian};

/// Returns the word at byte offset `place` of `bytes`. Its low byte is at `place`, and its high byte is at `place + 1`.
///
/// Both bytes must be in `bytes`.
#[tactic(auto, unfolding(crate::specs::Words::word_in))]
pub fn word(bytes: &[u8], place: usize) -> u16
    requires room { place + 2 ≤ length bytes.now }
    ensures word { result ≡ word_in bytes.now place }
{
    LittleEndian::read_u16(&bytes[place..])
}

/// Writes `word` at byte offset `place` of `bytes`, the low byte first.
///
/// Offsets `place` and `place + 1` must be in `bytes`.
#[tactic(auto, unfolding(crate::specs::Words::written))]
pub fn set_word(bytes: &mut [u8], place: usize, word: u16)
    requires room { place + 2 ≤ length bytes.old }
    ensures written { bytes.new ≡ written bytes.old place (little_bytes 2 word) }
{
    LittleEndian::write_u16(&mut bytes[place..place + 2], word);
}

/// Overwrites the bytes of `bytes` from offset `place` on with the bytes of `new`.
///
/// All bytes that are overwritten must be in `bytes`.
#[tactic(auto, unfolding(crate::specs::Words::written))]
pub fn set_bytes(bytes: &mut [u8], place: usize, new: &[u8])
    requires room { place + length new.now ≤ length bytes.old }
    ensures written { bytes.new ≡ written bytes.old place new.now }
{
    bytes[place..place + new.len()].copy_from_slice(new);
}

/// Overwrites `count` bytes of `bytes`, from offset `place` on, with zeros.
///
/// The bytes that are overwritten must be in `bytes`.
#[tactic(auto, unfolding(crate::specs::Words::written))]
pub fn clear(bytes: &mut [u8], place: usize, count: usize)
    requires room { place + count ≤ length bytes.old }
    ensures written { bytes.new ≡ written bytes.old place (replicate count 0) }
{
    bytes[place..place + count].fill(0);
}

/// Overwrites all bytes of `bytes` with zeros.
#[tactic(auto, unfolding(crate::specs::Words::zeros))]
pub fn clear_all(bytes: &mut [u8])
    ensures cleared { bytes.new ≡ zeros (length bytes.old) }
{
    bytes.fill(0);
}
