//! Code files and their slots. `slot_fault` of the definitions states which slots are invalid.

ghost use Rattle.std.specs.Prelude.{◌≡◌, ◌+◌, ◌*◌, ◌%◌, ◌<◌, ◌≤◌, ◌↔◌, ℕ, length, option_map, slice_range, IfOk};
ghost use Rattle.std.specs.Prelude.{IfErr, IfSome, IsOk, OnOk, None, Some};
ghost use Rattle.pm_codefile.specs.Dictionary.{IsCodeFile, IsFirstCodeFault, file_fault, first_slot_fault};
ghost use Rattle.pm_codefile.specs.Dictionary.{segment_in, slot_fault, slot_in};
ghost use Rattle.pm_bytes.specs.declared.blocks.TheConstants.{BLOCK};

use crate::fault::CodeFault;
use pm_bytes::{BLOCK, word};
use std::marker::Model;

/// A slot of the dictionary of a code file.
#[derive(Clone, Copy, Debug, PartialEq, Eq)]
pub struct Slot {
    /// The block of the file at which the segment begins.
    pub block: u16,
    /// The length of the segment in bytes. If it is 0, the slot has no segment.
    pub length: u16,
    /// The kind of the slot. A segment can be loaded for any kind.
    pub kind: u16,
    /// The name of the segment: 8 bytes, padded with spaces.
    pub name: [u8; 8],
}

/// A code file, as a borrowed slice of its bytes. The file has at least 512 bytes, and each segment of a slot is inside
/// it.
#[derive(Drop)]
pub struct CodeFile<'a> {
    bytes: &'a [u8],
}

impl<'a> Model for CodeFile<'a> {
    ghost use Rattle.std.specs.Prelude.{ℕ, List};
    ghost use Rattle.pm_codefile.specs.Dictionary.{IsCodeFile};

    ghost Value = { List ℕ };

    ghost view = { λ f. f.bytes.now };

    ghost invariant = { λ f. IsCodeFile f.bytes.now };
}

// Returns the fault of slot `n`, or `None` if the slot has no fault.
#[tactic(auto, unfolding(crate::specs::Dictionary::slot_fault))]
fn slot_fault(bytes: &[u8], n: u8) -> Option<CodeFault>
    requires dictionary { BLOCK ≤ length bytes.now }
    requires slot { n < 16 }
    ensures fault { result ≡ slot_fault bytes.now n }
{
    let block = usize::from(word(bytes, 4 * usize::from(n)));
    let count = usize::from(word(bytes, 4 * usize::from(n) + 2));
    if count % 2 != 0 {
        return Some(CodeFault::OddLength(n));
    }
    if count > 0 && BLOCK * block + count > bytes.len() {
        return Some(CodeFault::SlotPastEnd(n));
    }
    None
}

// Returns the fault of the first slot that has a fault, or `None` if no slot has one.
fn first_fault(bytes: &[u8]) -> Option<CodeFault>
    requires dictionary { BLOCK ≤ length bytes.now }
    ensures fault { result ≡ first_slot_fault bytes.now 0 16 }
    ensures sound { result ≡ None → (n : ℕ) → n < 16 → slot_fault bytes.now n ≡ None }
    ensures first { IfSome result (λ fault. IsFirstCodeFault bytes.now fault) }
{
    for n in 0..16 {
        if let Some(fault) = slot_fault(bytes, n) {
            return Some(fault);
        }
    }
    None
}

// Returns the first fault of the file `bytes`, or `None` if it is a code file.
#[tactic(auto, unfolding(crate::specs::Dictionary::file_fault))]
fn file_fault(bytes: &[u8]) -> Option<CodeFault>
    ensures fault { result ≡ file_fault bytes.now }
    ensures sound { result ≡ None → IsCodeFile bytes.now }
    ensures first { IfSome result (λ fault. IsFirstCodeFault bytes.now fault) }
{
    if bytes.len() < BLOCK {
        return Some(CodeFault::NoDictionary);
    }
    first_fault(bytes)
}

// Returns the 8 bytes of `bytes` from offset `place` on.
fn name_at(bytes: &[u8], place: usize) -> [u8; 8]
    requires within { place + 8 ≤ length bytes.now }
    ensures name { result ≡ slice_range bytes.now place (place + 8) }
{
    let mut name = [0; 8];
    name.copy_from_slice(&bytes[place..place + 8]);
    name
}

impl<'a> CodeFile<'a> {
    /// Returns the code file that consists of `bytes`, which are borrowed.
    ///
    /// Block 0 is allowed as the block of a slot, and segments may overlap. Only the conditions below are checked.
    ///
    /// # Errors
    ///
    /// The errors are checked in this order, the slots from 0 to 15:
    /// - `NoDictionary`: the file has fewer than 512 bytes.
    /// - `OddLength`: the length of a slot is odd.
    /// - `SlotPastEnd`: the length of a slot is not 0, and its block times 512 plus its length exceeds the number of
    ///   bytes.
    pub fn read(bytes: &'a [u8]) -> Result<CodeFile<'a>, CodeFault>
        ensures accepted { IsOk result ↔ (file_fault bytes.now ≡ None) }
        ensures sound { OnOk result (IsCodeFile bytes.now) }
        ensures read { IfOk result (λ f. f ≡ bytes.now) }
        ensures refusal { IfErr result (λ fault. file_fault bytes.now ≡ Some fault) }
        ensures first { IfErr result (λ fault. IsFirstCodeFault bytes.now fault) }
    {
        match file_fault(bytes) {
            Some(fault) => Err(fault),
            None => Ok(CodeFile { bytes }),
        }
    }

    /// Returns the number of bytes of the code file.
    pub fn len(&self) -> usize
        ensures length { result ≡ length self.now }
    {
        self.bytes.len()
    }

    /// Returns slot `n` of the dictionary, or `None` if `n` is above 15.
    #[tactic(auto, unfolding(crate::specs::Dictionary::slot_in, crate::specs::Dictionary::slot_fault))]
    pub fn slot(&self, n: u8) -> Option<Slot>
        ensures slot { result ≡ slot_in self.now n }
        ensures even { IfSome result (λ slot. slot.length % 2 ≡ 0) }
        ensures within { IfSome result (λ slot. 0 < slot.length → BLOCK * slot.block + slot.length ≤ length self.now) }
    {
        if n > 15 {
            return None;
        }
        let n = usize::from(n);
        Some(Slot {
            block: word(self.bytes, 4 * n),
            length: word(self.bytes, 4 * n + 2),
            kind: word(self.bytes, 192 + 2 * n),
            name: name_at(self.bytes, 64 + 8 * n),
        })
    }

    /// Returns the bytes of the segment in slot `n`. Returns `None` if `n` is above 15, or if the length of the slot is
    /// 0.
    #[tactic(auto, unfolding(crate::specs::Dictionary::segment_in, crate::specs::Dictionary::slot_fault))]
    pub fn segment(&self, n: u8) -> Option<&'a [u8]>
        ensures segment { option_map (λ bytes. bytes.now) result ≡ segment_in self.now n }
        ensures even { IfSome result (λ bytes. length bytes.now % 2 ≡ 0) }
        ensures size { IfSome result (λ bytes. length bytes.now ≤ 65534) }
    {
        if n > 15 {
            return None;
        }
        let block = usize::from(word(self.bytes, 4 * usize::from(n)));
        let count = usize::from(word(self.bytes, 4 * usize::from(n) + 2));
        if count == 0 {
            return None;
        }
        Some(&self.bytes[BLOCK * block..BLOCK * block + count])
    }
}
