//! The directory: its header, its slots and the list of files.

ghost use Rattle.std.specs.Prelude.{◌≡◌, ◌+◌, ◌-◌, ◌<◌, ◌≤◌, ◌*◌, length, IfSome};
ghost use Rattle.std.specs.List.{list_any};
ghost use Rattle.pm_volume.specs.Changes.{is_named_beside, slot_named, slot_numbered};
ghost use Rattle.pm_volume.specs.Files.{is_named};
ghost use Rattle.pm_volume.specs.Headers.{new_directory};
ghost use Rattle.pm_volume.specs.Directory.{block_count, directory_fault, entries_from, entry_in, file_count};
ghost use Rattle.pm_volume.specs.Directory.{files_begin, files_in, is_header};
ghost use Rattle.pm_volume.specs.Entries.{entries_fault};
ghost use Rattle.pm_volume.specs.declared.fields.TheConstants.{DIRECTORY_SIZE, LONGEST_VOLUME_NAME, MOST_FILES};

use crate::entry::{Entry, name_field};
use crate::fault::VolumeFault;
use crate::fields::{
    HEADER_BLOCKS, HEADER_DATE, HEADER_FILES, HEADER_FILES_BEGIN, HEADER_NAME, LONGEST_VOLUME_NAME,
    MOST_FILES, PAST_DIRECTORY, PAST_SECOND, SLOT,
};
use pm_bytes::{clear_all, set_bytes, set_word, word};
use std::marker::Model;

/// Returns the entry in slot `n` of `directory`. The entry may be invalid.
pub fn entry_at(directory: &[u8], n: u16) -> Entry
    requires whole { length directory.now ≡ DIRECTORY_SIZE }
    requires slot { n ≤ MOST_FILES }
    ensures entry { result ≡ entry_in directory.now n }
{
    let at = SLOT * usize::from(n);
    Entry::read(&directory[at..at + SLOT])
}

// Is true if the header of `directory` is valid.
fn is_header(directory: &[u8]) -> bool
    requires whole { length directory.now ≡ DIRECTORY_SIZE }
    ensures header { result ≡ is_header directory.now }
{
    let past = word(directory, HEADER_FILES_BEGIN);
    let length = usize::from(directory[HEADER_NAME]);
    1 <= length
        && length <= LONGEST_VOLUME_NAME
        && (past == PAST_DIRECTORY || past == PAST_SECOND)
        && past <= word(directory, HEADER_BLOCKS)
}

// Returns the first fault of `directory`, as the directory of an image of `blocks` blocks.
#[tactic(auto, unfolding(crate::specs::Directory::directory_fault))]
pub(crate) fn fault_of_directory(directory: &[u8], blocks: usize) -> Option<VolumeFault>
    requires whole { length directory.now ≡ DIRECTORY_SIZE }
    ensures first { result ≡ directory_fault directory.now blocks }
{
    if !is_header(directory) {
        return Some(VolumeFault::BadHeader);
    }
    if blocks < usize::from(word(directory, HEADER_BLOCKS)) {
        return Some(VolumeFault::PastEnd);
    }
    if word(directory, HEADER_FILES) > MOST_FILES {
        return Some(VolumeFault::TooManyFiles);
    }
    fault_of_entries(directory)
}

// Returns the first fault of the entries of `directory`.
#[tactic(auto, using(crate::proofs::DirectoryLaws::fault_steps))]
fn fault_of_entries(directory: &[u8]) -> Option<VolumeFault>
    requires whole { length directory.now ≡ DIRECTORY_SIZE }
    requires few { file_count directory.now ≤ MOST_FILES }
    ensures first { result ≡ entries_fault (block_count directory.now) 1 (files_begin directory.now)
        (files_in directory.now) }
{
    let blocks = word(directory, HEADER_BLOCKS);
    let mut from = word(directory, HEADER_FILES_BEGIN);
    for n in 1..word(directory, HEADER_FILES) + 1 {
        let entry = entry_at(directory, n);
        if !entry.is_sound(from) {
            return Some(VolumeFault::BadEntry(n));
        }
        if entry.end > blocks {
            return Some(VolumeFault::PastEnd);
        }
        from = entry.end;
    }
    None
}

// Returns the slot of the first file with the name `name`. Case is ignored.
#[tactic(auto, using(crate::proofs::GapLaws::slot_steps))]
pub(crate) fn slot_named(directory: &[u8], name: &str) -> Option<u16>
    requires whole { length directory.now ≡ DIRECTORY_SIZE }
    requires few { file_count directory.now ≤ MOST_FILES }
    ensures first { result ≡ slot_named directory.now name.now }
    ensures within { IfSome result (λ n. (1 ≤ n) × (n ≤ file_count directory.now)) }
{
    for n in 1..word(directory, HEADER_FILES) + 1 {
        if entry_at(directory, n).is_named(name) {
            return Some(n);
        }
    }
    None
}

// Returns `n` if slot `n` contains a file, and `None` otherwise.
pub(crate) fn slot_numbered(directory: &[u8], n: u16) -> Option<u16>
    requires whole { length directory.now ≡ DIRECTORY_SIZE }
    ensures slot { result ≡ slot_numbered directory.now n }
    ensures within { IfSome result (λ n. (1 ≤ n) × (n ≤ file_count directory.now)) }
{
    if 1 <= n && n <= word(directory, HEADER_FILES) {
        Some(n)
    } else {
        None
    }
}

// Is true if a file in a slot other than `slot` has the name `name`. Case is ignored.
pub(crate) fn is_named_beside(directory: &[u8], slot: u16, name: &str) -> bool
    requires whole { length directory.now ≡ DIRECTORY_SIZE }
    requires few { file_count directory.now ≤ MOST_FILES }
    requires from { 1 ≤ slot }
    requires to { slot ≤ file_count directory.now }
    ensures named { result ≡ is_named_beside directory.now slot name.now }
{
    has_name(directory, 1, slot, name)
        || has_name(directory, slot + 1, word(directory, HEADER_FILES) + 1, name)
}

// Is true if a file in the slots from `from` up to, but not including, `to` has the name `name`.
#[tactic(auto, using(crate::proofs::GapLaws::any_steps))]
fn has_name(directory: &[u8], from: u16, to: u16, name: &str) -> bool
    requires whole { length directory.now ≡ DIRECTORY_SIZE }
    requires slots { to ≤ MOST_FILES + 1 }
    ensures named { result ≡ list_any (is_named name.now) (entries_from directory.now from (to - from)) }
{
    for n in from..to {
        if entry_at(directory, n).is_named(name) {
            return true;
        }
    }
    false
}

// Overwrites `directory` with a directory without files. Files begin at block `past`, the volume has the name `name`,
// `blocks` blocks and the last date `date`. All other bytes are zero.
pub(crate) fn write_directory(directory: &mut [u8], past: u16, name: &[u8], blocks: u16, date: u16)
    requires whole { length directory.old ≡ DIRECTORY_SIZE }
    requires short { length name.now ≤ LONGEST_VOLUME_NAME }
    ensures directory { directory.new ≡ new_directory past name.now blocks date }
{
    let field = name_field(name);
    clear_all(directory);
    set_word(directory, HEADER_FILES_BEGIN, past);
    set_bytes(directory, HEADER_NAME, &field[..LONGEST_VOLUME_NAME + 1]);
    set_word(directory, HEADER_BLOCKS, blocks);
    set_word(directory, HEADER_DATE, date);
}

/// An iterator over the entries of a volume, in block order. Contracts describe it as the list of the entries that it
/// has not yet returned.
#[derive(Drop)]
pub struct Entries<'a> {
    directory: &'a [u8],
    next: u16,
    left: u16,
}

impl<'a> Model for Entries<'a> {
    ghost use Rattle.std.specs.Prelude.{◌≡◌, ◌≤◌, ◌+◌, List, length};
    ghost use Rattle.pm_volume.specs.declared.entry.Entry.{Entry};
    ghost use Rattle.pm_volume.specs.Directory.{entries_from};
    ghost use Rattle.pm_volume.specs.declared.fields.TheConstants.{DIRECTORY_SIZE, MOST_FILES};

    ghost Value = { List Entry };

    ghost view = { λ s. entries_from s.directory.now s.next s.left };

    ghost invariant = { λ s. (length s.directory.now ≡ DIRECTORY_SIZE) × (s.next + s.left ≤ MOST_FILES + 1) };
}

impl<'a> Entries<'a> {
    // Returns an iterator over the entries of `directory`.
    #[tactic(auto, using(crate::proofs::SlotChanges::entry_counts))]
    pub(crate) fn new(directory: &'a [u8]) -> Entries<'a>
        requires whole { length directory.now ≡ DIRECTORY_SIZE }
        requires few { file_count directory.now ≤ MOST_FILES }
        ensures files { result ≡ files_in directory.now }
        ensures count { length result ≡ file_count directory.now }
    {
        Entries {
            directory,
            next: 1,
            left: word(directory, HEADER_FILES),
        }
    }
}

impl<'a> Iterator for Entries<'a> {
    ghost use Rattle.std.specs.Iterator.{YieldsFirst, item_count};

    type Item = Entry;

    ghost next_gives = { YieldsFirst (λ s. s) };

    ghost remaining = { item_count (λ s. s) };

    #[tactic(auto, unfolding(crate::specs::Directory::entries_from))]
    fn next(&mut self) -> Option<Entry> {
        if self.left == 0 {
            return None;
        }
        let entry = entry_at(self.directory, self.next);
        self.next += 1;
        self.left -= 1;
        Some(entry)
    }
}
