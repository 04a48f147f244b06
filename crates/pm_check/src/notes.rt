//! Notes: facts about an image that break no rule of a volume.
ghost use Rattle.std.specs.Prelude.{◌≡◌, ◌-◌, ◌≤◌, ◌++◌, IfOk, OnOk, length};
ghost use Rattle.pm_volume.specs.Directory.{entry_in};
ghost use Rattle.pm_volume.specs.declared.fields.TheConstants.{DIRECTORY_END, DIRECTORY_SIZE, MOST_FILES, SECOND_END};
ghost use Rattle.pm_check.specs.Notes.{copies_notes, copy_note, differing, differing_from, differs, directory_notes};
ghost use Rattle.pm_check.specs.Notes.{header_name, image_notes, is_good_second, is_plain, notes_from, pair_notes};
ghost use Rattle.pm_check.specs.Notes.{pairs_from, second_notes, shares, slot_notes};
ghost use Rattle.pm_check.specs.Rules.{slot_count};

use crate::forms::{push_forms, push_note};
use crate::note::Note;
use crate::rules::push_directory;
use pm_bytes::{BLOCK, word};
use pm_volume::fields::{
    DIRECTORY, DIRECTORY_END, HEADER_FILES, HEADER_FILES_BEGIN, HEADER_NAME, LONGEST_VOLUME_NAME,
    MOST_FILES, PAST_SECOND, SECOND, SECOND_END, SLOT,
};
use pm_volume::{Entry, entry_at, is_same_name};
use std::alloc::{AllocError, Global};

// Is true if each byte of `name` is from 33 to 126.
#[tactic(auto, unfolding(crate::specs::Notes::is_plain))]
fn is_plain(name: &[u8]) -> bool
    ensures value { result ≡ is_plain name.now }
{
    name.iter().all(|c| 33 <= *c && *c <= 126)
}

/// Returns the characters of the volume's name in the header of `directory`, at most 7.
#[tactic(auto, unfolding(crate::specs::Notes::header_name))]
pub fn header_name(directory: &[u8]) -> &[u8]
    requires whole { length directory.now ≡ DIRECTORY_SIZE }
    ensures name { result.now ≡ header_name directory.now }
{
    let length = usize::from(directory[HEADER_NAME]).min(LONGEST_VOLUME_NAME);
    &directory[HEADER_NAME + 1..HEADER_NAME + 1 + length]
}

/// Is true if the files of the entries `a` and `b` have a block in common.
pub fn shares(a: &Entry, b: &Entry) -> bool
    ensures value { result ≡ shares a.now b.now }
{
    a.first < a.end && b.first < b.end && a.first < b.end && b.first < a.end
}

// Appends the notes for the files in slots `n` and `k` of `directory`: a common block, and equal names.
#[tactic(auto, unfolding(crate::specs::Notes::pair_notes))]
fn push_pair(notes: &mut Vec<Note>, directory: &[u8], n: u16, k: u16) -> Result<(), AllocError>
    requires whole { length directory.now ≡ DIRECTORY_SIZE }
    requires slot { n ≤ MOST_FILES }
    requires other { k ≤ MOST_FILES }
    ensures more { OnOk result (notes.new.items ≡ notes.old.items ++ pair_notes directory.now n k) }
{
    let entry = entry_at(directory, n);
    let other = entry_at(directory, k);
    let has_blocks = shares(&entry, &other);
    let has_name = is_same_name(entry.characters(), other.characters());
    push_note(notes, has_blocks, Note::Shares(n, k))?;
    push_note(notes, has_name, Note::SameName(n, k))
}

// Appends the notes for the file in slot `n` and each file in a slot before `n`: common blocks, and equal names.
fn push_pairs(notes: &mut Vec<Note>, directory: &[u8], n: u16) -> Result<(), AllocError>
    requires whole { length directory.now ≡ DIRECTORY_SIZE }
    requires from { 1 ≤ n }
    requires to { n ≤ MOST_FILES }
    ensures more { OnOk result (notes.new.items ≡ notes.old.items ++ pairs_from directory.now n 1 (n - 1)) }
{
    for k in 1..n {
        push_pair(notes, directory, n, k)?;
    }
    Ok(())
}

// Appends the notes for the file in slot `n` of `directory`.
#[tactic(auto, unfolding(crate::specs::Notes::slot_notes))]
fn push_slot(notes: &mut Vec<Note>, directory: &[u8], n: u16) -> Result<(), AllocError>
    requires whole { length directory.now ≡ DIRECTORY_SIZE }
    requires from { 1 ≤ n }
    requires to { n ≤ MOST_FILES }
    ensures more { OnOk result (notes.new.items ≡ notes.old.items ++ slot_notes directory.now n) }
{
    let entry = entry_at(directory, n);
    push_note(notes, !is_plain(entry.characters()), Note::Name(n))?;
    push_pairs(notes, directory, n)
}

// Appends the notes for all files of `directory`.
fn push_slots(notes: &mut Vec<Note>, directory: &[u8]) -> Result<(), AllocError>
    requires whole { length directory.now ≡ DIRECTORY_SIZE }
    ensures more { OnOk result
        (notes.new.items ≡ notes.old.items ++ notes_from directory.now 1 (slot_count directory.now)) }
{
    let count = word(directory, HEADER_FILES).min(MOST_FILES);
    for n in 1..count + 1 {
        push_slot(notes, directory, n)?;
    }
    Ok(())
}

// Appends the notes for `directory`: its volume name and its files.
#[tactic(auto, unfolding(crate::specs::Notes::directory_notes))]
fn push_directory_notes(notes: &mut Vec<Note>, directory: &[u8]) -> Result<(), AllocError>
    requires whole { length directory.now ≡ DIRECTORY_SIZE }
    ensures more { OnOk result (notes.new.items ≡ notes.old.items ++ directory_notes directory.now) }
{
    push_note(notes, !is_plain(header_name(directory)), Note::VolumeName)?;
    push_slots(notes, directory)
}

// Is true if slot `n` has different bytes in `directory` and in `other`.
#[tactic(auto, unfolding(crate::specs::Notes::differs))]
fn differs(directory: &[u8], other: &[u8], n: u16) -> bool
    requires whole { length directory.now ≡ DIRECTORY_SIZE }
    requires other_whole { length other.now ≡ DIRECTORY_SIZE }
    requires slot { n ≤ MOST_FILES }
    ensures value { result ≡ differs directory.now other.now n }
{
    let at = SLOT * usize::from(n);
    directory[at..at + SLOT] != other[at..at + SLOT]
}

// Returns the note which states that slot `n` differs in the two copies of the directory. Slot 0 is the header.
fn differing(n: u16) -> Note
    ensures note { result ≡ differing n }
{
    if n == 0 {
        Note::HeadersDiffer
    } else {
        Note::SlotsDiffer(n)
    }
}

// Appends a note for each slot in which `directory` and `other` differ.
fn push_differing(notes: &mut Vec<Note>, directory: &[u8], other: &[u8]) -> Result<(), AllocError>
    requires whole { length directory.now ≡ DIRECTORY_SIZE }
    requires other_whole { length other.now ≡ DIRECTORY_SIZE }
    ensures more { OnOk result
        (notes.new.items ≡ notes.old.items ++ differing_from directory.now other.now 0 78) }
{
    for n in 0..78 {
        push_note(notes, differs(directory, other, n), differing(n))?;
    }
    Ok(())
}

// Returns the note for a second copy that is good if `is_good` is true, and damaged otherwise.
fn copy_note(is_good: bool) -> Note
    ensures note { result ≡ copy_note is_good }
{
    if is_good {
        Note::SecondGood
    } else {
        Note::SecondDamaged
    }
}

// Appends the note for the state of the second copy `second`, and a note for each slot in which it differs from
// `directory`. Appends nothing if `directory` does not state that a second copy exists and `is_good` is false.
#[tactic(auto, unfolding(crate::specs::Notes::second_notes))]
fn push_second(
    notes: &mut Vec<Note>,
    directory: &[u8],
    second: &[u8],
    is_good: bool,
) -> Result<(), AllocError>
    requires whole { length directory.now ≡ DIRECTORY_SIZE }
    requires second_whole { length second.now ≡ DIRECTORY_SIZE }
    ensures more { OnOk result (notes.new.items ≡ notes.old.items ++ second_notes is_good directory.now second.now) }
{
    if word(directory, HEADER_FILES_BEGIN) != PAST_SECOND && !is_good {
        return Ok(());
    }
    notes.push(copy_note(is_good))?;
    push_differing(notes, directory, second)
}

// Is true if `second` breaks no rule as the directory of an image of `blocks` blocks, and states that files begin at
// block 10, as a volume with a second copy does.
#[tactic(auto, unfolding(crate::specs::Notes::is_good_second))]
fn is_good_second(alloc: Global, second: &[u8], blocks: usize) -> Result<bool, AllocError>
    requires whole { length second.now ≡ DIRECTORY_SIZE }
    ensures value { IfOk result (λ good. good ≡ is_good_second second.now blocks) }
{
    let mut found = Vec::new(alloc);
    push_directory(&mut found, second, blocks)?;
    Ok(word(second, HEADER_FILES_BEGIN) == PAST_SECOND && found.len() == 0)
}

// Appends the notes for the second copy of the directory of `image`, if `image` is long enough to have one.
#[tactic(auto, unfolding(crate::specs::Notes::copies_notes))]
fn push_copies(alloc: Global, notes: &mut Vec<Note>, image: &[u8]) -> Result<(), AllocError>
    requires long { DIRECTORY_END ≤ length image.now }
    ensures more { OnOk result (notes.new.items ≡ notes.old.items ++ copies_notes image.now) }
{
    if image.len() < SECOND_END {
        return Ok(());
    }
    let second = &image[SECOND..SECOND_END];
    let is_good = is_good_second(alloc, second, image.len() / BLOCK)?;
    push_second(notes, &image[DIRECTORY..DIRECTORY_END], second, is_good)
}

/// Returns the notes for `image`: facts that break no rule.
///
/// The notes state in which other formats `image` has a directory header. If `image` has a directory, they also state
/// facts about the names and blocks of files and about the second copy.
#[tactic(auto, unfolding(crate::specs::Notes::image_notes))]
pub fn image_notes(alloc: Global, image: &[u8]) -> Result<Vec<Note>, AllocError>
    ensures notes { IfOk result (λ notes. notes.items ≡ image_notes image.now) }
{
    let mut notes = Vec::new(alloc);
    push_forms(&mut notes, image)?;
    if image.len() >= DIRECTORY_END {
        push_directory_notes(&mut notes, &image[DIRECTORY..DIRECTORY_END])?;
        push_copies(alloc, &mut notes, image)?;
    }
    Ok(notes)
}
