//! The valid entries of a directory. Each entry is checked without regard to the other entries.
ghost use Rattle.std.specs.Prelude.{◌≡◌, ◌+◌, ◌≤◌, ◌++◌, IfOk, OnOk, [], length};
ghost use Rattle.pm_volume.specs.declared.fields.TheConstants.{DIRECTORY_SIZE, MOST_FILES};
ghost use Rattle.pm_check.specs.Believing.{is_empty, left_from, left_of, placed, sharing, taken_from, taken_with};
ghost use Rattle.pm_check.specs.Believing.{why_left};

use crate::finding::SlotFinding;
use crate::notes::shares;
use crate::rules::has_wrong_last;
use pm_volume::{Entry, entry_at};
use std::alloc::{AllocError, Global};

/// An entry whose file is not copied to the new volume, because the entry is invalid.
#[derive(Clone, Copy)]
pub struct Left {
    /// The slot of the entry.
    pub slot: u16,
    /// The first rule that the entry breaks, checked without regard to the other entries.
    pub finding: SlotFinding,
}

/// An entry whose file is copied to the new volume.
#[derive(Clone, Copy)]
pub struct Taken {
    /// The slot of the entry.
    pub slot: u16,
    /// The entry itself.
    pub entry: Entry,
}

// Is true if the slot of `entry` is empty: the name has no characters, and the block numbers are 0.
fn is_empty(entry: &Entry) -> bool
    ensures value { result ≡ is_empty entry.now }
{
    entry.name[0] == 0 && entry.first == 0 && entry.end == 0
}

// Returns the first rule that `entry` breaks, without regard to other entries. The image has `blocks` blocks, and its
// files begin at block `lowest` or later.
#[tactic(auto, unfolding(crate::specs::Believing::why_left))]
fn why_left(lowest: u16, blocks: u16, entry: &Entry) -> Option<SlotFinding>
    ensures finding { result ≡ why_left lowest blocks entry.now }
{
    let length = entry.name[0];
    if length < 1 || 15 < length {
        Some(SlotFinding::Name(length))
    } else if entry.first < lowest {
        Some(SlotFinding::First(entry.first, lowest))
    } else if entry.end < entry.first {
        Some(SlotFinding::End(entry.end, entry.first))
    } else if blocks < entry.end {
        Some(SlotFinding::PastVolume(entry.end, blocks))
    } else if has_wrong_last(entry) {
        Some(SlotFinding::LastBytes(entry.last_bytes))
    } else {
        None
    }
}

// Appends the entry in slot `slot` to `left` if `why` is a broken rule and the slot is not empty.
fn push_left(
    left: &mut Vec<Left>,
    slot: u16,
    entry: &Entry,
    why: Option<SlotFinding>,
) -> Result<(), AllocError>
    ensures more { OnOk result (left.new.items ≡ left.old.items ++ left_of slot (is_empty entry.now) why) }
{
    match why {
        Some(finding) if !is_empty(entry) => Ok(left.push(Left { slot, finding })?),
        _ => Ok(()),
    }
}

// Inserts `file` into `taken`, before the first file that begins at a higher block.
fn place(taken: &mut Vec<Taken>, file: Taken) -> Result<(), AllocError>
    ensures placed { OnOk result (taken.new.items ≡ placed file taken.old.items) }
{
    for i in 0..taken.len() {
        if file.entry.first < taken[i].entry.first {
            taken.insert(i, file)?;
            return Ok(());
        }
    }
    Ok(taken.push(file)?)
}

// Inserts the entry in slot `slot` into `taken` if `why` is `None`: the entry breaks no rule.
fn push_taken(
    taken: &mut Vec<Taken>,
    slot: u16,
    entry: Entry,
    why: Option<SlotFinding>,
) -> Result<(), AllocError>
    ensures more { OnOk result (taken.new.items ≡ taken_with slot entry why taken.old.items) }
{
    match why {
        None => place(taken, Taken { slot, entry }),
        Some(_) => Ok(()),
    }
}

/// Returns the files to copy, in the order of their first blocks, and the invalid entries, in the order of their slots.
///
/// `directory` is a directory of 2,048 bytes in an image of `blocks` blocks whose files begin at block `lowest` or
/// later.
pub fn taken_and_left(
    alloc: Global,
    directory: &[u8],
    lowest: u16,
    blocks: u16,
) -> Result<(Vec<Taken>, Vec<Left>), AllocError>
    requires whole { length directory.now ≡ DIRECTORY_SIZE }
    ensures taken { IfOk result (λ both. both.0.items ≡ taken_from directory.now lowest blocks 1 77 []) }
    ensures few { IfOk result (λ both. length both.0.items ≤ 77) }
    ensures left { IfOk result (λ both. both.1.items ≡ left_from directory.now lowest blocks 1 77) }
{
    let mut taken = Vec::new(alloc);
    let mut left = Vec::new(alloc);
    for n in 1..78 {
        let entry = entry_at(directory, n);
        let why = why_left(lowest, blocks, &entry);
        push_left(&mut left, n, &entry, why)?;
        push_taken(&mut taken, n, entry, why)?;
    }
    Ok((taken, left))
}

/// Returns the first file of `taken` that is in another slot than `file` and has a block in common with `file`.
#[tactic(auto, unfolding(crate::specs::Believing::sharing))]
pub fn sharing(file: &Taken, taken: &[Taken]) -> Option<Taken>
    ensures first { result ≡ sharing file.now taken.now }
{
    taken.iter().copied().find(|other| other.slot != file.slot && shares(&other.entry, &file.entry))
}
