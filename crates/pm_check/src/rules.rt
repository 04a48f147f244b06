//! The rules of a volume that an image breaks. Each rule is checked without regard to the others. A finding is a broken
//! rule.
ghost use Rattle.std.specs.Prelude.{◌≡◌, ◌≤◌, ◌++◌, IfOk, OnOk, length};
ghost use Rattle.pm_volume.specs.declared.fields.TheConstants.{DIRECTORY_SIZE, MOST_FILES};
ghost use Rattle.pm_check.specs.Rules.{directory_findings, findings_from, found_if, has_wrong_last, header_findings};
ghost use Rattle.pm_check.specs.Rules.{image_findings, is_out_of_order, slot_count, slot_findings};

use crate::finding::{Finding, SlotFinding};
use pm_bytes::{BLOCK, word};
use pm_volume::fields::{
    DIRECTORY, DIRECTORY_END, HEADER_BLOCKS, HEADER_FILES, HEADER_FILES_BEGIN, HEADER_NAME,
    MOST_FILES, PAST_DIRECTORY, PAST_SECOND,
};
use pm_volume::{Entry, entry_at};
use std::alloc::{AllocError, Global};

// Appends `finding` to `found` if `is_broken` is true.
fn push_if(found: &mut Vec<Finding>, is_broken: bool, finding: Finding) -> Result<(), AllocError>
    ensures more { OnOk result (found.new.items ≡ found.old.items ++ found_if is_broken finding) }
{
    if is_broken {
        found.push(finding)?;
    }
    Ok(())
}

// Appends the finding `finding` for slot `slot` to `found` if `is_broken` is true.
fn push_of(
    found: &mut Vec<Finding>,
    slot: u16,
    is_broken: bool,
    finding: SlotFinding,
) -> Result<(), AllocError>
    ensures more { OnOk result
        (found.new.items ≡ found.old.items ++ found_if is_broken (Finding.Slot slot finding)) }
{
    push_if(found, is_broken, Finding::Slot(slot, finding))
}

// Appends the findings for the header of `directory`, in an image of `blocks` blocks.
#[tactic(auto, unfolding(crate::specs::Rules::header_findings))]
fn push_header(found: &mut Vec<Finding>, directory: &[u8], blocks: usize) -> Result<(), AllocError>
    requires whole { length directory.now ≡ DIRECTORY_SIZE }
    ensures more { OnOk result (found.new.items ≡ found.old.items ++ header_findings directory.now blocks) }
{
    let length = directory[HEADER_NAME];
    let begin = word(directory, HEADER_FILES_BEGIN);
    let count = word(directory, HEADER_BLOCKS);
    let files = word(directory, HEADER_FILES);
    push_if(found, length < 1 || 7 < length, Finding::VolumeName(length))?;
    push_if(
        found,
        begin != PAST_DIRECTORY && begin != PAST_SECOND,
        Finding::FilesBegin(begin),
    )?;
    push_if(found, count < begin, Finding::FewBlocks(count, begin))?;
    push_if(
        found,
        blocks < usize::from(count),
        Finding::PastImage(count, blocks),
    )?;
    push_if(found, MOST_FILES < files, Finding::ManyFiles(files))
}

/// Is true if the file of `entry` has blocks, and the number of bytes in its last block is not from 1 to 512.
pub fn has_wrong_last(entry: &Entry) -> bool
    ensures value { result ≡ has_wrong_last entry.now }
{
    entry.first < entry.end && (entry.last_bytes < 1 || 512 < entry.last_bytes)
}

// Is true if the entry in slot `n`, which begins at block `first`, begins before block `before`, the end of the entry
// in the slot before. Is false for slot 1.
fn is_out_of_order(n: u16, first: u16, before: u16) -> bool
    ensures value { result ≡ is_out_of_order n first before }
{
    1 < n && first < before
}

// Appends the findings for the entry in slot `n` of `directory`.
#[tactic(auto, unfolding(crate::specs::Rules::slot_findings))]
fn push_slot(found: &mut Vec<Finding>, directory: &[u8], n: u16) -> Result<(), AllocError>
    requires whole { length directory.now ≡ DIRECTORY_SIZE }
    requires from { 1 ≤ n }
    requires to { n ≤ MOST_FILES }
    ensures more { OnOk result (found.new.items ≡ found.old.items ++ slot_findings directory.now n) }
{
    let entry = entry_at(directory, n);
    let begin = word(directory, HEADER_FILES_BEGIN);
    let blocks = word(directory, HEADER_BLOCKS);
    let before = entry_at(directory, n - 1).end;
    let Entry {
        first,
        end,
        last_bytes,
        ..
    } = entry;
    let length = entry.name[0];
    push_of(
        found,
        n,
        length < 1 || 15 < length,
        SlotFinding::Name(length),
    )?;
    push_of(found, n, first < begin, SlotFinding::First(first, begin))?;
    push_of(found, n, end < first, SlotFinding::End(end, first))?;
    push_of(found, n, blocks < end, SlotFinding::PastVolume(end, blocks))?;
    let last = SlotFinding::LastBytes(last_bytes);
    push_of(found, n, has_wrong_last(&entry), last)?;
    let order = SlotFinding::Order(first, before);
    push_of(found, n, is_out_of_order(n, first, before), order)
}

// Appends the findings for the entries of `directory`.
fn push_slots(found: &mut Vec<Finding>, directory: &[u8]) -> Result<(), AllocError>
    requires whole { length directory.now ≡ DIRECTORY_SIZE }
    ensures more { OnOk result
        (found.new.items ≡ found.old.items ++ findings_from directory.now 1 (slot_count directory.now)) }
{
    let count = word(directory, HEADER_FILES).min(MOST_FILES);
    for n in 1..count + 1 {
        push_slot(found, directory, n)?;
    }
    Ok(())
}

/// Appends the findings for `directory`, in an image of `blocks` blocks.
#[tactic(auto, unfolding(crate::specs::Rules::directory_findings))]
pub fn push_directory(
    found: &mut Vec<Finding>,
    directory: &[u8],
    blocks: usize,
) -> Result<(), AllocError>
    requires whole { length directory.now ≡ DIRECTORY_SIZE }
    ensures more { OnOk result (found.new.items ≡ found.old.items ++ directory_findings directory.now blocks) }
{
    push_header(found, directory, blocks)?;
    push_slots(found, directory)
}

/// Returns the rules that `image` breaks: the rules of its length, and the rules of its directory if it has one.
#[tactic(auto, unfolding(crate::specs::Rules::image_findings))]
pub fn image_findings(alloc: Global, image: &[u8]) -> Result<Vec<Finding>, AllocError>
    ensures findings { IfOk result (λ found. found.items ≡ image_findings image.now) }
{
    let mut found = Vec::new(alloc);
    let bytes = image.len();
    push_if(&mut found, bytes % BLOCK != 0, Finding::NotBlocks(bytes))?;
    if bytes < DIRECTORY_END {
        found.push(Finding::TooShort(bytes))?;
    } else {
        push_directory(&mut found, &image[DIRECTORY..DIRECTORY_END], bytes / BLOCK)?;
    }
    Ok(found)
}
