//! The blocks of a volume: their bytes, and whether they are free.
ghost use Rattle.std.specs.Prelude.{◌≡◌, ◌+◌, ◌≤◌, option_map};
ghost use Rattle.std.specs.Bool.{OnTrue};
ghost use Rattle.std.specs.List.{list_all};
ghost use Rattle.pm_undelete.specs.Blocks as blocks;
ghost use Rattle.pm_volume.specs.Directory.{directory_of, files_begin};
ghost use Rattle.pm_volume.specs.Files.{files_of};

use pm_volume::{Copies, Entry, Volume};

/// Returns the bytes of the blocks of `volume` from `first` up to, but not including, `end`.
pub(crate) fn blocks_of(volume: &Volume, first: u16, end: u16) -> &[u8]
    ensures bytes { result.now ≡ blocks.blocks_of volume.now first end }
{
    let entry = Entry {
        name: [0; 16],
        kind: 0,
        first,
        end,
        last_bytes: 512,
        date: 0,
    };
    volume.file(&entry).unwrap_or(&[])
}

/// Returns the block at which files of `volume` begin: 6, or 10 if the directory has a second copy.
pub(crate) fn first_block(volume: &Volume) -> u16
    ensures block { result ≡ files_begin (directory_of volume.now) }
{
    match volume.duplicate() {
        Copies::Single => 6,
        Copies::Same | Copies::Differs => 10,
    }
}

/// Returns whether the file of `entry` has none of the blocks from `first` up to, but not including, `end`.
fn is_outside(entry: &Entry, first: u16, end: u32) -> bool
    ensures value { result ≡ blocks.is_outside first end entry.now }
{
    entry.end <= entry.first || end <= u32::from(entry.first) || entry.end <= first
}

/// Returns whether no file of `volume` has one of the blocks from `first` up to, but not including, `end`.
fn are_outside(volume: &Volume, first: u16, end: u32) -> bool
    ensures value { result ≡ list_all (blocks.is_outside first end) (files_of volume.now) }
{
    let mut entries = volume.entries();
    'files: while let Some(entry) = entries.next() {
        if !is_outside(&entry, first, end) {
            return false;
        }
    }
    true
}

/// Returns whether the blocks of `volume` from `first` up to, but not including, `end` are at least one block, and all
/// of them are free.
fn are_free(volume: &Volume, first: u16, end: u32) -> bool
    ensures value { result ≡ blocks.are_free volume.now first end }
    ensures within { OnTrue result (end ≤ 65535) }
{
    let begin = first_block(volume);
    let blocks = u32::from(volume.blocks());
    u32::from(first) < end && begin <= first && end <= blocks && are_outside(volume, first, end)
}

/// Returns the bytes of the `count` blocks of `volume` from block `first` on.
///
/// Returns `None` if `count` is 0, or if one of the blocks is not free: it is not a block of the volume, it is before
/// the block at which files begin, or a file has it.
pub fn free_blocks(volume: &Volume, first: u16, count: u16) -> Option<&[u8]>
    ensures bytes { option_map (λ bytes. bytes.now) result ≡ blocks.free_bytes volume.now first (first + count) }
{
    let end = u32::from(first) + u32::from(count);
    if !are_free(volume, first, end) {
        return None;
    }
    Some(blocks_of(volume, first, end as u16))
}
