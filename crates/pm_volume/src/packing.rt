//! Moving files together, so that the free blocks are after the files.

ghost use Rattle.std.specs.Prelude.{◌≡◌, ◌+◌, ◌-◌, ◌<◌, ◌≤◌, ◌*◌, length, slice_range};
ghost use Rattle.pm_volume.specs.Changes.{with_directory};
ghost use Rattle.pm_volume.specs.Directory.{IsVolume, block_count, directory_of, entry_in, file_count, files_begin};
ghost use Rattle.pm_volume.specs.Packing.{new_place, packed_image, with_moved, with_places};
ghost use Rattle.pm_volume.specs.Words.{with_word_in, written};
ghost use Rattle.pm_volume.specs.declared.fields.TheConstants.{DIRECTORY_END, MOST_FILES, PAST_DIRECTORY};
ghost use Rattle.pm_bytes.specs.declared.blocks.TheConstants.{BLOCK};

use crate::directory::entry_at;
use crate::entry::Entry;
use crate::fields::{
    DIRECTORY, DIRECTORY_END, ENTRY_END, HEADER_BLOCKS, HEADER_FILES, HEADER_FILES_BEGIN, SLOT,
};
use crate::kinds::BAD_BLOCKS;
use pm_bytes::{BLOCK, set_word, word};

// Moves each file of the volume `image` down to the end of the file before it. Bad blocks are not moved.
pub(crate) fn pack_files(image: &mut Vec<u8>)
    requires volume { IsVolume image.old.items }
    ensures packed { image.new.items ≡ packed_image image.old.items 1
        (files_begin (directory_of image.old.items)) (file_count (directory_of image.old.items)) }
    ensures blocks { block_count (directory_of image.old.items) < 65536 }
{
    let directory = &image[DIRECTORY..DIRECTORY_END];
    let _blocks = word(directory, HEADER_BLOCKS); // for the second clause
    let count = word(directory, HEADER_FILES);
    let mut from = word(directory, HEADER_FILES_BEGIN);
    for n in 1..count + 1 {
        from = pack_file(image, n, from);
    }
}

// Moves the file in slot `n` down to block `from`, where the file before it ends. Bad blocks are not moved. Returns the
// block after the file at its new position.
fn pack_file(image: &mut Vec<u8>, n: u16, from: u16) -> u16
    requires whole { DIRECTORY_END ≤ length image.old.items }
    requires slot { n ≤ MOST_FILES }
    requires past { PAST_DIRECTORY ≤ from }
    requires after { from ≤ (entry_in (directory_of image.old.items) n).first }
    requires ordered { (entry_in (directory_of image.old.items) n).first
        ≤ (entry_in (directory_of image.old.items) n).end }
    requires within { BLOCK * (entry_in (directory_of image.old.items) n).end ≤ length image.old.items }
    ensures moved { image.new.items ≡ with_moved image.old.items n (entry_in (directory_of image.old.items) n)
        (new_place from (entry_in (directory_of image.old.items) n)) }
    ensures end { result ≡ new_place from (entry_in (directory_of image.old.items) n)
        + ((entry_in (directory_of image.old.items) n).end - (entry_in (directory_of image.old.items) n).first) }
{
    let entry = entry_at(&image[DIRECTORY..DIRECTORY_END], n);
    let to = new_place(&entry, from);
    let end = to + (entry.end - entry.first);
    move_part(
        image,
        BLOCK * usize::from(entry.first),
        BLOCK * usize::from(entry.end),
        BLOCK * usize::from(to),
    );
    place_file(image, n, to, end);
    end
}

// Returns the new first block of the file of `entry`, if the file before it now ends before block `from`. This is
// `from`, except for bad blocks, which are not moved.
fn new_place(entry: &Entry, from: u16) -> u16
    ensures place { result ≡ new_place from entry.now }
{
    if entry.kind == BAD_BLOCKS {
        entry.first
    } else {
        from
    }
}

// Copies the bytes from offset `begin` up to, but not including, offset `end` to offset `to`. The ranges may overlap.
fn move_part(bytes: &mut Vec<u8>, begin: usize, end: usize, to: usize)
    requires order { begin ≤ end }
    requires source { end ≤ length bytes.old.items }
    requires down { to ≤ begin }
    ensures moved { bytes.new.items ≡ written bytes.old.items to (slice_range bytes.old.items begin end) }
{
    bytes.copy_within(begin..end, to);
}

// Writes the block numbers `first` and `end` to slot `n` of the directory.
fn place_file(image: &mut [u8], n: u16, first: u16, end: u16)
    requires whole { DIRECTORY_END ≤ length image.old }
    requires slot { n ≤ MOST_FILES }
    ensures placed { image.new ≡ with_directory image.old (with_places (directory_of image.old) n first end) }
{
    let directory = &mut image[DIRECTORY..DIRECTORY_END];
    let place = SLOT * usize::from(n);
    set_word(directory, place, first);
    set_word(directory, place + ENTRY_END, end);
}
