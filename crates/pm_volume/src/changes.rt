//! Changes of an image: adding, removing and renaming files, and writing the header.

ghost use Rattle.std.specs.Prelude.{◌≡◌, ◌+◌, ◌<◌, ◌≤◌, ◌*◌, length};
ghost use Rattle.pm_volume.specs.Changes.{FitsSlot, blocks_for, new_entry, with_directory, with_file, with_kind};
ghost use Rattle.pm_volume.specs.Changes.{with_name, without_file};
ghost use Rattle.pm_volume.specs.Copies.{has_second, mirrored};
ghost use Rattle.pm_volume.specs.Directory.{directory_of, file_count};
ghost use Rattle.pm_volume.specs.Headers.{new_directory};
ghost use Rattle.pm_volume.specs.Made.{begun_at, singled};
ghost use Rattle.pm_volume.specs.Words.{with_word_in, zeros};
ghost use Rattle.pm_volume.specs.declared.fields.TheConstants.{DIRECTORY_END, HEADER_DATE, LONGEST_NAME};
ghost use Rattle.pm_volume.specs.declared.fields.TheConstants.{LONGEST_VOLUME_NAME, MOST_FILES, PAST_SECOND};
ghost use Rattle.pm_bytes.specs.declared.blocks.TheConstants.{BLOCK};

use crate::copies::{has_second, mirror};
use crate::directory::write_directory;
use crate::entry::{Entry, name_field};
use crate::fields::{
    DIRECTORY, DIRECTORY_END, ENTRY_KIND, ENTRY_NAME, HEADER_DATE, HEADER_FILES_BEGIN,
    PAST_DIRECTORY, PAST_SECOND, SECOND, SECOND_END, SLOT,
};
use crate::gap::Gap;
use crate::slots::{insert_slot, remove_slot};
use pm_bytes::{BLOCK, blocks_for, clear, clear_all, set_bytes, set_word};

// Returns the entry of a new file of `size` bytes, which is put into `gap`.
pub(crate) fn new_entry(gap: Gap, name: &str, kind: u8, size: usize, date: u16) -> Entry
    requires named { length name.now ≤ LONGEST_NAME }
    requires room { gap.begin + blocks_for size ≤ gap.end }
    ensures entry { result ≡ new_entry gap name.now kind size date }
    ensures fits { FitsSlot result }
{
    let need = blocks_for(size);
    Entry {
        name: name_field(name.as_bytes()),
        kind: kind % 16,
        first: gap.begin,
        end: gap.begin + need as u16,
        last_bytes: (BLOCK - (BLOCK * need - size)) as u16,
        date,
    }
}

// Adds a file to `image`: inserts `entry` as slot `n` of the directory, and writes `bytes` to the blocks of `entry`.
// The rest of the last block is set to zero. A second copy of the directory is updated.
#[tactic(auto, unfolding(crate::specs::Changes::with_file))]
pub(crate) fn put_file(image: &mut [u8], n: u16, entry: &Entry, bytes: &[u8])
    requires whole { DIRECTORY_END ≤ length image.old }
    requires few { file_count (directory_of image.old) < MOST_FILES }
    requires from { 1 ≤ n }
    requires to { n ≤ file_count (directory_of image.old) + 1 }
    requires room { BLOCK * entry.now.first + BLOCK * blocks_for (length bytes.now) ≤ length image.old }
    ensures image { image.new ≡ mirrored (with_file image.old n entry.now bytes.now) }
{
    let slot = entry.slot();
    insert_slot(&mut image[DIRECTORY..DIRECTORY_END], n, &slot);
    let begin = BLOCK * usize::from(entry.first);
    let end = begin + bytes.len();
    let past = begin + BLOCK * blocks_for(bytes.len());
    set_bytes(image, begin, bytes);
    clear(image, end, past - end);
    mirror(image);
}

// Removes the entry in `slot` from the directory of `image`. The blocks of the file keep their bytes. A second copy of
// the directory is updated.
pub(crate) fn take_file(image: &mut [u8], slot: u16)
    requires whole { DIRECTORY_END ≤ length image.old }
    requires few { file_count (directory_of image.old) ≤ MOST_FILES }
    requires from { 1 ≤ slot }
    requires to { slot ≤ file_count (directory_of image.old) }
    ensures image { image.new ≡ mirrored (without_file image.old slot) }
{
    remove_slot(&mut image[DIRECTORY..DIRECTORY_END], slot);
    mirror(image);
}

// Sets the name of the file in `slot` to `name`. A second copy of the directory is updated.
pub(crate) fn name_file(image: &mut [u8], slot: u16, name: &[u8])
    requires whole { DIRECTORY_END ≤ length image.old }
    requires short { length name.now ≤ LONGEST_NAME }
    requires from { 1 ≤ slot }
    requires to { slot ≤ MOST_FILES }
    ensures image { image.new ≡ mirrored (with_name image.old slot name.now) }
{
    let field = name_field(name);
    let place = SLOT * usize::from(slot) + ENTRY_NAME;
    set_bytes(&mut image[DIRECTORY..DIRECTORY_END], place, &field);
    mirror(image);
}

// Sets the kind of the file in `slot` to the low four bits of `kind`. A second copy of the directory is updated.
pub(crate) fn type_file(image: &mut [u8], slot: u16, kind: u8)
    requires whole { DIRECTORY_END ≤ length image.old }
    requires from { 1 ≤ slot }
    requires to { slot ≤ MOST_FILES }
    ensures image { image.new ≡ mirrored (with_kind image.old slot kind) }
{
    let place = SLOT * usize::from(slot) + ENTRY_KIND;
    let byte = image[DIRECTORY + place];
    let byte = byte - byte % 16 + kind % 16;
    set_bytes(&mut image[DIRECTORY..DIRECTORY_END], place, &[byte]);
    mirror(image);
}

// Sets the last date of the volume to `date`. A second copy of the directory is updated.
pub(crate) fn date_volume(image: &mut [u8], date: u16)
    requires whole { DIRECTORY_END ≤ length image.old }
    ensures image { image.new
        ≡ mirrored (with_directory image.old (with_word_in (directory_of image.old) HEADER_DATE date)) }
{
    set_word(&mut image[DIRECTORY..DIRECTORY_END], HEADER_DATE, date);
    mirror(image);
}

// Writes a directory without files, with the values `past`, `name`, `blocks` and `date`. Files begin at block `past`.
// If `image` then has a second copy of the directory, this copy is overwritten too.
pub(crate) fn renew_directory(image: &mut [u8], past: u16, name: &[u8], blocks: u16, date: u16)
    requires whole { DIRECTORY_END ≤ length image.old }
    requires short { length name.now ≤ LONGEST_VOLUME_NAME }
    ensures image { image.new ≡ mirrored (with_directory image.old (new_directory past name.now blocks date)) }
{
    write_directory(
        &mut image[DIRECTORY..DIRECTORY_END],
        past,
        name,
        blocks,
        date,
    );
    mirror(image);
}

// Writes `past` to the header as the block at which files begin.
fn begin_at(image: &mut [u8], past: u16)
    requires whole { DIRECTORY_END ≤ length image.old }
    ensures begun { image.new ≡ begun_at image.old past }
{
    set_word(
        &mut image[DIRECTORY..DIRECTORY_END],
        HEADER_FILES_BEGIN,
        past,
    );
}

// Sets the block at which files begin to 10, and copies the directory to blocks 6 to 9 if `image` has these blocks.
pub(crate) fn add_second(image: &mut [u8])
    requires whole { DIRECTORY_END ≤ length image.old }
    ensures image { image.new ≡ mirrored (begun_at image.old PAST_SECOND) }
{
    begin_at(image, PAST_SECOND);
    mirror(image);
}

// If `image` has a second copy of the directory, sets the blocks of that copy to zero, and the block at which files
// begin to 6.
#[tactic(auto, unfolding(crate::specs::Made::singled))]
pub(crate) fn drop_second(image: &mut [u8])
    requires whole { DIRECTORY_END ≤ length image.old }
    ensures image { image.new ≡ singled image.old }
{
    if has_second(image) {
        begin_at(image, PAST_DIRECTORY);
        clear_all(&mut image[SECOND..SECOND_END]);
    }
}
