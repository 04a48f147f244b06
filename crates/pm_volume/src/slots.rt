//! Inserting a slot into a directory, and removing a slot from it.

ghost use Rattle.std.specs.Prelude.{◌≡◌, ◌+◌, ◌-◌, ◌++◌, ◌<◌, ◌≤◌, drop, length, replicate, take};
ghost use Rattle.pm_volume.specs.Changes.{with_slot, without_slot};
ghost use Rattle.pm_volume.specs.Directory.{file_count};
ghost use Rattle.pm_volume.specs.declared.fields.TheConstants.{DIRECTORY_SIZE, MOST_FILES, SLOT};

use crate::fields::{HEADER_FILES, SLOT};
use pm_bytes::{set_word, word};

// Inserts `slot` as slot `n` of `directory`, and adds 1 to its number of files. The slots from `n` on move up by one.
pub(crate) fn insert_slot(directory: &mut [u8], n: u16, slot: &[u8])
    requires whole { length directory.old ≡ DIRECTORY_SIZE }
    requires size { length slot.now ≡ SLOT }
    requires free { file_count directory.old < MOST_FILES }
    requires from { 1 ≤ n }
    requires to { n ≤ file_count directory.old + 1 }
    ensures inserted { directory.new ≡ with_slot directory.old n slot.now }
{
    let count = word(directory, HEADER_FILES);
    let begin = SLOT * usize::from(n);
    let end = SLOT * (usize::from(count) + 2);
    push_front(&mut directory[begin..end], slot);
    set_word(directory, HEADER_FILES, count + 1);
}

// Removes slot `n` of `directory`, and subtracts 1 from its number of files. The slots after `n` move down by one.
pub(crate) fn remove_slot(directory: &mut [u8], n: u16)
    requires whole { length directory.old ≡ DIRECTORY_SIZE }
    requires few { file_count directory.old ≤ MOST_FILES }
    requires from { 1 ≤ n }
    requires to { n ≤ file_count directory.old }
    ensures removed { directory.new ≡ without_slot directory.old n }
{
    let count = word(directory, HEADER_FILES);
    let begin = SLOT * usize::from(n);
    let end = SLOT * (usize::from(count) + 1);
    pop_front(&mut directory[begin..end], SLOT);
    set_word(directory, HEADER_FILES, count - 1);
}

// Moves the bytes of `area` up by the length of `slot`, and writes `slot` at the start. The same number of bytes at the
// end of `area` is lost.
fn push_front(area: &mut [u8], slot: &[u8])
    requires room { length slot.now ≤ length area.old }
    ensures moved { area.new ≡ slot.now ++ take (length area.old - length slot.now) area.old }
{
    area.rotate_right(slot.len());
    area[..slot.len()].copy_from_slice(slot);
}

// Removes the first `size` bytes of `area`: the bytes after them move down, and the last `size` bytes become zero.
fn pop_front(area: &mut [u8], size: usize)
    requires room { size ≤ length area.old }
    ensures moved { area.new ≡ drop size area.old ++ replicate size 0 }
{
    area.rotate_left(size);
    let rest = area.len() - size;
    area[rest..].fill(0);
}
