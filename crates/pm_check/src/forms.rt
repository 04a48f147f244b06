//! Other formats of images. A format is recognized by a valid directory header at the offset at which this format has
//! the header. A .2mg file has a header of its own before the image.
ghost use Rattle.std.specs.Prelude.{◌≡◌, ◌+◌, ◌≤◌, ◌<◌, ◌++◌, OnOk, length};
ghost use Rattle.std.specs.Bool.{OnTrue};
ghost use Rattle.pm_volume.specs.declared.fields.TheConstants.{SLOT};
ghost use Rattle.pm_check.specs.Forms.{form_notes, form_seen, front_begin, front_form, front_notes, front_size};
ghost use Rattle.pm_check.specs.Forms.{has_front, has_heading, heading_length, heading_word, is_heading};
ghost use Rattle.pm_check.specs.Forms.{is_in_blocks, is_in_sectors, is_swapped, long_in, note_if};

use crate::note::{Form, Note};
use pm_bytes::{BLOCK, word};
use pm_volume::fields::{
    DIRECTORY, HEADER_BLOCKS, HEADER_FILES, HEADER_FILES_BEGIN, MOST_FILES, PAST_DIRECTORY,
    PAST_SECOND, SLOT,
};
use std::alloc::AllocError;

/// The number of bytes of a disk of 280 blocks, the only size for which DOS sector order is recognized.
const SECTORS: usize = 143360;

/// The offset of the directory header on a disk in DOS sector order. The sector at this offset is the first half of
/// block 2.
const SECTORS_HEADING: usize = 2816;

/// Appends `note` to `notes` if `holds` is true.
pub fn push_note(notes: &mut Vec<Note>, holds: bool, note: Note) -> Result<(), AllocError>
    ensures more { OnOk result (notes.new.items ≡ notes.old.items ++ note_if holds note) }
{
    if holds {
        notes.push(note)?;
    }
    Ok(())
}

// Returns the word of `header` at offset `place`. If `is_swapped` is true, the two bytes of each word of the image are
// exchanged.
#[tactic(auto, unfolding(crate::specs::Forms::heading_word))]
fn heading_word(header: &[u8], place: usize, is_swapped: bool) -> u16
    requires room { place + 2 ≤ length header.now }
    ensures word { result ≡ heading_word is_swapped header.now place }
{
    let word = word(header, place);
    if is_swapped {
        word % 256 * 256 + word / 256
    } else {
        word
    }
}

// Returns the number of characters of the volume's name in `header`. If `is_swapped` is true, the two bytes of each
// word are exchanged.
fn heading_length(header: &[u8], is_swapped: bool) -> u8
    requires size { length header.now ≡ SLOT }
    ensures length { result ≡ heading_length is_swapped header.now }
{
    if is_swapped { header[7] } else { header[6] }
}

// Is true if `header` is a valid directory header of a volume in an image of `blocks` blocks. If `is_swapped` is true,
// the two bytes of each word are exchanged.
#[tactic(auto, unfolding(crate::specs::Forms::is_heading))]
fn is_heading(header: &[u8], blocks: usize, is_swapped: bool) -> bool
    requires size { length header.now ≡ SLOT }
    ensures value { result ≡ is_heading is_swapped header.now blocks }
{
    let length = heading_length(header, is_swapped);
    let begin = heading_word(header, HEADER_FILES_BEGIN, is_swapped);
    let count = heading_word(header, HEADER_BLOCKS, is_swapped);
    let files = heading_word(header, HEADER_FILES, is_swapped);
    1 <= length
        && length <= 7
        && (begin == PAST_DIRECTORY || begin == PAST_SECOND)
        && begin <= count
        && usize::from(count) <= blocks
        && files <= MOST_FILES
}

// Is true if `image` has a valid directory header at offset `place`. The parameters `blocks` and `is_swapped` are those
// of `is_heading`.
#[tactic(auto, unfolding(crate::specs::Forms::has_heading))]
fn has_heading(image: &[u8], place: usize, blocks: usize, is_swapped: bool) -> bool
    requires place { place ≤ 4294970111 }
    ensures value { result ≡ has_heading image.now place blocks is_swapped }
{
    if image.len() < place + SLOT {
        return false;
    }
    is_heading(&image[place..place + SLOT], blocks, is_swapped)
}

// Is true if the `size` bytes of `image` from offset `begin` on have a directory header where blocks in order have it.
fn is_in_blocks(image: &[u8], begin: usize, size: usize) -> bool
    requires place { begin < 4294967296 }
    ensures value { result ≡ is_in_blocks image.now begin size }
{
    has_heading(image, begin + DIRECTORY, size / BLOCK, false)
}

// Is true if the `size` bytes of `image` from offset `begin` on have a directory header where blocks with exchanged
// bytes in each word have it.
fn is_swapped(image: &[u8], begin: usize, size: usize) -> bool
    requires place { begin < 4294967296 }
    ensures value { result ≡ is_swapped image.now begin size }
{
    has_heading(image, begin + DIRECTORY, size / BLOCK, true)
}

// Is true if the `size` bytes of `image` from offset `begin` on have a directory header where a disk in DOS sector
// order has it.
fn is_in_sectors(image: &[u8], begin: usize, size: usize) -> bool
    requires place { begin < 4294967296 }
    ensures value { result ≡ is_in_sectors image.now begin size }
{
    size == SECTORS && has_heading(image, begin + SECTORS_HEADING, 280, false)
}

/// Returns the number in the four bytes of `image` at offset `place`, the low byte first.
///
/// The four bytes must be in `image`.
#[tactic(auto, unfolding(crate::specs::Forms::long_in))]
pub fn long(image: &[u8], place: usize) -> usize
    requires room { place + 4 ≤ length image.now }
    ensures long { result ≡ long_in image.now place }
    ensures most { result < 4294967296 }
{
    usize::from(word(image, place)) + 65536 * usize::from(word(image, place + 2))
}

/// Returns the number of bytes of the blocks in a .2mg file, as the header of the file states it. The header states it at
/// offset 28, or states the number of blocks at offset 20 if the number at offset 28 is 0.
///
/// `image` must have at least 32 bytes.
#[tactic(auto, unfolding(crate::specs::Forms::front_size))]
pub fn front_size(image: &[u8]) -> usize
    requires room { 32 ≤ length image.now }
    ensures size { result ≡ front_size image.now }
    ensures most { result < 2199023255552 }
{
    let size = long(image, 28);
    if size == 0 {
        BLOCK * long(image, 20)
    } else {
        size
    }
}

/// Is true if `image` begins with a valid header of a .2mg file: it has at least 64 bytes, begins with 2IMG, and the
/// blocks that the header describes are after byte 51 and in `image`.
#[tactic(auto, unfolding(crate::specs::Forms::has_front))]
pub fn has_front(image: &[u8]) -> bool
    ensures value { result ≡ has_front image.now }
    ensures room { OnTrue result (64 ≤ length image.now) }
    ensures inside { OnTrue result (long_in image.now 24 + front_size image.now ≤ length image.now) }
{
    if image.len() < 64 {
        return false;
    }
    let begin = long(image, 24);
    let size = front_size(image);
    &image[..4] == b"2IMG".as_slice() && 52 <= begin && 0 < size && begin + size <= image.len()
}

// Appends a note for each format that the blocks after the header of a .2mg file may have.
#[tactic(auto, unfolding(crate::specs::Forms::front_notes))]
fn push_front(notes: &mut Vec<Note>, image: &[u8]) -> Result<(), AllocError>
    requires room { 64 ≤ length image.now }
    ensures more { OnOk result (notes.new.items ≡ notes.old.items ++ front_notes image.now) }
{
    let begin = long(image, 24);
    let size = front_size(image);
    let is_blocks = is_in_blocks(image, begin, size);
    let is_dos = is_in_sectors(image, begin, size);
    let is_turned = is_swapped(image, begin, size);
    push_note(notes, is_blocks, Note::Form(Form::FrontBlocks))?;
    push_note(notes, is_dos, Note::Form(Form::FrontDos))?;
    push_note(notes, is_turned, Note::Form(Form::FrontSwapped))
}

/// Appends a note for each other format that `image` may have.
#[tactic(auto, unfolding(crate::specs::Forms::form_notes))]
pub fn push_forms(notes: &mut Vec<Note>, image: &[u8]) -> Result<(), AllocError>
    ensures more { OnOk result (notes.new.items ≡ notes.old.items ++ form_notes image.now) }
{
    let is_dos = is_in_sectors(image, 0, image.len());
    let is_turned = is_swapped(image, 0, image.len());
    push_note(notes, is_dos, Note::Form(Form::Dos))?;
    push_note(notes, is_turned, Note::Form(Form::Swapped))?;
    if has_front(image) {
        push_front(notes, image)?;
    }
    Ok(())
}

// Returns the first format that matches the blocks after the header of a .2mg file.
#[tactic(auto, unfolding(crate::specs::Forms::front_form))]
fn front_form(image: &[u8]) -> Option<Form>
    requires room { 64 ≤ length image.now }
    ensures form { result ≡ front_form image.now }
{
    let begin = long(image, 24);
    let size = front_size(image);
    if is_in_blocks(image, begin, size) {
        Some(Form::FrontBlocks)
    } else if is_in_sectors(image, begin, size) {
        Some(Form::FrontDos)
    } else if is_swapped(image, begin, size) {
        Some(Form::FrontSwapped)
    } else {
        None
    }
}

/// Returns the first other format in which `image` has a directory header, which is the first format that `check`
/// notes. Returns `None` if no format matches. Blocks in order from the first byte are not another format.
#[tactic(auto, unfolding(crate::specs::Forms::form_seen))]
pub fn form_seen(image: &[u8]) -> Option<Form>
    ensures form { result ≡ form_seen image.now }
{
    if is_in_sectors(image, 0, image.len()) {
        Some(Form::Dos)
    } else if is_swapped(image, 0, image.len()) {
        Some(Form::Swapped)
    } else if has_front(image) {
        front_form(image)
    } else {
        None
    }
}
