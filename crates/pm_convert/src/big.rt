//! The order `big`. The two bytes of each word are exchanged in the directory, in its second copy, and in the first
//! block of each code file, which has the dictionary of the file.
ghost use Rattle.std.specs.Prelude.{◌≡◌, ◌+◌, ◌≤◌, ◌<◌, ◌==◌, IfOk, length};
ghost use Rattle.std.specs.List.{list_any};
ghost use Rattle.pm_volume.specs.Directory.{directory_of};
ghost use Rattle.pm_volume.specs.declared.fields.TheConstants.{DIRECTORY_END, DIRECTORY_SIZE};
ghost use Rattle.pm_convert.specs.Big.{big_place, big_with, code_blocks, directory_place, exchanged_with, from_big};
ghost use Rattle.pm_convert.specs.Big.{is_dictionary_word, is_directory_word, is_exchanged, is_in_directory, listed};
ghost use Rattle.pm_convert.specs.Big.{to_big, turned_directory};

use pm_bytes::{BLOCK, word};
use pm_volume::fields::{
    DIRECTORY, DIRECTORY_END, DIRECTORY_SIZE, HEADER_FILES, HEADER_FILES_BEGIN, MOST_FILES,
    PAST_SECOND, SECOND, SLOT,
};
use pm_volume::{entry_at, kinds};
use std::alloc::{AllocError, Global};

/// The offset in a directory of the first byte after the slots.
const PAST_SLOTS: usize = 2028;

/// Is true if the byte at offset `place` of a directory is in a word whose bytes are exchanged.
fn is_directory_word(place: usize) -> bool
    ensures word { result ≡ is_directory_word place }
{
    if place >= PAST_SLOTS {
        false
    } else if place % SLOT < 6 {
        true
    } else if place < SLOT {
        14 <= place && place < 22
    } else {
        22 <= place % SLOT
    }
}

/// Is true if the byte at offset `place` of the block with a dictionary is in a word whose bytes are exchanged.
fn is_dictionary_word(place: usize) -> bool
    ensures word { result ≡ is_dictionary_word place }
{
    place < 64 || 192 <= place && place < 288
}

/// Is true if the byte at offset `place` of an image is in a word whose bytes are exchanged, of the directory at offset
/// `begin`.
fn is_in_directory(begin: usize, place: usize) -> bool
    requires few { begin ≤ 65536 }
    ensures word { result ≡ is_in_directory begin place }
{
    begin <= place && place < begin + DIRECTORY_SIZE && is_directory_word(place - begin)
}

/// Is true if `block` is one of `blocks`.
fn is_block(blocks: &[u16], block: usize) -> bool
    ensures block { result ≡ list_any (λ known. known == block) blocks.now }
{
    blocks.iter().any(|known| usize::from(*known) == block)
}

/// Is true if the byte at offset `place` of an image of `size` bytes is in a word whose bytes are exchanged. The image
/// has a second copy of its directory if `has_second` is true, and dictionaries in the blocks `blocks`.
fn is_exchanged(has_second: bool, blocks: &[u16], size: usize, place: usize) -> bool
    ensures word { result ≡ is_exchanged has_second blocks.now size place }
{
    is_in_directory(DIRECTORY, place)
        || has_second && is_in_directory(SECOND, place)
        || is_dictionary_word(place % BLOCK)
            && place < size / BLOCK * BLOCK
            && is_block(blocks, place / BLOCK)
}

/// Returns the offset that the byte at offset `place` of the converted image had before the conversion. The parameters
/// are those of `is_exchanged`.
fn big_place(has_second: bool, blocks: &[u16], size: usize, place: usize) -> usize
    requires inside { place < size }
    ensures place { result ≡ big_place has_second blocks.now size place }
    ensures inside { result < size }
{
    if place < size / 2 * 2 && is_exchanged(has_second, blocks, size, place) {
        place / 2 * 2 + (1 - place % 2)
    } else {
        place
    }
}

/// Returns `image` with exchanged bytes. The parameters are those of `is_exchanged`.
#[tactic(auto, unfolding(crate::specs::Big::exchanged_with), using(crate::proofs::BigSteps::big_steps))]
fn exchanged_with(
    alloc: Global,
    has_second: bool,
    blocks: &[u16],
    image: &[u8],
) -> Result<Vec<u8>, AllocError>
    ensures image { IfOk result (λ made. made.items ≡ exchanged_with has_second blocks.now image.now) }
{
    let mut made = Vec::new(alloc);
    for place in 0..image.len() {
        made.push(image[big_place(has_second, blocks, image.len(), place)])?;
    }
    Ok(made)
}

/// Returns the number of files that `directory` states, or 77 if it states more.
fn listed(directory: &[u8]) -> u16
    requires whole { length directory.now ≡ DIRECTORY_SIZE }
    ensures count { result ≡ listed directory.now }
    ensures most { result ≤ 77 }
{
    let files = word(directory, HEADER_FILES);
    if files > MOST_FILES {
        MOST_FILES
    } else {
        files
    }
}

/// Returns the first block of each code file of `directory`, whose words have the low byte first.
#[tactic(auto, using(crate::proofs::BigSteps::code_steps))]
fn code_blocks(alloc: Global, directory: &[u8]) -> Result<Vec<u16>, AllocError>
    requires whole { length directory.now ≡ DIRECTORY_SIZE }
    ensures blocks { IfOk result (λ blocks. blocks.items ≡ code_blocks directory.now) }
{
    let mut blocks = Vec::new(alloc);
    for n in 1..listed(directory) + 1 {
        let entry = entry_at(directory, n);
        if entry.kind == kinds::CODE {
            blocks.push(entry.first)?;
        }
    }
    Ok(blocks)
}

/// Returns `image` with exchanged bytes in the words of its directories and dictionaries. The files are those of
/// `directory`, whose words have the low byte first.
fn big_with(alloc: Global, directory: &[u8], image: &[u8]) -> Result<Vec<u8>, AllocError>
    requires whole { length directory.now ≡ DIRECTORY_SIZE }
    ensures image { IfOk result (λ made. made.items ≡ big_with directory.now image.now) }
{
    let blocks = code_blocks(alloc, directory)?;
    let has_second = word(directory, HEADER_FILES_BEGIN) == PAST_SECOND;
    exchanged_with(alloc, has_second, blocks.as_slice(), image)
}

/// Returns the offset that the byte at offset `place` of a converted directory had before the conversion.
fn directory_place(place: usize) -> usize
    requires inside { place < 2048 }
    ensures place { result ≡ directory_place place }
    ensures inside { result < 2048 }
{
    if is_directory_word(place) {
        place / 2 * 2 + (1 - place % 2)
    } else {
        place
    }
}

/// Returns `directory` with exchanged bytes in its words.
#[tactic(auto, unfolding(crate::specs::Big::turned_directory), using(crate::proofs::BigSteps::directory_steps))]
fn turned_directory(alloc: Global, directory: &[u8]) -> Result<Vec<u8>, AllocError>
    requires whole { length directory.now ≡ DIRECTORY_SIZE }
    ensures directory { IfOk result (λ made. made.items ≡ turned_directory directory.now) }
{
    let mut made = Vec::new(alloc);
    for place in 0..DIRECTORY_SIZE {
        made.push(directory[directory_place(place)])?;
    }
    Ok(made)
}

/// Converts `image` from the order `big` to blocks in order.
#[tactic(auto, unfolding(crate::specs::Big::from_big), using(crate::proofs::BigSteps::turned_directory_size))]
pub(crate) fn from_big(alloc: Global, image: &[u8]) -> Result<Vec<u8>, AllocError>
    requires whole { DIRECTORY_END ≤ length image.now }
    ensures image { IfOk result (λ made. made.items ≡ from_big image.now) }
{
    let directory = turned_directory(alloc, &image[DIRECTORY..DIRECTORY_END])?;
    big_with(alloc, directory.as_slice(), image)
}

/// Converts `image` from blocks in order to the order `big`.
#[tactic(auto, unfolding(crate::specs::Big::to_big), using(crate::proofs::BigSteps::exchanged_size))]
pub(crate) fn to_big(alloc: Global, image: &[u8]) -> Result<Vec<u8>, AllocError>
    requires whole { DIRECTORY_END ≤ length image.now }
    ensures image { IfOk result (λ made. made.items ≡ to_big image.now) }
    ensures size { IfOk result (λ made. length made.items ≡ length image.now) }
{
    big_with(alloc, &image[DIRECTORY..DIRECTORY_END], image)
}
