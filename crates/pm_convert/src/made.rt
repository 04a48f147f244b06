//! New images, and images with other blocks.
ghost use Rattle.std.specs.Prelude.{◌≡◌, ◌+◌, ◌≤◌, [], ◌∷◌, IfOk, length};
ghost use Rattle.std.specs.Option.{option_map};
ghost use Rattle.pm_bytes.specs.Words.{written};
ghost use Rattle.pm_convert.specs.declared.format.Cover.{Cover};
ghost use Rattle.pm_convert.specs.Made.{disk_copy, new_image, order_number, sealed, two_img, with_blocks};

use crate::cover::part_in;
use crate::disk_copy::{DATA_SUM, checksum, disk_copy_header, high_bytes};
use crate::format::{ByteOrder, Cover, Format};
use crate::turning::{fits, in_order};
use pm_bytes::set_bytes;
use pm_check::filed;
use std::alloc::{AllocError, Global};

/// The offset of the number of the order in the header of a .2mg file.
const ORDER_NUMBER: usize = 12;

/// Returns a copy of `image` in which the bytes from offset `begin` on are replaced by `bytes`.
fn replaced(alloc: Global, image: &[u8], begin: usize, bytes: &[u8]) -> Result<Vec<u8>, AllocError>
    requires room { begin + length bytes.now ≤ length image.now }
    ensures image { IfOk result (λ made. made.items ≡ written image.now begin bytes.now) }
{
    let mut made = Vec::from_slice(alloc, image)?;
    set_bytes(made.as_mut_slice(), begin, bytes);
    Ok(made)
}

/// Writes the checksum of `volume` to the header of `image`, if the cover is DiskCopy 4.2.
fn seal(image: &mut [u8], cover: Cover, volume: &[u8])
    requires room { cover ≡ Cover.DiskCopy → 84 ≤ length image.old }
    ensures sealed { image.new ≡ sealed cover volume.now image.old }
{
    if cover == Cover::DiskCopy {
        set_bytes(image, DATA_SUM, &high_bytes(checksum(volume)));
    }
}

/// Returns `image`, which has this format, with `blocks` instead of its own blocks. The header and the bytes after the
/// volume are unchanged, except that the checksum in a header of DiskCopy 4.2 is computed again.
///
/// Returns `None` if `blocks_in` returns `None`, or if `blocks` and the volume in `image` differ in length.
///
/// # Errors
///
/// `AllocError`: memory was refused.
pub fn with_blocks(
    alloc: Global,
    image: &[u8],
    format: Format,
    blocks: &[u8],
) -> Result<Option<Vec<u8>>, AllocError>
    ensures image { IfOk result (λ made. option_map (λ made. made.items) made ≡ with_blocks format image.now blocks.now) }
{
    let Some(part) = part_in(image, format.cover) else {
        return Ok(None);
    };
    if blocks.len() != part.size || !fits(format.order, part.size) {
        return Ok(None);
    }
    let volume = in_order(alloc, format.order, blocks)?;
    let mut made = replaced(alloc, image, part.begin, volume.as_slice())?;
    seal(made.as_mut_slice(), format.cover, volume.as_slice());
    Ok(Some(made))
}

/// Returns the number of this order in the header of a .2mg file. Only DOS order has a number of its own.
fn order_number(order: ByteOrder) -> u8
    ensures number { result ≡ order_number order }
{
    match order {
        ByteOrder::Dos => 0,
        ByteOrder::Blocks | ByteOrder::Swapped | ByteOrder::Big => 1,
    }
}

/// Returns the .2mg file `file` with the number of this order in its header.
fn numbered(file: Vec<u8>, order: ByteOrder) -> Vec<u8>
    requires room { 13 ≤ length file.items }
    ensures file { result.items ≡ written file.items 12 (order_number order ∷ []) }
{
    let mut file = file;
    set_bytes(file.as_mut_slice(), ORDER_NUMBER, &[order_number(order)]);
    file
}

/// Returns a new .2mg file for a volume in this order.
#[tactic(auto, using(crate::proofs::MadeLaws::new_steps))]
fn two_img(alloc: Global, order: ByteOrder, volume: &[u8]) -> Result<Vec<u8>, AllocError>
    ensures file { IfOk result (λ file. file.items ≡ two_img order volume.now) }
{
    let file = filed(alloc, &[], volume)?;
    Ok(numbered(file, order))
}

/// Returns a new file of DiskCopy 4.2 for a volume.
fn disk_copy(alloc: Global, volume: &[u8]) -> Result<Vec<u8>, AllocError>
    ensures file { IfOk result (λ file. file.items ≡ disk_copy volume.now) }
{
    let mut file = disk_copy_header(alloc, volume.len(), checksum(volume))?;
    file.extend_from_slice(volume)?;
    Ok(file)
}

/// Returns a new image of this format for a volume whose blocks are `blocks`.
///
/// Returns `None` if a volume of this length cannot be in this order. A header states the length of the volume in four
/// bytes: `blocks_in` returns `blocks` if they have at least one byte and fewer than 4,294,967,296.
///
/// # Errors
///
/// `AllocError`: memory was refused.
pub fn new_image(
    alloc: Global,
    format: Format,
    blocks: &[u8],
) -> Result<Option<Vec<u8>>, AllocError>
    ensures image { IfOk result (λ made. option_map (λ made. made.items) made ≡ new_image format blocks.now) }
{
    if !fits(format.order, blocks.len()) {
        return Ok(None);
    }
    let volume = in_order(alloc, format.order, blocks)?;
    let image = match format.cover {
        Cover::Bare => volume,
        Cover::TwoImg => two_img(alloc, format.order, volume.as_slice())?,
        Cover::DiskCopy => disk_copy(alloc, volume.as_slice())?,
    };
    Ok(Some(image))
}
