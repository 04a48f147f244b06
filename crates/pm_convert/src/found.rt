//! What an image contains: its volume, and the formats in which the volume opens.
ghost use Rattle.std.specs.Prelude.{◌≡◌, ◌++◌, [], ◌∷◌, IfOk, OnOk};
ghost use Rattle.std.specs.List.{filter};
ghost use Rattle.std.specs.Option.{option_map};
ghost use Rattle.pm_convert.specs.Found.{blocks_in, formats_of, is_sum_wrong, is_volume, opens};

use crate::cover::{cover_of, has_disk_copy, part_in};
use crate::disk_copy::{DATA_SUM, DISK_COPY_HEADER, checksum, high_long};
use crate::format::{ByteOrder, Format};
use crate::turning::{fits, in_blocks};
use pm_volume::Volume;
use std::alloc::{AllocError, Global};

/// Returns the volume in `image`, which has this format, with its blocks in order.
///
/// Returns `None` if `image` has no such cover, or if a volume of this length cannot be in this order. In a bare image
/// of 143,488 bytes the last 128 are not part of the volume.
///
/// # Errors
///
/// `AllocError`: memory was refused.
pub fn blocks_in(alloc: Global, image: &[u8], format: Format) -> Result<Option<Vec<u8>>, AllocError>
    ensures blocks { IfOk result (λ made. option_map (λ blocks. blocks.items) made ≡ blocks_in format image.now) }
{
    let Some(part) = part_in(image, format.cover) else {
        return Ok(None);
    };
    if !fits(format.order, part.size) {
        return Ok(None);
    }
    let volume = &image[part.begin..part.begin + part.size];
    let blocks = in_blocks(alloc, format.order, volume)?;
    Ok(Some(blocks))
}

/// Is true if the image `blocks` opens as a volume.
fn is_volume(blocks: Vec<u8>) -> bool
    ensures volume { result ≡ is_volume blocks.items }
{
    match Volume::open(blocks) {
        Ok(_) => true,
        Err(_) => false,
    }
}

/// Is true if `image` opens as a volume in this format.
fn opens(alloc: Global, image: &[u8], format: Format) -> Result<bool, AllocError>
    ensures opens { IfOk result (λ value. value ≡ opens image.now format) }
{
    match blocks_in(alloc, image, format)? {
        Some(blocks) => Ok(is_volume(blocks)),
        None => Ok(false),
    }
}

/// Appends this format if `image` opens as a volume in it.
fn push_format(
    formats: &mut Vec<Format>,
    alloc: Global,
    image: &[u8],
    format: Format,
) -> Result<(), AllocError>
    ensures more { OnOk result (formats.new.items ≡ formats.old.items ++ filter (opens image.now) (format ∷ [])) }
{
    if opens(alloc, image, format)? {
        formats.push(format)?;
    }
    Ok(())
}

/// Returns the formats in which `image` opens as a volume, in the order blocks, dos, swapped, big. Each has the cover
/// that `image` has: `DiskCopy` if its header is valid, else `TwoImg` if its header is valid, else `Bare`.
///
/// # Errors
///
/// `AllocError`: memory was refused.
#[tactic(auto, using(crate::proofs::FoundLaws::filter_four))]
pub fn formats_of(alloc: Global, image: &[u8]) -> Result<Vec<Format>, AllocError>
    ensures formats { IfOk result (λ formats. formats.items ≡ formats_of image.now) }
{
    let cover = cover_of(image);
    let blocks = Format {
        cover,
        order: ByteOrder::Blocks,
    };
    let dos = Format {
        cover,
        order: ByteOrder::Dos,
    };
    let swapped = Format {
        cover,
        order: ByteOrder::Swapped,
    };
    let big = Format {
        cover,
        order: ByteOrder::Big,
    };
    let mut formats = Vec::new(alloc);
    push_format(&mut formats, alloc, image, blocks)?;
    push_format(&mut formats, alloc, image, dos)?;
    push_format(&mut formats, alloc, image, swapped)?;
    push_format(&mut formats, alloc, image, big)?;
    Ok(formats)
}

/// Is true if `image` has a valid header of DiskCopy 4.2, and the checksum of the volume in this header does not match
/// the volume.
pub fn is_sum_wrong(image: &[u8]) -> bool
    ensures wrong { result ≡ is_sum_wrong image.now }
{
    if !has_disk_copy(image) {
        return false;
    }
    let size = high_long(image, 64);
    high_long(image, DATA_SUM) != checksum(&image[DISK_COPY_HEADER..DISK_COPY_HEADER + size])
}
