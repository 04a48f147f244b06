//! Conversions of images.
ghost use Rattle.std.specs.Prelude.{◌≡◌, IfOk, option_map};
ghost use Rattle.pm_convert.specs.Found.{blocks_in};
ghost use Rattle.pm_convert.specs.Jobs as jobs;

use crate::format::Format;
use crate::found::{blocks_in, formats_of};
use crate::made::{new_image, with_blocks};
use std::alloc::{AllocError, Global};

/// Why an image is not converted.
#[derive(Clone, Copy, Debug, PartialEq, Eq)]
pub enum ConvertFault {
    /// The image opens as a volume in no format.
    NoFormat,
    /// The image opens as a volume in more than one format.
    Several,
    /// The image has no volume in the given format: it has no such header, or its length does not fit.
    OtherFormat,
    /// The blocks do not fit the new format, or the original image has another number of blocks.
    OtherLength,
}

impl ConvertFault {
    /// Returns the number of the fault, from 1 to 4 in the order above.
    pub fn number(self) -> u8
        ensures number { result ≡ jobs.number_of self }
    {
        match self {
            ConvertFault::NoFormat => 1,
            ConvertFault::Several => 2,
            ConvertFault::OtherFormat => 3,
            ConvertFault::OtherLength => 4,
        }
    }

    /// Returns the reason as a text for a message.
    pub fn text(self) -> &'static str {
        match self {
            ConvertFault::NoFormat => "the image is no volume in any supported format",
            ConvertFault::Several => "more than one format fits; choose one with --form",
            ConvertFault::OtherFormat => "the image has no volume in this format",
            ConvertFault::OtherLength => {
                "the volume does not have the length that the new format or the original image requires"
            }
        }
    }
}

/// An image, or why there is none.
pub type Made = Result<Vec<u8>, ConvertFault>;

/// Returns the only one of `formats`. Returns the fault `NoFormat` if there is none, and `Several` if there are more.
pub fn only(formats: &[Format]) -> Result<Format, ConvertFault>
    ensures format { result ≡ jobs.only formats.now }
{
    match formats {
        [] => Err(ConvertFault::NoFormat),
        [format] => Ok(*format),
        [_, _, ..] => Err(ConvertFault::Several),
    }
}

/// Returns the format of `image`: the given one, or the only one in which it opens as a volume.
fn chosen(
    alloc: Global,
    format: Option<Format>,
    image: &[u8],
) -> Result<Result<Format, ConvertFault>, AllocError>
    ensures format { IfOk result (λ chosen. chosen ≡ jobs.chosen format image.now) }
{
    match format {
        Some(format) => Ok(Ok(format)),
        None => {
            let formats = formats_of(alloc, image)?;
            Ok(only(&formats))
        }
    }
}

/// Returns an image, or `OtherLength` if there is none.
fn made_or(image: Option<Vec<u8>>) -> Made
    ensures made { jobs.items_of result ≡ jobs.made_or (option_map (λ image. image.items) image) }
{
    image.ok_or(ConvertFault::OtherLength)
}

/// Returns a new image of the format `to` with the volume that `image` has in the format `format`.
fn converted_from(
    alloc: Global,
    image: &[u8],
    format: Format,
    to: Format,
) -> Result<Made, AllocError>
    ensures made { IfOk result (λ made. jobs.items_of made ≡ jobs.made_of to (blocks_in format image.now)) }
{
    let Some(blocks) = blocks_in(alloc, image, format)? else {
        return Ok(Err(ConvertFault::OtherFormat));
    };
    Ok(made_or(new_image(alloc, to, &blocks)?))
}

/// Returns the volume in `image` as a new image of the format `to`. `format` is the format of `image`, if it is given.
///
/// The conversion is refused, checked in this order:
/// - No format is given, and `image` opens as a volume in no format: `NoFormat`; or in more than one: `Several`.
/// - `image` has no volume in the format: `OtherFormat`.
/// - The blocks do not fit the format `to`: `OtherLength`.
///
/// # Errors
///
/// `AllocError`: memory was refused.
pub fn convert(
    alloc: Global,
    image: &[u8],
    format: Option<Format>,
    to: Format,
) -> Result<Made, AllocError>
    ensures made { IfOk result (λ made. jobs.items_of made ≡ jobs.converted format to image.now) }
{
    match chosen(alloc, format, image)? {
        Ok(format) => converted_from(alloc, image, format, to),
        Err(fault) => Ok(Err(fault)),
    }
}

/// Returns `image` with `blocks` as the volume that it has in the format `format`.
fn put_back(alloc: Global, image: &[u8], format: Format, blocks: &[u8]) -> Result<Made, AllocError>
    ensures made { IfOk result (λ made. jobs.items_of made
        ≡ jobs.put_back format image.now blocks.now (blocks_in format image.now)) }
{
    if blocks_in(alloc, image, format)?.is_none() {
        return Ok(Err(ConvertFault::OtherFormat));
    }
    Ok(made_or(with_blocks(alloc, image, format, blocks)?))
}

/// Returns `image` with `blocks` instead of its own blocks: in its format, with its header and the bytes after its
/// volume. `format` is the format of `image`, if it is given.
///
/// The conversion is refused, checked in this order:
/// - No format is given, and `image` opens as a volume in no format: `NoFormat`; or in more than one: `Several`.
/// - `image` has no volume in the format: `OtherFormat`.
/// - `blocks` and the volume of `image` differ in length: `OtherLength`.
///
/// # Errors
///
/// `AllocError`: memory was refused.
pub fn convert_back(
    alloc: Global,
    image: &[u8],
    format: Option<Format>,
    blocks: &[u8],
) -> Result<Made, AllocError>
    ensures made { IfOk result (λ made. jobs.items_of made ≡ jobs.converted_back format image.now blocks.now) }
{
    match chosen(alloc, format, image)? {
        Ok(format) => put_back(alloc, image, format, blocks),
        Err(fault) => Ok(Err(fault)),
    }
}
