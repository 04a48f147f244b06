//! The calls on the formats of images: the formats in which an image opens, and conversions.
ghost use Rattle.std.specs.Prelude.{◌≡◌, ◌≢◌};
ghost use Rattle.pm_convert.specs.Formats.{format_named};
ghost use Rattle.pm_convert.specs.Jobs.{formats_text, items_of};
ghost use Rattle.pm_c.specs.Answers.{Answers};
ghost use Rattle.pm_c.specs.Changes.{Tells};
ghost use Rattle.pm_c.specs.Images.{AnswersIn, AnswersTo, given_format, said_convert};

use crate::answers::refuse;
use crate::buffer::give;
use crate::lines::tell;
use crate::status::{NO_FORMAT, NO_MEMORY};
use crate::volumes::none;
use pm_convert::{Format, Made};
use std::alloc::Global;

/// Copies a line for each format in which `image` opens as a volume to `out`: the format, the name of the volume and a
/// colon, and the last line of its list. The answer is empty if the image opens in no format. Returns 0 if the call
/// succeeded.
///
/// Otherwise nothing is written to the buffer:
///
/// - 5: out of memory.
/// - 7: the buffer is too short.
#[unsafe(no_mangle)]
pub extern "C" fn pmach_formats(
    alloc: Global,
    image: &[u8],
    out: &mut [u8],
    needed: &mut usize,
) -> u32
    ensures formats { Tells (formats_text image.now) result out.old out.new needed.new }
{
    tell(pm_convert::formats_text(alloc, image), out, needed)
}

/// Returns the format with the name `name`. Returns `None` if no format has this name.
fn named(name: &[u8]) -> Option<Format>
    ensures format { result ≡ format_named name.now }
{
    match str::from_utf8(name) {
        Ok(name) => Format::named(name),
        Err(_) => None,
    }
}

/// Returns the format that `name` means for an existing image. The empty name means the only format in which the image
/// opens; the inner value is then `None`. Returns `None` if no format has this name.
fn given(name: &[u8]) -> Option<Option<Format>>
    ensures format { result ≡ given_format name.now }
{
    if name.is_empty() {
        return Some(None);
    }
    match named(name) {
        Some(format) => Some(Some(format)),
        None => None,
    }
}

/// Copies the image `made`, or the message of the refusal, to `out`. Returns the status.
fn give_made(alloc: Global, made: Made, out: &mut [u8], needed: &mut usize) -> u32
    ensures answers { Answers (said_convert (items_of made)) result out.old out.new needed.new }
    ensures format { result ≢ NO_FORMAT }
{
    match made {
        Ok(image) => give(&image, out, needed),
        Err(fault) => {
            let number = fault.number();
            match format!(in alloc; "refused convert {number}") {
                Ok(message) => refuse(message.as_bytes(), out, needed),
                Err(_) => none(NO_MEMORY, needed),
            }
        }
    }
}

/// Converts the volume that `image` has in the format `from` to a new image in the format `to`. The answer is the new
/// image. A format is a name such as `dos` or `2mg-blocks`. If `from` is empty, it is the only format in which the
/// image opens. Returns 0 if the call succeeded.
///
/// Otherwise:
///
/// - 17: `from` or `to` is not the name of a format. The call has no answer.
/// - 2: the conversion is refused. The answer is the message `refused convert N`.
/// - 5: out of memory. The call has no answer.
/// - 7: the buffer is too short. Nothing is written to it.
#[unsafe(no_mangle)]
pub extern "C" fn pmach_convert(
    alloc: Global,
    image: &[u8],
    from: &[u8],
    to: &[u8],
    out: &mut [u8],
    needed: &mut usize,
) -> u32
    ensures answers { AnswersTo (given_format from.now) (format_named to.now) image.now
        result out.old out.new needed.new }
{
    let (Some(from), Some(to)) = (given(from), named(to)) else {
        return none(NO_FORMAT, needed);
    };
    match pm_convert::convert(alloc, image, from, to) {
        Ok(made) => give_made(alloc, made, out, needed),
        Err(_) => none(NO_MEMORY, needed),
    }
}

/// Puts `blocks` into `image` instead of its own blocks. The answer is the new image: in the format `from` of `image`,
/// with its header and the bytes after its volume. If `from` is empty, it is the only format in which the image opens.
/// The statuses are those of `pmach_convert`.
#[unsafe(no_mangle)]
pub extern "C" fn pmach_convert_back(
    alloc: Global,
    image: &[u8],
    from: &[u8],
    blocks: &[u8],
    out: &mut [u8],
    needed: &mut usize,
) -> u32
    ensures answers { AnswersIn (given_format from.now) image.now blocks.now result out.old out.new needed.new }
{
    let Some(from) = given(from) else {
        return none(NO_FORMAT, needed);
    };
    match pm_convert::convert_back(alloc, image, from, blocks) {
        Ok(made) => give_made(alloc, made, out, needed),
        Err(_) => none(NO_MEMORY, needed),
    }
}
