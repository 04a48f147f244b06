//! What is reported about the formats of an image.
ghost use Rattle.std.specs.Prelude.{◌≡◌, ◌++◌, IfOk, OnOk, option_map, string_bytes};
ghost use Rattle.pm_convert.specs.Jobs as jobs;

use crate::format::Format;
use crate::found::{blocks_in, formats_of};
use pm_filer::{push_name, push_space};
use pm_volume::Volume;
use std::alloc::{AllocError, Global};

/// Appends the line of a format in which a volume opens.
fn push_format(text: &mut String, format: Format, volume: &Volume) -> Result<(), AllocError>
    ensures text { OnOk result (string_bytes text.new ≡ string_bytes text.old ++ jobs.format_line format volume.now) }
{
    text.push_str(format.name())?;
    text.push(' ')?;
    push_name(text, volume.name())?;
    text.push_str(": ")?;
    push_space(text, volume)
}

/// Appends the line of a format, if the blocks open as a volume.
fn push_blocks(text: &mut String, format: Format, blocks: Option<Vec<u8>>) -> Result<(), AllocError>
    ensures text { OnOk result (string_bytes text.new ≡ string_bytes text.old
        ++ jobs.line_for format (option_map (λ blocks. blocks.items) blocks)) }
{
    let Some(blocks) = blocks else {
        return Ok(());
    };
    match Volume::open(blocks) {
        Ok(volume) => push_format(text, format, &volume),
        Err(_) => Ok(()),
    }
}

/// Appends a line for each format.
fn push_formats(
    alloc: Global,
    text: &mut String,
    image: &[u8],
    formats: &[Format],
) -> Result<(), AllocError>
    ensures text { OnOk result (string_bytes text.new ≡ string_bytes text.old ++ jobs.lines_for image.now formats.now) }
{
    match formats {
        [] => Ok(()),
        [format, more @ ..] => {
            let blocks = blocks_in(alloc, image, *format)?;
            push_blocks(text, *format, blocks)?;
            push_formats(alloc, text, image, more)
        }
    }
}

/// Returns a line for each format in which `image` opens as a volume: the format, the name of the volume and a colon,
/// and the last line of the list of its files.
///
/// # Errors
///
/// `AllocError`: memory was refused.
pub fn formats_text(alloc: Global, image: &[u8]) -> Result<String, AllocError>
    ensures text { IfOk result (λ text. string_bytes text ≡ jobs.formats_text image.now) }
{
    let formats = formats_of(alloc, image)?;
    let mut text = String::new(alloc);
    push_formats(alloc, &mut text, image, &formats)?;
    Ok(text)
}
