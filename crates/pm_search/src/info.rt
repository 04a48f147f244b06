//! One line that describes an image.
ghost use Rattle.std.specs.Prelude.{◌≡◌, IfOk, string_bytes};
ghost use Rattle.pm_search.specs.Lines.{info_line, numbers_text};

use crate::lines::front_of;
use pm_convert::Format;
use pm_filer::push_shown;
use pm_volume::{Space, Volume};
use std::alloc::{AllocError, Global};

/// Returns the end of the line about an image: the number of files of `volume`, of its free blocks, and of the blocks
/// of its largest gap.
fn numbers_text(alloc: Global, volume: &Volume) -> Result<String, AllocError>
    ensures text { IfOk result (λ text. string_bytes text ≡ numbers_text volume.now) }
{
    let files = volume.entries().count();
    let Space { free, largest } = volume.space();
    format!(in alloc; ": files {files}, free {free}, largest {largest}\n")
}

/// Returns the line of an image that has the volume `volume` in the format `format`: the format, the name of the
/// volume, the number of its files, of its free blocks, and of the blocks of its largest gap.
pub(crate) fn info_line(
    alloc: Global,
    path: &str,
    format: Format,
    volume: &Volume,
) -> Result<Vec<u8>, AllocError>
    ensures text { IfOk result (λ text. text.items ≡ info_line path.now format volume.now) }
{
    let numbers = numbers_text(alloc, volume)?;
    let mut text = front_of(alloc, path)?;
    text.extend_from_slice(format.name().as_bytes())?;
    text.push(b' ')?;
    push_shown(&mut text, volume.name())?;
    text.extend_from_slice(numbers.as_bytes())?;
    Ok(text)
}
