//! The calls that find removed files, and that return the bytes of free blocks.
ghost use Rattle.std.specs.Prelude.{◌≡◌, ◌+◌, IfOk};
ghost use Rattle.pm_undelete.specs.Blocks.{free_bytes};
ghost use Rattle.pm_undelete.specs.Found.{candidates_of};
ghost use Rattle.pm_undelete.specs.Lines.{lines_of};
ghost use Rattle.pm_volume.specs.Directory.{image_fault};
ghost use Rattle.pm_c.specs.Entries.{Lists};
ghost use Rattle.pm_c.specs.Removed.{GivesBlocks};

use crate::disks::volume_of;
use crate::images::give_refusal;
use crate::searches::give_with;
use crate::status::{DONE, NO_MEMORY, REFUSED};
use crate::volumes::none;
use pm_tool::Refusal;
use pm_undelete::{candidates, free_blocks, lines_of};
use pm_volume::Volume;
use std::alloc::{AllocError, Global};

/// Returns the lines of the free blocks of `volume` in which a removed file seems to begin.
fn found_in(alloc: Global, volume: &Volume) -> Result<Vec<u8>, AllocError>
    ensures lines { IfOk result (λ lines. lines.items ≡ lines_of (candidates_of volume.now)) }
{
    let found = candidates(alloc, volume)?;
    lines_of(alloc, &found)
}

/// Copies a line `block N blocks K text` or `block N blocks K code` to `out` for each free block of the volume in
/// `image` at which a removed text file or code file seems to begin. `N` is this block, and `K` the number of blocks that
/// the file seems to have. The lowest block comes first. Returns 0, even if there is no line.
///
/// Otherwise:
///
/// - 2: `image` is no volume. The answer is the message `refused volume N`.
/// - 5: out of memory. The call has no answer.
/// - 7: the buffer is too short. Nothing is written to it.
#[unsafe(no_mangle)]
pub extern "C" fn pmach_undelete(
    alloc: Global,
    image: &[u8],
    out: &mut [u8],
    needed: &mut usize,
) -> u32
    ensures answers { Lists (image_fault image.now) (lines_of (candidates_of image.now))
        result out.old out.new needed.new }
{
    let volume = match volume_of(alloc, image) {
        Ok(Ok(volume)) => volume,
        Ok(Err(fault)) => return give_refusal(alloc, Refusal::Volume(fault), out, needed),
        Err(_) => return none(NO_MEMORY, needed),
    };
    match found_in(alloc, &volume) {
        Ok(lines) => give_with(&lines, DONE, out, needed),
        Err(_) => none(NO_MEMORY, needed),
    }
}

/// Copies the bytes of the `count` blocks of the volume in `image` from block `first` on to `out`. Returns 0.
///
/// Otherwise:
///
/// - 2: `image` is no volume. The answer is the message `refused volume N`. Or `count` is 0, or one of the blocks is not
///   free: it belongs to a file or to the directory, or is not a block of the volume. The answer is the message
///   `refused undelete 1`.
/// - 5: out of memory. The call has no answer.
/// - 7: the buffer is too short. Nothing is written to it.
#[unsafe(no_mangle)]
pub extern "C" fn pmach_undelete_blocks(
    alloc: Global,
    image: &[u8],
    first: u16,
    count: u16,
    out: &mut [u8],
    needed: &mut usize,
) -> u32
    ensures answers { GivesBlocks (image_fault image.now) (free_bytes image.now first (first + count))
        result out.old out.new needed.new }
{
    let volume = match volume_of(alloc, image) {
        Ok(Ok(volume)) => volume,
        Ok(Err(fault)) => return give_refusal(alloc, Refusal::Volume(fault), out, needed),
        Err(_) => return none(NO_MEMORY, needed),
    };
    match free_blocks(&volume, first, count) {
        Some(bytes) => give_with(bytes, DONE, out, needed),
        None => give_with(b"refused undelete 1", REFUSED, out, needed),
    }
}
