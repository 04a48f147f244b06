//! The call that lists the files of a volume as data.
ghost use Rattle.std.specs.Prelude.{◌≡◌, IfOk};
ghost use Rattle.pm_volume.specs.Directory.{image_fault};
ghost use Rattle.pm_c.specs.Entries.{Lists, list_of};

use crate::disks::volume_of;
use crate::images::give_refusal;
use crate::searches::give_with;
use crate::status::{DONE, NO_MEMORY};
use crate::volumes::none;
use pm_table::{json_of, tabs_of};
use pm_tool::Refusal;
use pm_volume::Volume;
use std::alloc::{AllocError, Global};

/// Returns the list of all files of `volume`: as JSON if `json` is true, and as lines with tabs otherwise.
fn list_of(alloc: Global, volume: &Volume, json: bool) -> Result<Vec<u8>, AllocError>
    ensures list { IfOk result (λ list. list.items ≡ list_of json volume.now) }
{
    if json {
        json_of(alloc, volume, &None)
    } else {
        tabs_of(alloc, volume, &None)
    }
}

/// Copies the list of the files of the volume in `image` to `out`, as data for other programs. Returns 0.
///
/// - If `json` is true, the list is the JSON object that `files list --json` writes: the name of the volume, its numbers
///   of blocks, of free blocks, and of blocks of the largest free area, and an array with an object for each file. The
///   members of such an object are `slot`, `name`, `kind`, `first`, `blocks`, `lastBytes`, `bytes`, `year`, `month` and
///   `day`.
/// - Otherwise the list has the lines that `files list --tabs` writes: one line for each file, with eight fields and a
///   tab between two of them.
///
/// The files are in the order of their slots.
///
/// Otherwise:
///
/// - 2: `image` is no volume. The answer is the message `refused volume N`.
/// - 5: out of memory. The call has no answer.
/// - 7: the buffer is too short. Nothing is written to it.
#[unsafe(no_mangle)]
pub extern "C" fn pmach_entries(
    alloc: Global,
    image: &[u8],
    json: bool,
    out: &mut [u8],
    needed: &mut usize,
) -> u32
    ensures answers { Lists (image_fault image.now) (list_of json image.now) result out.old out.new needed.new }
{
    let volume = match volume_of(alloc, image) {
        Ok(Ok(volume)) => volume,
        Ok(Err(fault)) => return give_refusal(alloc, Refusal::Volume(fault), out, needed),
        Err(_) => return none(NO_MEMORY, needed),
    };
    match list_of(alloc, &volume, json) {
        Ok(list) => give_with(&list, DONE, out, needed),
        Err(_) => none(NO_MEMORY, needed),
    }
}
