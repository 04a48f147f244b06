//! The calls that add the system segment to a program of a volume, and that report on a salvage.
ghost use Rattle.std.specs.Prelude.{◌≡◌, ◌≢◌, ◌↔◌, [], IfOk};
ghost use Rattle.std.specs.Str.{IsUtf8};
ghost use Rattle.pm_volume.specs.Directory.{image_fault};
ghost use Rattle.pm_filer.specs.SystemDisks.{image_with_system};
ghost use Rattle.pm_check.specs.Saving.{salvaged};
ghost use Rattle.pm_tool.specs.Outcomes.{refused};
ghost use Rattle.pm_c.specs.Answers.{Answers};
ghost use Rattle.pm_c.specs.Images.{said_report, said_system, system_added};

use crate::answers::refuse;
use crate::buffer::give;
use crate::disks::volume_of;
use crate::status::{NO_MEMORY, NO_TEXT};
use crate::volumes::none;
use pm_check::salvage;
use pm_filer::{SystemFault, put_system};
use pm_tool::Refusal;
use pm_volume::{Volume, VolumeFault};
use std::alloc::{AllocError, Global};

/// Copies the message of `refusal` to `out`. Returns the status.
pub(crate) fn give_refusal(
    alloc: Global,
    refusal: Refusal,
    out: &mut [u8],
    needed: &mut usize,
) -> u32
    ensures answers { Answers (refused refusal []) result out.old out.new needed.new }
    ensures text { result ≢ NO_TEXT }
{
    match format!(in alloc; "{refusal}") {
        Ok(message) => refuse(message.as_bytes(), out, needed),
        Err(_) => none(NO_MEMORY, needed),
    }
}

/// Returns the volume in `image` after the system segment of the code file `system` was added to the code file `name`.
fn with_system(
    alloc: Global,
    image: &[u8],
    name: &str,
    system: &[u8],
) -> Result<Result<Volume, Refusal>, AllocError>
    ensures made { IfOk result (λ made. made ≡ system_added (image_fault image.now)
        (image_with_system image.now name.now system.now)) }
{
    let volume = match volume_of(alloc, image)? {
        Ok(volume) => volume,
        Err(fault) => return Ok(Err(Refusal::Volume(fault))),
    };
    match put_system(alloc, volume, name, system) {
        Ok(volume) => Ok(Ok(volume)),
        Err(SystemFault::NoMemory) => Err(AllocError),
        Err(fault) => Ok(Err(Refusal::System(fault))),
    }
}

/// Adds the segment in slot 0 of the code file `system` to slot 0 of the first file with the name `name`. The answer is
/// the new image, as `run --system` makes it in memory. If no file has this name, or the first file with this name is
/// not a code file, the answer is the image unchanged. Returns 0 if the call succeeded.
///
/// Otherwise:
///
/// - 12: `name` is not UTF-8. The call has no answer.
/// - 2: the image is no volume, or the segment cannot be added. The answer is the message `refused volume N` or
///   `refused system N`.
/// - 5: out of memory. The call has no answer.
/// - 7: the buffer is too short. Nothing is written to it.
#[unsafe(no_mangle)]
pub extern "C" fn pmach_with_system(
    alloc: Global,
    image: &[u8],
    name: &[u8],
    system: &[u8],
    out: &mut [u8],
    needed: &mut usize,
) -> u32
    ensures answers { Answers (said_system (system_added (image_fault image.now)
        (image_with_system image.now name.now system.now))) result out.old out.new needed.new }
    ensures text { (result ≡ NO_TEXT) ↔ ¬ (IsUtf8 name.now) }
{
    let Ok(name) = str::from_utf8(name) else {
        return none(NO_TEXT, needed);
    };
    match with_system(alloc, image, name, system) {
        Ok(Ok(volume)) => give(&volume.into_bytes(), out, needed),
        Ok(Err(refusal)) => give_refusal(alloc, refusal, out, needed),
        Err(_) => none(NO_MEMORY, needed),
    }
}

/// Copies the report of `pmach_salvage` to `out`: a line for each entry that is copied or left out, and a last line.
/// Returns 0 if the call succeeded.
///
/// Otherwise:
///
/// - 2: the image is too short to have this copy of the directory, or no volume is large enough. The answer is the
///   message `refused volume N`.
/// - 5: out of memory. The call has no answer.
/// - 7: the buffer is too short. Nothing is written to it.
#[unsafe(no_mangle)]
pub extern "C" fn pmach_salvage_report(
    alloc: Global,
    image: &[u8],
    second: bool,
    out: &mut [u8],
    needed: &mut usize,
) -> u32
    ensures answers { Answers (said_report (salvaged image.now second)) result out.old out.new needed.new }
{
    match salvage(alloc, image, second) {
        Ok(saved) => give(saved.text.as_bytes(), out, needed),
        Err(VolumeFault::NoMemory) => none(NO_MEMORY, needed),
        Err(fault) => give_refusal(alloc, Refusal::Volume(fault), out, needed),
    }
}
