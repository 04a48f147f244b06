//! The calls that mount and eject the disks of a machine.
ghost use Rattle.std.specs.Prelude.{◌≡◌, None, IfOk};
ghost use Rattle.pm_c.specs.Changes.{ChangesMachine, Ejects, GivesImage, Leads, Looks, Mounts, Opens};

use crate::buffer::give;
use crate::handle::{Handle, taken};
use crate::held::Held;
use crate::status::{DONE, NO_DISK, NO_MACHINE, NO_MEMORY, volume_code};
use pm_machine::Machine;
use pm_volume::{Volume, VolumeFault};
use std::alloc::{AllocError, Global};

/// Copies `image` and opens the copy as a volume. The inner error is the first fault of an image that is no volume.
pub(crate) fn volume_of(
    alloc: Global,
    image: &[u8],
) -> Result<Result<Volume, VolumeFault>, AllocError>
    ensures opens { IfOk result (λ opened. Opens image.now opened) }
{
    let bytes = image.to_vec(alloc)?;
    match Volume::open(bytes) {
        Ok(volume) => Ok(Ok(volume)),
        Err((fault, _)) => Ok(Err(fault)),
    }
}

fn mount(alloc: Global, machine: &mut Machine, unit: u8, image: &[u8]) -> u32
    ensures mounts { Mounts unit image.now result machine.old machine.new }
{
    let volume = match volume_of(alloc, image) {
        Ok(Ok(volume)) => volume,
        Ok(Err(fault)) => return volume_code(fault),
        Err(_) => return NO_MEMORY,
    };
    match machine.mount(unit, volume) {
        Ok(()) => DONE,
        Err((fault, _)) => 300 + u32::from(fault.number()),
    }
}

/// Mounts a copy of `image` as the disk of unit `unit`. Returns 0 if the call succeeded.
///
/// Otherwise nothing has changed. The statuses are checked in this order:
///
/// - 8: the handle is empty.
/// - 5: out of memory.
/// - 400 plus the number of the fault: the image is no volume.
/// - 301: the unit is not a disk unit.
/// - 302: the unit already has a disk.
#[unsafe(no_mangle)]
pub extern "C" fn pmach_mount(alloc: Global, handle: &mut Handle, unit: u8, image: &[u8]) -> u32
    ensures mounts { Leads result handle.old.held handle.new.held (ChangesMachine (Mounts unit image.now result)) }
{
    let Some(held) = taken(alloc, handle) else {
        return NO_MACHINE;
    };
    let mut held = held;
    let code = mount(alloc, held.debugger.machine(), unit, image);
    *handle = Handle::of(held);
    code
}

fn eject(held: &mut Held, unit: u8) -> u32
    ensures ejects { Ejects unit result held.old held.new }
{
    match held.debugger.machine().eject(unit) {
        Some(disk) => {
            held.ejected = Some(disk);
            DONE
        }
        None => NO_DISK,
    }
}

/// Ejects the disk of unit `unit`. Returns 0 if the call succeeded. Then `pmach_ejected` returns the image of this disk
/// until another disk is ejected.
///
/// Otherwise nothing has changed:
///
/// - 8: the handle is empty.
/// - 11: the unit has no disk or is not a disk unit.
#[unsafe(no_mangle)]
pub extern "C" fn pmach_eject(alloc: Global, handle: &mut Handle, unit: u8) -> u32
    ensures ejects { Leads result handle.old.held handle.new.held (Ejects unit result) }
{
    let Some(held) = taken(alloc, handle) else {
        return NO_MACHINE;
    };
    let mut held = held;
    let code = eject(&mut held, unit);
    *handle = Handle::of(held);
    code
}

fn give_ejected(held: &Held, out: &mut [u8], needed: &mut usize) -> u32
    ensures gives { GivesImage held.now.ejected result out.old out.new needed.new }
{
    match &held.ejected {
        Some(disk) => give(disk.bytes(), out, needed),
        None => {
            *needed = 0;
            NO_DISK
        }
    }
}

/// Copies the image of the disk that was ejected last to `out`. Returns 0 if the call succeeded.
///
/// Otherwise nothing is written to the buffer:
///
/// - 8: the handle is empty.
/// - 11: no disk was ejected.
/// - 7: the buffer is too short.
#[unsafe(no_mangle)]
pub extern "C" fn pmach_ejected(
    alloc: Global,
    handle: &mut Handle,
    out: &mut [u8],
    needed: &mut usize,
) -> u32
    ensures looks { Leads result handle.old.held handle.new.held (Looks (λ m.
        GivesImage m.ejected result out.old out.new needed.new)) }
    ensures same { handle.old.held ≡ None → out.new ≡ out.old }
{
    let Some(held) = taken(alloc, handle) else {
        return NO_MACHINE;
    };
    let code = give_ejected(&held, out, needed);
    *handle = Handle::of(held);
    code
}
