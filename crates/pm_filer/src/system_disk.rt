//! Adding the system segment to the code file of a program on a volume.
ghost use Rattle.std.specs.Prelude.{◌≡◌, ◌≢◌, ◌-◌, Ok, Err, IfErr, IfOk, IfSome, OnOk, option_map};
ghost use Rattle.std.specs.List.{All, remove};
ghost use Rattle.pm_filer.specs.SystemDisks.{image_with_system, program_file, put_anew, put_code};
ghost use Rattle.pm_filer.specs.declared.system_fault.SystemFault.TheVariants.{NoMemory};
ghost use Rattle.pm_volume.specs.Changes.{slot_named};
ghost use Rattle.pm_volume.specs.Directory.{directory_of};
ghost use Rattle.pm_volume.specs.Files.{files_of};
ghost use Rattle.pm_volume.specs.Stays.{FileStays, FilesStay};
ghost use Rattle.pm_volume.specs.Made.{file_removed};

use crate::system_fault::SystemFault;
use crate::system_segment::{given, system_slot};
use pm_volume::kinds::CODE;
use pm_volume::{Volume, VolumeFault};
use std::alloc::Global;

/// Returns the bytes of the first file with the name `name`, if its kind is code.
fn program_file<'a>(volume: &'a Volume, name: &str) -> Option<&'a [u8]>
    ensures bytes { option_map (λ bytes. bytes.now) result ≡ program_file volume.now name.now }
{
    let entry = volume.find(name)?;
    if entry.kind == CODE {
        volume.file(&entry)
    } else {
        None
    }
}

/// Adds the code file `file` to `volume` under the name `name`. Its date is the last date of the volume.
#[tactic(auto, using(crate::proofs::SystemMade::made))]
fn put_code(volume: &mut Volume, name: &str, file: &[u8]) -> Result<(), VolumeFault>
    ensures done { OnOk result (put_code volume.old name.now file.now ≡ Ok volume.new) }
    ensures refusal { IfErr result (λ fault. put_code volume.old name.now file.now ≡ Err fault) }
    ensures stay { OnOk result (FilesStay volume.old volume.new) }
{
    let date = volume.last_date();
    volume.add(name, CODE, file, date)?;
    Ok(())
}

/// Replaces the first file with the name `name` by the code file `file`.
#[tactic(auto, using(crate::proofs::SystemMade::made))]
fn exchange(volume: &mut Volume, name: &str, file: &[u8]) -> Result<(), VolumeFault>
    ensures done { OnOk result (put_anew name.now file.now (file_removed volume.old name.now) ≡ Ok volume.new) }
    ensures refusal { IfErr result (λ fault.
        put_anew name.now file.now (file_removed volume.old name.now) ≡ Err fault) }
    ensures stay { OnOk result (IfSome (slot_named (directory_of volume.old) name.now) (λ slot.
        All (FileStays volume.old volume.new) (remove (files_of volume.old) (slot - 1)))) }
{
    volume.remove(name)?;
    put_code(volume, name, file)
}

/// Returns `volume` after the system segment was added to the code file with the name `name`, as `with_system` does.
/// `system` is a code file with the system segment in its slot 0.
///
/// The first file with this name is removed. The new file is added like any other file, in the lowest gap that is large
/// enough, with the last date of the volume. Every other file keeps its blocks and bytes. If no file has this name, or
/// the first file with this name is not a code file, the volume is unchanged.
///
/// # Errors
///
/// Checked in this order:
/// - `NoCode`, `NoSegment`: as for `with_system`, even if the volume has no code file with this name.
/// - `NoProgram`, `Taken`, `NoRoom`: as for `with_system`.
/// - `BadName`: the name is not valid for a new file.
/// - `Duplicate`: a second file has this name.
/// - `NoRoom`: no gap is large enough.
///
/// `NoMemory` is possible at any point: the host has no memory for the new file.
#[tactic(auto, unfolding(crate::specs::SystemDisks::image_with_system))]
pub fn put_system(
    alloc: Global,
    volume: Volume,
    name: &str,
    system: &[u8],
) -> Result<Volume, SystemFault>
    ensures done { IfOk result (λ new. image_with_system volume name.now system.now ≡ Ok new) }
    ensures refusal { IfErr result (λ fault. fault ≢ NoMemory →
        image_with_system volume name.now system.now ≡ Err fault) }
    ensures stay { IfOk result (λ new. IfSome (slot_named (directory_of volume) name.now) (λ slot.
        All (FileStays volume new) (remove (files_of volume) (slot - 1)))) }
{
    let (slot, segment) = system_slot(system)?;
    let mut volume = volume;
    let Some(file) = program_file(&volume, name) else {
        return Ok(volume);
    };
    let file = given(alloc, file, slot, segment)?;
    exchange(&mut volume, name, &file)?;
    Ok(volume)
}
