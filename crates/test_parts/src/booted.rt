//! Volumes with a program, and the machines that they boot.
ghost use Rattle.std.specs.Prelude.{◌≡◌, length, sum};

use pm_machine::{BootFault, Machine};
use pm_volume::Volume;
use std::alloc::Global;
use std::test::Fail;

/// Returns a volume with a code file `P` of the kind `kind`. Its slots 1, 2 and 3 have the lengths `lengths` in bytes,
/// and `segments` is their code, joined.
pub fn volume(alloc: Global, kind: u8, lengths: [u16; 3], segments: &[u8]) -> Result<Volume, Fail>
    requires joined { sum lengths ≡ length segments.now }
{
    let [a, b, c] = lengths;
    let lengths = [0, a, b, c, 0, 0, 0, 0, 0, 0, 0, 0, 0, 0, 0, 0];
    let file = pm_codefile::write(alloc, &[[32; 8]; 16], &lengths, segments)?;
    let mut volume = Volume::blank(alloc, "WORK", 83)?;
    volume.add("P", kind, &file, 0)?;
    Ok(volume)
}

/// Returns the machine that boots the file `P` of `volume` on unit 4.
pub fn boots(alloc: Global, volume: Volume) -> Result<Machine, BootFault> {
    let volumes = [Some(volume), None, None, None, None, None];
    match Machine::boot(alloc, volumes, 4, "P", 0) {
        Ok(machine) => Ok(machine),
        Err((fault, _)) => Err(fault),
    }
}
