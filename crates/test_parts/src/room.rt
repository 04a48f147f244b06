//! Tests of large memory use: waiting keys, output, and long programs. An implementation with a smaller limit fails
//! these tests.
ghost use Rattle.std.specs.Prelude.{◌<◌};

use crate::tested::Tested;
use pm_machine::{Machine, Stop};
use pm_volume::Volume;
use std::alloc::Global;
use std::process::Abort;
use std::test::Fail;

/// Tests that 70,000 keys can wait, which is more than the number of bytes of memory.
#[test]
fn keys_wait(rt: HostRuntime) {
    let mut machine = Tested::raw(&rt, rt.alloc(), &[0xD6]);
    for _ in 0..70_000 {
        machine.keys(&rt, 65);
    }
}

/// Raw p-code that writes the bytes 0 to 32,767 of memory to a unit in an endless loop of eight steps.
const WRITING: [u8; 16] = [
    0x01, 0x00, 0x00, 0xC7, 0x00, 0x80, 0x00, 0x00, 0x9E, 0x06, 0xB9, 0xFE, 0xD7, 0xD7, 0x0E, 0x00,
];

/// Returns a machine that has written 1 MiB to the unit `unit`.
fn writes_much(rt: &impl Abort, alloc: Global, unit: u8) -> Tested {
    let mut code = WRITING;
    code[0] = unit;
    let mut machine = Tested::raw(rt, alloc, &code);
    machine.runs_to(rt, 256, 256, Stop::Went);
    machine
}

#[test]
fn output_has_memory(rt: HostRuntime) {
    let machine = writes_much(&rt, rt.alloc(), 1);
    machine.has_written(&rt, 1_048_576, 0);
    let machine = writes_much(&rt, rt.alloc(), 6);
    machine.has_written(&rt, 0, 1_048_576);
}

/// Tests 59,999 `NOP` instructions and an `XIT`: 60,000 bytes, the greatest length of raw p-code.
#[test]
fn bare_code_of_the_greatest_length(rt: HostRuntime) -> Result<(), Fail> {
    let mut code = vec![in rt.alloc(); 0xD7; 60_000]?;
    code[59_999] = 0xD6;
    let mut machine = Tested::raw(&rt, rt.alloc(), &code);
    machine.runs_to(&rt, 100_000, 60_000, Stop::Ended);
    Ok(())
}

/// The bytes after the `NOP` instructions of a segment of 60,000 bytes: `RBP`, the attribute table, and the dictionary.
const END: [u8; 16] = [
    0xC1, 0x00, 0x00, 0x00, 0x00, 0x00, 0x06, 0x00, 0x58, 0xEA, 0x01, 0x00, 0x02, 0x00, 0x01, 0x01,
];

/// Returns a volume with a code file `P` that has one segment of 60,000 bytes.
fn long_segment(alloc: Global) -> Result<Volume, Fail> {
    let mut segment = vec![in alloc; 0xD7; 59_984]?;
    segment.extend_from_slice(&END)?;
    let lengths = [0, 60_000, 0, 0, 0, 0, 0, 0, 0, 0, 0, 0, 0, 0, 0, 0];
    let file = pm_codefile::write(alloc, &[[32; 8]; 16], &lengths, &segment)?;
    let mut volume = Volume::blank(alloc, "WORK", 140)?;
    volume.add("P", 2, &file, 0)?;
    Ok(volume)
}

/// The numbers of the disk units, in the order of the volumes.
const UNITS: [u8; 6] = [4, 5, 9, 10, 11, 12];

/// Asserts that a machine boots from the disk unit `UNITS[place]`, and ends after 59,984 `NOP` instructions and the
/// return.
fn boots(rt: &impl Abort, alloc: Global, place: usize) -> Result<(), Fail>
    requires place { place < 6 }
{
    let mut volumes = [None, None, None, None, None, None];
    volumes[place] = Some(long_segment(alloc)?);
    let Ok(mut machine) = Machine::boot(alloc, volumes, UNITS[place], "P", 0) else {
        return Err(Fail::new("a unit did not boot"));
    };
    assert_eq!(rt; machine.run(100_000), Ok((59_985, Stop::Ended)));
    Ok(())
}

#[test]
fn boots_from_each_unit(rt: HostRuntime) -> Result<(), Fail> {
    for place in 0..6 {
        boots(&rt, rt.alloc(), place)?;
    }
    Ok(())
}
