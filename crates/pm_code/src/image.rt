//! The code file of a program.

ghost use Rattle.std.specs.Prelude.{◌≡◌, ◌<◌, ◌≤◌, ◌-◌, ◌++◌, length, option_map, replicate, IfOk};
ghost use Rattle.pm_code.specs.Image.{bytes_of_segment, file_of, name_of_segment};
ghost use Rattle.pm_code.specs.Program.{FitSlots, IsProgram, segment_numbered};
ghost use Rattle.pm_code.specs.Views.{program_seen, segment_seen};

use crate::bytes::segment_bytes;
use crate::program::Segment;
use pm_codefile::write;
use std::alloc::{AllocError, Global};

/// Returns the segment of `program` whose number is `number`, or `None` if no segment has this number.
fn segment_numbered(program: &[Segment], number: u8) -> Option<&Segment>
    ensures segment { option_map (λ s. segment_seen s.now) result ≡ segment_numbered number (program_seen program.now) }
{
    for segment in program {
        if segment.number == number {
            return Some(segment);
        }
    }
    None
}

/// Returns `name` padded with spaces to 8 bytes.
fn padded_name(name: &[u8]) -> [u8; 8]
    requires short { length name.now ≤ 8 }
    ensures padded { result ≡ name.now ++ replicate (8 - length name.now) 32 }
{
    let mut padded = [b' '; 8];
    padded[..name.len()].copy_from_slice(name);
    padded
}

/// The contents of a slot of a code file.
#[derive(Drop)]
struct Slot {
    /// The name of the segment padded with spaces, or 8 spaces if the slot has no segment.
    name: [u8; 8],
    /// The bytes of the segment. Empty if the slot has no segment.
    bytes: Vec<u8>,
}

/// Returns the contents of slot `number` in the code file of `program`.
fn slot_of(alloc: Global, program: &[Segment], number: u8) -> Result<Slot, AllocError>
    requires program { IsProgram (program_seen program.now) }
    requires fit { FitSlots (program_seen program.now) }
    ensures name { IfOk result (λ slot. slot.name ≡ name_of_segment
        (segment_numbered number (program_seen program.now))) }
    ensures bytes { IfOk result (λ slot. slot.bytes.items
        ≡ bytes_of_segment (segment_numbered number (program_seen program.now))) }
    ensures short { IfOk result (λ slot. length slot.bytes.items ≤ 65534) }
{
    let Some(segment) = segment_numbered(program, number) else {
        return Ok(Slot {
            name: [b' '; 8],
            bytes: Vec::new(alloc),
        });
    };
    let name = padded_name(&segment.name);
    let bytes = segment_bytes(alloc, segment)?;
    Ok(Slot { name, bytes })
}

/// Returns the code file of `program` in the canonical layout. Each segment is in the slot with its number. No segment
/// may have more than 65,534 bytes.
///
/// # Errors
///
/// `AllocError`: memory was refused.
#[tactic(auto, unfolding(crate::specs::Image::file_of))]
pub fn code_file(alloc: Global, program: &[Segment]) -> Result<Vec<u8>, AllocError>
    requires program { IsProgram (program_seen program.now) }
    requires fit { FitSlots (program_seen program.now) }
    ensures file { IfOk result (λ file. file.items ≡ file_of (program_seen program.now)) }
{
    let mut names = [[b' '; 8]; 16];
    let mut lengths = [0; 16];
    let mut joined = Vec::new(alloc);
    for n in 0..16 {
        let slot = slot_of(alloc, program, n as u8)?;
        names[n] = slot.name;
        lengths[n] = slot.bytes.len() as u16;
        joined.extend_from_slice(&slot.bytes)?;
    }
    write(alloc, &names, &lengths, &joined)
}
