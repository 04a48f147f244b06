//! Adding slot 0 of one code file, the system file, to another code file, the program file.
ghost use Rattle.std.specs.Prelude.{◌≡◌, ◌≢◌, ◌≤◌, length, Err, Ok, IfErr, IfOk, IsErrOf, IsOk};
ghost use Rattle.pm_bytes.specs.declared.blocks.TheConstants.{BLOCK};
ghost use Rattle.pm_bytes.specs.Blocks.{blocks_for};
ghost use Rattle.pm_filer.specs.SystemSegments.{given, system_slot, with_segment, with_system};
ghost use Rattle.pm_filer.specs.declared.system_fault.SystemFault.TheVariants.{NoMemory};

use crate::system_fault::SystemFault;
use pm_bytes::{BLOCK, blocks_for, set_bytes, set_word};
use pm_codefile::{CodeFile, Slot};
use pm_volume::VolumeFault;
use std::alloc::{AllocError, Global};

/// Returns slot 0 of the dictionary of the system file `system`, and the code of its segment.
#[tactic(auto, unfolding(crate::specs::SystemSegments::system_slot))]
pub(crate) fn system_slot(system: &[u8]) -> Result<(Slot, &[u8]), SystemFault>
    ensures found { IfOk result (λ found. system_slot system.now ≡ Ok (found.0, found.1.now)) }
    ensures refusal { IfErr result (λ fault. (fault ≢ NoMemory) × (system_slot system.now ≡ Err fault)) }
{
    let file = match CodeFile::read(system) {
        Ok(file) => file,
        Err(fault) => return Err(SystemFault::NoCode(fault)),
    };
    let slot = file.slot(0).ok_or(SystemFault::NoSegment)?;
    let segment = file.segment(0).ok_or(SystemFault::NoSegment)?;
    Ok((slot, segment))
}

/// Returns the code file `file` with `segment` added after its last block. Slot 0 of the new dictionary describes this
/// segment, with the length and the name of `slot`. `block` is the number of blocks of `file`.
#[tactic(auto, unfolding(crate::specs::SystemSegments::with_segment))]
fn with_segment(
    alloc: Global,
    file: &[u8],
    block: u16,
    slot: Slot,
    segment: &[u8],
) -> Result<Vec<u8>, AllocError>
    requires dictionary { BLOCK ≤ length file.now }
    requires blocks { block ≡ blocks_for (length file.now) }
    ensures file { IfOk result (λ new. new.items ≡ with_segment file.now slot segment.now) }
{
    let mut new = Vec::from_slice(alloc, file)?;
    new.resize(BLOCK * usize::from(block), 0)?;
    set_word(&mut new, 0, block);
    set_word(&mut new, 2, slot.length);
    set_bytes(&mut new, 64, &slot.name);
    new.extend_from_slice(segment)?;
    Ok(new)
}

/// Returns the program file `file` with `segment` added as its slot 0, which must be empty.
#[tactic(auto, unfolding(crate::specs::SystemSegments::given))]
pub(crate) fn given(
    alloc: Global,
    file: &[u8],
    slot: Slot,
    segment: &[u8],
) -> Result<Vec<u8>, SystemFault>
    ensures given { IfOk result (λ new. given file.now slot segment.now ≡ Ok new.items) }
    ensures refusal { IfErr result (λ fault. fault ≢ NoMemory → given file.now slot segment.now ≡ Err fault) }
    ensures memory { IsErrOf result NoMemory → IsOk (given file.now slot segment.now) }
{
    let program = match CodeFile::read(file) {
        Ok(program) => program,
        Err(fault) => return Err(SystemFault::NoProgram(fault)),
    };
    if program.segment(0).is_some() {
        return Err(SystemFault::Taken);
    }
    let Ok(block) = u16::try_from(blocks_for(file.len())) else {
        return Err(SystemFault::Volume(VolumeFault::NoRoom));
    };
    Ok(with_segment(alloc, file, block, slot, segment)?)
}

/// Returns the code file `file` with the segment that the code file `system` has in slot 0.
///
/// The segment is added after the last block of `file`. Slot 0 of the dictionary then states the block, length and name
/// of this segment. All other bytes are unchanged.
///
/// # Errors
///
/// Checked in this order:
/// - `NoCode`: `system` is not a code file.
/// - `NoSegment`: slot 0 of `system` has no segment.
/// - `NoProgram`: `file` is not a code file.
/// - `Taken`: slot 0 of `file` has a segment.
/// - `NoRoom` of a volume: `file` has more than 65,535 blocks of 512 bytes.
/// - `NoMemory`: the host has no memory for the new file.
pub fn with_system(alloc: Global, file: &[u8], system: &[u8]) -> Result<Vec<u8>, SystemFault>
    ensures done { IfOk result (λ new. with_system file.now system.now ≡ Ok new.items) }
    ensures refusal { IfErr result (λ fault. fault ≢ NoMemory → with_system file.now system.now ≡ Err fault) }
    ensures memory { IsErrOf result NoMemory → IsOk (with_system file.now system.now) }
{
    let (slot, segment) = system_slot(system)?;
    given(alloc, file, slot, segment)
}
