//! The lengths of segments.

ghost use Rattle.std.specs.Prelude.{◌≡◌, None, Err, IsTrue, IfErr, IfOk, OnOk, OnErr, nat_lt, length};
ghost use Rattle.std.specs.List.{AllByRecursion, list_any};
ghost use Rattle.pm_code.specs.Program.{FollowFrom, segment_bytes};
ghost use Rattle.pm_code.specs.Views.{program_seen, segment_seen};
ghost use Rattle.pm_source.specs.declared.fault.AsmFault.TheVariants.{NoMemory};
ghost use Rattle.pm_reader.specs.Reader.{IsCountless};
ghost use Rattle.pm_asm.specs.Lengths.{AreShort, IsTooLong, is_countless_long};
ghost use Rattle.pm_asm.specs.declared.lengths.TheConstants.{LONGEST};

use pm_code::{Segment, segment_length};
use pm_source::AsmFault;

/// The maximum length of a segment, in bytes.
pub const LONGEST: usize = 60_000;

/// Whether `segment` has more than 60,000 bytes. The error is `NoMemory`, if the length does not fit in 64 bits.
fn is_long(segment: &Segment) -> Result<bool, AsmFault>
    requires follow { FollowFrom 0 (segment_seen segment.now).procedures }
    ensures value { IfOk result (λ long. long ≡ nat_lt LONGEST (length (segment_bytes (segment_seen segment.now)))) }
    ensures refusal { IfErr result (λ fault. fault ≡ NoMemory) }
    ensures too_long { OnErr result (IsCountless (length (segment_bytes (segment_seen segment.now)))) }
{
    let length = segment_length(segment).ok_or(AsmFault::NoMemory)?;
    Ok(length > LONGEST)
}

/// Checks that no segment of `program` has more than 60,000 bytes.
///
/// # Errors
///
/// - `TooLong(n)`: n is the number of the first segment with more bytes.
/// - `NoMemory`: the length of a segment does not fit in 64 bits.
pub(crate) fn check_lengths(program: &[Segment]) -> Result<(), AsmFault>
    requires follow { AllByRecursion (λ s. FollowFrom 0 s.procedures) (program_seen program.now) }
    ensures short { OnOk result (AreShort (program_seen program.now)) }
    ensures refusal { IfErr result (IsTooLong (program_seen program.now)) }
    ensures too_long { result ≡ Err NoMemory → IsTrue (list_any is_countless_long (program_seen program.now)) }
{
    for segment in program {
        if is_long(segment)? {
            return Err(AsmFault::TooLong(segment.number));
        }
    }
    Ok(())
}
