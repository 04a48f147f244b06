//! A list of the faults that were found.

ghost use Rattle.std.specs.Prelude.{◌≡◌, ◌≢◌, ◌++◌, Some, IfErr, OnOk};
ghost use Rattle.std.specs.Option.{option_to_list};
ghost use Rattle.pm_source.specs.declared.fault.AsmFault.TheVariants.{NoMemory};

use pm_source::AsmFault;

/// Appends `fault` to `found`. If `fault` is `None`, nothing changes.
///
/// # Errors
///
/// `NoMemory`: `fault` is `NoMemory`, or the host has no memory to extend `found`.
pub fn note(found: &mut Vec<AsmFault>, fault: Option<AsmFault>) -> Result<(), AsmFault>
    ensures noted { OnOk result (found.new.items ≡ found.old.items ++ option_to_list fault) }
    ensures known { OnOk result (fault ≢ Some NoMemory) }
    ensures refusal { IfErr result (λ refusal. refusal ≡ NoMemory) }
{
    match fault {
        None => Ok(()),
        Some(AsmFault::NoMemory) => Err(AsmFault::NoMemory),
        Some(fault) => found.push(fault).map_err(|_| AsmFault::NoMemory),
    }
}
