//! Laws about loaded code: the code file of a text is loaded as the listing of the text states it.

ghost use Rattle.law_jobs.specs.Loaded.{AssembledBootsListed, AssembledIsAccepted};
ghost use Rattle.law_jobs.specs.Loaded.{AssembledIsFound, AssembledKeepsListed, AssembledLoadsListed};

use law_engine::shapes::machines_hold_words;
use pm_machine::Machine;

/// If a machine was booted from the code file of an assembled text on a volume, and the unit still has this volume
/// after any events, then each segment is loaded as listed. The *listed bytes* of a segment are the joined bytes of its
/// lines in the listing.
///
/// - If a step calls a procedure of slot n, which has no address, and succeeds, then memory has the listed bytes of
///   segment n, directly below the SP before the step.
/// - If a step loads slot n, which has no address, by standard procedure 21 and succeeds, then memory has the listed
///   bytes of segment n, directly below the SP after the operand is popped.
/// - After the boot, memory has the listed bytes of segment 1, directly below 65,492.
pub fn assembled_loads_listed(machine: &Machine)
    ensures law { AssembledLoadsListed machine.now.state }
    ensures keeps { AssembledKeepsListed machine.now.state }
    ensures boot { AssembledBootsListed }
{
    machines_hold_words(machine);
}

/// An assembled file is a code file. If the text has a segment 1, and a volume has the assembled file under a name as a
/// file of kind 2, then a boot by this name finds it.
#[tactic(auto, using(crate::proofs::Accepted::assembled_is_accepted, crate::proofs::Accepted::assembled_is_found))]
pub fn assembled_is_accepted()
    ensures law { AssembledIsAccepted }
    ensures boot { AssembledIsFound }
{}
