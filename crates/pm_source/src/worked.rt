//! Worked examples of lines and texts. The checker computes them; the functions have empty bodies.

ghost use Rattle.pm_source.specs.Worked.{WorkedFaults, WorkedLines};

/// States the statements of a few lines (see `WorkedLines`).
#[tactic(auto, using(crate::proofs::Computed::worked_lines))]
pub fn worked_lines()
    ensures law { WorkedLines }
{}

/// States the faults of a few texts, in order (see `WorkedFaults`).
#[tactic(auto, using(crate::proofs::Computed::worked_faults))]
pub fn worked_faults()
    ensures law { WorkedFaults }
{}
