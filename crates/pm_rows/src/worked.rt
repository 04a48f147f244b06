//! Worked examples of integer operations. The checker computes them; the function has an empty body.

ghost use Rattle.pm_rows.specs.Worked.{WorkedResults};

/// States the results of the definitions of integer operations for a few words (see `WorkedResults`).
#[tactic(auto, using(crate::proofs::Computed::worked_results))]
pub fn worked_results()
    ensures law { WorkedResults }
{}
