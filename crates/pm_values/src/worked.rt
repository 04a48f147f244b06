//! Worked examples of fields and sets. The checker computes them; the function has an empty body.

ghost use Rattle.pm_values.specs.Worked.{WorkedValues};

/// States the values of the definitions of fields and sets for a few words (see `WorkedValues`).
#[tactic(auto, using(crate::proofs::Computed::worked_values))]
pub fn worked_values()
    ensures law { WorkedValues }
{}
