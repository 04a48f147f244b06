//! Worked examples of the maximum number of steps. The function has an empty body.
ghost use Rattle.pm_plan.specs.Worked.{WorkedLimits};

/// States the maximum number of steps of a run with `--unlimited`, and of a run without `--unlimited` and `--limit`.
#[tactic(auto, using(crate::proofs::Computed::worked_limits))]
pub fn worked_limits()
    ensures law { WorkedLimits }
{}
