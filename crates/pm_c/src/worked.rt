//! Worked examples of the numbers in the C header, which the checker computes. The function does nothing.
ghost use Rattle.pm_c.specs.Worked.{WorkedAnswers, WorkedErrors, WorkedRefusals, WorkedStops};

/// The definitions have the worked-out values for these numbers:
///
/// - the statuses of calls and of whole jobs,
/// - the statuses of a step, a run and the state of a machine,
/// - the status of a start that an execution error refuses,
/// - the statuses of other refusals: programs, units, volumes and breakpoints.
#[tactic(auto, using(crate::proofs::Computed::worked_answers, crate::proofs::Computed::worked_stops, crate::proofs::Computed::worked_errors, crate::proofs::Computed::worked_refusals))]
pub fn worked_numbers()
    ensures answers { WorkedAnswers }
    ensures stops { WorkedStops }
    ensures errors { WorkedErrors }
    ensures refusals { WorkedRefusals }
{}
