//! Laws of runs, of steps and of rows. A run executes steps up to a limit. Each function has an empty body.

ghost use Rattle.pm_machine.specs.RunLaws as runs;

/// If a run ends at its limit, and a second run begins in the state after it, then both runs together are one run. The
/// limit of this run is the sum of both limits, and its count of steps is the sum of both counts.
#[tactic(auto, using(pm_machine::proofs::RunLaws::runs_go_on))]
pub fn runs_go_on()
    ensures law { runs.RunsGoOn }
{}

/// If a run ends before its limit because of the result of a step, then the run with any greater limit is the same.
#[tactic(auto, using(pm_machine::proofs::RunLaws::runs_stay))]
pub fn runs_stay()
    ensures law { runs.RunsStay }
{}

/// A run has only one count of steps, one last result and one final state.
#[tactic(auto, using(pm_machine::proofs::RunLaws::runs_are_one))]
pub fn runs_are_one()
    ensures law { runs.RunsAreOne }
{}

/// If a test can stop a run, then the run executes only successful steps before which the test does not hold. The run
/// ends at its limit, before a step at which the test holds, or with the result of a step that does not succeed and
/// before which the test does not hold.
#[tactic(auto, using(pm_machine::proofs::UntilLaws::runs_end_so))]
pub fn runs_end_so()
    ensures law { runs.RunsEndSo }
{}

/// A count, a last result and a state are those of a run of the machine if and only if they are those of a run with a
/// test that never holds.
#[tactic(auto, using(pm_machine::proofs::UntilLaws::runs_are_unstopped))]
pub fn runs_are_unstopped()
    ensures law { runs.RunsAreUnstopped }
{}

/// A step does not change a machine that has ended or halted.
#[tactic(auto, using(crate::proofs::StepLaws::rest_stays))]
pub fn rest_stays()
    ensures law { runs.RestStays }
{}

/// A step changes no disk unless its instruction is UNITWRITE.
#[tactic(auto, using(crate::proofs::StepLaws::steps_keep_disks))]
pub fn steps_keep_disks()
    ensures law { runs.StepsKeepDisks }
{}

/// If the row of one of these instructions succeeds, then every word of memory is unchanged, except the word at the new
/// SP: arithmetic and comparisons of words, increments, loads through addresses, indexes, and addresses and values of
/// variables.
#[tactic(auto, using(crate::proofs::StepLaws::rows_keep_below))]
pub fn rows_keep_below()
    ensures law { runs.RowsKeepBelow }
{}
