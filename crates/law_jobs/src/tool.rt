//! Laws about runs, the images that runs leave, and the faults of a text. Each function has an empty body.
ghost use Rattle.law_jobs.specs.ToolLaws.{FaultsEndAsAssembling, ImagesAreOfTheirUnits, RunsAreEvents};
ghost use Rattle.law_jobs.specs.ToolLaws.{RunsGoByTheMachine, SavingChangesNothing, ShowingChangesNothing};

/// For each run, some list of steps and keys leads to the state in which the run leaves the machine. The bytes of these
/// keys are, in order, the bytes that the run read from the input.
#[tactic(auto, using(crate::proofs::ToolRuns::runs_are_events))]
pub fn runs_are_events()
    ensures law { RunsAreEvents }
{}

/// A run is shown by its trace or by its console output. This choice changes neither the end of the run, nor the
/// machine, nor the input that remains unread.
#[tactic(auto, using(crate::proofs::ToolRuns::showing_changes_nothing))]
pub fn showing_changes_nothing()
    ensures law { ShowingChangesNothing }
{}

/// A run of a job consists of runs of the machine without input:
///
/// - If the machine waits, the next byte of the input is appended to its queue, and the rest of the limit is run from
///   that state.
/// - If the machine waits and the input has no next byte, the run ends as waiting.
/// - If the machine reaches the limit, ends or halts, the run of the job ends for this reason, in the same state. The
///   rest of the input remains unread.
#[tactic(auto, using(crate::proofs::MachineRuns::runs_go_by_the_machine))]
pub fn runs_go_by_the_machine()
    ensures law { RunsGoByTheMachine }
{}

/// Before its first step, a run without `--system` has each image unchanged on its own unit. If the run saves all
/// images, then the image of its result is that of unit 4, and the other images are those of units 5, 9, 10, 11 and 12,
/// in this order.
pub fn images_are_of_their_units()
    ensures law { ImagesAreOfTheirUnits }
{}

/// The choice of the images that a run saves changes nothing else of the run. The saved image of unit 4 is the same
/// with `--save` and with `--save-all`. The images of the other units are the same whether or not the image of unit 4
/// is saved. If only the images of the other units are saved, then the result has no image of unit 4.
#[tactic(auto, using(crate::proofs::RunImages::saving_changes_nothing))]
pub fn saving_changes_nothing()
    ensures law { SavingChangesNothing }
{}

/// `asm --all` ends with the same status and message as `asm`. If this status is 0, `asm --all` writes nothing.
#[tactic(auto, using(crate::proofs::FaultLaws::faults_end_as_assembling))]
pub fn faults_end_as_assembling()
    ensures law { FaultsEndAsAssembling }
{}
