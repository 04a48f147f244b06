//! Laws about runs of the debugger. Each function has an empty body.

ghost use Rattle.pm_debug.specs.Runs.{GoIsRun};
ghost use Rattle.pm_debug.specs.RunLaws.{ChangesAreFirst, FalseConditionsStopNothing, GoStopsAtBreaks};
ghost use Rattle.pm_debug.specs.RunLaws.{TrueConditionsAreNone};
ghost use Rattle.law_jobs.specs.Breakpoints.{WorkedWords};

/// A run of the debugger without breakpoints and watched words is the run of the machine with the same limit: it has
/// the same number of steps and the same final state. If the machine had ended before the run, the reason is `Ended`.
/// Otherwise the reason is the one that the last answer of the machine states.
#[tactic(auto, using(pm_debug::proofs::GoLaws::go_is_run))]
pub fn go_is_run()
    ensures law { GoIsRun }
{}

/// If a run ends with `changed K A`, then the word at A differs from its value at the start of the run. Each word
/// before A in the list of watched words has its value from the start. After every smaller number of steps, all watched
/// words had their values from the start. The run has at least one step, and all its steps succeeded.
#[tactic(auto, using(pm_debug::proofs::WatchLaws::changes_are_first))]
pub fn changes_are_first()
    ensures law { ChangesAreFirst }
{}

/// If the machine has not ended and no words are watched, then `go` is the run of the machine with a test that stops at
/// breakpoints. The test is not applied before the first step.
#[tactic(auto, using(pm_debug::proofs::GoLaws::go_stops_at_breaks))]
pub fn go_stops_at_breaks()
    ensures law { GoStopsAtBreaks }
{}

/// If the condition of a breakpoint is false after each step of a run, then the run is the same with and without this
/// breakpoint. If the condition is true after each step of a run, then the run is the same with and without the
/// condition.
#[tactic(auto, using(pm_debug::proofs::ConditionLaws::false_conditions_stop_nothing, pm_debug::proofs::ConditionLaws::true_conditions_are_none))]
pub fn conditions_decide()
    ensures nothing { FalseConditionsStopNothing }
    ensures same { TrueConditionsAreNone }
{}

/// Worked examples: the number of bytes that a breakpoint on words covers.
#[tactic(auto, using(crate::proofs::BreakStops::worked_words))]
pub fn worked_words()
    ensures law { WorkedWords }
{}
