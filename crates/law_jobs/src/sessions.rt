//! Laws about sessions of the debugger: what a session prints is determined by the state that the table defines.

ghost use Rattle.std.specs.Prelude.{ℕ};
ghost use Rattle.law_jobs.specs.Breakpoints.{BreakIfSetsOne, BreakIfStopsSo, BreakSetsOne, BreakStopsThere};
ghost use Rattle.law_jobs.specs.Breakpoints.{BreaksStay, ClearStopsNoMore, ClearTakesOne, ClearWordsStopsNoMore};
ghost use Rattle.law_jobs.specs.Breakpoints.{ClearWordsTakesOne, ConditionIsRead, WordsAreRead, WordsSetOne};
ghost use Rattle.law_jobs.specs.Breakpoints.{WordsStopSo};
ghost use Rattle.law_jobs.specs.Breakpoints.{UnwatchTakesOne, WatchAddsOne, WatchesStay};
ghost use Rattle.law_jobs.specs.Console.{ConsoleIsShown};
ghost use Rattle.law_jobs.specs.OneRun.{GoesOnAsOne, NothingGoesOn};
ghost use Rattle.law_jobs.specs.Shown.{SessionsShowTheTable};
ghost use Rattle.law_jobs.specs.Typed.{InputIsTyped, TypesAreKeys};
ghost use Rattle.pm_session.specs.declared.commands.Command.TheVariants.{Finish, Go, Step, Until};

/// After any lines of a session without `quit`, the machine is in the state after the events of these lines, in their
/// order. The answers to the lines that follow are those of a session in that state. The events of a command are these:
///
/// - `go`, `step`, `finish` and `until` execute steps until the limit is reached, a watched word has changed, the
///   machine is at a breakpoint, or a step does not succeed. Nothing is tested before the first step.
/// - A `step` also stops when MP is at least its value at the start, a `finish` when MP is greater than this value, and
///   an `until` at its position.
/// - While breakpoints are ignored, the run continues after a breakpoint, within its limit.
/// - `on` executes the rest of the last run up to its own limit.
/// - `key` and `poke` are one event each. `type` is a key for each of its bytes.
/// - All other commands leave the machine unchanged.
#[tactic(auto, using(crate::proofs::Shown::sessions_show_the_table))]
pub fn sessions_show_the_table()
    ensures law { SessionsShowTheTable }
{}

/// After `console on`, and for lines without `quit` and `console off`, the answer to each line is the answer of its
/// command. If the command wrote bytes to the console, a line with these bytes precedes the answer. All these bytes, in
/// order, are exactly the bytes that the lines append to the console output.
pub fn console_is_shown()
    ensures law { ConsoleIsShown }
{}

/// Lines without `break`, `reads`, `writes` and `clear` leave all breakpoints of a session unchanged. Lines without
/// `watch` and `unwatch` leave the watched words unchanged.
#[tactic(auto, using(crate::proofs::Breakpoints::breaks_stay, crate::proofs::Breakpoints::watches_stay))]
pub fn other_lines_leave_the_breakpoints()
    ensures breaks { BreaksStay }
    ensures watches { WatchesStay }
{}

/// A command that sets or clears a breakpoint or a watched word changes only this one:
///
/// - After `break S P O`, with or without a condition, a breakpoint is set at this position.
/// - After `reads A N` or `writes A N`, a breakpoint is set on these words.
/// - After `clear S P O`, `clear reads A N` or `clear writes A N`, this breakpoint is not set.
/// - After `watch A` the word at A is watched, and after `unwatch A` it is not watched.
///
/// Every other breakpoint is set, and every other word is watched, if and only if it was before the command. Commands
/// that set a breakpoint or watch a word have two premises: fewer than 64 breakpoints are set, or fewer than 64 words
/// watched, and addresses are even.
#[tactic(auto, using(crate::proofs::Breakpoints::break_sets_one, crate::proofs::Breakpoints::break_if_sets_one, crate::proofs::Breakpoints::words_set_one, crate::proofs::Breakpoints::clear_takes_one, crate::proofs::Breakpoints::clear_words_takes_one, crate::proofs::Breakpoints::watch_adds_one, crate::proofs::Breakpoints::unwatch_takes_one))]
pub fn a_command_changes_one_breakpoint()
    ensures sets { BreakSetsOne }
    ensures sets_if { BreakIfSetsOne }
    ensures takes { ClearTakesOne }
    ensures sets_words { WordsSetOne }
    ensures takes_words { ClearWordsTakesOne }
    ensures adds { WatchAddsOne }
    ensures unwatches { UnwatchTakesOne }
{}

/// Worked examples of how the debugger reads commands with a condition:
///
/// - `break 1 2 3 if 4 = 5` sets a breakpoint at offset 3 of procedure 2 of segment 1, with the condition that the word
///   at 4 is 5.
/// - `reads 8 2 if 6 = 7` sets a breakpoint on reads of the two words from address 8 on, with the condition that the
///   word at 6 is 7.
/// - `writes 8 2` sets a breakpoint on writes of the same two words, without a condition.
/// - `clear reads 8 2` clears the breakpoint of `reads 8 2`.
#[tactic(auto, using(crate::proofs::Typed::condition_is_read, crate::proofs::Typed::words_are_read))]
pub fn a_condition_is_read()
    ensures read { ConditionIsRead }
    ensures words { WordsAreRead }
{}

/// States in which states the breakpoints of a session stop a run after a command:
///
/// - After `break S P O`, they stop a run in every state at this position.
/// - After `break S P O if A = W`, they stop a run at this position if and only if the word at A is W, or a breakpoint
///   on words stops it.
/// - After `clear S P O`, they stop a run at this position if and only if a breakpoint on words stops it.
/// - After `reads A N` or `writes A N`, the breakpoint stops a run before a step that reads, or writes, one of these
///   words. If the command has a condition, the breakpoint stops a run only if the condition holds before this step.
/// - After `clear reads A N` or `clear writes A N`, the breakpoint of `reads A N` or `writes A N` stops no run.
///
/// After a command for a position, breakpoints stop a run at every other position as before. After a command for words,
/// all other breakpoints stop runs as before. Commands that set a breakpoint have two premises: fewer than 64
/// breakpoints are set, and addresses are even.
#[tactic(auto, using(crate::proofs::BreakStops::break_stops_there, crate::proofs::BreakStops::break_if_stops_so, crate::proofs::BreakStops::clear_stops_no_more, crate::proofs::BreakStops::words_stop_so, crate::proofs::BreakStops::clear_words_stops_no_more))]
pub fn a_breakpoint_stops_by_its_last_condition()
    ensures always { BreakStopsThere }
    ensures condition { BreakIfStopsSo }
    ensures clear { ClearStopsNoMore }
    ensures words { WordsStopSo }
    ensures clear_words { ClearWordsStopsNoMore }
{}

/// `go a` followed by `on b` leaves the same session as `go a + b`, and the answer to `on b` is the answer to `go a +
/// b`. The same holds for `step`, `finish` and `until`. The premises are: a + b is at most 4,294,967,295, and the first
/// run can be continued. If the last run cannot be continued, then `on` is refused and changes nothing.
pub fn runs_go_on()
    ensures go { GoesOnAsOne Go }
    ensures step { GoesOnAsOne Step }
    ensures finish { GoesOnAsOne Finish }
    ensures until { (s p o : ℕ) → GoesOnAsOne (Until s p o) }
    ensures nothing { NothingGoesOn }
{}

/// `type "AB"` leaves the same session as `key 65` followed by `key 66`, and has the same answer as each of them.
pub fn a_text_is_its_keys()
    ensures law { TypesAreKeys }
{}

/// If the first line of a session is a `type`, then its answer is `ok`. The other answers are those of a session whose
/// console input queue contains the bytes of the text at the start, as with `--input`.
#[tactic(auto, using(crate::proofs::Typed::input_is_typed))]
pub fn an_input_is_typed()
    ensures law { InputIsTyped }
{}
