//! Laws about the selected lines of a trace. Each function has an empty body.
ghost use Rattle.law_jobs.specs.Selections.{AskedLinesAreShown, CallsByNumber, OtherLinesAreNot};
ghost use Rattle.law_jobs.specs.TraceLaws.{AllIsTheTrace, LinesStay};

/// If all lines are selected, without `--calls` and `--places`, then a trace has for each step exactly its line and a
/// line feed.
#[tactic(auto, using(crate::proofs::LineLaws::all_is_the_trace))]
pub fn all_is_the_trace()
    ensures law { AllIsTheTrace }
{}

/// For any selection, a trace has for each step either nothing, or its line and a line feed, possibly after a prefix.
#[tactic(auto, using(crate::proofs::LineLaws::lines_stay))]
pub fn lines_stay()
    ensures law { LinesStay }
{}

/// If the line of a step is selected, then the trace has its prefix, the line and a line feed. Otherwise the trace has
/// nothing for the step. A line is selected if and only if all of these conditions hold:
///
/// - At least as many steps were executed before the step as `--from` states.
/// - If a segment is requested, SEG and JTAB are even, and the low byte of the word at SEG is the number of the
///   segment.
/// - If a procedure is requested, the low byte of the word at JTAB is also its number.
/// - With `--calls`, the step is a call or a return.
#[tactic(auto, using(crate::proofs::SelectedLines::asked_lines_are_shown, crate::proofs::SelectedLines::other_lines_are_not))]
pub fn asked_lines_are_shown()
    ensures shown { AskedLinesAreShown }
    ensures others { OtherLinesAreNot }
{}

/// Of the 256 opcodes, exactly 173, 174, 193, 194, 205, 206 and 207 are calls or returns.
#[tactic(auto, using(crate::proofs::SelectedLines::calls_by_number))]
pub fn calls_are_seven_opcodes()
    ensures law { CallsByNumber }
{}
