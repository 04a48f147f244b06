//! Laws about programs and their texts, and laws that state which fault of a text is the first.

ghost use Rattle.law_jobs.specs.Refusals.{JumpsTellFirst, LinesTellFirst, TextsTellFirst};
ghost use Rattle.law_jobs.specs.RoundTrip.{AssembledIsShownAgain, NamedIsShownAgain, NamesSayNothing};
ghost use Rattle.law_jobs.specs.RoundTrip.{ShownFileIsSpelled};

/// If the segments of a program have at most 65,534 bytes each, then the disassembler's text of its code file spells a
/// program with the same code file. The segments of both programs have the same numbers, names and bytes. A segment
/// whose items are all instructions is the same in both programs. If this holds for all segments, both programs are the
/// same.
pub fn shown_file_is_spelled()
    ensures law { ShownFileIsSpelled }
{}

/// The disassembler's text of an assembled code file is assembled to the same code file.
pub fn assembled_is_shown_again()
    ensures law { AssembledIsShownAgain }
{}

/// The notes of `dis --names` have no effect on the assembler. For any file and any text, the text with notes is
/// assembled to the same result as the text without notes. The text with notes of an assembled code file is assembled
/// to the same code file.
#[tactic(auto, using(crate::proofs::NamedLines::names_say_nothing, crate::proofs::NamedLines::named_is_shown_again))]
pub fn names_say_nothing()
    ensures law { NamesSayNothing }
    ensures again { NamedIsShownAgain }
{}

/// The first fault of a line with a statement is the first of these four whose condition holds:
///
/// - `Syntax`: the line is out of place, or begins a procedure that no later line ends.
/// - `Unknown`: the type word of the line is unknown.
/// - `Twice`: the line repeats a slot, a label or the exit code.
/// - `Range`: a number is out of range, the number of a procedure is not the next number, or a procedure ends with an
///   odd length or a wrong count of entries.
///
/// If none of these conditions holds, the line has no fault.
pub fn lines_tell_first()
    ensures law { LinesTellFirst }
{}

/// If the procedure of a jump does not have the label of the jump, then the first fault of the jump is `NoLabel`. If
/// the procedure has the label, but the label is too far from the jump, then the only fault is `Far`.
pub fn jumps_tell_first()
    ensures law { JumpsTellFirst }
{}

/// If a line of a text has a fault, then the first fault of the text is the first fault of its lines. If no line has a
/// fault, then the faults of the text are the faults of its labels.
pub fn texts_tell_first()
    ensures law { TextsTellFirst }
{}
