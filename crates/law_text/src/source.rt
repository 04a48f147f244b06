//! Laws of the text of the assembler, of the program that it spells and of its listing. Each function has an empty
//! body.
ghost use Rattle.pm_source.specs.Denoted.{ListingDenotesSegments, ListingIsRead};
ghost use Rattle.law_text.specs.Same.{BaseSaysNothing, BlankSaysNothing, BlanksSayNothing};
ghost use Rattle.law_text.specs.Same.{CommentSaysNothing, EndBlankSaysNothing, FaultsAscend, LineFaultsAscend};
ghost use Rattle.law_text.specs.Same.{NumberWithoutZero, NumbersSayValues, ZeroSaysNothing};
ghost use Rattle.pm_source.specs.Laws.{FaultlessIsSaid, FaultlessIsSpelled, FoundIsFaultless, LabelsFound};
ghost use Rattle.pm_source.specs.Laws.{SaidIsFaultless, SpelledIsFaultless, SpelledIsProgram};

/// If the segments of a program have at most 65,534 bytes each, then the characters of its listing denote its lines:
/// the segment, the procedure, the offset and the bytes of each line. The bytes that they denote for a segment number
/// are the segment with this number, or none if no such segment exists. Each line of the segment states the offset of
/// its bytes in the segment.
pub fn listing_is_read()
    ensures law { ListingIsRead }
    ensures segments { ListingDenotesSegments }
{}

/// If the labels of a procedure of a text have no fault, then this procedure means the procedure of a program that is
/// determined by the offsets of its labels. The offset at which the procedure begins is given.
pub fn labels_are_found()
    ensures law { LabelsFound }
{}

/// If a procedure of a text means a procedure of a program, then its labels have no fault. It means no other procedure
/// that begins at the same offset.
pub fn found_is_faultless()
    ensures law { FoundIsFaultless }
{}

/// If no line of a text has a fault, then its lines spell the segments with labels as which the text is read. These
/// segments are sound.
pub fn faultless_is_said()
    ensures law { FaultlessIsSaid }
{}

/// If the lines of a text spell sound segments with labels, then no line has a fault, and the lines spell no other
/// sound segments.
pub fn said_is_faultless()
    ensures law { SaidIsFaultless }
{}

/// If a text has no fault, then it spells the program as which it is read.
pub fn faultless_is_spelled()
    ensures law { FaultlessIsSpelled }
{}

/// If a text spells a program, then it has no fault, and it spells no other program.
pub fn spelled_is_faultless()
    ensures law { SpelledIsFaultless }
{}

/// If a text spells segments of at most 65,534 bytes each, then these segments are a program.
pub fn spelled_is_program()
    ensures law { SpelledIsProgram }
{}

/// The meaning of a line does not change if a comment of valid characters is appended after closed quotes, or if a
/// space or a tab is added at its beginning or its end. The value of a number does not change if a zero is added before
/// its decimal digits.
#[tactic(auto, using(crate::proofs::SameLines::comment_says_nothing, crate::proofs::SameLines::blank_says_nothing, crate::proofs::EndBlanks::end_blank_says_nothing, crate::proofs::SameLines::zero_says_nothing))]
pub fn comments_blanks_zeros_say_nothing()
    ensures comment { CommentSaysNothing }
    ensures blank { BlankSaysNothing }
    ensures behind { EndBlankSaysNothing }
    ensures zero { ZeroSaysNothing }
{}

/// Spaces and tabs do not change the meaning of a line:
///
/// - A space or a tab before or after operands, or next to a comma outside quotes, does not change the operands.
/// - A space or a tab before another space or tab does not change how the line is split at spaces.
/// - If two texts after a keyword have the same operands, then the keyword means the same items with both. If both
///   texts are also split into the same words at spaces, then the keyword means the same with both.
#[tactic(auto, using(crate::proofs::Between::blanks_say_nothing))]
pub fn blanks_say_nothing()
    ensures law { BlanksSayNothing }
{}

/// The spelling of a number does not change the meaning of a line:
///
/// - A zero before the digits of a number, with or without a minus sign, does not change the number.
/// - A number in hexadecimal digits after `$` equals the number in decimal digits with the same value.
/// - If operands are replaced by numbers of the same value, then the items of a keyword and the head of a procedure do
///   not change. The same holds for the number in the head of a segment, and for the numbers of a marked operand, of a
///   jump table entry and of the size of a comparison.
pub fn numbers_say_values()
    ensures zeros { NumberWithoutZero }
    ensures base { BaseSaysNothing }
    ensures law { NumbersSayValues }
{}

/// Each fault in the list of the faults of the lines of a text states a line. No fault states an earlier line than the
/// fault before it in the list.
#[tactic(auto, using(crate::proofs::Ascending::line_faults_ascend))]
pub fn line_faults_ascend()
    ensures law { LineFaultsAscend }
{}

/// Each fault in the list of all faults of a text states a line. No fault states an earlier line than the fault before
/// it in the list. Hence the first fault states the lowest line that has a fault.
pub fn faults_ascend()
    ensures law { FaultsAscend }
{}
