//! Laws of the notes that `dis --names` appends to lines of a text. Each function has an empty body.

ghost use Rattle.law_text.specs.NotesLaws.{NativeCodeIsTold, OtherNumbersAreTold, OwnSegmentsAreUntold};

/// In the text of the code file of a program whose segments have at most 65,534 bytes each, the line of a segment has
/// no note. For any file: if a slot has kind 0, and the low byte of the highest word of its segment is not the number
/// of the slot, then the note of its line states this byte.
#[tactic(auto, using(crate::proofs::NotesTold::own_segments_are_untold, crate::proofs::NotesTold::other_numbers_are_told))]
pub fn other_numbers_are_told()
    ensures law { OtherNumbersAreTold }
    ensures own { OwnSegmentsAreUntold }
{}

/// For any file, the line of a procedure has the note `native code` if its number is 0, and no note if its number is 1
/// to 255.
#[tactic(auto, using(crate::proofs::NotesTold::native_code_is_told))]
pub fn native_code_is_told()
    ensures law { NativeCodeIsTold }
{}
