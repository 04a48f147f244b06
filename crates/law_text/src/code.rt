//! Laws of programs, of their listing and of their code file. Each function has an empty body.

ghost use Rattle.pm_code.specs.Image.{ListingIsPlaced, ListingIsSegment};
ghost use Rattle.pm_code.specs.Laws.{FileHoldsProgram, FileIsAccepted};

/// The joined bytes of the lines of a segment in a listing are the bytes of the segment. If the procedures of the
/// segment follow each other without gaps from offset 0 on, then each line states the offset of its bytes in the
/// segment.
#[tactic(auto, using(crate::proofs::Listed::listing_is_segment, crate::proofs::Listed::listing_is_placed))]
pub fn listing_is_segment()
    ensures law { ListingIsSegment }
    ensures placed { ListingIsPlaced }
{}

/// If the segments of a program have at most 65,534 bytes each, then each slot of its code file has the bytes of the
/// segment with the number of the slot. The slot has the name of this segment, filled with spaces to 8 characters. If
/// the program has no segment with this number, the slot has no segment. The code file has no fault.
pub fn file_holds_program()
    ensures law { FileHoldsProgram }
    ensures accepted { FileIsAccepted }
{}
