//! Laws of the text that the disassembler shows for code, and of its listing. Each function has an empty body. An
//! *item* is one instruction, or one byte that is written with `.BYTE`.

ghost use Rattle.pm_disasm.specs.Laws.{InstructionIsRead, SplitKeepsBytes, OwnCountFits};
ghost use Rattle.pm_disasm.specs.Laws.{SmallerCountFails, ProcedureIsShown, ProgramIsShown};
ghost use Rattle.law_text.specs.ListingLaws.{LinesCoverProcedures, LinesCoverSegments};
ghost use Rattle.pm_disasm.specs.Listing.{LinesAreStored, ListingIsProgrammed};

/// If the bytes of an instruction are followed by any bytes, then reading at their beginning returns the instruction
/// and its size.
pub fn instruction_is_read()
    ensures law { InstructionIsRead }
{}

/// The items that are shown for code, whose elements are bytes, have the bytes of the code. This holds for any list of
/// offsets at which an item must begin, and whether or not items may use entries of the jump table. The items refer
/// only to offsets at which an item begins, or to the end of the code. At each offset of the list that is in the code
/// or at its end, an item begins or the code ends.
pub fn split_keeps_bytes()
    ensures law { SplitKeepsBytes }
{}

/// If a procedure is in a segment and its items are all instructions, then the count of its jump table entries fits the
/// segment, and reading the segment with this count returns the procedure.
pub fn own_count_fits()
    ensures law { OwnCountFits }
{}

/// If a procedure is in a segment and its items are all instructions, then no count less than the count of its jump
/// table entries fits.
pub fn smaller_count_fails()
    ensures law { SmallerCountFails }
{}

/// If a procedure is in a segment, then it is shown as a procedure with the same bytes at the same offset. If all its
/// items are instructions, then it is shown unchanged.
pub fn procedure_is_shown()
    ensures law { ProcedureIsShown }
{}

/// If a code file contains a program whose segments have at most 65,534 bytes each, then the disassembler's text of the
/// file is the text of a program whose segments have the same numbers, names and bytes. If all items of a segment are
/// instructions, then this program has the same segment.
pub fn program_is_shown()
    ensures law { ProgramIsShown }
{}

/// In the listing of a code file, the bytes of each line of a procedure are the bytes of the segment at the offset that
/// the line states. If a segment of a program has at most 65,534 bytes and all its items are instructions, then the
/// listing of its bytes is the listing of the segment of the program.
pub fn listing_is_of_the_file()
    ensures stored { LinesAreStored }
    ensures programmed { ListingIsProgrammed }
{}

/// If a procedure has a table and its exit code is not before its code, then its lines in the listing of a segment
/// follow each other without gaps, from the first byte of its code to the last byte of its table. If a segment of a
/// program has at most 65,534 bytes, then its lines follow each other without gaps from its first byte to its last
/// byte.
#[tactic(auto, using(crate::proofs::Covering::lines_cover_procedures, crate::proofs::Covering::lines_cover_segments))]
pub fn lines_cover_their_bytes()
    ensures procedures { LinesCoverProcedures }
    ensures segments { LinesCoverSegments }
{}
