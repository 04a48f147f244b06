//! Laws of the results of the assembler. Each function has an empty body.
ghost use Rattle.pm_asm.specs.Assembled.{AssembledIsListed, AssembledIsSpelled, RefusedSpellsNothing};
ghost use Rattle.pm_asm.specs.Each.{FirstOfAll};
ghost use Rattle.pm_asm.specs.Symbols.{JumpsLeadToSymbols};
ghost use Rattle.law_text.specs.SymbolLaws.{SymbolsAreDefined, SymbolsAreOfTheProgram};

/// A text is assembled to a code file and a listing if and only if the text spells a program with this code file and
/// this listing, and no segment of the program has more than 60,000 bytes.
pub fn assembled_is_spelled()
    ensures law { AssembledIsSpelled }
{}

/// If a text is refused, then it spells no program whose segments all have at most 60,000 bytes.
pub fn refused_spells_nothing()
    ensures law { RefusedSpellsNothing }
{}

/// If a text is assembled, and n is less than 16, then the characters of its listing denote bytes for segment n. These
/// bytes are the segment in slot n of the code file, or none if this slot has no segment. Each line of the segment
/// states the offset of its bytes in the segment.
pub fn assembled_is_listed()
    ensures law { AssembledIsListed }
{}

/// The fault with which a text is refused is the first fault in the list of all its faults. If the text is not refused,
/// this list is empty.
#[tactic(auto, using(crate::proofs::Eachs::first_of_all))]
pub fn first_of_all()
    ensures law { FirstOfAll }
{}

/// If a jump to a label leads to an offset of the segment, then this offset is the sum of two numbers: the offset at
/// which the procedure begins, and the offset of the label in the list of symbols.
pub fn jumps_lead_to_symbols()
    ensures law { JumpsLeadToSymbols }
{}

/// The symbols of segments are exactly the symbols of their procedures and of the labels of their code. The symbol of a
/// procedure has the number of the procedure in its segment, and offset 0. The symbol of a label has the offset of the
/// label from the beginning of its procedure.
///
/// If a text is assembled, then the lines that `asm --symbols` prints are those of the symbols of its segments. No
/// symbol is among them twice. The text spells the program of these segments.
pub fn symbols_are_defined()
    ensures law { SymbolsAreDefined }
    ensures program { SymbolsAreOfTheProgram }
{}
