//! The law that the disassembler's text of a program spells this program. The function has an empty body.

ghost use Rattle.pm_source.specs.Laws.{ShownIsSpelled};

/// If the segments of a program have at most 65,534 bytes each, then the disassembler's text of the program spells this
/// program, by the definitions of the assembler.
pub fn shown_is_spelled()
    ensures law { ShownIsSpelled }
{}
