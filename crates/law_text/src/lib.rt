//! Laws of texts: the program that an assembler text spells, the fault that is reported, listings, the text of a code
//! file, and the meaning of statements. A law states a fact about definitions. Each function has an empty body.
#![tactic(auto)]

pub mod asm;
pub mod code;
pub mod disasm;
pub mod meaning;
pub mod notes;
pub mod shown_programs;
pub mod source;
