//! Laws of the words that instructions on the stack write to memory. Each function has an empty body. In comments, the
//! *row* of an instruction is the definition of what it does. A *valid memory* has 32,768 words, each less than 65,536.

ghost use Rattle.law_engine.specs.StackLaws.{StackRowsWriteWhatTheyPush};
ghost use Rattle.law_engine.specs.StoreLaws.{RowsWriteWhatTheyStore};

/// If the row of an instruction on integers, variables, addresses, constants or values succeeds, then every word of
/// memory is unchanged, except the words that the row pushes. The law does not cover the rows that store: STO, STM,
/// MOV, SRO, STL, STR, STB, STP and SAS. Premise: the memory and the stack are valid.
#[tactic(auto, using(crate::proofs::StackRows::stack_rows_write_what_they_push))]
pub fn stack_rows_write_what_they_push()
    ensures law { StackRowsWriteWhatTheyPush }
{}

/// If the row of an instruction that stores succeeds, then every word of memory is unchanged, except the words that
/// have a stored byte. The instructions store these words:
///
/// - SRO, STL and STR: the variable;
/// - STO and STP: the word at an address that is on the stack;
/// - STM and MOV: the words from an address on the stack on;
/// - STB: one byte; SAS: the length and the characters of a text.
///
/// Premise: the memory is valid.
#[tactic(auto, using(crate::proofs::StoreRows::rows_write_what_they_store))]
pub fn rows_write_what_they_store()
    ensures law { RowsWriteWhatTheyStore }
{}
