//! The law that statements of the statement view do what their text states. Each function has an empty body.

ghost use Rattle.law_text.specs.Meaning.{StatementsDoWhatTheySay};
ghost use Rattle.law_text.specs.WorkedMeanings.{WorkedMeanings};

/// If the machine executes the instructions of a statement, then it does what the text of the statement states: it
/// writes the named variable or word, jumps, or continues with the next statement. Apart from this and IPC, it changes
/// only the free stack and the count of steps. The statement consists of constants, variables, arithmetic, comparisons
/// and jumps.
///
/// If operations fail, then the machine halts with the error of the first operation that fails. Operands are executed
/// from left to right. The machine has then changed no word of memory outside the free stack.
///
/// Premises:
///
/// - the machine is running, and it has 32,768 words of memory and a valid stack;
/// - IPC is at the beginning of the statement, whose bytes are in memory outside the free stack;
/// - the segment is at an even address;
/// - the free stack has space for a word for each instruction except the last.
///
/// The law covers no other operations, no statement with an invalid number of operands, and no statement that reads a
/// word on the free stack.
#[tactic(auto, using(crate::proofs::MeaningLaws::statements_do_what_they_say))]
pub fn statements_do_what_they_say()
    ensures law { StatementsDoWhatTheySay }
{}

/// Worked examples: what the texts of some statements state that the statements do.
#[tactic(auto, using(crate::proofs::ComputedMeanings::worked_meanings))]
pub fn worked_meanings()
    ensures law { WorkedMeanings }
{}
