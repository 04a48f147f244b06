//! Laws of single rules of the machine: the static link of a call, clearing a unit, and MOV. In comments, a *valid
//! memory* has 32,768 words, each less than 65,536.

ghost use Rattle.law_engine.specs.Rows.{CallsAreLinked, ClearingForgetsKeys, MovesReadFirst};

/// The kind of a call determines the static link that the call writes into the new frame.
///
/// - CLP writes the frame of the caller, and CGP writes the frame at BASE.
/// - CBP, and CXP to a procedure of level 0 or less, write the word at BASE. The level is 0 or -1.
/// - CIP, and any other CXP, write the frame that is reached by following static links from MP. Their number is the
///   level of the running procedure, less the level of the called procedure, plus 1. It is at most 127.
///
/// Premises: the call succeeds; the memory before the call is valid; loaded code consists of bytes; the new MP is even.
#[tactic(auto, using(crate::proofs::RowLaws::calls_are_linked))]
pub fn calls_are_linked()
    ensures law { CallsAreLinked }
{}

/// Clearing unit 1 or 2 removes all bytes from the console input queue, and changes nothing else of the devices.
/// Clearing any other unit changes nothing of the devices.
#[tactic(auto, using(crate::proofs::RowLaws::clearing_forgets_keys))]
pub fn clearing_forgets_keys()
    ensures law { ClearingForgetsKeys }
{}

/// If MOV succeeds, then each word of the destination has the old value of the word of the source, even if source and
/// destination overlap. Every other word is unchanged, and two words are popped. Premise: the memory is valid.
#[tactic(auto, using(crate::proofs::RowLaws::moves_read_first))]
pub fn moves_read_first()
    ensures law { MovesReadFirst }
{}
