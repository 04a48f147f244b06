//! The law of arrays with several elements in each word. The function has an empty body. In comments, a *valid memory*
//! has 32,768 words, each less than 65,536.

ghost use Rattle.law_engine.specs.PackedLaws.{OneElementIsStored};

/// If IXP and STP store a value as an element of a packed array, then IXP and LDP load this value modulo 2 to the power
/// of the element's width. Every other element is unchanged. Every word is unchanged, except the word of the stored
/// element and the four words below SP.
///
/// Premises: the memory is valid; the array is at an even address, and its elements fit a word; indexes are less than
/// 32,768; the stack has space for four words; the words of the elements in question are not among these four words.
#[tactic(auto, using(crate::proofs::PackedLaws::one_element_is_stored))]
pub fn one_element_is_stored()
    ensures law { OneElementIsStored }
{}
