//! The law of words that are moved between the stack and memory. The function has an empty body.

ghost use Rattle.law_engine.specs.PointerLaws.{StoredWordsAreLoaded};

/// If STM stores words, the address is pushed again, and LDM loads the same number of words from this address, then the
/// stack has the old words in the old order. Premises: STM, the push and LDM succeed; the memory is valid (32,768
/// words, each less than 65,536); the stored words do not overlap the word of the address on the stack.
#[tactic(auto, using(crate::proofs::StoredWords::stored_words_are_loaded))]
pub fn stored_words_are_loaded()
    ensures law { StoredWordsAreLoaded }
{}
