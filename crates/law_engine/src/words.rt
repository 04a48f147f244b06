//! Laws of the memory. Each function has an empty body. In comments, a *valid memory* has 32,768 words, each less than
//! 65,536.

ghost use Rattle.law_engine.specs.WordsLaws.{BytesAreCopied, BytesAreWritten, MovesAreCopies, WordIsWritten};
ghost use Rattle.law_engine.specs.WordsLaws.{WordsAreTheirBytes};

/// The word at an even address consists of two bytes: the low byte at this address, and the high byte at the next
/// address.
pub fn words_are_their_bytes()
    ensures law { WordsAreTheirBytes }
{}

/// If a word is written at an even address, then the memory has this word at the address, and no other word has
/// changed. The memory is valid again. Premises: the memory was valid, and the word and its address are less than
/// 65,536.
pub fn word_is_written()
    ensures law { WordIsWritten }
{}

/// If bytes are written from an address on, then the memory has these bytes from this address on, and no other byte has
/// changed. The memory is valid again. Premises: the memory was valid, and the bytes end at or before 65,536.
pub fn bytes_are_written()
    ensures law { BytesAreWritten }
{}

/// If bytes are copied, then the destination has the old bytes of the source, even if source and destination overlap.
/// No other byte has changed. The memory is valid again. Premises: the memory was valid, and both ranges end at or
/// before 65,536.
pub fn bytes_are_copied()
    ensures law { BytesAreCopied }
{}

/// Moving bytes one by one has the same result as copying them if the move reads no byte that it wrote before. Upward,
/// this holds if the destination does not begin inside the source after the first byte of the source. Downward, it
/// holds if the destination begins at or after the beginning of the source, or ends at or before it. Premises: the
/// memory is valid, and both ranges end at or before 65,536.
#[tactic(auto, using(crate::proofs::PublicLaws::moves_are_copies))]
pub fn moves_are_copies()
    ensures law { MovesAreCopies }
{}
