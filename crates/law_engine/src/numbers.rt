//! Laws of words as signed numbers.

ghost use Rattle.law_engine.specs.Numbers.{CaseJumpsBySigned, DivisionIsWhole, RanksFollowSigned};

/// For a divisor other than 0, DVI and MODI return the quotient and the remainder of one division of signed numbers.
///
/// - The dividend is the quotient times the divisor, plus the remainder.
/// - The remainder is less than the divisor in absolute value, and is 0 or has the sign of the dividend.
/// - MODI returns the word whose signed number is the remainder. DVI returns the word whose signed number is the
///   quotient, except for -32,768 divided by -1.
#[tactic(auto, using(crate::proofs::NumberLaws::division_is_whole))]
pub fn division_is_whole()
    ensures law { DivisionIsWhole }
{}

/// The rank of a word is its signed number plus 32,768. Hence ranks have the order of signed numbers. If the word `a`
/// is not greater than the word `b`, then `jump_count a b` is the difference of their signed numbers plus 1.
#[tactic(auto, using(crate::proofs::NumberLaws::ranks_follow_signed))]
pub fn ranks_follow_signed()
    ensures law { RanksFollowSigned }
{}

/// If the value is from low to high as a signed number, then XJP jumps through the entry of its table with the number
/// value - low. Otherwise it continues at the address two bytes before the table.
#[tactic(auto, using(crate::proofs::NumberLaws::case_jumps_by_signed))]
pub fn case_jumps_by_signed()
    ensures law { CaseJumpsBySigned }
{}
