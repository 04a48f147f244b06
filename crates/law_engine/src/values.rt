//! Laws of sets, packed fields and strings, on which the definitions of the instructions depend. Each function has an
//! empty body.

ghost use Rattle.pm_values.specs.Laws.{IntersectionCommutes, OtherBitsStay, PartsUnite, SetIsItsTest, StoredIsLoaded};
ghost use Rattle.pm_values.specs.Laws.{StringsAreOrdered, SubsetIsOfNumbers, UnionCommutes};

/// If a test determines a set of n words, then the set has exactly the numbers below 16 n for which the test holds.
#[tactic(auto, using(pm_values::proofs::MemberLaws::set_is_its_test))]
pub fn set_is_its_test()
    ensures law { SetIsItsTest }
{}

/// The union of two sets has the same words in either order.
#[tactic(auto, using(pm_values::proofs::MemberLaws::union_commutes))]
pub fn union_commutes()
    ensures law { UnionCommutes }
{}

/// The intersection of two sets has the same words in either order.
#[tactic(auto, using(pm_values::proofs::MemberLaws::intersection_commutes))]
pub fn intersection_commutes()
    ensures law { IntersectionCommutes }
{}

/// The difference of two sets, united with their intersection, has exactly the numbers of the first set.
#[tactic(auto, using(pm_values::proofs::MemberLaws::parts_unite))]
pub fn parts_unite()
    ensures law { PartsUnite }
{}

/// A set is a subset of another set if and only if the other set has each of its numbers. The sets can have different
/// numbers of words.
#[tactic(auto, using(pm_values::proofs::SubsetLaws::subset_is_of_numbers))]
pub fn subset_is_of_numbers()
    ensures law { SubsetIsOfNumbers }
{}

/// If a value is stored into a packed field, then loading the field returns this value modulo 2 to the power of its
/// width.
#[tactic(auto, using(pm_values::proofs::FieldLaws::stored_is_loaded))]
pub fn stored_is_loaded()
    ensures law { StoredIsLoaded }
{}

/// Storing into a field changes no bit of the word outside the field.
#[tactic(auto, using(pm_values::proofs::FieldLaws::other_bits_stay))]
pub fn other_bits_stay()
    ensures law { OtherBitsStay }
{}

/// Of two strings, exactly one is less, or both are equal: the order of strings is total.
#[tactic(auto, using(std::proofs::lemmas::Cmp::nat_list_cmp_total))]
pub fn strings_are_ordered()
    ensures law { StringsAreOrdered }
{}
