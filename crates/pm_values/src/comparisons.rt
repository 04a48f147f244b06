//! Typed comparisons: the rules of EQU, NEQ, LES, LEQ, GRT and GEQ for each type of operand.

ghost use Rattle.std.specs.Prelude.{◌≡◌, IfOk};
ghost use Rattle.pm_words.specs.Stack.{IsStack, Changes};
ghost use Rattle.pm_values.specs.Comparisons.{compare_booleans_row, compare_bytes_row, compare_row, compare_sets_row};
ghost use Rattle.pm_values.specs.Comparisons.{compare_strings_row, compare_words_row, holds, holds_of_sets};
ghost use Rattle.pm_values.specs.Comparisons.{is_equality, is_of_sets, is_subset};

use crate::sets::{take_set, word_or_zero};
use crate::strings::characters;
use pm_families::{Kind, Relation};
use pm_words::stack::{pop, push};
use pm_words::{ExecError, Memory};
use std::cmp::Ordering;

/// `EQU`, `NEQ`, `LES`, `LEQ`, `GRT` and `GEQ`: pops two operands of type `kind`, and pushes 1 if `relation` is true
/// for them, otherwise 0. The right operand is on top of the stack. Returns the new SP.
///
/// # Errors
///
/// If a call fails, nothing changes.
///
/// `Unimplemented` is checked first, in each of these cases:
/// - The operands are reals.
/// - The operands are sets, and the relation is less or greater.
/// - The operands are words, and the relation is not equality or inequality.
///
/// Other errors:
/// - `InvalidMemory`: the stack has too few words, an operand extends after the end of memory, or an operand of type
///   `Words` begins at an odd address.
/// - `InvalidIndex`: a set has more than 255 words.
#[inline(always)]
#[tactic(auto, unfolding(crate::specs::Comparisons::compare_row), using(pm_words::proofs::WatchLaws::stays))]
pub fn compare(
    memory: &mut Memory,
    sp: u16,
    np: u16,
    relation: Relation,
    kind: Kind,
) -> Result<u16, ExecError>
    ensures row { Changes result memory.old memory.new (compare_row relation kind memory.old.words sp np) }
    ensures stack { IsStack sp np → IfOk result (λ sp. IsStack sp np) }
{
    match kind {
        Kind::Real => Err(ExecError::Unimplemented),
        Kind::String => compare_strings(memory, sp, np, relation),
        Kind::Boolean => compare_booleans(memory, sp, np, relation),
        Kind::Set => compare_sets(memory, sp, np, relation),
        Kind::Bytes(count) => compare_bytes(memory, sp, np, relation, count),
        Kind::Words(count) => compare_words(memory, sp, np, relation, count),
    }
}

// Compares two strings, character by character. The stack has their addresses.
#[tactic(auto, unfolding(crate::specs::Comparisons::compare_strings_row), using(pm_words::proofs::WatchLaws::stays))]
fn compare_strings(
    memory: &mut Memory,
    sp: u16,
    np: u16,
    relation: Relation,
) -> Result<u16, ExecError>
    ensures row { Changes result memory.old memory.new
        (compare_strings_row relation memory.old.words sp np) }
    ensures stack { IsStack sp np → IfOk result (λ sp. IsStack sp np) }
{
    let right = pop(memory, sp)?;
    let left = pop(memory, right.above)?;
    let first = characters(memory, left.word)?;
    let second = characters(memory, right.word)?;
    let found = holds(relation, first.cmp(second));
    push(memory, left.above, np, u16::from(found))
}

// Compares two truth values, by bit 0 only.
#[tactic(auto, unfolding(crate::specs::Comparisons::compare_booleans_row), using(pm_words::proofs::WatchLaws::stays))]
fn compare_booleans(
    memory: &mut Memory,
    sp: u16,
    np: u16,
    relation: Relation,
) -> Result<u16, ExecError>
    ensures row { Changes result memory.old memory.new
        (compare_booleans_row relation memory.old.words sp np) }
    ensures stack { IsStack sp np → IfOk result (λ sp. IsStack sp np) }
{
    let right = pop(memory, sp)?;
    let left = pop(memory, right.above)?;
    let (first, second) = (left.word % 2, right.word % 2);
    let found = holds(relation, first.cmp(&second));
    push(memory, left.above, np, u16::from(found))
}

// Compares two ranges of `count` bytes. The stack has their addresses.
#[tactic(auto, unfolding(crate::specs::Comparisons::compare_bytes_row), using(pm_words::proofs::WatchLaws::stays))]
fn compare_bytes(
    memory: &mut Memory,
    sp: u16,
    np: u16,
    relation: Relation,
    count: u16,
) -> Result<u16, ExecError>
    ensures row { Changes result memory.old memory.new
        (compare_bytes_row count relation memory.old.words sp np) }
    ensures stack { IsStack sp np → IfOk result (λ sp. IsStack sp np) }
{
    let right = pop(memory, sp)?;
    let left = pop(memory, right.above)?;
    let Some(order) = memory.compare(left.word, right.word, count) else {
        return Err(ExecError::InvalidMemory);
    };
    push(memory, left.above, np, u16::from(holds(relation, order)))
}

// Compares two ranges of `count` words. The stack has their addresses.
#[tactic(auto, unfolding(crate::specs::Comparisons::compare_words_row), using(pm_words::proofs::WatchLaws::stays))]
fn compare_words(
    memory: &mut Memory,
    sp: u16,
    np: u16,
    relation: Relation,
    count: u16,
) -> Result<u16, ExecError>
    ensures row { Changes result memory.old memory.new
        (compare_words_row count relation memory.old.words sp np) }
    ensures stack { IsStack sp np → IfOk result (λ sp. IsStack sp np) }
{
    if !is_equality(relation) {
        return Err(ExecError::Unimplemented);
    }
    let right = pop(memory, sp)?;
    let left = pop(memory, right.above)?;
    if count > 32767 || left.word % 2 != 0 || right.word % 2 != 0 {
        return Err(ExecError::InvalidMemory);
    }
    let Some(order) = memory.compare(left.word, right.word, 2 * count) else {
        return Err(ExecError::InvalidMemory);
    };
    push(memory, left.above, np, u16::from(holds(relation, order)))
}

// Compares two sets on the stack by the numbers that they contain, even if the sets differ in their numbers of words.
#[tactic(auto, unfolding(crate::specs::Comparisons::compare_sets_row), using(pm_words::proofs::WatchLaws::stays))]
fn compare_sets(memory: &mut Memory, sp: u16, np: u16, relation: Relation) -> Result<u16, ExecError>
    ensures row { Changes result memory.old memory.new (compare_sets_row relation memory.old.words sp np) }
    ensures stack { IsStack sp np → IfOk result (λ sp. IsStack sp np) }
{
    if !is_of_sets(relation) {
        return Err(ExecError::Unimplemented);
    }
    let right = take_set(memory, sp)?;
    let left = take_set(memory, right.above)?;
    let found = holds_of_sets(relation, &left.words, &right.words);
    push(memory, left.above, np, u16::from(found))
}

// Returns whether `relation` is equality or inequality.
fn is_equality(relation: Relation) -> bool
    ensures equality { result ≡ is_equality relation }
{
    match relation {
        Relation::Equal | Relation::NotEqual => true,
        _ => false,
    }
}

// Returns whether `relation` is defined for sets.
fn is_of_sets(relation: Relation) -> bool
    ensures sets { result ≡ is_of_sets relation }
{
    match relation {
        Relation::Less | Relation::Greater => false,
        _ => true,
    }
}

// Returns whether `relation` is true for two values, the first of which is in the order `order` to the second.
fn holds(relation: Relation, order: Ordering) -> bool
    ensures holds { result ≡ holds relation order }
{
    match relation {
        Relation::Equal => order.is_eq(),
        Relation::NotEqual => order.is_ne(),
        Relation::Less => order.is_lt(),
        Relation::LessOrEqual => order.is_le(),
        Relation::Greater => order.is_gt(),
        Relation::GreaterOrEqual => order.is_ge(),
    }
}

// Returns whether `relation` is true for the sets with the words `left` and `right`.
fn holds_of_sets(relation: Relation, left: &[u16], right: &[u16]) -> bool
    ensures holds { result ≡ holds_of_sets relation left.now right.now }
{
    match relation {
        Relation::Equal => is_subset(left, right) && is_subset(right, left),
        Relation::NotEqual => !(is_subset(left, right) && is_subset(right, left)),
        Relation::LessOrEqual => is_subset(left, right),
        Relation::GreaterOrEqual => is_subset(right, left),
        Relation::Less | Relation::Greater => false,
    }
}

// Returns whether every number in the set with the words `left` is in the set with the words `right`.
fn is_subset(left: &[u16], right: &[u16]) -> bool
    ensures subset { result ≡ is_subset left.now right.now }
{
    for i in 0..left.len() {
        if left[i] & !word_or_zero(right, i) != 0 {
            return false;
        }
    }
    true
}
