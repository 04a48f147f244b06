//! The rules of the instructions on sets. A set is on the stack: the count of its words is on top, and the words
//! follow.

ghost use Rattle.std.specs.Prelude.{◌≡◌, ◌%◌, ◌≤◌, ◌+◌, ◌*◌, ◌&&◌, ◌∷◌, ℕ, IfOk, IsOk, MatchResult, Ok, Err, length};
ghost use Rattle.std.specs.Prelude.{[], nat_le, slice_index};
ghost use Rattle.pm_words.specs.Watch.{WatchStays};
ghost use Rattle.pm_words.specs.Stack.{IsStack, Changes};
ghost use Rattle.pm_words.specs.Words.{with_words, words_at};
ghost use Rattle.pm_values.specs.Several.{push_words};
ghost use Rattle.pm_values.specs.Combinations.{count_of, test_of, combined_word};
ghost use Rattle.pm_values.specs.Sets.{adjust_row, bits_from, with_length, difference_row, in_set_row, intersect_row};
ghost use Rattle.pm_values.specs.Sets.{interval, is_member, pop_set, set_of, singleton_row, subrange_row};
ghost use Rattle.pm_values.specs.Sets.{two_sets_row, union_row};
ghost use Rattle.pm_words.specs.declared.layout.TheConstants.{STACK_END};

use crate::stack::push_words;
use arrayvec::ArrayVec;
use pm_words::layout::STACK_END;
use pm_words::stack::{pop, push};
use pm_words::{ExecError, Memory};

const SET_WORDS: usize = 255;

const COUNTED_WORDS: usize = 256; // a set's words and their count

const LAST_MEMBER: u16 = 4079;

// An operation that combines two sets into one.
#[derive(Clone, Copy)]
enum Combination {
    Intersection,
    Union,
    Difference,
}

// The location of a set on the stack: the even address of its first word, the number of its words, and SP after the set
// is popped.
#[derive(Clone, Copy)]
struct SetPlace {
    address: u16,
    count: u16,
    above: u16,
}

/// A set that was popped from the stack, and SP after the pop.
#[derive(Drop)]
pub struct StackSet {
    pub words: ArrayVec<u16, SET_WORDS>,
    pub above: u16,
}

/// `INN`: pops a set and a value, and pushes 1 if the signed value is in the set, otherwise 0. Returns the new SP.
///
/// # Errors
///
/// If a call fails, nothing changes. The errors are checked in this order:
/// - `InvalidMemory`: the stack does not have the count of the set.
/// - `InvalidIndex`: the set has more than 255 words.
/// - `InvalidMemory`: the stack does not have all words of the set, or does not have the value.
#[tactic(auto, unfolding(crate::specs::Sets::in_set_row), using(pm_words::proofs::WatchLaws::stays))]
pub fn in_set(memory: &mut Memory, sp: u16, np: u16) -> Result<u16, ExecError>
    ensures row { Changes result memory.old memory.new (in_set_row memory.old.words sp np) }
    ensures stack { IsStack sp np → IfOk result (λ sp. IsStack sp np) }
{
    let set = find_set(memory, sp)?;
    let value = pop(memory, set.above)?;
    let found = value.word < 32768 && contains(memory, set, value.word);
    push(memory, value.above, np, u16::from(found))
}

/// `INT`: replaces two sets by their intersection. The result has as many words as the set with fewer words. Returns
/// the new SP.
///
/// # Errors
///
/// If a call fails, nothing changes. These errors are checked in this order, first for the set on top of the stack and
/// then for the other set:
/// - `InvalidMemory`: the stack does not have the count of the set.
/// - `InvalidIndex`: the set has more than 255 words.
/// - `InvalidMemory`: the stack does not have all words of the set.
///
/// `StackOverflow` is checked last: SP would be below NP.
#[tactic(auto, unfolding(crate::specs::Sets::intersect_row), using(pm_words::proofs::WatchLaws::stays))]
pub fn intersect(memory: &mut Memory, sp: u16, np: u16) -> Result<u16, ExecError>
    ensures row { Changes result memory.old memory.new (intersect_row memory.old.words sp np) }
    ensures stack { IsStack sp np → IfOk result (λ sp. IsStack sp np) }
{
    combine(memory, sp, np, Combination::Intersection)
}

/// `UNI`: replaces two sets by their union. The result has as many words as the set with more words. Returns the new
/// SP.
///
/// # Errors
///
/// The errors of `intersect`, in the same order. Nothing changes.
#[tactic(auto, unfolding(crate::specs::Sets::union_row), using(pm_words::proofs::WatchLaws::stays))]
pub fn union(memory: &mut Memory, sp: u16, np: u16) -> Result<u16, ExecError>
    ensures row { Changes result memory.old memory.new (union_row memory.old.words sp np) }
    ensures stack { IsStack sp np → IfOk result (λ sp. IsStack sp np) }
{
    combine(memory, sp, np, Combination::Union)
}

/// `DIF`: replaces two sets by the numbers of the lower set in the stack that are not in the upper set. The result has
/// as many words as the lower set. Returns the new SP.
///
/// # Errors
///
/// The errors of `intersect`, in the same order. Nothing changes.
#[tactic(auto, unfolding(crate::specs::Sets::difference_row), using(pm_words::proofs::WatchLaws::stays))]
pub fn difference(memory: &mut Memory, sp: u16, np: u16) -> Result<u16, ExecError>
    ensures row { Changes result memory.old memory.new (difference_row memory.old.words sp np) }
    ensures stack { IsStack sp np → IfOk result (λ sp. IsStack sp np) }
{
    combine(memory, sp, np, Combination::Difference)
}

/// `SGS`: pops a value, and pushes the set that contains only this number. Returns the new SP.
///
/// # Errors
///
/// If a call fails, nothing changes. The errors are checked in this order:
/// - `InvalidMemory`: the stack has too few words.
/// - `InvalidIndex`: the value is not in 0 to 4,079.
/// - `StackOverflow`: SP would be below NP.
#[tactic(auto, unfolding(crate::specs::Sets::singleton_row), using(pm_words::proofs::WatchLaws::stays))]
pub fn singleton(memory: &mut Memory, sp: u16, np: u16) -> Result<u16, ExecError>
    ensures row { Changes result memory.old memory.new (singleton_row memory.old.words sp np) }
    ensures stack { IsStack sp np → IfOk result (λ sp. IsStack sp np) }
{
    let value = pop(memory, sp)?;
    if value.word > LAST_MEMBER {
        return Err(ExecError::InvalidIndex);
    }
    push_words(memory, value.above, np, &interval(value.word, value.word))
}

/// `SRS`: pops two signed values, and pushes the set of the numbers from the lower value in the stack to the upper
/// value. If the lower value is greater than the upper value, the set has no words. Returns the new SP.
///
/// # Errors
///
/// If a call fails, nothing changes. The errors are checked in this order:
/// - `InvalidMemory`: the stack has too few words.
/// - `InvalidIndex`: the lower value is not greater than the upper value, and one of them is not in 0 to 4,079.
/// - `StackOverflow`: SP would be below NP.
#[tactic(auto, unfolding(crate::specs::Sets::subrange_row), using(pm_words::proofs::WatchLaws::stays))]
pub fn subrange(memory: &mut Memory, sp: u16, np: u16) -> Result<u16, ExecError>
    ensures row { Changes result memory.old memory.new (subrange_row memory.old.words sp np) }
    ensures stack { IsStack sp np → IfOk result (λ sp. IsStack sp np) }
{
    let high = pop(memory, sp)?;
    let low = pop(memory, high.above)?;
    if high.word.cast_signed() < low.word.cast_signed() {
        return push_words(memory, low.above, np, &[0]);
    }
    if low.word > LAST_MEMBER || high.word > LAST_MEMBER {
        return Err(ExecError::InvalidIndex);
    }
    push_words(memory, low.above, np, &interval(low.word, high.word))
}

/// `ADJ`: pops a set, and pushes its first `words` words without a count. If the set has fewer words, zeros follow
/// them. Returns the new SP.
///
/// # Errors
///
/// If a call fails, nothing changes. The errors are checked in this order:
/// - `InvalidMemory`: the stack does not have the count of the set.
/// - `InvalidIndex`: the set has more than 255 words.
/// - `InvalidMemory`: the stack does not have all words of the set.
/// - `StackOverflow`: SP would be below NP.
#[tactic(auto, unfolding(crate::specs::Sets::adjust_row), using(pm_words::proofs::WatchLaws::stays))]
pub fn adjust(memory: &mut Memory, sp: u16, np: u16, words: u8) -> Result<u16, ExecError>
    ensures row { Changes result memory.old memory.new (adjust_row words memory.old.words sp np) }
    ensures stack { IsStack sp np → IfOk result (λ sp. IsStack sp np) }
{
    let set = find_set(memory, sp)?;
    let size = 2 * u16::from(words);
    if u32::from(set.above) < u32::from(np) + u32::from(size) {
        return Err(ExecError::StackOverflow);
    }
    let top = set.above - size;
    resize(memory, set, top, u16::from(words));
    Ok(top)
}

// Pops two sets, and pushes the set that `combination` makes of them.
#[tactic(auto, using(pm_words::proofs::WatchLaws::stays))]
fn combine(
    memory: &mut Memory,
    sp: u16,
    np: u16,
    combination: Combination,
) -> Result<u16, ExecError>
    ensures row { Changes result memory.old memory.new
        (two_sets_row (count_of combination) (test_of combination) memory.old.words sp np) }
    ensures stack { IsStack sp np → IfOk result (λ sp. IsStack sp np) }
{
    let _ = memory.bytes(); // its clause states that the words are a memory
    let upper = find_set(memory, sp)?;
    let lower = find_set(memory, upper.above)?;
    if combined_count(
        combination,
        usize::from(lower.count),
        usize::from(upper.count),
    ) == usize::from(lower.count)
    {
        return combine_in_place(memory, np, combination, lower, upper);
    }
    let mut set = ArrayVec::new();
    combined(memory, combination, lower, upper, &mut set);
    push_words(memory, lower.above, np, &set)
}

// Replaces two sets by the set that `combination` makes of them, if this set has as many words as the lower set in the
// stack. The words of the new set overwrite the words of the lower set.
#[inline(always)]
#[tactic(auto, using(pm_words::proofs::WatchLaws::stays))]
fn combine_in_place(
    memory: &mut Memory,
    np: u16,
    combination: Combination,
    lower: SetPlace,
    upper: SetPlace,
) -> Result<u16, ExecError>
    requires lower_even { lower.address % 2 ≡ 0 }
    requires lower_above { lower.above ≡ lower.address + 2 * lower.count }
    requires lower_inside { lower.above ≤ STACK_END }
    requires upper_even { upper.address % 2 ≡ 0 }
    requires upper_inside { upper.address + 2 * upper.count ≤ lower.address }
    ensures row { Changes result memory.old memory.new (push_words memory.old.words lower.above np
        (lower.count ∷ set_of lower.count (λ e. test_of combination
        (is_member (words_at memory.old.words lower.address lower.count) e)
        (is_member (words_at memory.old.words upper.address upper.count) e)))) }
    ensures stack { IsStack lower.above np → IfOk result (λ sp. IsStack sp np) }
{
    let _ = memory.bytes(); // its clause states that the words are a memory
    if u32::from(lower.address) < u32::from(np) + 2 {
        return Err(ExecError::StackOverflow);
    }
    let top = lower.address - 2;
    write_combined(memory, combination, lower, upper);
    memory.set_word(top, lower.count);
    Ok(top)
}

// Overwrites the words of the set `lower` with the words that `combination` makes of `lower` and `upper`.
#[inline(always)]
fn write_combined(memory: &mut Memory, combination: Combination, lower: SetPlace, upper: SetPlace)
    requires lower_even { lower.address % 2 ≡ 0 }
    requires lower_inside { lower.address + 2 * lower.count ≤ STACK_END }
    requires upper_even { upper.address % 2 ≡ 0 }
    requires upper_inside { upper.address + 2 * upper.count ≤ lower.address }
    ensures words { memory.new.words ≡ with_words memory.old.words lower.address
        (set_of lower.count (λ e. test_of combination
        (is_member (words_at memory.old.words lower.address lower.count) e)
        (is_member (words_at memory.old.words upper.address upper.count) e))) }
    ensures watch { WatchStays memory.old memory.new }
{
    let _ = memory.bytes(); // its clause states that the words are a memory
    for i in 0..lower.count {
        let place = usize::from(i);
        let (low, high) = (
            set_word(memory, lower, place),
            set_word(memory, upper, place),
        );
        memory.set_word(lower.address + 2 * i, combined_word(combination, low, high));
    }
}

// Returns the location of the set on top of the stack, and does not pop the set.
#[inline(always)]
#[tactic(auto, unfolding(crate::specs::Sets::pop_set))]
fn find_set(memory: &Memory, sp: u16) -> Result<SetPlace, ExecError>
    ensures set { MatchResult result
        (λ s. pop_set memory.now.words sp
        ≡ Ok (record { members = words_at memory.now.words s.address s.count; above = s.above }))
        (λ e. pop_set memory.now.words sp ≡ Err e) }
    ensures even { IfOk result (λ s. s.address % 2 ≡ 0) }
    ensures place { IfOk result (λ s. s.address ≡ sp + 2) }
    ensures few { IfOk result (λ s. s.count ≤ 255) }
    ensures inside { IfOk result (λ s. s.address + 2 * s.count ≤ STACK_END) }
    ensures above { IfOk result (λ s. s.above ≡ s.address + 2 * s.count) }
    ensures stack { (np : ℕ) → IsStack sp np → IfOk result (λ s. IsStack s.above np) }
{
    let count = pop(memory, sp)?;
    if count.word > 255 {
        return Err(ExecError::InvalidIndex);
    }
    if 2 * count.word > STACK_END - count.above {
        return Err(ExecError::InvalidMemory);
    }
    Ok(SetPlace {
        address: count.above,
        count: count.word,
        above: count.above + 2 * count.word,
    })
}

// Returns the word at `index` of the set at the location `set`, or 0 if `index` is after the last word.
#[inline(always)]
fn set_word(memory: &Memory, set: SetPlace, index: usize) -> u16
    requires even { set.address % 2 ≡ 0 }
    requires inside { set.address + 2 * set.count ≤ STACK_END }
    ensures word { result ≡ slice_index (words_at memory.now.words set.address set.count) index }
{
    let _ = memory.bytes(); // its clause states that the words are a memory
    if index >= usize::from(set.count) {
        return 0;
    }
    memory.word(set.address + 2 * index as u16).unwrap_or(0)
}

/// Returns the set on top of the stack, and SP after the pop.
///
/// # Errors
///
/// Checked in this order:
/// - `InvalidMemory`: the stack does not have the count of the set.
/// - `InvalidIndex`: the set has more than 255 words.
/// - `InvalidMemory`: the stack does not have all words of the set.
pub fn take_set(memory: &Memory, sp: u16) -> Result<StackSet, ExecError>
    ensures set { MatchResult result
        (λ s. pop_set memory.now.words sp ≡ Ok (record { members = s.words.items; above = s.above }))
        (λ e. pop_set memory.now.words sp ≡ Err e) }
    ensures even { IfOk result (λ s. s.above % 2 ≡ 0) }
    ensures stack { (np : ℕ) → IsStack sp np → IfOk result (λ s. IsStack s.above np) }
{
    let set = find_set(memory, sp)?;
    let words = words_on_stack(memory, set.address, set.count)?;
    Ok(StackSet {
        words,
        above: set.above,
    })
}

// Returns the `count` words of memory from the even address `address` on.
fn words_on_stack(
    memory: &Memory,
    address: u16,
    count: u16,
) -> Result<ArrayVec<u16, SET_WORDS>, ExecError>
    requires even { address % 2 ≡ 0 }
    requires few { count ≤ 255 }
    requires inside { address + 2 * count ≤ STACK_END }
    ensures words { IfOk result (λ v. v.items ≡ words_at memory.now.words address count) }
    ensures always { IsOk result }
{
    let mut words = ArrayVec::new();
    for i in 0..count {
        let word = memory.word(address + 2 * i);
        words.push(word.ok_or(ExecError::InvalidMemory)?);
    }
    Ok(words)
}

// Returns whether the number `value` is in the set at the location `set`.
#[tactic(auto, unfolding(crate::specs::Sets::is_member))]
fn contains(memory: &Memory, set: SetPlace, value: u16) -> bool
    requires even { set.address % 2 ≡ 0 }
    requires inside { set.address + 2 * set.count ≤ STACK_END }
    ensures member { result ≡ is_member (words_at memory.now.words set.address set.count) value }
{
    (set_word(memory, set, usize::from(value / 16)) >> (value % 16)) % 2 == 1
}

/// Returns the word of `words` at `index`, or 0 if `index` is after the last word.
pub fn word_or_zero(words: &[u16], index: usize) -> u16
    ensures word { result ≡ slice_index words.now index }
{
    words.get(index).copied().unwrap_or(0)
}

// Appends to the empty list `words` the set that `combination` makes of `lower` and `upper`, with its count first. The
// list belongs to the caller, so that it is not copied.
#[inline(always)]
fn combined(
    memory: &Memory,
    combination: Combination,
    lower: SetPlace,
    upper: SetPlace,
    words: &mut ArrayVec<u16, COUNTED_WORDS>,
)
    requires empty { words.old.items ≡ [] }
    requires lower_even { lower.address % 2 ≡ 0 }
    requires lower_few { lower.count ≤ 255 }
    requires lower_inside { lower.address + 2 * lower.count ≤ STACK_END }
    requires upper_even { upper.address % 2 ≡ 0 }
    requires upper_few { upper.count ≤ 255 }
    requires upper_inside { upper.address + 2 * upper.count ≤ STACK_END }
    ensures few { length words.new.items ≤ 256 }
    ensures words { words.new.items ≡ with_length (set_of (count_of combination lower.count upper.count)
        (λ e. test_of combination (is_member (words_at memory.now.words lower.address lower.count) e)
        (is_member (words_at memory.now.words upper.address upper.count) e))) }
{
    let count = combined_count(
        combination,
        usize::from(lower.count),
        usize::from(upper.count),
    );
    words.push(count as u16);
    for i in 0..count {
        let (lower, upper) = (set_word(memory, lower, i), set_word(memory, upper, i));
        words.push(combined_word(combination, lower, upper));
    }
}

// Returns the number of words of the set that `combination` makes of two sets with `lower` and `upper` words.
fn combined_count(combination: Combination, lower: usize, upper: usize) -> usize
    ensures count { result ≡ count_of combination lower upper }
{
    match combination {
        Combination::Intersection => lower.min(upper),
        Combination::Union => lower.max(upper),
        Combination::Difference => lower,
    }
}

// Returns the word that `combination` makes of the words `lower` and `upper` of two sets.
fn combined_word(combination: Combination, lower: u16, upper: u16) -> u16
    ensures word { result ≡ combined_word combination lower upper }
{
    match combination {
        Combination::Intersection => lower & upper,
        Combination::Union => lower | upper,
        Combination::Difference => lower & !upper,
    }
}

// Returns the set of the numbers from `low` to `high`, with its count first.
fn interval(low: u16, high: u16) -> ArrayVec<u16, COUNTED_WORDS>
    requires order { low ≤ high }
    requires bound { high ≤ 4079 }
    ensures few { length result.items ≤ 256 }
    ensures words { result.items ≡ with_length (interval low high) }
{
    let count = high / 16 + 1;
    let mut words = ArrayVec::new();
    words.push(count);
    for i in 0..count {
        words.push(interval_word(low, high, 16 * i));
    }
    words
}

// Returns one word of the set of the numbers from `low` to `high`: the word that has the bits for the numbers `first`
// to `first + 15`.
fn interval_word(low: u16, high: u16, first: u16) -> u16
    requires order { low ≤ high }
    requires bound { high ≤ 4079 }
    ensures word { result ≡ bits_from (λ e. nat_le low e && nat_le e high) first 16 }
{
    let from = low.saturating_sub(first).min(16);
    let to = (high + 1).saturating_sub(first).min(16);
    ((1u32 << to) - (1u32 << from)) as u16
}

// Copies the first `count` words of the set at the location `set` to the even address `to`. If the set has fewer words,
// zeros follow them.
#[inline(always)]
fn resize(memory: &mut Memory, set: SetPlace, to: u16, count: u16)
    requires even { set.address % 2 ≡ 0 }
    requires even_to { to % 2 ≡ 0 }
    requires inside { set.address + 2 * set.count ≤ STACK_END }
    requires inside_to { to + 2 * count ≤ STACK_END }
    ensures words { memory.new.words ≡ with_words memory.old.words to
        (set_of count (λ e. is_member (words_at memory.old.words set.address set.count) e)) }
    ensures watch { WatchStays memory.old memory.new }
{
    let kept = set.count.min(count);
    memory.copy(set.address, to, 2 * kept);
    memory.fill(to + 2 * kept, 2 * (count - kept), 0);
}
