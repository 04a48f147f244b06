//! Breakpoints. A breakpoint has a spot: a position in the code, or certain words of memory. A run stops before a step
//! at this position, or before a step that writes or reads these words. A breakpoint can have a condition.

ghost use Rattle.std.specs.Prelude.{◌≡◌, ◌&&◌, Ok, IfErr, OnOk, OnErr, Err, map};
ghost use Rattle.pm_debug.specs.Breaks.{bytes_from, can_be_asked, can_stand, holds, instead, is_at_break, is_met_from};
ghost use Rattle.pm_debug.specs.Breaks.{is_same, is_same_place, is_set, is_that, stands_at, with_break, without_break};

use crate::refusal::DebugRefusal;
use arrayvec::ArrayVec;
use pm_access::{reads, word_at, writes};
use pm_machine::{CodePlace, Machine, place_in_code};
use pm_words::Memory;

/// The maximum number of breakpoints.
pub(crate) const MOST_BREAKS: usize = 64;

/// A condition on the memory. It is true if the word of memory at `address` is `word`.
#[derive(Clone, Copy, Default)]
pub struct Condition {
    /// The address of the word, which must be even.
    pub address: u16,
    /// The value that the word must have.
    pub word: u16,
}

/// The steps before which a breakpoint stops a run.
#[derive(Clone, Copy)]
pub enum Spot {
    /// The steps at a position in the code.
    Code(CodePlace),
    /// The steps that write a byte of certain words of the memory.
    ///
    /// A step that ends with an error counts as writing what it would write without the error, with these exceptions:
    ///
    /// - An EXIT that does not find its procedure writes nothing.
    /// - A call that does not reach its segment writes nothing. A call that does not find its table writes no frame.
    /// - An operation on sets or WORDS that this machine does not have writes its result; a comparison of REAL writes
    ///   nothing.
    /// - CHK writes the word that it leaves on the stack.
    Writes {
        /// The address of the first word, which must be even.
        address: u16,
        /// The number of words. If it is 0, no run stops. Words above 65,535 do not count.
        words: u16,
    },
    /// The steps that read a byte of certain words of the memory. The bytes of the instruction itself do not count.
    ///
    /// A step that ends with an error counts as reading what it would read without the error, with these exceptions:
    ///
    /// - An EXIT that does not find its procedure reads no frame.
    /// - A call that does not reach its segment reads nothing. A call that does not find its table reads no parameters
    ///   and no links.
    /// - An operation on sets or WORDS that this machine does not have reads what it would compare; a comparison of
    ///   REAL reads nothing.
    /// - STP reads its word even if it replaces all of it.
    Reads {
        /// The address of the first word, which must be even.
        address: u16,
        /// The number of words. If it is 0, no run stops. Words above 65,535 do not count.
        words: u16,
    },
}

impl Default for Spot {
    fn default() -> Spot {
        Spot::Code(CodePlace::default())
    }
}

/// A breakpoint. It stops a run before each step that `spot` selects, provided that `condition` is true or `None`.
#[derive(Clone, Copy, Default)]
pub struct Breakpoint {
    /// The steps before which the breakpoint stops a run.
    pub spot: Spot,
    /// The condition that must be true before the step.
    pub condition: Option<Condition>,
}

/// The breakpoints that are set.
pub(crate) type Breaks = ArrayVec<Breakpoint, MOST_BREAKS>;

fn is_same_place(a: CodePlace, b: CodePlace) -> bool
    ensures same { result ≡ is_same_place a b }
{
    a.segment == b.segment && a.procedure == b.procedure && a.offset == b.offset
}

/// Whether `a` and `b` are the same position in the code, or the same words for the same kind of access.
fn is_same(a: Spot, b: Spot) -> bool
    ensures same { result ≡ is_same a b }
{
    match (a, b) {
        (Spot::Code(a), Spot::Code(b)) => is_same_place(a, b),
        (
            Spot::Writes { address, words },
            Spot::Writes {
                address: other,
                words: count,
            },
        )
        | (
            Spot::Reads { address, words },
            Spot::Reads {
                address: other,
                words: count,
            },
        ) => address == other && words == count,
        _ => false,
    }
}

/// Whether one of `breaks` has the spot `wanted`.
fn is_set(breaks: &[Breakpoint], wanted: Spot) -> bool
    ensures set { result ≡ is_set wanted breaks.now }
{
    breaks.iter().any(|known| is_same(wanted, known.spot))
}

/// Whether the words of `spot` begin at an even address. True for a position in the code, which has no words.
fn can_stand(spot: Spot) -> bool
    ensures even { result ≡ can_stand spot }
{
    match spot {
        Spot::Code(_) => true,
        Spot::Writes { address, .. } => address % 2 == 0,
        Spot::Reads { address, .. } => address % 2 == 0,
    }
}

/// Whether the address of `condition` is even. True for `None`.
fn can_be_asked(condition: Option<Condition>) -> bool
    ensures even { result ≡ can_be_asked condition }
{
    match condition {
        Some(condition) => condition.address % 2 == 0,
        None => true,
    }
}

/// Returns `breaks`, in which `new` replaces the breakpoint at the same spot.
fn with_instead(breaks: &Breaks, new: Breakpoint) -> Breaks
    ensures breaks { result.items ≡ map (instead new) breaks.now.items }
{
    let mut all = ArrayVec::new();
    for known in breaks.as_slice() {
        all.push(if is_same(new.spot, known.spot) {
            new
        } else {
            *known
        });
    }
    all
}

/// Adds the breakpoint `new` to `breaks`. If a breakpoint at the same spot exists, `new` replaces it.
///
/// # Errors
///
/// The list is unchanged after an error.
///
/// - `OddAddress`: the address of the words or of the condition is odd.
/// - `Full`: no breakpoint is at this spot, and 64 are set.
#[tactic(auto, unfolding(crate::specs::Breaks::with_break))]
pub(crate) fn set(breaks: &mut Breaks, new: Breakpoint) -> Result<(), DebugRefusal>
    ensures set { OnOk result (with_break new breaks.old.items ≡ Ok breaks.new.items) }
    ensures refusal { IfErr result (λ refusal. with_break new breaks.old.items ≡ Err refusal) }
    ensures unchanged { OnErr result (breaks.new ≡ breaks.old) }
{
    if !can_stand(new.spot) || !can_be_asked(new.condition) {
        return Err(DebugRefusal::OddAddress);
    }
    if is_set(breaks, new.spot) {
        *breaks = with_instead(breaks, new);
        return Ok(());
    }
    if breaks.is_full() {
        return Err(DebugRefusal::Full);
    }
    breaks.push(new);
    Ok(())
}

/// Removes the breakpoint at the spot `old` from `breaks`. If no breakpoint is at `old`, returns `NotSet` and changes
/// nothing.
#[tactic(auto, unfolding(crate::specs::Breaks::without_break))]
pub(crate) fn clear(breaks: &mut Breaks, old: Spot) -> Result<(), DebugRefusal>
    ensures cleared { OnOk result (without_break old breaks.old.items ≡ Ok breaks.new.items) }
    ensures refusal { IfErr result (λ refusal. without_break old breaks.old.items ≡ Err refusal) }
    ensures unchanged { OnErr result (breaks.new ≡ breaks.old) }
{
    if !is_set(breaks, old) {
        return Err(DebugRefusal::NotSet);
    }
    breaks.retain(|known| !is_same(old, known.spot));
    Ok(())
}

fn is_that(place: CodePlace, here: Option<CodePlace>) -> bool
    ensures that { result ≡ is_that place here }
{
    match here {
        Some(here) => is_same_place(place, here),
        None => false,
    }
}

/// Whether `machine` is at the position `place` in the code.
pub(crate) fn stands_at(machine: &Machine, place: CodePlace) -> bool
    ensures stands { result ≡ stands_at place machine.now.state }
{
    is_that(place, place_in_code(machine))
}

/// Whether `condition` is true in `memory`. True for `None`.
fn holds(condition: Option<Condition>, memory: &Memory) -> bool
    ensures holds { result ≡ holds condition memory.now.words }
{
    match condition {
        Some(condition) => word_at(memory, condition.address) == condition.word,
        None => true,
    }
}

/// Returns the number of bytes of those `words` words from `address` on that are in the memory. The last byte of the
/// memory is 65,535.
fn bytes_from(address: u16, words: u16) -> u32
    ensures bytes { result ≡ bytes_from address words }
{
    (2 * u32::from(words)).min(65_536 - u32::from(address))
}

/// Whether `spot` selects the next step of `machine`, which is at the position `here`. It does if `here` is the
/// position of the spot, or if the next step writes or reads words of the spot.
fn is_met(spot: Spot, here: Option<CodePlace>, machine: &Machine) -> bool
    ensures met { result ≡ is_met_from here spot machine.now.state }
{
    match spot {
        Spot::Code(place) => is_that(place, here),
        Spot::Writes { address, words } => writes(machine, address, bytes_from(address, words)),
        Spot::Reads { address, words } => reads(machine, address, bytes_from(address, words)),
    }
}

/// Whether a run of `machine`, which is at the position `here`, stops for the breakpoint `known`.
fn stops_for(known: Breakpoint, here: Option<CodePlace>, machine: &Machine) -> bool
    ensures stops { result ≡ (is_met_from here known.spot machine.now.state
        && holds known.condition machine.now.state.memory) }
{
    is_met(known.spot, here, machine) && holds(known.condition, machine.memory())
}

/// Whether a run of `machine` stops before the next step for one of `breaks`.
pub(crate) fn is_at_break(machine: &Machine, breaks: &[Breakpoint]) -> bool
    ensures matches { result ≡ is_at_break breaks.now machine.now.state }
{
    let here = place_in_code(machine);
    breaks.iter().any(|known| stops_for(*known, here, machine))
}
