//! Watched words. A watched word is a word of memory whose change stops a run.

ghost use Rattle.std.specs.Prelude.{◌≡◌, ◌≤◌, Ok, Err, IfErr, OnOk, OnErr, is_some, length};
ghost use Rattle.pm_words.specs.Words.{word_at};
ghost use Rattle.pm_debug.specs.Watches.{first_changed, is_watched, watched_words, with_watch, without_watch};

use crate::refusal::DebugRefusal;
use arrayvec::ArrayVec;
use pm_access::word_at;
use pm_words::Memory;

/// The maximum number of watched words.
pub(crate) const MOST_WATCHES: usize = 64;

/// The addresses of the watched words.
pub(crate) type Watches = ArrayVec<u16, MOST_WATCHES>;

/// A watched word with its value when a run began.
#[derive(Clone, Copy, Default)]
pub(crate) struct WatchedWord {
    /// The address of the word.
    pub address: u16,
    /// The value of the word when the run began.
    pub word: u16,
}

/// The watched words with their values when a run began.
pub(crate) type WatchedWords = ArrayVec<WatchedWord, MOST_WATCHES>;

/// Whether the word at the address `wanted` is watched.
fn is_watched(watches: &[u16], wanted: u16) -> bool
    ensures watched { result ≡ is_watched wanted watches.now }
{
    watches.iter().any(|known| *known == wanted)
}

/// Adds the even address `new` to `watches`. If the list contains `new` already, it is unchanged.
///
/// # Errors
///
/// The list is unchanged after an error.
///
/// - `OddAddress`: the address is odd.
/// - `Full`: the word is not watched, and 64 others are.
#[tactic(auto, unfolding(crate::specs::Watches::with_watch))]
pub(crate) fn set(watches: &mut Watches, new: u16) -> Result<(), DebugRefusal>
    ensures set { OnOk result (with_watch new watches.old.items ≡ Ok watches.new.items) }
    ensures refusal { IfErr result (λ refusal. with_watch new watches.old.items ≡ Err refusal) }
    ensures unchanged { OnErr result (watches.new ≡ watches.old) }
{
    if new % 2 != 0 {
        return Err(DebugRefusal::OddAddress);
    }
    if is_watched(watches, new) {
        return Ok(());
    }
    if watches.is_full() {
        return Err(DebugRefusal::Full);
    }
    watches.push(new);
    Ok(())
}

/// Removes the address `old` from `watches`. If the list does not contain `old`, returns `NotSet` and changes nothing.
#[tactic(auto, unfolding(crate::specs::Watches::without_watch))]
pub(crate) fn clear(watches: &mut Watches, old: u16) -> Result<(), DebugRefusal>
    ensures cleared { OnOk result (without_watch old watches.old.items ≡ Ok watches.new.items) }
    ensures refusal { IfErr result (λ refusal. without_watch old watches.old.items ≡ Err refusal) }
    ensures unchanged { OnErr result (watches.new ≡ watches.old) }
{
    if !is_watched(watches, old) {
        return Err(DebugRefusal::NotSet);
    }
    watches.retain(|known| *known != old);
    Ok(())
}

/// Returns the words of `memory` at the addresses `watches`, with these addresses.
pub(crate) fn watched_words(memory: &Memory, watches: &Watches) -> WatchedWords
    ensures words { result.items ≡ watched_words watches.now.items memory.now.words }
{
    let mut words = ArrayVec::new();
    for address in watches.as_slice() {
        words.push(WatchedWord {
            address: *address,
            word: word_at(memory, *address),
        });
    }
    words
}

/// Returns the address of the first word of `watched` whose value in `memory` has changed, or `None` if none has
/// changed.
pub(crate) fn first_changed(watched: &[WatchedWord], memory: &Memory) -> Option<u16>
    ensures first { result ≡ first_changed watched.now memory.now.words }
{
    for known in watched {
        if word_at(memory, known.address) != known.word {
            return Some(known.address);
        }
    }
    None
}
