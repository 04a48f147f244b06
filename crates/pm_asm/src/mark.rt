//! The position at which a line with an error is marked. A position is the number of characters before it.

ghost use Rattle.std.specs.Prelude.{◌≡◌, ◌<◌, ◌≤◌, IfOk, IfSome, drop, length, map, option_map, position, string_bytes};
ghost use Rattle.pm_asm.specs.Hints.{hint_seen};
ghost use Rattle.pm_asm.specs.Marks.{below, has_more, mark_line, mark_of, operands_place, place_from, stops};
ghost use Rattle.pm_asm.specs.Marks.{word_place};

use crate::hint::Hint;
use pm_line::{Keyword, front_of};
use std::alloc::{AllocError, Global};

/// A set of characters to search for.
#[derive(Clone, Copy)]
enum Stop {
    /// A character that is neither a space nor a tab.
    Solid,
    /// The end of a word: a space, a tab, or the beginning of a comment.
    WordEnd,
    /// A character that is not allowed in source text.
    Strange,
}

/// Whether the character `byte` is in the set `stop`.
fn stops(stop: Stop, byte: u8) -> bool
    ensures value { result ≡ stops stop byte }
{
    match stop {
        Stop::Solid => byte != b' ' && byte != b'\t',
        Stop::WordEnd => byte == b' ' || byte == b'\t' || byte == b';',
        Stop::Strange => byte != b'\t' && !(32..=126).contains(&byte),
    }
}

/// Returns the number of characters of `text` before the first character that is in the set `stop`. Returns `None` if
/// no character is in the set.
fn found(stop: Stop, text: &[u8]) -> Option<usize>
    ensures place { result ≡ position (stops stop) text.now }
    ensures within { IfSome result (λ n. n < length text.now) }
{
    text.iter().position(|byte| stops(stop, *byte))
}

/// Returns the position of the first character of `text` that is in the set `stop` and not before `at`. Returns the
/// length of `text` if no such character exists.
fn place_from(stop: Stop, text: &[u8], at: usize) -> usize
    ensures place { result ≡ place_from stop text.now at }
    ensures within { result ≤ length text.now }
{
    let behind = text.split_at(at.min(text.len())).1;
    match found(stop, behind) {
        Some(count) => at + count,
        None => text.len(),
    }
}

/// Returns the position of the mnemonic or directive in the line `text`.
fn word_place(text: &[u8]) -> usize
    ensures place { result ≡ word_place text.now }
    ensures within { result ≤ length text.now }
{
    let first = place_from(Stop::Solid, text, 0);
    match front_of(text).label {
        None => first,
        Some(_) => place_from(Stop::Solid, text, place_from(Stop::WordEnd, text, first)),
    }
}

/// Whether `text` has a character at `at` that does not begin a comment.
fn has_more(text: &[u8], at: usize) -> bool
    ensures more { result ≡ has_more (drop at text.now) }
{
    match text.split_at(at.min(text.len())).1 {
        [first, ..] => *first != b';',
        [] => false,
    }
}

/// Returns the position of the operands in the line `text`. If it has no operands, returns the position after the
/// mnemonic or directive.
fn operands_place(text: &[u8]) -> usize
    ensures place { result ≡ operands_place text.now }
    ensures within { result ≤ length text.now }
{
    let end = place_from(Stop::WordEnd, text, word_place(text));
    let next = place_from(Stop::Solid, text, end);
    if has_more(text, next) { next } else { end }
}

/// Returns the position at which the line `text` is marked for `hint`, as the number of characters before the mark.
#[tactic(auto, unfolding(crate::specs::Marks::mark_of))]
pub fn mark_of(hint: Option<Hint>, text: &str) -> usize
    ensures place { result ≡ mark_of (option_map hint_seen hint) text.now }
    ensures within { result ≤ length text.now }
{
    let bytes = text.as_bytes();
    match hint {
        Some(Hint::Characters) => place_from(Stop::Strange, bytes, 0),
        Some(Hint::BeforeLabelled | Hint::Meant(_) | Hint::Words) => word_place(bytes),
        Some(Hint::Ended | Hint::Odd { .. } | Hint::Counted(..)) => word_place(bytes),
        Some(Hint::Takes(_) | Hint::Named | Hint::Reached(_) | Hint::Once(Keyword::Segment)) =>
            operands_place(bytes),
        Some(Hint::Labels | Hint::Stands(_) | Hint::Once(_)) | None => place_from(
            Stop::Solid,
            bytes,
            0,
        ),
    }
}

/// Returns the character that is printed below the character `byte`, which precedes the mark: a tab or a space.
fn below(byte: u8) -> char
    ensures value { result ≡ below byte }
{
    if byte == b'\t' { '\t' } else { ' ' }
}

/// Returns the text that is printed below the characters `before`, which precede the mark.
fn line_below(alloc: Global, before: &[u8]) -> Result<String, AllocError>
    ensures line { IfOk result (λ line. string_bytes line ≡ map below before.now) }
{
    let mut line = String::new(alloc);
    for byte in before {
        line.push(below(*byte))?;
    }
    Ok(line)
}

/// Returns the line below `text`, with the mark `^` at position `place`. Before the mark, it has a tab below each tab
/// and a space below each other character.
#[tactic(auto, unfolding(crate::specs::Marks::mark_line))]
pub fn mark_line(alloc: Global, text: &str, place: usize) -> Result<String, AllocError>
    ensures line { IfOk result (λ line. string_bytes line ≡ mark_line text.now place) }
{
    let bytes = text.as_bytes();
    let mut line = line_below(alloc, bytes.split_at(place.min(bytes.len())).0)?;
    line.push('^')?;
    Ok(line)
}
