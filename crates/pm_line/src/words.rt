//! Spaces, words and names in an assembly text.

ghost use Rattle.std.specs.Prelude.{◌≡◌, ◌<◌, ◌∷◌, true, reverse, length, IfOk};
ghost use Rattle.std.specs.List.{list_all};
ghost use Rattle.pm_source.specs.Words.{begins_name, continues_name, cut, cut_word};
ghost use Rattle.pm_source.specs.Words.{is_blank, is_name, trimmed, unindented, words};
ghost use Rattle.pm_line.specs.Views.{begins_solid, texts_seen};

use std::alloc::{AllocError, Global};

/// Returns whether `byte` is a space or a tab.
pub(crate) fn is_blank(byte: u8) -> bool
    ensures blank { result ≡ is_blank byte }
{
    byte == b' ' || byte == b'\t'
}

/// Returns `text` without its leading spaces and tabs.
pub(crate) fn unindented(text: &[u8]) -> &[u8]
    ensures text { result.now ≡ unindented text.now }
{
    for (i, byte) in text.iter().enumerate() {
        if !is_blank(*byte) {
            return text.split_at(i).1;
        }
    }
    text.split_at(text.len()).1
}

/// Returns `text` without its trailing spaces and tabs.
fn without_end_blanks(text: &[u8]) -> &[u8]
    ensures text { result.now ≡ reverse (unindented (reverse text.now)) }
{
    let mut count = text.len();
    'blanks: while count > 0 && is_blank(text[count - 1]) {
        count -= 1;
    }
    &text[..count]
}

/// Returns `text` without its leading and trailing spaces and tabs.
pub(crate) fn trimmed(text: &[u8]) -> &[u8]
    ensures text { result.now ≡ trimmed text.now }
{
    without_end_blanks(unindented(text))
}

/// Returns the text before the first space or tab, and the text from this character on.
fn cut_word(text: &[u8]) -> (&[u8], &[u8])
    ensures word { result.0.now ≡ (cut_word text.now).word }
    ensures rest { result.1.now ≡ (cut_word text.now).rest }
{
    for (i, byte) in text.iter().enumerate() {
        if is_blank(*byte) {
            return text.split_at(i);
        }
    }
    text.split_at(text.len())
}

/// Returns the first word of `text`, and the text after this word.
#[tactic(auto, unfolding(pm_source::specs::Words::cut))]
pub(crate) fn cut(text: &[u8]) -> (&[u8], &[u8])
    ensures word { result.0.now ≡ (cut text.now).word }
    ensures rest { result.1.now ≡ (cut text.now).rest }
{
    cut_word(unindented(text))
}

/// Returns the first word of `text`, and the text after it without leading spaces and tabs. `text` must begin with a
/// word.
#[tactic(auto, using(crate::proofs::Blanks::unindented_twice, crate::proofs::Blanks::words_at_once, crate::proofs::Blanks::shorter_behind))]
fn next_word(text: &[u8]) -> (&[u8], &[u8])
    requires solid { begins_solid text.now ≡ true }
    ensures words { words text.now ≡ result.0.now ∷ words result.1.now }
    ensures solid { unindented result.1.now ≡ result.1.now }
    ensures shorter { length result.1.now < length text.now }
{
    let (word, behind) = cut_word(text);
    (word, unindented(behind))
}

/// Returns all words of `text`.
#[tactic(auto, using(crate::proofs::Blanks::solid_if_left, crate::proofs::Blanks::words_unindented, crate::proofs::Blanks::unindented_twice))]
pub(crate) fn words<'a>(alloc: Global, text: &'a [u8]) -> Result<Vec<&'a [u8]>, AllocError>
    ensures words { IfOk result (λ list. texts_seen list.items ≡ words text.now) }
{
    let mut list = Vec::new(alloc);
    let mut rest = unindented(text);
    'words: while !rest.is_empty() {
        let (word, behind) = next_word(rest);
        list.push(word)?;
        rest = behind;
    }
    Ok(list)
}

fn begins_name(byte: u8) -> bool
    ensures begins { result ≡ begins_name byte }
{
    byte.is_ascii_alphabetic() || byte == b'_'
}

fn continue_name(bytes: &[u8]) -> bool
    ensures continues { result ≡ list_all continues_name bytes.now }
{
    bytes
        .iter()
        .all(|byte| byte.is_ascii_alphanumeric() || *byte == b'_')
}

/// Returns whether `word` can be a label: a letter or `_`, then letters, digits and `_`, at most 32 characters in all.
pub fn is_name(word: &[u8]) -> bool
    ensures name { result ≡ is_name word.now }
{
    match word {
        [] => false,
        [first, rest @ ..] => begins_name(*first) && rest.len() < 32 && continue_name(rest),
    }
}
