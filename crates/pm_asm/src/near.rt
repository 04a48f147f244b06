//! Mnemonics and directives that are similar to a word.

ghost use Rattle.std.specs.Prelude.{◌≡◌, option_map};
ghost use Rattle.std.specs.Map.{lookup};
ghost use Rattle.pm_line.specs.Views.{keyword_seen};
ghost use Rattle.pm_source.specs.Line.{directives};
ghost use Rattle.pm_asm.specs.Near.{are_off, is_like, is_near, liked, liked_from, meant};

use pm_line::Keyword;
use pm_opcode::row_at;

/// Whether the texts `word` and `name`, whose first characters differ, differ in one letter only. `word_rest` and
/// `name_rest` are these texts without their first characters.
fn are_off(word: &[u8], word_rest: &[u8], name: &[u8], name_rest: &[u8]) -> bool
    ensures off { result ≡ are_off word.now word_rest.now name.now name_rest.now }
{
    word_rest.eq_ignore_ascii_case(name_rest)
        || word_rest.eq_ignore_ascii_case(name)
        || word.eq_ignore_ascii_case(name_rest)
}

/// Whether `word` differs from `name` in one letter: one letter is replaced, added or removed. Upper and lower case are
/// equal.
#[tactic(auto, unfolding(crate::specs::Near::is_near))]
fn is_near(word: &[u8], name: &[u8]) -> bool
    ensures near { result ≡ is_near word.now name.now }
{
    match word {
        [] => name.len() <= 1,
        [a, word_rest @ ..] => match name {
            [] => word_rest.is_empty(),
            [b, name_rest @ ..] => {
                if a.eq_ignore_ascii_case(b) {
                    is_near(word_rest, name_rest)
                } else {
                    are_off(word, word_rest, name, name_rest)
                }
            }
        },
    }
}

/// Whether `word` is `name` in upper or lower case. If `near` is true, a word of two or more letters may also differ
/// from `name` in one letter.
fn is_like(near: bool, word: &[u8], name: &[u8]) -> bool
    ensures like { result ≡ is_like near word.now name.now }
{
    word.eq_ignore_ascii_case(name) || near && word.len() >= 2 && is_near(word, name)
}

/// Returns the first opcode whose mnemonic is similar to `word`, as `is_like` defines it. Returns `None` if no mnemonic
/// is similar.
fn opcode_like(near: bool, word: &[u8]) -> Option<u8>
    ensures opcode { result ≡ liked_from near word.now 0 256 }
{
    for op in 0..256u16 {
        let op = op as u8;
        if is_like(near, word, row_at(op).mnemonic.as_bytes()) {
            return Some(op);
        }
    }
    None
}

/// Returns the first directive that is similar to `word`, as `is_like` defines it. Returns `None` if no directive is
/// similar.
#[tactic(auto, unfolding(pm_source::specs::Line::directives))]
fn directive_like(near: bool, word: &[u8]) -> Option<Keyword>
    ensures directive { option_map keyword_seen result ≡ lookup (is_like near word.now) directives }
{
    if is_like(near, word, b".SEG") {
        Some(Keyword::Segment)
    } else if is_like(near, word, b".PROC") {
        Some(Keyword::Procedure)
    } else if is_like(near, word, b".EXIT") {
        Some(Keyword::Exit)
    } else if is_like(near, word, b".JUMP") {
        Some(Keyword::Jump)
    } else if is_like(near, word, b".END") {
        Some(Keyword::End)
    } else if is_like(near, word, b".BYTE") {
        Some(Keyword::Bytes)
    } else {
        None
    }
}

/// Returns the directive that is similar to `word`. If no directive is similar, returns the mnemonic that is similar.
#[tactic(auto, unfolding(crate::specs::Near::liked))]
fn liked(near: bool, word: &[u8]) -> Option<Keyword>
    ensures keyword { option_map keyword_seen result ≡ liked near word.now }
{
    match directive_like(near, word) {
        Some(keyword) => Some(keyword),
        None => Some(Keyword::Mnemonic(opcode_like(near, word)?)),
    }
}

/// Returns the directive or mnemonic that `word` may mean. A keyword in another case is preferred to one that differs
/// in one letter.
#[tactic(auto, unfolding(crate::specs::Near::meant))]
pub(crate) fn meant(word: &[u8]) -> Option<Keyword>
    ensures keyword { option_map keyword_seen result ≡ meant word.now }
{
    match liked(false, word) {
        Some(keyword) => Some(keyword),
        None => liked(true, word),
    }
}
