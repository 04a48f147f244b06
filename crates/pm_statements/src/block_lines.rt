//! Writes statements in blocks as lines.
//!
//! In this file, `left` is the summary of a statement, `phrase` is its text, and `scratch` is a buffer.

ghost use Rattle.std.specs.Prelude.{◌≡◌, ◌++◌, drop, false, map, string_bytes, OnOk};
ghost use Rattle.pm_statements.specs.BlockLabels as labels;
ghost use Rattle.pm_statements.specs.BlockLines as texts;
ghost use Rattle.pm_statements.specs.Marks.{has};

use crate::block_labels::relabelled;
use crate::conditions::push_condition;
use crate::leading::behind_first;
use crate::lines::{is_call, is_check, push_beside, push_blanks, push_front, push_own};
use crate::marks::Marks;
use pm_phrases::{Phrase, push_value};
use pm_trees::{Left, Line, Role, Word};
use std::alloc::{AllocError, Global};

/// Appends to `out` the condition of a statement, with the text `front` before it and the text `tail` after it. The
/// condition is computed from `role` and `phrase`.
fn push_between(
    scratch: &mut String,
    out: &mut String,
    front: &str,
    role: Role,
    phrase: &Phrase,
    tail: &str,
) -> Result<(), AllocError>
    ensures text { OnOk result (string_bytes out.new
        ≡ string_bytes out.old ++ (front.now ++ (texts.condition_text role phrase.now.text ++ tail.now))) }
{
    out.push_str(front)?;
    match phrase.as_str() {
        Some(text) => push_condition(scratch, out, role, text)?,
        None => {
            let text = phrase.to_text(*scratch.allocator())?;
            push_condition(scratch, out, role, text.as_str())?;
        }
    }
    out.push_str(tail)
}

/// Appends a statement with the keyword `word` to `out`, without the offset of the statement.
#[tactic(auto, unfolding(crate::specs::BlockLines::word_text))]
fn push_word(
    scratch: &mut String,
    out: &mut String,
    word: Word,
    left: &Left,
    phrase: &Phrase,
) -> Result<(), AllocError>
    ensures text { OnOk result (string_bytes out.new
        ≡ string_bytes out.old ++ texts.word_text word left.now phrase.now) }
{
    match word {
        Word::Plain(_) => push_own(out, left.leaves, phrase)?,
        Word::If => push_between(scratch, out, "IF ", left.role, phrase, " THEN")?,
        Word::While => push_between(scratch, out, "WHILE ", left.role, phrase, " DO")?,
        Word::Until => push_between(scratch, out, "UNTIL ", left.role, phrase, "")?,
        Word::Else => out.push_str("ELSE")?,
        Word::EndWhile => out.push_str("END")?,
        Word::Case => out.push_str("CASE")?,
        Word::Leave => out.push_str("LEAVE")?,
        Word::EndCase => {
            out.push_str("END ")?;
            push_value(out, phrase)?;
        }
        Word::Repeat | Word::End => (),
    }
    Ok(())
}

/// Appends a statement with the keyword `word` to `out`, on a new line that is indented by `depth`. If the statement is
/// an I/O check and `behind_call` is true, it is appended to the line of the call before it.
fn push_worded(
    scratch: &mut String,
    out: &mut String,
    depth: usize,
    behind_call: bool,
    word: Word,
    left: &Left,
    phrase: &Phrase,
) -> Result<(), AllocError>
    ensures text { OnOk result (string_bytes out.new
        ≡ string_bytes out.old ++ texts.worded_line depth behind_call word left.now phrase.now) }
{
    if behind_call && is_check(left) {
        return push_beside(out, phrase);
    }
    push_front(out, left.place)?;
    push_blanks(out, depth)?;
    push_word(scratch, out, word, left, phrase)
}

/// Appends the first statement of the list, if the list is not empty. The statement has a label if its offset is in
/// `marks`.
fn push_first(
    scratch: &mut String,
    out: &mut String,
    depth: usize,
    behind_call: bool,
    word: Word,
    marks: &Marks,
    lefts: &[Left],
    phrases: &[Phrase],
) -> Result<(), AllocError>
    ensures text { OnOk result (string_bytes out.new ≡ string_bytes out.old ++ texts.first_line depth behind_call word
        (map (labels.relabelled (has marks.now)) lefts.now) phrases.now) }
{
    let Some((left, _)) = lefts.split_first() else {
        return Ok(());
    };
    let Some((phrase, _)) = phrases.split_first() else {
        return Ok(());
    };
    let shown = relabelled(marks, left);
    push_worded(scratch, out, depth, behind_call, word, &shown, phrase)
}

/// Returns the text of a line that has the keyword `word` but no statement.
fn extra_text(word: Word) -> &'static str
    ensures text { result.now ≡ texts.extra_text word }
{
    match word {
        Word::Repeat => "REPEAT",
        Word::End => "END",
        _ => "",
    }
}

/// Appends a line with the keyword `word`. If such a line has a statement, the line is that of the first statement of
/// the list. The statement has a label if its offset is in `marks`.
fn push_block_line(
    scratch: &mut String,
    out: &mut String,
    depth: usize,
    behind_call: bool,
    word: Word,
    marks: &Marks,
    lefts: &[Left],
    phrases: &[Phrase],
) -> Result<(), AllocError>
    ensures text { OnOk result (string_bytes out.new ≡ string_bytes out.old ++ texts.block_line depth behind_call word
        (map (labels.relabelled (has marks.now)) lefts.now) phrases.now) }
{
    if word.is_extra() {
        out.push_str("\n      ")?;
        push_blanks(out, depth)?;
        out.push_str(extra_text(word))?;
        return Ok(());
    }
    push_first(
        scratch,
        out,
        depth,
        behind_call,
        word,
        marks,
        lefts,
        phrases,
    )
}

/// Returns whether a line with the keyword `word` is a call. The first statement of `lefts` is the statement of the
/// line.
fn calls_at(word: Word, lefts: &[Left]) -> bool
    ensures value { result ≡ texts.calls_at word lefts.now }
{
    match lefts.split_first() {
        Some((left, _)) => !word.is_extra() && is_call(left),
        None => false,
    }
}

/// Returns `list` without its first item if a line with the keyword `word` has a statement. Otherwise returns the whole
/// `list`.
pub(crate) fn behind_word<T>(word: Word, list: &[T]) -> &[T]
    ensures rest { result.now ≡ drop (texts.statements_at word) list.now }
{
    if word.is_extra() {
        list
    } else {
        behind_first(list)
    }
}

/// Appends `lines` with their statements to `out`. A statement has a label if its offset is in `marks`.
pub(crate) fn push_block_lines(
    alloc: Global,
    out: &mut String,
    lines: &[Line],
    marks: &Marks,
    lefts: &[Left],
    phrases: &[Phrase],
) -> Result<(), AllocError>
    ensures text { OnOk result (string_bytes out.new ≡ string_bytes out.old ++ texts.block_lines 0 false lines.now
        (map (labels.relabelled (has marks.now)) lefts.now) phrases.now) }
{
    let mut scratch = String::new(alloc);
    let mut depth = 0;
    let mut behind_call = false;
    let mut statements = lefts;
    let mut texts = phrases;
    for line in lines {
        let word = line.word;
        let own = word.depth_at(depth);
        push_block_line(
            &mut scratch,
            out,
            own,
            behind_call,
            word,
            marks,
            statements,
            texts,
        )?;
        let Some(more) = word.depth_behind(depth) else {
            return Err(AllocError);
        };
        depth = more;
        behind_call = calls_at(word, statements);
        statements = behind_word(word, statements);
        texts = behind_word(word, texts);
    }
    Ok(())
}
