//! Parsing of a whole line.

ghost use Rattle.std.specs.Prelude.{◌≡◌, ℕ, List, true, option_map, IfOk};
ghost use Rattle.std.specs.List.{list_all};
ghost use Rattle.pm_source.specs.Faults.{ends};
ghost use Rattle.pm_source.specs.Words.{words};
ghost use Rattle.pm_source.specs.Line.{bytes_said, checked, code_said, is_character, items_said};
ghost use Rattle.pm_source.specs.Line.{label_of, labelled, line_of, line_of_words, said, spoken};
ghost use Rattle.pm_line.specs.Views.{cut_seen, is_directive, keyword_seen, line_seen, said_items_seen};
ghost use Rattle.pm_line.specs.Views.{operand_seen, said_seen, statement_seen, text_seen, texts_seen};

use crate::comparison::{Said, flaw_of, instruction_said};
use crate::directive::{entry_operands, no_operands, procedure_operands, segment_operands};
use crate::item::{Flaw, Line, Row, Statement};
use crate::keyword::{Keyword, keyword_of};
use crate::lists::{byte_items, byte_operands};
use crate::pieces::{operands, uncommented};
use crate::words::{cut, is_name, words};
use pm_code::Item;
use pm_opcode::form_at;
use std::alloc::{AllocError, Global};

/// The items of a line. A line with one item needs no list.
#[derive(Drop)]
enum SaidItems<'a> {
    One(Item<&'a [u8]>),
    Many(Vec<Item<&'a [u8]>>),
}

/// Parses the operands `texts` of `.BYTE`.
fn bytes_said<'a>(alloc: Global, texts: &[&'a [u8]]) -> Said<SaidItems<'a>>
    ensures items { IfOk result (λ list. said_seen said_items_seen list ≡ checked (bytes_said (texts_seen texts.now))) }
{
    if texts.is_empty() {
        return Ok(None);
    }
    let Some((bytes, in_range)) = byte_operands(alloc, texts)? else {
        return Ok(None);
    };
    let items = match bytes.as_slice() {
        [byte] => SaidItems::One(Item::OneByte(*byte)),
        bytes => SaidItems::Many(byte_items(alloc, bytes)?),
    };
    Ok(Some((items, flaw_of(in_range))))
}

/// Parses the items of a line with the keyword `keyword` and the text `rest` after it. Returns `None` if the keyword is
/// a directive other than `.BYTE`, or if the operands are malformed.
fn items_said<'a>(alloc: Global, keyword: Keyword, rest: &'a [u8]) -> Said<SaidItems<'a>>
    ensures items { IfOk result (λ list. said_seen said_items_seen list ≡ items_said (keyword_seen keyword) rest.now) }
{
    match keyword {
        Keyword::Bytes => bytes_said(alloc, &operands(alloc, rest)?),
        Keyword::Mnemonic(op) => {
            let texts = operands(alloc, rest)?;
            let Some((item, flaw)) = instruction_said(alloc, form_at(op), op, &texts)? else {
                return Ok(None);
            };
            Ok(Some((SaidItems::One(item), flaw)))
        }
        _ => Ok(None),
    }
}

/// Returns the statement of a line of code with this line number, label and items.
fn code_said<'a>(
    line: usize,
    label: Option<&'a [u8]>,
    items: Option<(SaidItems<'a>, Flaw)>,
) -> Option<(Statement<'a>, Flaw)>
    ensures said { said_seen statement_seen result
        ≡ code_said line (option_map text_seen label.entry) (said_seen said_items_seen items.entry) }
{
    let (items, flaw) = items?;
    let row = match items {
        SaidItems::One(item) => Row::One { line, label, item },
        SaidItems::Many(items) => Row::Items { line, label, items },
    };
    Some((Statement::Code(row), flaw))
}

/// Parses the directive `keyword` with the words `texts` after it. Returns `None` for `.BYTE` and for mnemonics.
fn directive<'a>(line: usize, keyword: Keyword, texts: &[&'a [u8]]) -> Option<(Statement<'a>, bool)>
    requires directive { is_directive (keyword_seen keyword) ≡ true }
    ensures said { (rest : List ℕ) → texts_seen texts.now ≡ words rest
        → checked (operand_seen statement_seen result) ≡ said line (keyword_seen keyword) rest }
{
    match keyword {
        Keyword::Segment => segment_operands(texts),
        Keyword::Procedure => procedure_operands(texts),
        Keyword::Exit => no_operands(Statement::Code(Row::Exit), texts),
        Keyword::Jump => entry_operands(line, texts),
        Keyword::End => no_operands(Statement::End, texts),
        Keyword::Bytes | Keyword::Mnemonic(_) => None,
    }
}

/// Parses the statement of the line `line` with the keyword `keyword` and the text `rest` after it.
fn said<'a>(alloc: Global, line: usize, keyword: Keyword, rest: &'a [u8]) -> Said<Statement<'a>>
    ensures said { IfOk result (λ s. said_seen statement_seen s ≡ said line (keyword_seen keyword) rest.now) }
{
    if let Keyword::Bytes | Keyword::Mnemonic(_) = keyword {
        return Ok(code_said(line, None, items_said(alloc, keyword, rest)?));
    }
    let words = words(alloc, rest)?;
    let Some((said, in_range)) = directive(line, keyword, &words) else {
        return Ok(None);
    };
    Ok(Some((said, flaw_of(in_range))))
}

/// Parses a line without a label. `keyword` is its first word, or `None` if this word is unknown. `rest` is the text
/// after it.
fn spoken<'a>(
    alloc: Global,
    line: usize,
    rest: &'a [u8],
    keyword: Option<Keyword>,
) -> Result<Line<'a>, AllocError>
    ensures line { IfOk result (λ l. line_seen l ≡ spoken line rest.now (option_map keyword_seen keyword)) }
{
    let Some(keyword) = keyword else {
        return Ok(Line::Strange);
    };
    let ends = matches!(keyword, Keyword::End);
    Ok(match said(alloc, line, keyword, rest)? {
        Some((said, flaw)) => Line::Says(said, flaw),
        None => Line::Wrong { ends },
    })
}

/// Parses a line with a label. `word` is the word after the label, and `rest` is the text after that word.
fn labelled<'a>(
    alloc: Global,
    line: usize,
    label: &'a [u8],
    word: &'a [u8],
    rest: &'a [u8],
) -> Result<Line<'a>, AllocError>
    ensures line { IfOk result (λ l. line_seen l ≡ labelled line label.now rest.now word.now) }
{
    let items = if word.is_empty() {
        Some((SaidItems::Many(Vec::new(alloc)), Flaw::NoFlaw))
    } else {
        let Some(keyword) = keyword_of(word) else {
            return Ok(Line::Strange);
        };
        items_said(alloc, keyword, rest)?
    };
    if !is_name(label) {
        return Ok(Line::Wrong { ends: false });
    }
    Ok(match code_said(line, Some(label), items) {
        Some((said, flaw)) => Line::Says(said, flaw),
        None => Line::Wrong { ends: false },
    })
}

/// Returns the label before a `:` at the end of `word`, or `None` if `word` has no `:` at its end.
pub(crate) fn label_of(word: &[u8]) -> Option<&[u8]>
    ensures label { option_map text_seen result ≡ label_of word.now }
{
    match word {
        [label @ .., b':'] => Some(label),
        _ => None,
    }
}

/// Returns whether all characters of `text` are allowed in an assembly text: tabs, and the characters 32 to 126.
fn are_characters(text: &[u8]) -> bool
    ensures characters { result ≡ list_all is_character text.now }
{
    text.iter()
        .all(|byte| *byte == b'\t' || (32..=126).contains(byte))
}

/// Parses the line with the number `number`, from its first word `word` and the text `rest` after it.
fn line_of_words<'a>(
    alloc: Global,
    number: usize,
    word: &'a [u8],
    rest: &'a [u8],
) -> Result<Line<'a>, AllocError>
    ensures line { IfOk result (λ l. line_seen l ≡ line_of_words number (cut_seen word.now rest.now)
        (label_of word.now)) }
{
    let Some(label) = label_of(word) else {
        return spoken(alloc, number, rest, keyword_of(word));
    };
    let (word, rest) = cut(rest);
    labelled(alloc, number, label, word, rest)
}

/// Returns whether a line ends a procedure, even if the line is malformed. This is true if and only if its first word
/// is `.END`. The call does not parse the rest of the line, and allocates no memory.
pub fn line_ends(text: &[u8]) -> bool
    ensures ends { (number : ℕ) → result ≡ ends (line_of number text.now) }
{
    cut(uncommented(text)).0 == b".END".as_slice()
}

/// Parses a line. `number` is the number of the line, and `text` is the line without its line feed.
///
/// Faults of the line are part of the result: `Line::Wrong`, `Line::Strange`, and the flaw of `Line::Says`.
///
/// # Errors
///
/// `AllocError`: the host has no memory for the result.
#[tactic(auto, unfolding(pm_source::specs::Line::line_of))]
pub fn line<'a>(alloc: Global, number: usize, text: &'a [u8]) -> Result<Line<'a>, AllocError>
    ensures line { IfOk result (λ l. line_seen l ≡ line_of number text.now) }
{
    let (word, rest) = cut(uncommented(text));
    if !are_characters(text) {
        return Ok(Line::Wrong {
            ends: word == b".END".as_slice(),
        });
    }
    if word.is_empty() {
        return Ok(Line::Blank);
    }
    line_of_words(alloc, number, word, rest)
}
