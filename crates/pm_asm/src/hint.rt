//! Hints for lines with errors. A hint explains how to correct a line.

ghost use Rattle.std.specs.Prelude.{◌≡◌, Some, IfOk, option_map};
ghost use Rattle.std.specs.List.{list_all};
ghost use Rattle.std.specs.Option.{unwrap_or};
ghost use Rattle.pm_asm.specs.Hints.{ended_hint, hint_of, hint_seen, ill_formed_hint, labelled_hint, range_hint};
ghost use Rattle.pm_asm.specs.Hints.{syntax_hint, unknown_hint};
ghost use Rattle.pm_asm.specs.Hints.Hint.{Reached};
ghost use Rattle.pm_line.specs.Fronts.{front_seen, keyword_in};
ghost use Rattle.pm_line.specs.Views.{keyword_seen, line_seen};
ghost use Rattle.pm_source.specs.Line.{is_character};
ghost use Rattle.pm_source.specs.Line.Keyword.{OfBytes};

use crate::near::meant;
use pm_line::{Front, Keyword, Line, front_of, is_name, line};
use pm_reader::Counts;
use pm_source::AsmFault;
use std::alloc::{AllocError, Global};

/// A hint for a line with a fault. Each variant states what the text of the hint describes.
#[derive(Clone, Copy)]
pub enum Hint {
    /// The characters that are allowed in source text.
    Characters,
    /// The syntax of a label.
    Labels,
    /// What may follow a label.
    BeforeLabelled,
    /// The operands of a mnemonic or a directive.
    Takes(Keyword),
    /// Where a line with this keyword is allowed.
    Stands(Keyword),
    /// The mnemonic or the directive that is probably meant.
    Meant(Keyword),
    /// What the first word of a line may be.
    Words,
    /// The conditions for `.END`.
    Ended,
    /// A procedure with an odd number of bytes.
    Odd { procedure: usize, bytes: usize },
    /// A procedure with the wrong number of `.JUMP` lines. The fields are the number of the procedure, the number of
    /// its `.JUMP` lines, and the number of entries that its code uses.
    Counted(usize, usize, usize),
    /// Every label that is used must be defined.
    Named,
    /// What may occur only once, by the keyword of the line.
    Once(Keyword),
    /// The range of a short jump, and how to jump to any label.
    Reached(Keyword),
}

/// Whether all characters of `text` are allowed in source text: tabs, and 32 to 126.
fn are_characters(text: &[u8]) -> bool
    ensures characters { result ≡ list_all is_character text.now }
{
    text.iter()
        .all(|byte| *byte == b'\t' || (32..=126).contains(byte))
}

/// Returns the mnemonic or directive at the front of a line. Returns `Bytes` if the line has none.
fn keyword_or_byte(front: &Front<'_>) -> Keyword
    ensures keyword { keyword_seen result ≡ unwrap_or (keyword_in (front_seen front.now)) OfBytes }
{
    match front.keyword() {
        Some(keyword) => keyword,
        None => Keyword::Bytes,
    }
}

/// Returns the hint for a malformed line that has a valid label and the mnemonic or directive `keyword`.
fn labelled_hint(keyword: Option<Keyword>) -> Option<Hint>
    ensures hint { option_map hint_seen result ≡ labelled_hint (option_map keyword_seen keyword) }
{
    match keyword? {
        keyword @ (Keyword::Bytes | Keyword::Mnemonic(_)) => Some(Hint::Takes(keyword)),
        _ => Some(Hint::BeforeLabelled),
    }
}

/// Returns the hint for a malformed line, from its label and its keyword. Returns `None` only if the line has no
/// keyword, and its label, if any, is a valid name.
fn ill_formed_hint(front: &Front<'_>) -> Option<Hint>
    ensures hint { option_map hint_seen result
        ≡ ill_formed_hint (front_seen front.now).label (keyword_in (front_seen front.now)) }
{
    match front.label {
        None => Some(Hint::Takes(front.keyword()?)),
        Some(label) if is_name(label) => labelled_hint(front.keyword()),
        Some(_) => Some(Hint::Labels),
    }
}

/// Returns the hint for a line that is malformed or not allowed at its position.
fn syntax_hint(front: &Front<'_>, line: &Line<'_>) -> Option<Hint>
    ensures hint { option_map hint_seen result ≡ syntax_hint (front_seen front.now) (line_seen line.now) }
{
    match line {
        Line::Says(_, _) => Some(Hint::Stands(keyword_or_byte(front))),
        Line::Wrong { .. } => ill_formed_hint(front),
        Line::Blank | Line::Strange => None,
    }
}

/// Returns the hint for a line with an unknown word.
fn unknown_hint(front: &Front<'_>) -> Hint
    ensures hint { hint_seen result ≡ unknown_hint (front_seen front.now).word (keyword_in (front_seen front.now)) }
{
    match (front.keyword(), meant(front.word)) {
        (Some(keyword), _) => Hint::Takes(keyword),
        (None, Some(keyword)) => Hint::Meant(keyword),
        (None, None) => Hint::Words,
    }
}

/// Returns the hint for a line with a number out of range, or for the end of a procedure.
fn range_hint(front: &Front<'_>) -> Option<Hint>
    ensures hint { option_map hint_seen result ≡ range_hint (keyword_in (front_seen front.now)) }
{
    match front.keyword()? {
        Keyword::End => Some(Hint::Ended),
        keyword => Some(Hint::Takes(keyword)),
    }
}

/// Returns the hint for a line with a jump that cannot reach its label.
fn far_hint(front: &Front<'_>) -> Option<Hint>
    ensures hint { option_map hint_seen result ≡ option_map Reached (keyword_in (front_seen front.now)) }
{
    Some(Hint::Reached(front.keyword()?))
}

/// Returns the hint for an `.END` that is rejected. `counts` has the number of bytes and of jump table entries of its
/// procedure.
pub fn ended_hint(counts: Counts) -> Hint
    ensures hint { hint_seen result ≡ ended_hint counts }
{
    let Counts {
        procedure,
        bytes,
        entries,
        taken,
    } = counts;
    if bytes % 2 != 0 {
        Hint::Odd { procedure, bytes }
    } else {
        Hint::Counted(procedure, entries, taken)
    }
}

/// Returns the hint for a line with the fault `fault`, or `None` if no hint exists for it. `text` is the line without
/// its line feed.
#[tactic(auto, unfolding(crate::specs::Hints::hint_of))]
pub fn hint_of(alloc: Global, fault: AsmFault, text: &str) -> Result<Option<Hint>, AllocError>
    ensures hint { IfOk result (λ hint. option_map hint_seen hint ≡ hint_of fault text.now) }
{
    let bytes = text.as_bytes();
    let front = front_of(bytes);
    Ok(match fault {
        AsmFault::Syntax(_) if !are_characters(bytes) => Some(Hint::Characters),
        AsmFault::Syntax(_) => syntax_hint(&front, &line(alloc, 1, bytes)?),
        AsmFault::Unknown(_) => Some(unknown_hint(&front)),
        AsmFault::Range(_) => range_hint(&front),
        AsmFault::NoLabel(_) => Some(Hint::Named),
        AsmFault::Twice(_) => Some(Hint::Once(keyword_or_byte(&front))),
        AsmFault::Far(_) => far_hint(&front),
        AsmFault::TooLong(_) | AsmFault::NoMemory => None,
    })
}
