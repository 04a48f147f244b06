//! Notes on segments, and on code that is not p-code of this machine.

ghost use Rattle.std.specs.Prelude.{◌≡◌, option_map};
ghost use Rattle.pm_notes.specs.Marks.{is_native, is_unquoted, kind_name, kind_told, number_before_blank};
ghost use Rattle.pm_notes.specs.Marks.{other_number, slot_said};

use crate::names::number_in;
use pm_codefile::CodeFile;

/// Returns the name of the kind `kind` of a slot. Returns `None` for a linked segment of a program, and for an unknown
/// kind.
#[tactic(auto, unfolding(crate::specs::Marks::kind_name, crate::specs::Marks::kind_names))]
fn kind_name(kind: u16) -> Option<&'static str>
    ensures name { option_map (λ name. name.now) result ≡ kind_name kind }
{
    match kind {
        1 => Some("HOSTSEG, not linked"),
        2 => Some("SEGPROC"),
        3 => Some("UNITSEG, not linked"),
        4 => Some("SEPRTSEG, not linked"),
        5 => Some("UNLINKED_INTRINS, not linked"),
        6 => Some("LINKED_INTRINS"),
        7 => Some("DATASEG"),
        _ => None,
    }
}

/// Returns the name of the kind of slot `slot` of `file`, or `None` if it has none.
#[tactic(auto, unfolding(crate::specs::Marks::kind_told))]
pub(crate) fn kind_told(file: &CodeFile<'_>, slot: u8) -> Option<&'static str>
    ensures kind { option_map (λ kind. kind.now) result ≡ kind_told file.now slot }
{
    kind_name(file.slot(slot)?.kind)
}

/// Returns the number in the low byte of the highest word of the segment in slot `slot`, if it is not the number of the
/// slot. Otherwise returns `None`.
#[tactic(auto, unfolding(crate::specs::Marks::other_number))]
pub(crate) fn other_number(file: &CodeFile<'_>, slot: u8) -> Option<u8>
    ensures number { result ≡ other_number file.now slot }
{
    let segment = file.segment(slot)?;
    let number = segment[segment.len().checked_sub(2)?];
    if number == slot { None } else { Some(number) }
}

/// Returns whether `line` has only characters that an assembly text may contain, and no quote.
fn is_unquoted(line: &[u8]) -> bool
    ensures unquoted { result ≡ is_unquoted line.now }
{
    line.iter().all(|c| 32 <= *c && *c <= 126 && *c != b'"')
}

/// Returns the number that the one or two digits before the first space of `text` write, or `None` if the text does not
/// begin with such a number.
fn number_before_blank(text: &[u8]) -> Option<u8>
    ensures number { result ≡ number_before_blank text.now }
{
    match text {
        [_, b' ', ..] => number_in(&text[..1]),
        [_, _, b' ', ..] => number_in(&text[..2]),
        _ => None,
    }
}

/// Returns the number of the slot if `line` is the line of a segment. Otherwise returns `None`.
#[tactic(auto, unfolding(crate::specs::Marks::slot_said))]
pub(crate) fn slot_said(line: &[u8]) -> Option<u8>
    ensures slot { result ≡ slot_said line.now }
{
    let text = line.strip_prefix(b".SEG ")?;
    if is_unquoted(line) {
        number_before_blank(text)
    } else {
        None
    }
}

/// Returns whether `line` is the line of a procedure with number 0, which is native code.
#[tactic(auto, unfolding(crate::specs::Marks::is_native))]
pub(crate) fn is_native(line: &[u8]) -> bool
    ensures native { result ≡ is_native line.now }
{
    line == b"; procedure 0".as_slice()
        || line.strip_prefix(b".PROC 0 ").is_some() && is_unquoted(line)
}
