//! The text of a code file with notes, written as comments after its lines.

ghost use Rattle.std.specs.Prelude.{◌≡◌, ◌++◌, Some, string_bytes, IfOk, OnOk};
ghost use Rattle.pm_notes.specs.Lines.{comment, named_line, with_names};
ghost use Rattle.pm_notes.specs.Marks.{note_on, number_note, slot_note};

use crate::marks::{is_native, kind_told, other_number, slot_said};
use crate::names::name_called;
use pm_codefile::CodeFile;
use std::alloc::{AllocError, Global};

/// Appends `note` to `named` as a comment.
fn push_comment(named: &mut Vec<u8>, note: &str) -> Result<(), AllocError>
    ensures note { OnOk result (named.new.items ≡ named.old.items ++ comment (Some note.now)) }
{
    named.extend_from_slice(b" ; ")?;
    named.extend_from_slice(note.as_bytes())
}

/// Returns the note which states that the highest word of a segment has the number `number`.
fn number_note(alloc: Global, number: u8) -> Result<String, AllocError>
    ensures note { IfOk result (λ note. string_bytes note ≡ number_note number) }
{
    format!(in alloc; "number {number} in its highest word")
}

/// Appends the note on slot `slot` of `file` to `named`. If the slot has no note, appends nothing.
fn push_slot_note(
    alloc: Global,
    named: &mut Vec<u8>,
    file: &CodeFile<'_>,
    slot: u8,
) -> Result<(), AllocError>
    ensures note { OnOk result (named.new.items ≡ named.old.items ++ comment (slot_note file.now slot)) }
{
    match (other_number(file, slot), kind_told(file, slot)) {
        (Some(number), Some(kind)) => {
            let mut note = number_note(alloc, number)?;
            note.push_str(", ")?;
            note.push_str(kind)?;
            push_comment(named, note.as_str())
        }
        (Some(number), None) => {
            let note = number_note(alloc, number)?;
            push_comment(named, note.as_str())
        }
        (None, Some(kind)) => push_comment(named, kind),
        (None, None) => Ok(()),
    }
}

/// Appends the note on `line` to `named`. If the line has no note, appends nothing.
#[tactic(auto, unfolding(crate::specs::Marks::note_on))]
fn push_note(
    alloc: Global,
    named: &mut Vec<u8>,
    file: &CodeFile<'_>,
    line: &[u8],
) -> Result<(), AllocError>
    ensures note { OnOk result (named.new.items ≡ named.old.items ++ comment (note_on file.now line.now)) }
{
    if let Some(name) = name_called(line) {
        return push_comment(named, name);
    }
    if is_native(line) {
        return push_comment(named, "native code");
    }
    match slot_said(line) {
        Some(slot) => push_slot_note(alloc, named, file, slot),
        None => Ok(()),
    }
}

/// Appends `line` and the note on it to `named`.
#[tactic(auto, unfolding(crate::specs::Lines::named_line))]
fn push_line(
    alloc: Global,
    named: &mut Vec<u8>,
    file: &CodeFile<'_>,
    line: &[u8],
) -> Result<(), AllocError>
    ensures named { OnOk result (named.new.items ≡ named.old.items ++ named_line file.now line.now) }
{
    named.extend_from_slice(line)?;
    push_note(alloc, named, file, line)
}

/// Returns `text`, the text of the code file `file`, with notes as comments. The lines themselves are unchanged. These
/// lines get a note:
///
/// - `CSP n` and `CXP 0, n`: the name of the standard procedure, or of the procedure of the operating system, with the
///   number n, if it has a name.
/// - The line of a segment: the number in the low byte of its highest word, if it is not the number of the slot; and
///   the name of the kind of the slot, if the kind is 1 to 7.
/// - The line of a procedure with number 0: that the procedure is native code, whose bytes the text shows as if they
///   were p-code.
///
/// # Errors
///
/// `AllocError`: the host has no memory for the result.
#[tactic(auto, unfolding(crate::specs::Lines::with_names, crate::specs::Lines::named_from))]
pub fn with_names(alloc: Global, file: &CodeFile<'_>, text: &[u8]) -> Result<Vec<u8>, AllocError>
    ensures named { IfOk result (λ named. named.items ≡ with_names file.now text.now) }
{
    let mut named = Vec::new(alloc);
    let mut line = Vec::new(alloc);
    for byte in text {
        if *byte == b'\n' {
            push_line(alloc, &mut named, file, &line)?;
            named.push(b'\n')?;
            line.clear();
        } else {
            line.push(*byte)?;
        }
    }
    push_line(alloc, &mut named, file, &line)?;
    Ok(named)
}
