//! Code files as text.

ghost use Rattle.std.specs.Prelude.{◌≡◌, ◌<◌, ◌≤◌, ◌^◌, ◌%◌, ◌++◌, ℕ, Some, true, if◌then◌else◌, is_some};
ghost use Rattle.std.specs.Prelude.{map, option_map, length, reverse, string_bytes, IfOk, OnOk};
ghost use Rattle.pm_codefile.specs.Dictionary.{segment_in, slot_in};
ghost use Rattle.pm_codefile.specs.Segments.{attributes_in, procedures_in};
ghost use Rattle.pm_code.specs.Program.{is_name_character};
ghost use Rattle.pm_disasm.specs.Laws.{item_at};
ghost use Rattle.pm_disasm.specs.Shown.{cut, file_text, procedure_text};
ghost use Rattle.pm_code.specs.Shown.{joined, shown_item};
ghost use Rattle.pm_code.specs.Laws.{name_of};
ghost use Rattle.pm_disasm.specs.Offsets.{IsDecoded};
ghost use Rattle.pm_disasm.specs.Shown.{shown_name, slot_head, slot_lines, slots_lines, tables_lines};

use crate::decoded::{Decoded, decode_segment};
use crate::front::{Front, front_at};
use crate::procedures::push_table;
use crate::shown_tables::push_table_once;
use pm_code::is_name_character;
use pm_codefile::{Attributes, CodeFile, attributes, procedures};
use std::alloc::{AllocError, Global};
use std::fmt::Write;

/// Returns `name` without the spaces at its end.
fn without_spaces(name: &[u8]) -> &[u8]
    ensures cut { result.now ≡ reverse (cut (reverse name.now)) }
{
    let mut count = name.len();
    'spaces: while count > 0 && name[count - 1] == b' ' {
        count -= 1;
    }
    &name[..count]
}

/// Appends the bytes of `name`. A byte that is not allowed in a name is shown as a question mark.
fn push_marked(text: &mut String, name: &[u8]) -> Result<(), AllocError>
    ensures text { OnOk result (string_bytes text.new
        ≡ string_bytes text.old ++ map (λ c. if is_name_character c then c else 63) name.now) }
{
    for byte in name {
        let shown = if is_name_character(*byte) {
            *byte
        } else {
            b'?'
        };
        text.push(char::from(shown))?;
    }
    Ok(())
}

/// Appends the name of a segment from a code file, without the spaces at its end. An empty name is shown as a question
/// mark.
fn push_name(text: &mut String, name: &[u8]) -> Result<(), AllocError>
    ensures text { OnOk result (string_bytes text.new ≡ string_bytes text.old ++ shown_name name.now) }
{
    let name = without_spaces(name);
    if name.is_empty() {
        return text.push('?');
    }
    push_marked(text, name)
}

/// Appends the lines of all procedures of `segment`.
fn push_tables(alloc: Global, text: &mut String, segment: &[u8]) -> Result<(), AllocError>
    requires even { length segment.now % 2 ≡ 0 }
    requires short { length segment.now ≤ 65534 }
    ensures text { OnOk result (string_bytes text.new
        ≡ string_bytes text.old ++ joined (tables_lines segment.now 1 (procedures_in segment.now))) }
{
    let decoded = decode_segment(alloc, segment)?;
    let mut shown = Vec::new(alloc);
    for done in 0..procedures(segment) {
        let number = done + 1;
        match attributes(segment, number) {
            Some(a) => push_table_once(alloc, text, segment, &decoded, &mut shown, a)?,
            None => writeln!(text, "; procedure {number}")?,
        }
    }
    Ok(())
}

/// Returns the first line of the segment in slot `n`: `.SEG`, the slot and the segment's name, with a line feed. `n`
/// must be less than 16. If the slot has no segment, the text is empty.
///
/// # Errors
///
/// `AllocError` if memory runs out.
pub fn slot_line(alloc: Global, file: &CodeFile<'_>, n: u8) -> Result<String, AllocError>
    requires slot { n < 16 }
    ensures text { IfOk result (λ text. string_bytes text
        ≡ slot_head n (name_of (slot_in file.now n)) (segment_in file.now n)) }
{
    let mut text = String::new(alloc);
    if file.segment(n).is_none() {
        return Ok(text);
    }
    let Some(slot) = file.slot(n) else {
        return Ok(text);
    };
    write!(text, ".SEG {n} ")?;
    push_name(&mut text, &slot.name)?;
    text.push('\n')?;
    Ok(text)
}

/// Appends the lines of the segment in slot `n` of `file`. Appends nothing if the slot has no segment.
fn push_slot(alloc: Global, text: &mut String, file: &CodeFile<'_>, n: u8) -> Result<(), AllocError>
    requires slot { n < 16 }
    ensures text { OnOk result (string_bytes text.new
        ≡ string_bytes text.old ++ joined (slot_lines n (name_of (slot_in file.now n)) (segment_in file.now n))) }
{
    let Some(segment) = file.segment(n) else {
        return Ok(());
    };
    let head = slot_line(alloc, file, n)?;
    text.push_str(head.as_str())?;
    push_tables(alloc, text, segment)
}

/// Returns the text of `file`: its segments in ascending order of their slots, each with its procedures. A slot without
/// a segment has no text.
///
/// A procedure is shown as a comment with its number if it has no readable attribute table, or if its exit code is
/// before its code.
#[tactic(auto, unfolding(crate::specs::Shown::file_text))]
pub fn file(alloc: Global, file: &CodeFile<'_>) -> Result<String, AllocError>
    ensures text { IfOk result (λ text. string_bytes text ≡ file_text file.now) }
{
    let mut text = String::new(alloc);
    for n in 0..16 {
        push_slot(alloc, &mut text, file, n)?;
    }
    Ok(text)
}

/// Returns the text of the procedure that has the attribute table `attributes`: its lines from `.PROC` to `.END`, each
/// with a line feed. If its exit code is before its code, the text is a comment with the number in the table.
///
/// `attributes` must be those of a procedure of `segment`, which may have at most 65,534 bytes.
#[tactic(auto, unfolding(crate::specs::Shown::procedure_text))]
pub fn procedure(
    alloc: Global,
    segment: &[u8],
    attributes: &Attributes,
) -> Result<String, AllocError>
    requires short { length segment.now ≤ 65534 }
    requires of_segment { (p : ℕ) × (attributes_in segment.now p ≡ Some attributes.now) }
    ensures text { IfOk result (λ text. string_bytes text ≡ procedure_text segment.now attributes.now) }
{
    let mut text = String::new(alloc);
    let decoded = decode_segment(alloc, segment)?;
    push_table(alloc, &mut text, segment, &decoded, attributes)?;
    Ok(text)
}

/// Returns the text of a procedure as [`procedure`] does, for a segment that is already decoded. So a caller that
/// writes the procedures of a segment one after another decodes the segment only once, and needs memory for one text at
/// a time.
///
/// # Errors
///
/// `AllocError` if memory runs out.
#[tactic(auto, unfolding(crate::specs::Shown::procedure_text))]
pub fn decoded_procedure<'a>(
    alloc: Global,
    segment: &'a [u8],
    decoded: &Decoded<'a>,
    attributes: &Attributes,
) -> Result<String, AllocError>
    requires short { length segment.now ≤ 65534 }
    requires of_segment { (p : ℕ) × (attributes_in segment.now p ≡ Some attributes.now) }
    requires decoded { IsDecoded decoded.now segment.now }
    ensures text { IfOk result (λ text. string_bytes text ≡ procedure_text segment.now attributes.now) }
{
    let mut text = String::new(alloc);
    push_table(alloc, &mut text, segment, decoded, attributes)?;
    Ok(text)
}

/// Returns the text of the instruction at offset `at` of `segment`, without leading spaces and without a line feed. A
/// short jump is shown with its label or its entry, as in the text of a procedure.
///
/// An instruction that the text of a procedure can show must be at this offset. `segment` must have fewer than 2^32
/// bytes.
#[tactic(auto, unfolding(crate::specs::Laws::item_at))]
pub fn item(alloc: Global, segment: &[u8], at: u16) -> Result<String, AllocError>
    requires short { length segment.now < 2 ^ 32 }
    requires there { is_some (item_at segment.now at) ≡ true }
    ensures text { IfOk result (λ text. Some (string_bytes text) ≡ option_map shown_item (item_at segment.now at)) }
{
    match front_at(segment, usize::from(at)) {
        Some(
            Front {
                item: Some(item),
                ..
            },
        ) => {
            let item = item.item(alloc)?;
            format!(in alloc; "{item}")
        }
        _ => Ok(String::new(alloc)),
    }
}
