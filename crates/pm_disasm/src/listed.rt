//! The listing of a code file. It shows the bytes of the file at their offsets in their segments, for any layout of the
//! file.

ghost use Rattle.std.specs.Prelude.{◌≡◌, ◌<◌, ◌≤◌, ◌+◌, ◌*◌, ◌%◌, ◌++◌, ◌∷◌, [], List, ℕ, Some};
ghost use Rattle.std.specs.Prelude.{IfOk, IfSome, OnOk, length, map, option_map, reverse, string_bytes};
ghost use Rattle.std.specs.List.{AllByRecursion};
ghost use Rattle.pm_codefile.specs.Dictionary.{segment_in};
ghost use Rattle.pm_codefile.specs.Segments.{attributes_in, procedures_in};
ghost use Rattle.pm_code.specs.Image.{listed_line, listed_lines, pairs_text, upper_digit};
ghost use Rattle.pm_code.specs.Item.{size};
ghost use Rattle.pm_code.specs.Item.Item.{OneByte};
ghost use Rattle.pm_code.specs.Shown.{padded, shown_item};
ghost use Rattle.pm_code.specs.Views.{placed_item};
ghost use Rattle.pm_disasm.specs.Chosen.{IsTable};
ghost use Rattle.pm_disasm.specs.Follow.{Follow, Items, items_or_bytes, written_by};
ghost use Rattle.pm_disasm.specs.Listing.{file_listing, slot_listing, stored, stored_entries, stored_items};
ghost use Rattle.pm_disasm.specs.Listing.{stored_dictionary, stored_procedure, table_listing, tables_listing};
ghost use Rattle.pm_disasm.specs.Offsets.{IsDecoded};
ghost use Rattle.pm_disasm.specs.Split.{procedure_of};
ghost use Rattle.pm_disasm.specs.Views.{found_seen, has, part_seen};

use crate::counts::shown_code;
use crate::decoded::{Decoded, decode_segment};
use crate::found::Found;
use crate::parts::{Code, Part};
use crate::procedures::entries_of;
use crate::shown_tables::{ShownTable, text_of};
use crate::written::item_led;
use pm_code::{Item, Label};
use pm_codefile::{Attributes, CodeFile, attributes, procedures};
use std::alloc::{AllocError, Global};
use std::fmt::{self, Write};

/// The values that the lines of a procedure share: the segment, its slot, and the number of the procedure.
#[derive(Clone, Copy)]
struct Stored<'a> {
    segment: &'a [u8],
    slot: u8,
    procedure: u8,
}

/// Returns the character of the hexadecimal digit `value`, which is below 16. Letters are capitals.
fn upper_digit(value: u8) -> u8
    requires digit { value < 16 }
    ensures digit { result ≡ upper_digit value }
    ensures ascii { result < 128 }
{
    if value < 10 { 48 + value } else { 55 + value }
}

/// Appends each of `bytes` as a space and two hexadecimal digits.
fn push_pairs(text: &mut String, bytes: &[u8]) -> Result<(), AllocError>
    ensures text { OnOk result (string_bytes text.new ≡ string_bytes text.old ++ pairs_text bytes.now) }
{
    for byte in bytes {
        text.push(' ')?;
        text.push(char::from(upper_digit(byte / 16)))?;
        text.push(char::from(upper_digit(byte % 16)))?;
    }
    Ok(())
}

/// The beginning of a line: the slot in two digits, the procedure in three, and the offset in five.
#[derive(Clone, Copy)]
struct Columns {
    slot: u8,
    procedure: u8,
    at: usize,
}

impl fmt::Display for Columns {
    ghost output = { λ c. Some (padded 2 c.slot ++ (32 ∷ padded 3 c.procedure ++ (32 ∷ padded 5 c.at))) };

    #[tactic(auto, using(pm_code::proofs::Digits::padded_written))]
    fn fmt<W: fmt::Write>(&self, f: &mut fmt::Formatter<W>) -> fmt::Result {
        let slot = self.slot;
        let procedure = self.procedure;
        let at = self.at;
        write!(f, "{slot:02} {procedure:03} {at:05}")
    }
}

/// Appends the beginning of a line for `count` bytes from offset `at`: the columns and the bytes. The description and a
/// line feed must follow.
fn push_front(
    text: &mut String,
    from: Stored<'_>,
    at: usize,
    count: usize,
) -> Result<(), AllocError>
    requires within { at + count ≤ length from.segment.now }
    ensures text { OnOk result ((what : List ℕ) → string_bytes text.new ++ (what ++ (10 ∷ []))
        ≡ string_bytes text.old ++ listed_line from.entry.slot
        (stored from.entry.segment.now from.entry.procedure at count what)) }
{
    let columns = Columns {
        slot: from.slot,
        procedure: from.procedure,
        at,
    };
    write!(text, "{columns}")?;
    push_pairs(text, &from.segment[at..at + count])?;
    write!(text, "  ")?;
    Ok(())
}

/// Appends the line of an item that has `count` bytes from offset `at`.
fn list_item(
    text: &mut String,
    from: Stored<'_>,
    at: usize,
    count: usize,
    item: &Item<usize>,
) -> Result<(), AllocError>
    requires within { at + count ≤ length from.segment.now }
    ensures text { OnOk result (string_bytes text.new ≡ string_bytes text.old ++ listed_line from.entry.slot
        (stored from.entry.segment.now from.entry.procedure at count (shown_item (placed_item item.now)))) }
{
    push_front(text, from, at, count)?;
    writeln!(text, "{item}")?;
    Ok(())
}

/// Appends the lines of `bytes`, which are not part of an instruction. The first one is at offset `at`.
fn list_bytes(
    text: &mut String,
    from: Stored<'_>,
    at: usize,
    bytes: &[u8],
) -> Result<(), AllocError>
    requires within { at + length bytes.now ≤ length from.segment.now }
    ensures text { OnOk result ((rest : Items) → string_bytes text.new ++ listed_lines from.entry.slot
        (stored_items from.entry.segment.now from.entry.procedure (at + length bytes.now) rest)
        ≡ string_bytes text.old ++ listed_lines from.entry.slot
        (stored_items from.entry.segment.now from.entry.procedure at (map OneByte bytes.now ++ rest))) }
{
    let mut place = at;
    for byte in bytes {
        list_item(text, from, place, 1, &Item::OneByte(*byte))?;
        place += 1;
    }
    Ok(())
}

/// Appends the lines of `part`: the line of its item if the item is shown, else a line for each byte.
fn list_part(
    alloc: Global,
    text: &mut String,
    from: Stored<'_>,
    part: Part<'_>,
    found: Option<Found<'_>>,
) -> Result<(), AllocError>
    requires within { part.at + length part.bytes.now ≤ length from.segment.now }
    requires sized { IfSome found (λ item. size part.at (found_seen item) ≡ length part.bytes.now) }
    ensures text { OnOk result ((rest : Items) → string_bytes text.new ++ listed_lines from.entry.slot
        (stored_items from.entry.segment.now from.entry.procedure
        (part.entry.at + length part.entry.bytes.now) rest)
        ≡ string_bytes text.old ++ listed_lines from.entry.slot (stored_items from.entry.segment.now
        from.entry.procedure part.entry.at
        (items_or_bytes part.entry.bytes.now (option_map found_seen found.entry) ++ rest))) }
{
    match found {
        Some(found) => {
            let item = found.item(alloc)?;
            list_item(text, from, part.at, part.bytes.len(), &item)?;
        }
        None => list_bytes(text, from, part.at, part.bytes)?,
    }
    Ok(())
}

/// Appends the lines of the parts of `code`.
fn list_code(
    alloc: Global,
    text: &mut String,
    from: Stored<'_>,
    code: &Code<'_>,
    allowed: bool,
    end: usize,
) -> Result<(), AllocError>
    requires follow { Follow code.now.boundaries.begin end (map part_seen code.now.parts.items) }
    requires within { end ≤ length from.segment.now }
    ensures text { OnOk result (string_bytes text.new ≡ string_bytes text.old ++ listed_lines from.entry.slot
        (stored_items from.entry.segment.now from.entry.procedure code.now.boundaries.begin
        (written_by (has code.now.boundaries) allowed (map part_seen code.now.parts.items)))) }
{
    for part in &code.parts {
        let item = item_led(*part, &code.boundaries, allowed);
        list_part(alloc, text, from, *part, item)?;
    }
    Ok(())
}

/// Appends the lines of the jump table that begins at offset `at` and whose targets are `entries`. The last entry comes
/// first.
fn list_entries(
    text: &mut String,
    from: Stored<'_>,
    at: usize,
    entries: &[u16],
) -> Result<(), AllocError>
    requires within { at + 2 * length entries.now ≤ length from.segment.now }
    ensures text { OnOk result (string_bytes text.new ≡ string_bytes text.old ++ listed_lines from.entry.slot
        (stored_entries from.entry.segment.now from.entry.procedure at (reverse entries.now))) }
{
    let count = entries.len();
    for done in 0..count {
        let label = Label(usize::from(entries[count - 1 - done]));
        push_front(text, from, at + 2 * done, 2)?;
        writeln!(text, ".JUMP {label}")?;
    }
    Ok(())
}

/// Appends the lines of a procedure whose exit code is not before its code, from its attribute table.
fn list_shown<'a>(
    alloc: Global,
    text: &mut String,
    from: Stored<'a>,
    decoded: &Decoded<'a>,
    a: &Attributes,
) -> Result<(), AllocError>
    requires table { IsTable from.segment.now a.now }
    requires decoded { IsDecoded decoded.now from.segment.now }
    requires short { length from.segment.now ≤ 65534 }
    requires order { a.now.enter ≤ a.now.exit }
    requires number { from.procedure ≡ a.now.procedure }
    ensures text { OnOk result (string_bytes text.new ≡ string_bytes text.old ++ listed_lines from.entry.slot
        (stored_procedure from.entry.segment.now a.now (procedure_of from.entry.segment.now a.now))) }
{
    let shown = shown_code(alloc, from.segment, decoded, a)?;
    let end = shown.reading.end;
    list_code(alloc, text, from, &shown.reading.code, shown.allowed, end)?;
    list_entries(text, from, end, entries_of(&shown.reading.forced))?;
    push_front(text, from, usize::from(a.jtab) - 8, 10)?;
    writeln!(text, ".ATTR")?;
    Ok(())
}

/// Appends the listing of the procedure of `segment` that has the given attribute table.
fn list_table<'a>(
    alloc: Global,
    text: &mut String,
    segment: &'a [u8],
    slot: u8,
    decoded: &Decoded<'a>,
    a: &Attributes,
) -> Result<(), AllocError>
    requires table { IsTable segment.now a.now }
    requires decoded { IsDecoded decoded.now segment.now }
    requires short { length segment.now ≤ 65534 }
    ensures text { OnOk result (string_bytes text.new
        ≡ string_bytes text.old ++ table_listing slot segment.now a.now) }
{
    let procedure = a.procedure;
    if a.exit < a.enter {
        writeln!(text, "; procedure {procedure}")?;
        return Ok(());
    }
    let from = Stored {
        segment,
        slot,
        procedure,
    };
    list_shown(alloc, text, from, decoded, a)
}

/// Appends the listing of the procedure that has the given attribute table, and stores this listing. If the same table
/// was listed before, the stored listing is copied.
fn list_table_once<'a>(
    alloc: Global,
    text: &mut String,
    segment: &'a [u8],
    slot: u8,
    decoded: &Decoded<'a>,
    listed: &mut Vec<ShownTable>,
    a: Attributes,
) -> Result<(), AllocError>
    requires table { IsTable segment.now a }
    requires decoded { IsDecoded decoded.now segment.now }
    requires short { length segment.now ≤ 65534 }
    requires listed { AllByRecursion (λ s. string_bytes s.text ≡ table_listing slot segment.now s.table)
        listed.old.items }
    ensures text { OnOk result (string_bytes text.new ≡ string_bytes text.old ++ table_listing slot segment.now a) }
    ensures listed { OnOk result (AllByRecursion (λ s. string_bytes s.text ≡ table_listing slot segment.now s.table)
        listed.new.items) }
{
    if let Some(known) = text_of(listed, &a) {
        text.push_str(known)?;
        return Ok(());
    }
    let mut own = String::new(alloc);
    list_table(alloc, &mut own, segment, slot, decoded, &a)?;
    text.push_str(own.as_str())?;
    listed.push(ShownTable {
        table: a,
        text: own,
    })?;
    Ok(())
}

/// Appends the lines of all procedures of `segment`, which is in slot `slot`.
fn list_tables(alloc: Global, text: &mut String, segment: &[u8], slot: u8) -> Result<(), AllocError>
    requires even { length segment.now % 2 ≡ 0 }
    requires short { length segment.now ≤ 65534 }
    ensures text { OnOk result (string_bytes text.new
        ≡ string_bytes text.old ++ tables_listing slot segment.now 1 (procedures_in segment.now)) }
{
    let decoded = decode_segment(alloc, segment)?;
    let mut listed = Vec::new(alloc);
    for done in 0..procedures(segment) {
        let number = done + 1;
        match attributes(segment, number) {
            Some(a) => list_table_once(alloc, text, segment, slot, &decoded, &mut listed, a)?,
            None => writeln!(text, "; procedure {number}")?,
        }
    }
    Ok(())
}

/// Appends the line of the dictionary of `segment`, including its highest word.
fn list_dictionary(text: &mut String, segment: &[u8], slot: u8) -> Result<(), AllocError>
    ensures text { OnOk result (string_bytes text.new
        ≡ string_bytes text.old ++ listed_line slot (stored_dictionary segment.now)) }
{
    let at = segment
        .len()
        .saturating_sub(2 + 2 * usize::from(procedures(segment)));
    let from = Stored {
        segment,
        slot,
        procedure: 0,
    };
    push_front(text, from, at, segment.len() - at)?;
    writeln!(text, ".DICT")?;
    Ok(())
}

/// Appends the lines of the segment in slot `n` of `file`. Appends nothing if the slot has no segment.
fn list_slot(alloc: Global, text: &mut String, file: &CodeFile<'_>, n: u8) -> Result<(), AllocError>
    requires slot { n < 16 }
    ensures text { OnOk result (string_bytes text.new
        ≡ string_bytes text.old ++ slot_listing n (segment_in file.now n)) }
{
    let Some(segment) = file.segment(n) else {
        return Ok(());
    };
    list_tables(alloc, text, segment, n)?;
    list_dictionary(text, segment, n)
}

/// Returns the lines of one procedure in [`listing`]. `decoded` must be the result of `decode_segment` for `segment`.
/// So a caller that writes the procedures of a segment one after another decodes the segment only once, and needs
/// memory for one text at a time.
///
/// # Errors
///
/// `AllocError` if memory runs out.
pub fn procedure_listing<'a>(
    alloc: Global,
    segment: &'a [u8],
    slot: u8,
    decoded: &Decoded<'a>,
    attributes: &Attributes,
) -> Result<String, AllocError>
    requires short { length segment.now ≤ 65534 }
    requires of_segment { (p : ℕ) × (attributes_in segment.now p ≡ Some attributes.now) }
    requires decoded { IsDecoded decoded.now segment.now }
    ensures text { IfOk result (λ text. string_bytes text ≡ table_listing slot segment.now attributes.now) }
{
    let mut text = String::new(alloc);
    list_table(alloc, &mut text, segment, slot, decoded, attributes)?;
    Ok(text)
}

/// Returns the line of the dictionary of `segment`, including its highest word, as in [`listing`].
///
/// # Errors
///
/// `AllocError` if memory runs out.
pub fn dictionary_line(alloc: Global, segment: &[u8], slot: u8) -> Result<String, AllocError>
    ensures text { IfOk result (λ text. string_bytes text ≡ listed_line slot (stored_dictionary segment.now)) }
{
    let mut text = String::new(alloc);
    list_dictionary(&mut text, segment, slot)?;
    Ok(text)
}

/// Returns the listing of a code file. The segments are in ascending order of their slots. Each segment has its
/// procedures in the order of its dictionary, followed by the dictionary.
///
/// A line has the slot in two digits, the number in the procedure's table in three, the offset in the segment in five,
/// the bytes, and their description. The descriptions are:
///
/// - An item, as `file` shows it.
/// - `.JUMP label`: an entry of a jump table. The last entry comes first.
/// - `.ATTR`: the attributes of a procedure.
/// - `.DICT`: the dictionary and the highest word. The procedure number is 000.
///
/// A procedure that `file` shows as a comment is shown as the same comment here.
#[tactic(auto, unfolding(crate::specs::Listing::file_listing))]
pub fn listing(alloc: Global, file: &CodeFile<'_>) -> Result<String, AllocError>
    ensures text { IfOk result (λ text. string_bytes text ≡ file_listing file.now) }
{
    let mut text = String::new(alloc);
    for n in 0..16 {
        list_slot(alloc, &mut text, file, n)?;
    }
    Ok(text)
}
