//! The listing of a program. Each function `list_..` appends two things. It appends the bytes of its argument to
//! `bytes`, the bytes of the segment from offset 0. It appends the lines of its argument to `text`.

ghost use Rattle.std.specs.Prelude.{◌≡◌, ◌<◌, ◌≤◌, ◌+◌, ◌*◌, ◌++◌, ◌∷◌, [], List, ℕ, Some, codes};
ghost use Rattle.std.specs.Prelude.{length, map, reverse, string_bytes, IfOk, OnOk};
ghost use Rattle.std.specs.List.{AllByRecursion};
ghost use Rattle.pm_code.specs.Image.{Listed, listed_attributes, listed_dictionary, listed_entries, listed_items};
ghost use Rattle.pm_code.specs.Image.{listed_line, listed_lines, listed_procedure, listed_procedures, listed_segment};
ghost use Rattle.pm_code.specs.Image.{listing, pairs_text, upper_digit};
ghost use Rattle.pm_code.specs.Item.{IsItem, item_bytes};
ghost use Rattle.pm_code.specs.Program.{AreItems, FitSlots, FollowFrom, IsProcedure, IsProgram, IsSegment};
ghost use Rattle.pm_code.specs.Program.{attribute_bytes, back_to, code_bytes, dictionary_bytes, entry_bytes};
ghost use Rattle.pm_code.specs.Program.{jtab_of, procedure_bytes, procedures_bytes, procedures_end, segment_bytes};
ghost use Rattle.pm_code.specs.Shown.{entry_line, padded, shown_item};
ghost use Rattle.pm_code.specs.Views.{placed_item, procedure_seen, program_seen, segment_seen};

use crate::bytes::{push_attributes, push_dictionary, push_distance, push_item};
use crate::item::Item;
use crate::numbers::{FiveDigits, ThreeDigits};
use crate::program::{Procedure, Segment};
use crate::shown::Label;
use std::alloc::{AllocError, Global};
use std::fmt::{self, Write};

/// The numbers at the start of a line of a listing.
#[derive(Clone, Copy)]
struct Place {
    /// The number of the segment.
    segment: u8,
    /// The number of the procedure.
    procedure: u8,
}

/// The number of a segment, shown in at least two digits.
#[derive(Clone, Copy)]
struct SegmentNumber(u8);

impl fmt::Display for SegmentNumber {
    ghost output = { λ n. Some (padded 2 n.0) };

    #[tactic(auto, using(crate::proofs::Digits::padded_written))]
    fn fmt<W: fmt::Write>(&self, f: &mut fmt::Formatter<W>) -> fmt::Result {
        let number = self.0;
        write!(f, "{number:02}")
    }
}

/// Returns the character of the hexadecimal digit `value`, which is below 16. Letters are capitals.
fn upper_digit(value: u8) -> u8
    requires digit { value < 16 }
    ensures digit { result ≡ upper_digit value }
    ensures ascii { result < 128 }
{
    if value < 10 { 48 + value } else { 55 + value }
}

/// Appends `byte` to `text` as a space and two hexadecimal digits.
fn push_pair(text: &mut String, byte: u8) -> Result<(), AllocError>
    ensures text { OnOk result (string_bytes text.new ≡ string_bytes text.old ++ pairs_text (byte ∷ [])) }
{
    text.push(' ')?;
    text.push(char::from(upper_digit(byte / 16)))?;
    text.push(char::from(upper_digit(byte % 16)))?;
    Ok(())
}

/// Appends `bytes` to `text`, each as a space and two hexadecimal digits.
fn push_pairs(text: &mut String, bytes: &[u8]) -> Result<(), AllocError>
    ensures text { OnOk result (string_bytes text.new ≡ string_bytes text.old ++ pairs_text bytes.now) }
{
    for byte in bytes {
        push_pair(text, *byte)?;
    }
    Ok(())
}

/// Appends the part of a line before its description: the numbers in `place`, then `offset`, then `bytes`.
fn push_front(
    text: &mut String,
    place: Place,
    offset: usize,
    bytes: &[u8],
) -> Result<(), AllocError>
    ensures text { OnOk result ((what : List ℕ) → string_bytes text.new ++ (what ++ (10 ∷ []))
        ≡ string_bytes text.old ++ listed_line place.segment (record {
          procedure = place.procedure;
          at = offset;
          bytes = bytes.now;
          what = what;
        })) }
{
    let segment = SegmentNumber(place.segment);
    let procedure = ThreeDigits(usize::from(place.procedure));
    let at = FiveDigits(offset);
    write!(text, "{segment} {procedure} {at}")?;
    push_pairs(text, bytes)?;
    write!(text, "  ")?;
    Ok(())
}

/// Appends the bytes of `item` to `bytes`, and its line to `text`.
fn list_item(
    text: &mut String,
    bytes: &mut Vec<u8>,
    place: Place,
    item: &Item<usize>,
) -> Result<(), AllocError>
    requires item { IsItem (length bytes.old.items) (placed_item item.now) }
    ensures bytes { OnOk result (bytes.new.items ≡ bytes.old.items
        ++ item_bytes (length bytes.old.items) (placed_item item.now)) }
    ensures text { OnOk result (string_bytes text.new ≡ string_bytes text.old ++ listed_line place.segment (record {
      procedure = place.procedure;
      at = length bytes.old.items;
      bytes = item_bytes (length bytes.old.items) (placed_item item.now);
      what = shown_item (placed_item item.now);
    })) }
{
    let at = bytes.len();
    push_item(bytes, item)?;
    push_front(text, place, at, &bytes[at..])?;
    writeln!(text, "{item}")?;
    Ok(())
}

/// Appends the bytes of `items` to `bytes`, and one line for each item to `text`.
fn list_code(
    text: &mut String,
    bytes: &mut Vec<u8>,
    place: Place,
    items: &[Item<usize>],
) -> Result<(), AllocError>
    requires items { AreItems (length bytes.old.items) (map placed_item items.now) }
    ensures bytes { OnOk result (bytes.new.items ≡ bytes.old.items
        ++ code_bytes (length bytes.old.items) (map placed_item items.now)) }
    ensures text { OnOk result ((rest : List Listed) → string_bytes text.new ++ listed_lines place.segment rest
        ≡ string_bytes text.old ++ listed_lines place.segment
        (listed_items place.procedure (length bytes.old.items) (map placed_item items.now) ++ rest)) }
{
    for item in items {
        list_item(text, bytes, place, item)?;
    }
    Ok(())
}

/// Appends a jump table entry that leads to offset `leads` to `bytes`, and its line to `text`.
fn list_entry(
    text: &mut String,
    bytes: &mut Vec<u8>,
    place: Place,
    leads: usize,
) -> Result<(), AllocError>
    requires short { length bytes.old.items < 65536 }
    ensures bytes { OnOk result (bytes.new.items ≡ bytes.old.items ++ back_to (length bytes.old.items) leads) }
    ensures text { OnOk result (string_bytes text.new ≡ string_bytes text.old ++ listed_line place.segment (record {
      procedure = place.procedure;
      at = length bytes.old.items;
      bytes = back_to (length bytes.old.items) leads;
      what = entry_line leads;
    })) }
{
    let at = bytes.len();
    let label = Label(leads);
    push_distance(bytes, leads)?;
    push_front(text, place, at, &bytes[at..])?;
    writeln!(text, ".JUMP {label}")?;
    Ok(())
}

/// Appends a jump table, whose `entries` are offsets, to `bytes`, and its lines to `text`. The last entry comes first.
fn list_entries(
    text: &mut String,
    bytes: &mut Vec<u8>,
    place: Place,
    entries: &[usize],
) -> Result<(), AllocError>
    requires short { length bytes.old.items + 2 * length entries.now ≤ 65536 }
    ensures bytes { OnOk result (bytes.new.items ≡ bytes.old.items
        ++ entry_bytes (length bytes.old.items) (reverse entries.now)) }
    ensures text { OnOk result ((rest : List Listed) → string_bytes text.new ++ listed_lines place.segment rest
        ≡ string_bytes text.old ++ listed_lines place.segment
        (listed_entries place.procedure (length bytes.old.items) (reverse entries.now) ++ rest)) }
{
    let count = entries.len();
    for done in 0..count {
        list_entry(text, bytes, place, entries[count - 1 - done])?;
    }
    Ok(())
}

/// Appends the attributes of `procedure` to `bytes`, and their line to `text`.
fn list_attributes(
    text: &mut String,
    bytes: &mut Vec<u8>,
    place: Place,
    procedure: &Procedure,
) -> Result<(), AllocError>
    requires there { jtab_of (procedure_seen procedure.now) ≡ length bytes.old.items + 8 }
    requires short { length bytes.old.items + 8 < 65536 }
    ensures bytes { OnOk result (bytes.new.items ≡ bytes.old.items
        ++ attribute_bytes place.procedure (procedure_seen procedure.now)) }
    ensures text { OnOk result (string_bytes text.new ≡ string_bytes text.old
        ++ listed_line place.segment (listed_attributes place.procedure (procedure_seen procedure.now))) }
{
    let at = bytes.len();
    push_attributes(bytes, place.procedure, procedure)?;
    push_front(text, place, at, &bytes[at..])?;
    writeln!(text, ".ATTR")?;
    Ok(())
}

/// Appends the bytes of `procedure` to `bytes`, and its lines to `text`.
fn list_procedure(
    text: &mut String,
    bytes: &mut Vec<u8>,
    place: Place,
    procedure: &Procedure,
) -> Result<(), AllocError>
    requires procedure { IsProcedure (procedure_seen procedure.now) }
    requires start { procedure.now.start ≡ length bytes.old.items }
    requires short { jtab_of (procedure_seen procedure.now) ≤ 65534 }
    ensures bytes { OnOk result (bytes.new.items ≡ bytes.old.items
        ++ procedure_bytes place.procedure (procedure_seen procedure.now)) }
    ensures text { OnOk result ((rest : List Listed) → string_bytes text.new ++ listed_lines place.segment rest
        ≡ string_bytes text.old ++ listed_lines place.segment
        (listed_procedure place.procedure (procedure_seen procedure.now) rest)) }
{
    list_code(text, bytes, place, &procedure.items)?;
    list_entries(text, bytes, place, &procedure.entries)?;
    list_attributes(text, bytes, place, procedure)
}

/// Appends the bytes of `procedures`, numbered from 1, to `bytes`, and their lines to `text`. Returns the offset of the
/// highest word of each procedure's attribute table.
fn list_procedures(
    alloc: Global,
    text: &mut String,
    bytes: &mut Vec<u8>,
    segment: u8,
    procedures: &[Procedure],
) -> Result<Vec<usize>, AllocError>
    requires procedures { AllByRecursion IsProcedure (map procedure_seen procedures.now) }
    requires follow { FollowFrom (length bytes.old.items) (map procedure_seen procedures.now) }
    requires short { procedures_end (length bytes.old.items) (map procedure_seen procedures.now) ≤ 65534 }
    requires few { length procedures.now < 256 }
    ensures bytes { OnOk result (bytes.new.items ≡ bytes.old.items
        ++ procedures_bytes 1 (map procedure_seen procedures.now)) }
    ensures tables { IfOk result (λ tables. tables.items ≡ map jtab_of (map procedure_seen procedures.now)) }
    ensures text { OnOk result ((rest : List Listed) → string_bytes text.new ++ listed_lines segment rest
        ≡ string_bytes text.old ++ listed_lines segment
        (listed_procedures 1 (map procedure_seen procedures.now) rest)) }
{
    let mut tables = Vec::new(alloc);
    for done in 0..procedures.len() {
        let place = Place {
            segment,
            procedure: (done + 1) as u8,
        };
        list_procedure(text, bytes, place, &procedures[done])?;
        tables.push(bytes.len() - 2)?;
    }
    Ok(tables)
}

/// Appends the lines of `segment` to `text`.
fn list_segment(alloc: Global, text: &mut String, segment: &Segment) -> Result<(), AllocError>
    requires segment { IsSegment (segment_seen segment.now) }
    requires short { length (segment_bytes (segment_seen segment.now)) ≤ 65534 }
    ensures text { OnOk result (string_bytes text.new
        ≡ string_bytes text.old ++ listed_lines segment.now.number (listed_segment (segment_seen segment.now))) }
{
    let mut bytes = Vec::new(alloc);
    let number = segment.number;
    let tables = list_procedures(alloc, text, &mut bytes, number, &segment.procedures)?;
    let at = bytes.len();
    push_dictionary(&mut bytes, number, &tables)?;
    let place = Place {
        segment: number,
        procedure: 0,
    };
    push_front(text, place, at, &bytes[at..])?;
    writeln!(text, ".DICT")?;
    Ok(())
}

/// Returns the listing of `program`. No segment may have more than 65,534 bytes. The listing has a line for each item,
/// each jump table entry, the attributes of each procedure, and the dictionary of each segment.
///
/// # Errors
///
/// `AllocError`: memory was refused.
pub fn listing_of(alloc: Global, program: &[Segment]) -> Result<String, AllocError>
    requires program { IsProgram (program_seen program.now) }
    requires fit { FitSlots (program_seen program.now) }
    ensures text { IfOk result (λ text. string_bytes text ≡ listing (program_seen program.now)) }
{
    let mut text = String::new(alloc);
    for segment in program {
        list_segment(alloc, &mut text, segment)?;
    }
    Ok(text)
}
