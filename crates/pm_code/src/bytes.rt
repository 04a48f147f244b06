//! The bytes of code. Each function `push_..` appends to `out`, which contains the bytes of a segment from offset 0. So
//! the length of `out` is the offset of the bytes that are appended.

ghost use Rattle.std.specs.Prelude.{◌≡◌, ◌<◌, ◌≤◌, ◌+◌, ◌*◌, ◌++◌, ◌∷◌, [], length, map, reverse, IfOk, OnOk};
ghost use Rattle.std.specs.List.{AllByRecursion};
ghost use Rattle.pm_opcode.specs.Spelling.{flip, is_odd, pad_byte, spelled_word};
ghost use Rattle.pm_code.specs.Item.{IsCase, IsItem, IsNear, IsPlain, item_bytes, jump_byte, table_words};
ghost use Rattle.pm_code.specs.Item.Item.{Case, Plain};
ghost use Rattle.pm_code.specs.Program.{AreItems, FollowFrom, IsProcedure, IsSegment, attribute_bytes, back_to};
ghost use Rattle.pm_code.specs.Program.{code_bytes, entry_bytes, jtab_of, procedure_bytes, procedures_bytes};
ghost use Rattle.pm_code.specs.Program.{procedures_end, segment_bytes};
ghost use Rattle.pm_code.specs.Views.{placed_item, placed_target, procedure_seen, segment_seen};

use crate::item::{Item, Target};
use crate::opcodes::{CASE_JUMP, JUMP};
use crate::program::{Procedure, Segment};
use pm_opcode::{Encode, Instr, encode};
use std::alloc::{AllocError, Global};

/// Appends the word `value` to `out`, low byte first.
fn push_word(out: &mut Vec<u8>, value: u16) -> Result<(), AllocError>
    ensures bytes { OnOk result (out.new.items ≡ out.old.items ++ spelled_word value) }
{
    out.push((value % 256) as u8)?;
    out.push((value / 256) as u8)?;
    Ok(())
}

/// Appends the padding of a case jump whose opcode is at offset `at`: a byte 0 if `at` is even, else nothing.
fn push_padding(out: &mut Vec<u8>, at: usize) -> Result<(), AllocError>
    ensures bytes { OnOk result (out.new.items ≡ out.old.items ++ pad_byte (flip (is_odd at)) 0) }
{
    if at % 2 == 0 {
        out.push(0)?;
    }
    Ok(())
}

/// Returns the operand byte of a short jump to `target`. The byte counts the distance from offset `next`, the offset
/// after the jump.
fn jump_byte(next: usize, target: Target<usize>) -> u8
    requires near { IsNear next (placed_target target) }
    ensures byte { result ≡ jump_byte next (placed_target target) }
{
    match target {
        Target::To(place) => (place - next) as u8,
        Target::Through(entry) => 246 - 2 * entry,
    }
}

/// Appends the table of a case jump with the targets `places`. Each word of the table is the distance from the word
/// itself down to one of these offsets, modulo 65,536.
fn push_table(out: &mut Vec<u8>, places: &[usize]) -> Result<(), AllocError>
    requires within { AllByRecursion (λ place. place < 65536) places.now }
    ensures bytes { OnOk result (out.new.items ≡ out.old.items ++ table_words (length out.old.items) places.now) }
{
    for place in places {
        let distance = (out.len() + 65536 - *place) % 65536;
        push_word(out, distance as u16)?;
    }
    Ok(())
}

/// Appends a case jump: its opcode, its padding, its two `bounds`, a short jump and a table. The short jump leads to
/// `otherwise`, the target for values out of bounds. The table has the targets `places`.
fn push_case(
    out: &mut Vec<u8>,
    bounds: (u16, u16),
    otherwise: Target<usize>,
    places: &[usize],
) -> Result<(), AllocError>
    requires case { IsCase (length out.old.items) bounds.0 bounds.1 (placed_target otherwise) places.now }
    ensures bytes { OnOk result (out.new.items ≡ out.old.items ++ item_bytes (length out.old.items)
        (Case bounds.0 bounds.1 (placed_target otherwise) places.now)) }
{
    let at = out.len();
    out.push(CASE_JUMP)?;
    push_padding(out, at)?;
    push_word(out, bounds.0)?;
    push_word(out, bounds.1)?;
    let byte = jump_byte(out.len() + 2, otherwise);
    out.push(JUMP)?;
    out.push(byte)?;
    push_table(out, places)
}

/// Appends the instruction `instr`, which does not jump, with the bytes `named` that belong to it. The instruction has
/// an encoding, because `IsPlain` holds. So the only possible error is that memory was refused.
#[tactic(auto, using(crate::proofs::Spelled::plain_spelled))]
fn push_plain(out: &mut Vec<u8>, instr: &Instr, named: &[u8]) -> Result<(), AllocError>
    requires plain { IsPlain instr.now named.now }
    ensures bytes { OnOk result (out.new.items ≡ out.old.items
        ++ item_bytes (length out.old.items) (Plain instr.now named.now)) }
{
    let at = out.len();
    match encode(instr, named, at, out) {
        Ok(()) => Ok(()),
        Err(Encode::NoMemory) => Err(AllocError),
        Err(Encode::OutOfRange) => unreachable!(),
    }
}

/// Appends the bytes of `item`, which begins at the end of `out`.
pub(crate) fn push_item(out: &mut Vec<u8>, item: &Item<usize>) -> Result<(), AllocError>
    requires item { IsItem (length out.old.items) (placed_item item.now) }
    ensures bytes { OnOk result (out.new.items ≡ out.old.items
        ++ item_bytes (length out.old.items) (placed_item item.now)) }
{
    let at = out.len();
    match item {
        Item::Plain(instr, named) => push_plain(out, instr, named),
        Item::Jump(opcode, target) => {
            let byte = jump_byte(at + 2, *target);
            out.push(*opcode)?;
            out.push(byte)?;
            Ok(())
        }
        Item::Case {
            low,
            high,
            otherwise,
            places,
        } => push_case(out, (*low, *high), *otherwise, places),
        Item::OneByte(byte) => Ok(out.push(*byte)?),
    }
}

/// Appends the bytes of `items`, one item after the other.
fn push_code(out: &mut Vec<u8>, items: &[Item<usize>]) -> Result<(), AllocError>
    requires items { AreItems (length out.old.items) (map placed_item items.now) }
    ensures bytes { OnOk result (out.new.items ≡ out.old.items
        ++ code_bytes (length out.old.items) (map placed_item items.now)) }
{
    for item in items {
        push_item(out, item)?;
    }
    Ok(())
}

/// Appends a word with the distance from the offset of this word down to offset `place`.
pub(crate) fn push_distance(out: &mut Vec<u8>, place: usize) -> Result<(), AllocError>
    requires short { length out.old.items < 65536 }
    ensures bytes { OnOk result (out.new.items ≡ out.old.items ++ back_to (length out.old.items) place) }
{
    let distance = out.len().saturating_sub(place);
    push_word(out, distance as u16)
}

/// Appends a word for each offset of `places`, the last one first. Each word is the distance from its own offset down
/// to the offset in `places`.
pub(crate) fn push_distances(out: &mut Vec<u8>, places: &[usize]) -> Result<(), AllocError>
    requires short { length out.old.items + 2 * length places.now ≤ 65536 }
    ensures bytes { OnOk result (out.new.items ≡ out.old.items
        ++ entry_bytes (length out.old.items) (reverse places.now)) }
{
    let count = places.len();
    for done in 0..count {
        push_distance(out, places[count - 1 - done])?;
    }
    Ok(())
}

/// Appends the ten bytes of the attributes of `procedure`, which has the number `number` in its segment.
#[tactic(auto, using(crate::proofs::Pushed::attributes_pushed))]
pub(crate) fn push_attributes(
    out: &mut Vec<u8>,
    number: u8,
    procedure: &Procedure,
) -> Result<(), AllocError>
    requires there { jtab_of (procedure_seen procedure.now) ≡ length out.old.items + 8 }
    requires short { length out.old.items + 8 < 65536 }
    ensures bytes { OnOk result (out.new.items ≡ out.old.items
        ++ attribute_bytes number (procedure_seen procedure.now)) }
{
    push_word(out, procedure.locals)?;
    push_word(out, procedure.parameters)?;
    push_distance(out, procedure.exit)?;
    push_distance(out, procedure.start)?;
    out.push(number)?;
    out.push(procedure.level)?;
    Ok(())
}

/// Appends `procedure`, which has the number `number` in its segment: its code, its jump table and its attributes.
fn push_procedure(out: &mut Vec<u8>, number: u8, procedure: &Procedure) -> Result<(), AllocError>
    requires procedure { IsProcedure (procedure_seen procedure.now) }
    requires start { procedure.now.start ≡ length out.old.items }
    requires short { jtab_of (procedure_seen procedure.now) ≤ 65534 }
    ensures bytes { OnOk result (out.new.items ≡ out.old.items
        ++ procedure_bytes number (procedure_seen procedure.now)) }
{
    push_code(out, &procedure.items)?;
    push_distances(out, &procedure.entries)?;
    push_attributes(out, number, procedure)
}

/// Appends `procedures`, numbered from 1. Returns the offset of the highest word of each procedure's attribute table.
fn push_procedures(
    alloc: Global,
    out: &mut Vec<u8>,
    procedures: &[Procedure],
) -> Result<Vec<usize>, AllocError>
    requires procedures { AllByRecursion IsProcedure (map procedure_seen procedures.now) }
    requires follow { FollowFrom (length out.old.items) (map procedure_seen procedures.now) }
    requires short { procedures_end (length out.old.items) (map procedure_seen procedures.now) ≤ 65534 }
    requires few { length procedures.now < 256 }
    ensures bytes { OnOk result (out.new.items ≡ out.old.items
        ++ procedures_bytes 1 (map procedure_seen procedures.now)) }
    ensures tables { IfOk result (λ tables. tables.items ≡ map jtab_of (map procedure_seen procedures.now)) }
{
    let mut tables = Vec::new(alloc);
    for done in 0..procedures.len() {
        push_procedure(out, (done + 1) as u8, &procedures[done])?;
        tables.push(out.len() - 2)?;
    }
    Ok(tables)
}

/// Appends the dictionary of segment `number`, and the last word of the segment. The attribute tables of the procedures
/// are at the offsets `tables`. The last word has the number of the segment and the number of its procedures.
pub(crate) fn push_dictionary(
    out: &mut Vec<u8>,
    number: u8,
    tables: &[usize],
) -> Result<(), AllocError>
    requires few { length tables.now < 256 }
    requires short { length out.old.items + 2 * length tables.now ≤ 65536 }
    ensures bytes { OnOk result (out.new.items ≡ out.old.items
        ++ (entry_bytes (length out.old.items) (reverse tables.now) ++ number ∷ length tables.now ∷ [])) }
{
    push_distances(out, tables)?;
    out.push(number)?;
    out.push(tables.len() as u8)?;
    Ok(())
}

/// Returns the bytes of `segment`: its procedures, its dictionary, and its last word. The last word has the number of
/// the segment and the number of its procedures.
pub(crate) fn segment_bytes(alloc: Global, segment: &Segment) -> Result<Vec<u8>, AllocError>
    requires segment { IsSegment (segment_seen segment.now) }
    requires short { length (segment_bytes (segment_seen segment.now)) ≤ 65534 }
    ensures bytes { IfOk result (λ bytes. bytes.items ≡ segment_bytes (segment_seen segment.now)) }
{
    let mut bytes = Vec::new(alloc);
    let tables = push_procedures(alloc, &mut bytes, &segment.procedures)?;
    push_dictionary(&mut bytes, segment.number, &tables)?;
    Ok(bytes)
}
