//! Converts the labels in code to offsets. Each use of a label is looked up once.

ghost use Rattle.std.specs.Prelude.{◌≡◌, ◌≢◌, ◌+◌, ◌++◌, [], Err, IfOk, IfErr, IfSome, None, OnOk, map};
ghost use Rattle.pm_code.specs.Item.{table_place};
ghost use Rattle.pm_code.specs.Item.Item.{Case, Jump};
ghost use Rattle.pm_code.specs.Program.{end_of};
ghost use Rattle.pm_code.specs.Views.{placed_item};
ghost use Rattle.pm_line.specs.Views.{labelled_item, labelled_target, row_seen, texts_seen};
ghost use Rattle.pm_source.specs.declared.fault.AsmFault.TheVariants.{NoMemory};
ghost use Rattle.pm_source.specs.Faults.{code_faults, entries_faults, item_faults, items_faults};
ghost use Rattle.pm_source.specs.Meaning.{found_item, found_label};
ghost use Rattle.pm_source.specs.Source.{row_items};
ghost use Rattle.pm_reader.specs.Firsts.{IsFirstOf};
ghost use Rattle.pm_reader.specs.Reader.{IsCountless};
ghost use Rattle.pm_reader.specs.Views.{entry_seen};
ghost use Rattle.pm_asm.specs.Firsts.{places_in, row_faults};
ghost use Rattle.pm_asm.specs.Found.{items_in};

use crate::code::Code;
use crate::labels::{check_near, resolve_label, resolve_labels, resolve_target};
use pm_code::{Item, Target};
use pm_line::Row;
use pm_reader::{Entry, row_end};
use pm_source::AsmFault;
use std::alloc::Global;
use std::slice::from_ref;

/// Returns the offset of the table of a case jump at offset `at`. The opcode, the padding and three words precede the
/// table. Returns `None` only if the offset exceeds `usize::MAX`.
fn table_place(at: usize) -> Option<usize>
    ensures place { IfSome result (λ place. place ≡ table_place at) }
    ensures too_long { result ≡ None → IsCountless (table_place at) }
{
    if at % 2 == 1 {
        at.checked_add(7)
    } else {
        at.checked_add(8)
    }
}

/// Returns a case jump with its labels converted to offsets. `place` is the number of its line and the offset of the
/// instruction.
#[tactic(auto, using(crate::proofs::Lookups::far_is))]
fn resolve_case<'a>(
    alloc: Global,
    code: &Code<'_, 'a>,
    place: (usize, usize),
    bounds: (u16, u16),
    target: Target<&'a [u8]>,
    names: &[&'a [u8]],
) -> Result<Item<usize>, AsmFault>
    ensures faultless { OnOk result (item_faults (places_in code.now) place.0 place.1
        (Case bounds.0 bounds.1 (labelled_target target.entry) (texts_seen names.now)) ≡ []) }
    ensures found { IfOk result (λ item. placed_item item ≡ found_item (places_in code.now)
        (Case bounds.0 bounds.1 (labelled_target target.entry) (texts_seen names.now))) }
    ensures refusal { IfErr result (λ fault. IsFirstOf fault (item_faults (places_in code.now) place.0 place.1
        (Case bounds.0 bounds.1 (labelled_target target.entry) (texts_seen names.now)))) }
{
    let (line, at) = place;
    let next = table_place(at).ok_or(AsmFault::NoMemory)?;
    let otherwise = resolve_target(code, line, target)?;
    let places = resolve_labels(alloc, code, line, names)?;
    check_near(line, next, otherwise)?;
    Ok(Item::Case {
        low: bounds.0,
        high: bounds.1,
        otherwise,
        places,
    })
}

/// Returns a short jump with its label converted to an offset. `place` is the number of its line and the offset of the
/// instruction.
#[tactic(auto, using(crate::proofs::Lookups::far_is))]
fn resolve_jump<'a>(
    code: &Code<'_, 'a>,
    place: (usize, usize),
    opcode: u8,
    target: Target<&'a [u8]>,
) -> Result<Item<usize>, AsmFault>
    ensures faultless { OnOk result (item_faults (places_in code.now) place.0 place.1
        (Jump opcode (labelled_target target.entry)) ≡ []) }
    ensures found { IfOk result (λ item. placed_item item ≡ found_item (places_in code.now)
        (Jump opcode (labelled_target target.entry))) }
    ensures refusal { IfErr result (λ fault. IsFirstOf fault (item_faults (places_in code.now) place.0 place.1
        (Jump opcode (labelled_target target.entry)))) }
    ensures too_long { result ≡ Err NoMemory → IsCountless (place.1 + 2) }
{
    let (line, at) = place;
    let next = at.checked_add(2).ok_or(AsmFault::NoMemory)?;
    let found = resolve_target(code, line, target)?;
    check_near(line, next, found)?;
    Ok(Item::Jump(opcode, found))
}

/// Returns an item, which is at offset `at`, with its labels converted to offsets. The error is the first of its faults
/// (`NoLabel` or `Far`), or `NoMemory`.
fn resolve_item<'a>(
    alloc: Global,
    code: &Code<'_, 'a>,
    line: usize,
    at: usize,
    item: &Item<&'a [u8]>,
) -> Result<Item<usize>, AsmFault>
    ensures faultless { OnOk result (item_faults (places_in code.now) line at (labelled_item item.now) ≡ []) }
    ensures found { IfOk result (λ found. placed_item found
        ≡ found_item (places_in code.now) (labelled_item item.now)) }
    ensures refusal { IfErr result (λ fault. IsFirstOf fault
        (item_faults (places_in code.now) line at (labelled_item item.now))) }
{
    match item {
        Item::Plain(instr, named) => {
            let mut copy = Vec::new(alloc);
            copy.extend_from_slice(named)
                .map_err(|_| AsmFault::NoMemory)?;
            Ok(Item::Plain(*instr, copy))
        }
        Item::Jump(opcode, target) => resolve_jump(code, (line, at), *opcode, *target),
        Item::Case {
            low,
            high,
            otherwise,
            places,
        } => resolve_case(alloc, code, (line, at), (*low, *high), *otherwise, places),
        Item::OneByte(byte) => Ok(Item::OneByte(*byte)),
    }
}

/// Appends the items of a line, with their labels converted to offsets. `start` is the offset of the first item. The
/// error is the first of their faults, or `NoMemory`.
#[tactic(auto, using(pm_reader::proofs::Firsts::first_front))]
fn resolve_items<'a>(
    alloc: Global,
    code: &Code<'_, 'a>,
    line: usize,
    start: usize,
    items: &[Item<&'a [u8]>],
    out: &mut Vec<Item<usize>>,
) -> Result<(), AsmFault>
    ensures faultless { OnOk result (items_faults (places_in code.now) line start (map labelled_item items.now) ≡ []) }
    ensures found { OnOk result (map placed_item out.new.items ≡ map placed_item out.old.items
        ++ map (found_item (places_in code.now)) (map labelled_item items.now)) }
    ensures refusal { IfErr result (λ fault. IsFirstOf fault
        (items_faults (places_in code.now) line start (map labelled_item items.now))) }
{
    let mut at = start;
    for item in items {
        let found = resolve_item(alloc, code, line, at, item)?;
        out.push(found).map_err(|_| AsmFault::NoMemory)?;
        let size = item.size(at).ok_or(AsmFault::NoMemory)?;
        at = at.checked_add(size).ok_or(AsmFault::NoMemory)?;
    }
    Ok(())
}

/// Appends the items of the line `row`, which begins at offset `at`, with their labels converted to offsets. The error
/// is the first of their faults, or `NoMemory`.
pub(crate) fn resolve_row<'a>(
    alloc: Global,
    code: &Code<'_, 'a>,
    at: usize,
    row: &Row<'a>,
    out: &mut Vec<Item<usize>>,
) -> Result<(), AsmFault>
    ensures faultless { OnOk result (row_faults (places_in code.now) at (row_seen row.now) ≡ []) }
    ensures found { OnOk result (map placed_item out.new.items ≡ map placed_item out.old.items
        ++ map (found_item (places_in code.now)) (row_items (row_seen row.now))) }
    ensures refusal { IfErr result (λ fault. IsFirstOf fault (row_faults (places_in code.now) at (row_seen row.now))) }
{
    match row {
        Row::One { line, item, .. } => resolve_items(alloc, code, *line, at, from_ref(item), out),
        Row::Items { line, items, .. } => resolve_items(alloc, code, *line, at, items, out),
        Row::Exit => Ok(()),
    }
}

/// Returns the items of `code`, with their labels converted to offsets. The error is the first of their faults, or
/// `NoMemory`.
#[tactic(auto, using(pm_reader::proofs::Firsts::first_front, crate::proofs::Firsts::row_first))]
pub(crate) fn resolve_code(alloc: Global, code: &Code<'_, '_>) -> Result<Vec<Item<usize>>, AsmFault>
    ensures faultless { OnOk result (code_faults (places_in code.now) code.now.start (map row_seen code.now.rows.now)
        ≡ []) }
    ensures found { IfOk result (λ items. map placed_item items.items ≡ items_in code.now) }
    ensures refusal { IfErr result (λ fault. IsFirstOf fault
        (code_faults (places_in code.now) code.now.start (map row_seen code.now.rows.now))) }
{
    let mut items = Vec::new(alloc);
    let mut at = code.start;
    for row in code.rows {
        resolve_row(alloc, code, at, row, &mut items)?;
        at = row_end(at, row).ok_or(AsmFault::NoMemory)?;
    }
    Ok(items)
}

/// Returns the offset of the label of each jump table entry in `entries`. The error is `NoLabel` for the first entry
/// whose label is unknown, or `NoMemory`.
#[tactic(auto, using(pm_reader::proofs::Firsts::first_front))]
pub(crate) fn resolve_entries<'a>(
    alloc: Global,
    code: &Code<'_, 'a>,
    entries: &[Entry<'a>],
) -> Result<Vec<usize>, AsmFault>
    ensures faultless { OnOk result (entries_faults (places_in code.now) (map entry_seen entries.now) ≡ []) }
    ensures found { IfOk result (λ places. places.items
        ≡ map (λ e. found_label (places_in code.now) e.1) (map entry_seen entries.now)) }
    ensures refusal { IfErr result (λ fault. IsFirstOf fault
        (entries_faults (places_in code.now) (map entry_seen entries.now))) }
{
    let mut places = Vec::new(alloc);
    for entry in entries {
        let place = resolve_label(code, entry.line, entry.label)?;
        places.push(place).map_err(|_| AsmFault::NoMemory)?;
    }
    Ok(places)
}
