//! The text of the code of one procedure as statements.

ghost use Rattle.std.specs.Prelude.{◌≡◌, ◌+◌, ◌++◌, ℕ, List, string_bytes, IfOk, OnOk};
ghost use Rattle.pm_code.specs.Item.{size};
ghost use Rattle.pm_code.specs.Program.{code_end};
ghost use Rattle.pm_code.specs.Views.{placed_item, procedure_seen};
ghost use Rattle.pm_statements.specs.Bodies as bodies;
ghost use Rattle.pm_statements.specs.Marks.{AreMarked};
ghost use Rattle.pm_trees.specs.Parts as parts;
ghost use Rattle.pm_statements.specs.Texts as texts;

use crate::block_labels::shown_labels;
use crate::block_lines::push_block_lines;
use crate::depths::depths_if;
use crate::leading::stretches;
use crate::lines::{push_place_lines, push_statements};
use crate::marks::{Marks, labels_of};
use pm_code::{Item, Procedure, items_end};
use pm_phrases::{Around, Phrase};
use pm_trees::{Known, Layout, Left, Line, Part, Pile, Place, blocks, part_of, statements};
use std::alloc::{AllocError, Global};

/// Returns the place at offset `at`: the offset, whether it has a label, and whether it is `exit`, the offset of the
/// exit code.
#[tactic(auto, using(crate::proofs::Marked::place_known))]
fn place_at(labels: &Marks, exit: usize, at: usize) -> Place
    ensures place { (used : List ℕ) → AreMarked labels.now used → result ≡ parts.place_at used exit at }
{
    Place {
        offset: at,
        has_label: labels.has(at),
        is_exit: exit == at,
    }
}

/// Returns the offset after `item`, which begins at offset `at`. The error occurs only if the offset does not fit in 64
/// bits.
pub(crate) fn behind(at: usize, item: &Item<usize>) -> Result<usize, AllocError>
    ensures behind { IfOk result (λ next. next ≡ at + size at (placed_item item.now)) }
{
    let Some(size) = item.size(at) else {
        return Err(AllocError);
    };
    match at.checked_add(size) {
        Some(next) => Ok(next),
        None => Err(AllocError),
    }
}

/// Returns the items of `procedure` as parts. A part is an item with its place, its role, and its effect on the stack.
/// `labels` are the offsets with a label.
fn parts_of<'a>(
    alloc: Global,
    known: &Known<'_>,
    labels: &Marks,
    procedure: &'a Procedure,
) -> Result<Vec<Part<'a>>, AllocError>
    requires labels { AreMarked labels.now (parts.labelled_places (procedure_seen procedure.now)) }
    ensures parts { IfOk result (λ ps. ps.items ≡ parts.procedure_parts known.now (procedure_seen procedure.now)) }
{
    let items = &procedure.items;
    let mut parts = Vec::with_capacity(alloc, items.len())?;
    let mut at = procedure.start;
    for item in items {
        let place = place_at(labels, procedure.exit, at);
        parts.push(part_of(known, item, place))?;
        at = behind(at, item)?;
    }
    Ok(parts)
}

/// Appends to `out` the lines for a label and for the exit code at `end`, the end of the code. `labels` are the offsets
/// with a label, and `exit` is the offset of the exit code.
fn push_end(out: &mut String, labels: &Marks, exit: usize, end: usize) -> Result<(), AllocError>
    ensures text { (used : List ℕ) → AreMarked labels.now used → OnOk result (string_bytes out.new
        ≡ string_bytes out.old ++ texts.place_lines (parts.place_at used exit end)) }
{
    push_place_lines(out, place_at(labels, exit, end))
}

/// Appends the statements of `procedure` without blocks. They are indented by their depth if `indented` is true.
#[tactic(auto, using(pm_phrases::proofs::Offsets::text_joined))]
fn push_flat(
    alloc: Global,
    out: &mut String,
    indented: bool,
    labels: &Marks,
    procedure: &Procedure,
    end: usize,
    statements: &Pile,
) -> Result<(), AllocError>
    requires end { end ≡ code_end (procedure_seen procedure.now) }
    requires labels { AreMarked labels.now (parts.labelled_places (procedure_seen procedure.now)) }
    ensures text { OnOk result (string_bytes out.new ≡ string_bytes out.old
        ++ bodies.flat indented (procedure_seen procedure.now) statements.now) }
{
    let depths = depths_if(alloc, indented, procedure, end)?;
    push_statements(out, &depths, statements)?;
    push_end(out, labels, procedure.exit, end)
}

/// Appends the statements `lefts` in blocks, as `lines` states. Only offsets that the text names have a label.
fn push_shown(
    alloc: Global,
    out: &mut String,
    procedure: &Procedure,
    end: usize,
    lines: &[Line],
    lefts: &[Left],
    phrases: &[Phrase],
) -> Result<(), AllocError>
    requires end { end ≡ code_end (procedure_seen procedure.now) }
    ensures text { OnOk result (string_bytes out.new ≡ string_bytes out.old
        ++ bodies.blocks_text (procedure_seen procedure.now) lines.now lefts.now phrases.now) }
{
    let labels = shown_labels(alloc, procedure, end, lines, lefts)?;
    push_block_lines(alloc, out, lines, &labels, lefts, phrases)?;
    push_end(out, &labels, procedure.exit, end)?;
    Ok(())
}

/// Appends the statements of `procedure` in blocks. If blocks cannot represent the jumps, the statements are appended
/// without blocks and without indentation.
#[tactic(auto, using(pm_trees::proofs::Ends::twice_reversed), unfolding(crate::specs::Bodies::body))]
fn push_blocks(
    alloc: Global,
    out: &mut String,
    labels: &Marks,
    procedure: &Procedure,
    end: usize,
    statements: &Pile,
) -> Result<(), AllocError>
    requires end { end ≡ code_end (procedure_seen procedure.now) }
    requires labels { AreMarked labels.now (parts.labelled_places (procedure_seen procedure.now)) }
    ensures text { OnOk result (string_bytes out.new ≡ string_bytes out.old
        ++ bodies.body Layout.Blocks (procedure_seen procedure.now) statements.now) }
{
    let (lefts, phrases) = (&statements.lefts, &statements.phrases);
    let (start, entries) = (procedure.start, &procedure.entries);
    let stretches = stretches(alloc, start, entries, end, lefts, phrases)?;
    match blocks(alloc, &stretches)? {
        Some(lines) => push_shown(alloc, out, procedure, end, &lines, lefts, phrases),
        None => push_flat(alloc, out, false, labels, procedure, end, statements),
    }
}

/// Appends the statements of `procedure` in the layout `layout`.
#[tactic(auto, unfolding(crate::specs::Bodies::body))]
fn push_body(
    alloc: Global,
    out: &mut String,
    layout: Layout,
    labels: &Marks,
    procedure: &Procedure,
    end: usize,
    statements: &Pile,
) -> Result<(), AllocError>
    requires end { end ≡ code_end (procedure_seen procedure.now) }
    requires labels { AreMarked labels.now (parts.labelled_places (procedure_seen procedure.now)) }
    ensures text { OnOk result (string_bytes out.new ≡ string_bytes out.old
        ++ bodies.body layout (procedure_seen procedure.now) statements.now) }
{
    match layout {
        Layout::Flat => push_flat(alloc, out, false, labels, procedure, end, statements),
        Layout::Indented => push_flat(alloc, out, true, labels, procedure, end, statements),
        Layout::Blocks => push_blocks(alloc, out, labels, procedure, end, statements),
    }
}

/// Appends the code of `procedure` as statements to `out`, in the layout of `known`. Each statement has a line, which a
/// line feed precedes. Labels and the exit code have additional lines. In blocks, only the offsets that the text names
/// have a label.
pub fn push_procedure(
    alloc: Global,
    out: &mut String,
    known: &Known<'_>,
    procedure: &Procedure,
) -> Result<(), AllocError>
    ensures text { OnOk result (string_bytes out.new
        ≡ string_bytes out.old ++ bodies.procedure_statements known.now (procedure_seen procedure.now)) }
{
    let around = Around {
        parameters: procedure.parameters / 2,
    };
    let Some(end) = items_end(procedure.start, &procedure.items) else {
        return Err(AllocError);
    };
    let labels = labels_of(alloc, procedure, end)?;
    let parts = parts_of(alloc, known, &labels, procedure)?;
    let statements = statements(alloc, around, &parts)?;
    push_body(
        alloc,
        out,
        known.layout,
        &labels,
        procedure,
        end,
        &statements,
    )
}
