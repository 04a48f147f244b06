//! The labels of statements that are shown in blocks. A statement has a label only if the text names its offset.

ghost use Rattle.std.specs.Prelude.{◌≡◌, ◌||◌, ℕ, map, IfOk, OnOk};
ghost use Rattle.pm_code.specs.Program.{is_among};
ghost use Rattle.pm_code.specs.Views.{placed_item, procedure_seen};
ghost use Rattle.pm_statements.specs.BlockLabels as labels;
ghost use Rattle.pm_statements.specs.Marks.{AreMarked, has};

use crate::block_lines::behind_word;
use crate::marks::{Marks, mark_item, mark_places, mark_target};
use pm_code::{Item, Procedure};
use pm_trees::{Left, Line, Place, Role, Word};
use std::alloc::{AllocError, Global};

/// If `item` is a case jump, marks the offsets that `item` names.
#[tactic(auto, using(crate::proofs::Marked::or_false))]
fn mark_case(marks: &mut Marks, item: &Item<usize>) -> Result<(), AllocError>
    ensures has { OnOk result ((p : ℕ) → has marks.new p
        ≡ (has marks.old p || is_among (labels.case_places (placed_item item.now)) p)) }
{
    match item {
        Item::Case { .. } => mark_item(marks, item),
        Item::Plain(_, _) | Item::Jump(_, _) | Item::OneByte(_) => Ok(()),
    }
}

/// Marks the offsets that the case jumps in `items` name.
#[tactic(auto, using(crate::proofs::BlockLabelled::tables_done))]
fn mark_tables(marks: &mut Marks, items: &[Item<usize>]) -> Result<(), AllocError>
    ensures has { OnOk result ((p : ℕ) → has marks.new p
        ≡ (has marks.old p || is_among (labels.table_places (map placed_item items.now)) p)) }
{
    for item in items {
        mark_case(marks, item)?;
    }
    Ok(())
}

/// If the first statement of `lefts` is a jump and `word` is `Plain`, marks the target of this jump. With any other
/// keyword the text does not name the target.
#[tactic(auto, using(crate::proofs::Marked::or_false))]
fn mark_first(marks: &mut Marks, word: Word, lefts: &[Left]) -> Result<(), AllocError>
    ensures has { OnOk result ((p : ℕ) → has marks.new p
        ≡ (has marks.old p || is_among (labels.first_places word lefts.now) p)) }
{
    let Some((left, _)) = lefts.split_first() else {
        return Ok(());
    };
    match (word, left.role) {
        (Word::Plain(_), Role::Jump(_, target)) => mark_target(marks, target),
        _ => Ok(()),
    }
}

/// Marks the targets that the text of `lines` names. `lefts` has the statements of these lines, in the same order.
#[tactic(auto, using(crate::proofs::BlockLabelled::lines_done))]
fn mark_lines(marks: &mut Marks, lines: &[Line], lefts: &[Left]) -> Result<(), AllocError>
    ensures has { OnOk result ((p : ℕ) → has marks.new p
        ≡ (has marks.old p || is_among (labels.line_places lines.now lefts.now) p)) }
{
    let mut statements = lefts;
    for line in lines {
        mark_first(marks, line.word, statements)?;
        statements = behind_word(line.word, statements);
    }
    Ok(())
}

/// Returns the set of offsets that the text of a procedure in blocks names. The set has a flag for each offset from the
/// start of the procedure to `end`.
#[tactic(auto, using(crate::proofs::Marked::three_marked))]
pub(crate) fn shown_labels(
    alloc: Global,
    procedure: &Procedure,
    end: usize,
    lines: &[Line],
    lefts: &[Left],
) -> Result<Marks, AllocError>
    ensures marks { IfOk result (λ marks. AreMarked marks
        (labels.shown_places (procedure_seen procedure.now) lines.now lefts.now)) }
{
    let mut marks = Marks::none(alloc, procedure.start, end)?;
    mark_tables(&mut marks, &procedure.items)?;
    mark_places(&mut marks, &procedure.entries)?;
    mark_lines(&mut marks, lines, lefts)?;
    Ok(marks)
}

/// Returns the statement `left` with a label if its offset is in `marks`, and without a label otherwise.
pub(crate) fn relabelled(marks: &Marks, left: &Left) -> Left
    ensures left { result ≡ labels.relabelled (has marks.now) left.now }
{
    let place = left.place;
    Left {
        leaves: left.leaves,
        place: Place {
            offset: place.offset,
            has_label: marks.has(place.offset),
            is_exit: place.is_exit,
        },
        parts: left.parts,
        role: left.role,
    }
}
