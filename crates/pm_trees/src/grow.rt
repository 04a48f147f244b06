//! Building of statements from the parts of code. *Pending* trees are the last trees, which can still become operands.
//! A *part* is one item of the code with its stack effect. A *tree* is a part with the trees that push its operands.

ghost use Rattle.std.specs.Prelude.{◌≡◌, ◌≤◌, ◌<◌, ◌-◌, ◌^◌, suc, if◌then◌else◌};
ghost use Rattle.std.specs.Prelude.{drop, length, reverse, IfOk, OnOk};
ghost use Rattle.pm_trees.specs.Piles as texts;
ghost use Rattle.pm_trees.specs.Trees as trees;

use crate::count::{Count, count_takes, leaves_nothing, none_missing};
use crate::left::{is_full, is_reached, left_by};
use crate::part::{Leaves, Part};
use crate::pile::{Pile, last_of};
use pm_phrases::{Around, Phrase, phrase};
use std::alloc::{AllocError, Global};

/// Returns the phrase of `part`, whose operands are the last `count.trees` trees of `operands`.
#[tactic(auto, using(crate::proofs::Ends::last_again, crate::proofs::Ends::reverse_last))]
fn phrase_by(
    alloc: Global,
    around: Around,
    part: &Part<'_>,
    count: Count,
    operands: &Pile,
) -> Result<Phrase, AllocError>
    ensures phrase { IfOk result (λ p. p
        ≡ texts.phrase_by around part.now count.missing (texts.last_of count.trees operands.now)) }
{
    let phrases = last_of(&operands.phrases, count.trees);
    phrase(alloc, around, part.item, part.known, count.missing, phrases)
}

/// Returns the number of pending trees before `part` is added. It is 0 if `part` has a label or begins the exit code,
/// or if the last tree has too many parts for an operand. Otherwise it is `pending`.
#[tactic(auto, using(crate::proofs::Ends::reverse_last, crate::proofs::Written::none_pending))]
fn before_part(part: &Part<'_>, trees: &Pile, pending: usize) -> usize
    ensures texts { texts.texts_in trees.now result ≡ texts.before_text part.now (texts.texts_in trees.now pending) }
    ensures few { result ≤ pending }
{
    if is_reached(part.place) || is_full(last_of(&trees.lefts, pending)) {
        0
    } else {
        pending
    }
}

/// Returns the number of pending trees after a part that pushes `leaves` is added together with its operands.
fn pending_after(leaves: Leaves, count: Count, pending: usize) -> usize
    requires few { count.trees ≤ pending }
    requires room { pending < 2 ^ 63 }
    ensures value { result ≡ (if trees.leaves_nothing leaves then 0
        else if trees.none_missing count.missing then suc (pending - count.trees) else 1) }
{
    if leaves_nothing(leaves) {
        0
    } else if none_missing(count.missing) {
        pending - count.trees + 1
    } else {
        1
    }
}

/// Adds `part` to `trees`. Its operands are the last of the pending trees. Updates `pending`, the number of pending
/// trees.
#[tactic(auto, using(crate::proofs::Ends::reverse_last))]
fn add(
    alloc: Global,
    around: Around,
    part: &Part<'_>,
    trees: &mut Pile,
    pending: &mut usize,
) -> Result<(), AllocError>
    requires few { pending.old ≤ length trees.old.lefts }
    ensures texts { OnOk result (texts.texts_in trees.new pending.new
        ≡ texts.added around part.now (texts.texts_in trees.old pending.old)) }
    ensures few { OnOk result (pending.new ≤ length trees.new.lefts) }
{
    let count = count_takes(last_of(&trees.lefts, *pending), part.takes);
    let left = left_by(part, last_of(&trees.lefts, count.trees));
    let phrase = phrase_by(alloc, around, part, count, trees)?;
    trees.drop_last(count.trees);
    *pending = pending_after(part.leaves, count, *pending);
    trees.push(left, phrase)
}

/// Returns the statements of the code that consists of `parts`, with their phrases.
#[tactic(auto, using(crate::proofs::Written::text_grows), unfolding(crate::specs::Piles::added_all))]
pub fn statements(alloc: Global, around: Around, parts: &[Part<'_>]) -> Result<Pile, AllocError>
    ensures statements { IfOk result (λ pile. pile ≡ texts.pile_of around (trees.statements parts.now)) }
{
    let mut trees = Pile::with_room(alloc, parts.len())?;
    let mut pending = 0;
    for part in parts {
        pending = before_part(part, &trees, pending);
        add(alloc, around, part, &mut trees, &mut pending)?;
    }
    Ok(trees)
}
