//! The summary of a tree, which decides whether the tree can become an operand. A *part* is one item of the code with
//! its stack effect. A *tree* is a part with the trees that push its operands.

ghost use Rattle.std.specs.Prelude.{◌≡◌, reverse};
ghost use Rattle.pm_trees.specs.Parts.{is_reached};
ghost use Rattle.pm_trees.specs.Trees as trees;

use crate::part::{Leaves, Part, Place};
use pm_code::Target;
use pm_families::Condition;

/// The role of the operation of a tree. The statement view uses the role to choose the text and the layout.
#[derive(Clone, Copy, Drop)]
pub enum Role {
    /// A call of a procedure or of a standard procedure.
    Call,
    /// The I/O check (`CSP 0`).
    Check,
    /// A jump, with its condition and its target.
    Jump(Condition, Target<usize>),
    /// A case jump (`XJP`).
    Case,
    /// Any other operation, which is neither a call nor a jump.
    Other,
}

/// The summary of a tree: what it pushes, where it begins, how many parts it has, and the role of its operation.
#[derive(Clone, Copy, Drop)]
pub struct Left {
    /// What the tree pushes on the stack.
    pub leaves: Leaves,
    /// The place of the first part of the tree.
    pub place: Place,
    /// The number of parts of the tree. The value 101 means more than 100.
    pub parts: u8,
    /// The role of the operation of the tree.
    pub role: Role,
}

/// The maximum number of parts of an operand. A tree with more parts is a statement, even if it pushes something.
const MOST_PARTS: u8 = 100;

/// Returns `count`, limited to `MOST_PARTS + 1`.
fn capped(count: u16) -> u8
    ensures value { result ≡ trees.capped count }
{
    if count > u16::from(MOST_PARTS) {
        MOST_PARTS + 1
    } else {
        count as u8
    }
}

/// Returns the total number of parts of the trees `lefts`, limited to `MOST_PARTS + 1`.
#[tactic(auto, using(crate::proofs::Ends::reverse_pushed))]
fn parts_left(lefts: &[Left]) -> u8
    ensures value { result ≡ trees.parts_left (reverse lefts.now) }
{
    let Some((last, before)) = lefts.split_last() else {
        return 0;
    };
    capped(u16::from(last.parts) + u16::from(parts_left(before)))
}

/// Returns the place of the first tree of `operands`, or `place` if `operands` is empty.
#[tactic(auto, using(crate::proofs::Ends::first_place_first))]
fn first_place(place: Place, operands: &[Left]) -> Place
    ensures place { result ≡ trees.first_place place (reverse operands.now) }
{
    match operands.split_first() {
        Some((first, _)) => first.place,
        None => place,
    }
}

/// Returns the summary of the tree that consists of `part` and the trees `operands`.
#[tactic(auto, unfolding(crate::specs::Trees::left_by))]
pub(crate) fn left_by(part: &Part<'_>, operands: &[Left]) -> Left
    ensures left { result ≡ trees.left_by part.now (reverse operands.now) }
{
    Left {
        leaves: part.leaves,
        place: first_place(part.place, operands),
        parts: capped(1 + u16::from(parts_left(operands))),
        role: part.role,
    }
}

/// Returns whether `place` has a label or begins the exit code.
pub fn is_reached(place: Place) -> bool
    ensures value { result ≡ is_reached place }
{
    place.has_label || place.is_exit
}

/// Returns whether the last tree of `lefts` has too many parts for an operand.
#[tactic(auto, using(crate::proofs::Ends::reverse_pushed))]
pub(crate) fn is_full(lefts: &[Left]) -> bool
    ensures value { result ≡ trees.is_full (reverse lefts.now) }
{
    match lefts.last() {
        Some(last) => last.parts > MOST_PARTS,
        None => false,
    }
}
