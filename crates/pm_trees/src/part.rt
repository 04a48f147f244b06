//! Parts of statements. A part is one item of the code with its role and its stack effect.

use crate::left::Role;
use pm_code::Item;
use pm_effects::Share;
use std::marker::Model;

/// The sizes of a procedure that code calls.
#[derive(Clone, Copy)]
pub struct Callee {
    /// The size of the parameters, in words.
    pub parameters: u8,
    /// The size of the result, in words.
    pub results: u8,
}

/// What a part pushes on the stack.
#[derive(Clone, Copy, Drop)]
pub enum Leaves {
    /// The given number of words.
    Words(u16),
    /// A constant below 256. It is one word, and may be the number of words of a set.
    Constant(u8),
    /// One set.
    Set,
}

/// What a part pops from the stack.
#[derive(Clone, Copy)]
pub struct Takes {
    /// What the part pops first, from the top of the stack.
    pub top: Share,
    /// What the part pops after `top`.
    pub below: Share,
}

/// A place in the code: an offset, and what is known about it.
#[derive(Clone, Copy, Drop)]
pub struct Place {
    /// The offset in the segment.
    pub offset: usize,
    /// Whether a jump or a procedure entry leads to this offset.
    pub has_label: bool,
    /// Whether the exit code of the procedure begins at this offset.
    pub is_exit: bool,
}

/// A part of a statement: an item with its place, its role and its stack effect.
#[derive(Drop)]
pub struct Part<'a> {
    /// The item of the code.
    pub item: &'a Item<usize>,
    /// The place of the item.
    pub place: Place,
    /// The role of the item's operation.
    pub role: Role,
    /// What the item pops from the stack.
    pub takes: Takes,
    /// What the item pushes on the stack.
    pub leaves: Leaves,
    /// Whether the stack effect of the item is known.
    pub known: bool,
}

impl<'a> Model for Part<'a> {
    ghost use Rattle.pm_code.specs.Views.{placed_item};
    ghost use Rattle.pm_trees.specs.Parts as parts;

    ghost Value = { parts.Part };

    ghost view = { λ p. record {
      item = placed_item p.item.now;
      place = p.place;
      role = p.role;
      takes = p.takes;
      leaves = p.leaves;
      known = p.known;
    } };
}
