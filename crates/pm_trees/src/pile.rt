//! A list of trees, each as its summary and its phrase. The phrase is the text of the tree. A *part* is one item of the
//! code with its stack effect. A *tree* is a part with the trees that push its operands.

ghost use Rattle.std.specs.Prelude.{◌≡◌, ◌-◌, drop, length, IfOk, OnOk};
ghost use Rattle.pm_trees.specs.Piles as texts;

use crate::left::Left;
use pm_phrases::Phrase;
use std::alloc::{AllocError, Global};
use std::marker::Model;

/// A list of trees in the order of the code.
#[derive(Drop)]
pub struct Pile {
    /// The summary of each tree.
    pub lefts: Vec<Left>,
    /// The phrase of each tree.
    pub phrases: Vec<Phrase>,
}

impl Model for Pile {
    ghost use Rattle.std.specs.Prelude.{reverse};
    ghost use Rattle.pm_trees.specs.Piles as texts;

    ghost Value = { texts.Pile };

    ghost view = { λ p. record { lefts = reverse p.lefts.items; phrases = reverse p.phrases.items } };
}

impl Pile {
    /// Creates an empty list with spare capacity for `trees` trees.
    pub(crate) fn with_room(alloc: Global, trees: usize) -> Result<Pile, AllocError>
        ensures none { IfOk result (λ pile. pile ≡ texts.no_trees) }
    {
        Ok(Pile {
            lefts: Vec::with_capacity(alloc, trees)?,
            phrases: Vec::with_capacity(alloc, trees)?,
        })
    }

    /// Appends the tree with the summary `left` and the phrase `phrase`.
    #[tactic(auto, using(crate::proofs::Ends::reverse_pushed))]
    pub(crate) fn push(&mut self, left: Left, phrase: Phrase) -> Result<(), AllocError>
        ensures behind { OnOk result (self.new ≡ texts.upon_all left phrase self.old) }
    {
        self.lefts.push(left)?;
        self.phrases.push(phrase)?;
        Ok(())
    }

    /// Removes the last `count` trees.
    #[tactic(auto, using(crate::proofs::Ends::reverse_without))]
    pub(crate) fn drop_last(&mut self, count: usize)
        ensures rest { self.new ≡ texts.rest_of count self.old }
    {
        if count == 0 {
            return;
        }
        self.lefts.truncate(self.lefts.len().saturating_sub(count));
        self.phrases
            .truncate(self.phrases.len().saturating_sub(count));
    }
}

/// Returns the last `count` items of `list`, or the whole list if it has fewer items.
pub(crate) fn last_of<T>(list: &[T], count: usize) -> &[T]
    ensures last { result.now ≡ drop (length list.now - count) list.now }
{
    &list[list.len().saturating_sub(count)..]
}
