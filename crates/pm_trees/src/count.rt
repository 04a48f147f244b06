//! Counting of the trees that are the operands of a part. A *share* is an amount of the stack: a number of words, or
//! one set. A *part* is one item of the code with its stack effect. A *tree* is a part with the trees that push its
//! operands.

ghost use Rattle.std.specs.Prelude.{◌≡◌, ◌≤◌, ◌+◌, length, reverse};
ghost use Rattle.pm_trees.specs.Piles.{leaves_left};
ghost use Rattle.pm_trees.specs.Trees as trees;

use crate::left::Left;
use crate::part::{Leaves, Takes};
use pm_effects::Share;
use pm_phrases::Missing;

/// Returns the number of words that `leaves` pushes. For a set it is 0, because the size of the set is not known.
fn words_left(leaves: Leaves) -> u16
    ensures value { result ≡ trees.words_left leaves }
{
    match leaves {
        Leaves::Words(n) => n,
        Leaves::Constant(_) => 1,
        Leaves::Set => 0,
    }
}

/// Returns whether `leaves` is a set.
fn is_set(leaves: Leaves) -> bool
    ensures value { result ≡ trees.is_set leaves }
{
    match leaves {
        Leaves::Words(_) | Leaves::Constant(_) => false,
        Leaves::Set => true,
    }
}

/// Returns whether a tree that pushes `leaves` can be an operand if `words` words are still needed.
fn is_operand(words: u16, leaves: Leaves) -> bool
    ensures value { result ≡ trees.is_operand words leaves }
{
    words != 0 && !is_set(leaves) && words_left(leaves) <= words
}

/// The number of trees that are operands, and the number of words that they do not push although they are needed.
#[derive(Clone, Copy)]
pub(crate) struct CountWords {
    pub trees: usize,
    pub missing: u16,
}

/// Counts how many of the last trees of `operands` together push at most `words` words.
#[tactic(auto, using(crate::proofs::Ends::reverse_pushed, crate::proofs::Ends::operand_fits), unfolding(crate::specs::Trees::words_count))]
pub(crate) fn count_words(operands: &[Left], words: u16) -> CountWords
    ensures trees { result.trees ≡ (trees.words_count words (leaves_left (reverse operands.now))).trees }
    ensures missing { result.missing ≡ (trees.words_count words (leaves_left (reverse operands.now))).missing }
    ensures few { result.trees ≤ length operands.now }
{
    let Some((last, before)) = operands.split_last() else {
        return CountWords {
            trees: 0,
            missing: words,
        };
    };
    let leaves = last.leaves;
    if !is_operand(words, leaves) {
        return CountWords {
            trees: 0,
            missing: words,
        };
    }
    let more = count_words(before, words - words_left(leaves));
    CountWords {
        trees: more.trees + 1,
        missing: more.missing,
    }
}

/// The number of trees that are operands, and the share that they do not push although it is needed.
#[derive(Clone, Copy)]
pub(crate) struct CountShare {
    pub trees: usize,
    pub missing: Share,
}

/// Counts how many of the last trees of `operands` push one set. A set is pushed by one tree, or by trees that push
/// words followed by a constant that is the number of these words.
#[tactic(auto, using(crate::proofs::Ends::reverse_pushed), unfolding(crate::specs::Trees::set_count))]
fn count_set(operands: &[Left]) -> CountShare
    ensures trees { result.trees ≡ (trees.set_count (leaves_left (reverse operands.now))).trees }
    ensures missing { result.missing ≡ (trees.set_count (leaves_left (reverse operands.now))).missing }
    ensures few { result.trees ≤ length operands.now }
{
    let none = CountShare {
        trees: 0,
        missing: Share::Set,
    };
    let Some((last, before)) = operands.split_last() else {
        return none;
    };
    match last.leaves {
        Leaves::Words(_) => none,
        Leaves::Set => CountShare {
            trees: 1,
            missing: Share::Words(0),
        },
        Leaves::Constant(count) => {
            let words = count_words(before, u16::from(count));
            if words.missing != 0 {
                return none;
            }
            CountShare {
                trees: words.trees + 1,
                missing: Share::Words(0),
            }
        }
    }
}

/// Counts how many of the last trees of `operands` push the share `share`.
#[tactic(auto, using(crate::proofs::Ends::no_words), unfolding(crate::specs::Trees::share_count))]
fn count_share(operands: &[Left], share: Share) -> CountShare
    ensures trees { result.trees ≡ (trees.share_count share (leaves_left (reverse operands.now))).trees }
    ensures missing { result.missing ≡ (trees.share_count share (leaves_left (reverse operands.now))).missing }
    ensures few { result.trees ≤ length operands.now }
{
    match share {
        Share::Words(0) => CountShare {
            trees: 0,
            missing: Share::Words(0),
        },
        Share::Words(words) => {
            let count = count_words(operands, words);
            CountShare {
                trees: count.trees,
                missing: Share::Words(count.missing),
            }
        }
        Share::Set => count_set(operands),
    }
}

/// The number of trees that are operands, and what they do not push although the part pops it.
#[derive(Clone, Copy)]
pub(crate) struct Count {
    pub trees: usize,
    pub missing: Missing,
}

/// Returns whether `share` is 0 words.
fn is_none(share: Share) -> bool
    ensures value { result ≡ trees.is_none share }
{
    match share {
        Share::Words(words) => words == 0,
        Share::Set => false,
    }
}

/// Counts how many of the last trees of `operands` are operands of a part that pops `takes`.
#[tactic(auto, using(crate::proofs::Ends::reverse_without, crate::proofs::Ends::leaves_dropped), unfolding(crate::specs::Trees::takes_count))]
pub(crate) fn count_takes(operands: &[Left], takes: Takes) -> Count
    ensures trees { result.trees ≡ (trees.takes_count takes (leaves_left (reverse operands.now))).trees }
    ensures missing { result.missing ≡ (trees.takes_count takes (leaves_left (reverse operands.now))).missing }
    ensures few { result.trees ≤ length operands.now }
{
    let top = count_share(operands, takes.top);
    if !is_none(top.missing) {
        let missing = Missing {
            top: top.missing,
            below: takes.below,
        };
        return Count {
            trees: top.trees,
            missing,
        };
    }
    let below = count_share(&operands[..operands.len() - top.trees], takes.below);
    let missing = Missing {
        top: Share::Words(0),
        below: below.missing,
    };
    Count {
        trees: top.trees + below.trees,
        missing,
    }
}

/// Returns whether nothing is missing: the operands push all that the part pops.
pub(crate) fn none_missing(missing: Missing) -> bool
    ensures value { result ≡ trees.none_missing missing }
{
    is_none(missing.top) && is_none(missing.below)
}

/// Returns whether `leaves` is nothing, so that the part pushes nothing on the stack.
pub fn leaves_nothing(leaves: Leaves) -> bool
    ensures value { result ≡ trees.leaves_nothing leaves }
{
    !is_set(leaves) && words_left(leaves) == 0
}
