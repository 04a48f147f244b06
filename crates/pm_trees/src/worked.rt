//! Worked examples of blocks. The checker computes them; the function has an empty body.

ghost use Rattle.pm_trees.specs.Worked.{WorkedBlocks};

/// States the blocks of small examples (see `WorkedBlocks`): choices with and without ELSE, loops of both kinds, nested
/// loops, a jump out of a loop, two conditions that jump back to one offset, CASE blocks, and blocks that do not end at
/// their target.
#[tactic(auto, using(crate::proofs::Computed::worked_blocks))]
pub fn worked_blocks()
    ensures law { WorkedBlocks }
{}
