//! Closing of blocks that end at or before an offset.

ghost use Rattle.std.specs.Prelude.{◌≡◌, ◌++◌, reverse, IfOk, OnOk};
ghost use Rattle.pm_trees.specs.Blocks as blocks;

use crate::block::{Block, Kind, closes_itself};
use crate::line::{Line, Word};
use std::alloc::AllocError;

/// Returns whether the innermost block, the last item of `nest`, ends at or before `at`.
#[tactic(auto, using(crate::proofs::Lists::reverse_pushed))]
fn has_ended(nest: &[Block], at: usize) -> bool
    ensures value { result ≡ blocks.has_ended at (reverse nest.now) }
{
    match nest.last() {
        Some(block) => block.end <= at,
        None => false,
    }
}

/// Returns whether `block` ends exactly at `at`, and is not closed by its own last statement.
fn ends_here(block: Block, at: usize) -> bool
    ensures value { result ≡ blocks.ends_here at block }
{
    !closes_itself(block.kind) && block.end == at
}

/// Appends an END line for the offset `at` if `kind` is IF or ELSE.
fn push_end(lines: &mut Vec<Line>, kind: Kind, at: usize) -> Result<(), AllocError>
    ensures lines { OnOk result (lines.new.items ≡ lines.old.items ++ blocks.end_line at kind) }
{
    if !closes_itself(kind) {
        lines.push(Line {
            word: Word::End,
            at,
            behind: at,
        })?;
    }
    Ok(())
}

/// Closes the blocks that end at or before `at`, and appends their END lines. Returns whether all of them are IF or
/// ELSE blocks that end exactly at `at`. Other blocks are closed by their own last statement.
#[tactic(auto, using(crate::proofs::Closing::closing_done))]
pub(crate) fn close_ended(
    lines: &mut Vec<Line>,
    nest: &mut Vec<Block>,
    at: usize,
) -> Result<bool, AllocError>
    ensures lines { OnOk result (lines.new.items ≡ lines.old.items ++ blocks.end_lines at (reverse nest.old.items)) }
    ensures nest { OnOk result (reverse nest.new.items ≡ blocks.open_at at (reverse nest.old.items)) }
    ensures here { IfOk result (λ b. b ≡ blocks.end_here at (reverse nest.old.items)) }
{
    let mut here = true;
    'ended: while has_ended(nest, at) {
        let Some(block) = nest.pop() else {
            return Ok(here);
        };
        push_end(lines, block.kind, at)?;
        here = here && ends_here(block, at);
    }
    Ok(here)
}
