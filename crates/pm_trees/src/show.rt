//! The lines that show a list of statements in blocks.

ghost use Rattle.std.specs.Prelude.{◌≡◌, ◌++◌, ◌&&◌, [], Some, option_map, reverse, IfOk, IfSome, OnOk};
ghost use Rattle.pm_trees.specs.Blocks as blocks;
ghost use Rattle.pm_trees.specs.Reading.{expanded};

use crate::backs::{Backs, Loops};
use crate::block::Block;
use crate::close::close_ended;
use crate::line::Line;
use crate::statement::Statement;
use crate::step::{open_behind, open_repeat, word_by};
use std::alloc::{AllocError, Global};

/// The list of lines gets capacity for one additional line for each group of this many statements.
const BLOCK: usize = 8;

/// Returns the offset after the last statement, or 0 if `statements` is empty.
#[tactic(auto, using(crate::proofs::Lists::end_behind_last))]
fn code_end(statements: &[Statement]) -> usize
    ensures end { result ≡ blocks.code_end statements.now }
{
    match statements.split_last() {
        Some((last, _)) => last.behind,
        None => 0,
    }
}

/// Appends the lines of `statement`, and updates the open blocks `nest`. Returns whether all blocks that end before the
/// statement are IF or ELSE blocks that end exactly where the statement begins.
fn add(
    lines: &mut Vec<Line>,
    nest: &mut Vec<Block>,
    limit: usize,
    here: Loops,
    statement: &Statement,
) -> Result<bool, AllocError>
    ensures lines { OnOk result (lines.new.items
        ≡ lines.old.items ++ blocks.statement_lines limit here statement.now (reverse nest.old.items)) }
    ensures nest { OnOk result (reverse nest.new.items
        ≡ blocks.open_after limit here statement.now (reverse nest.old.items)) }
    ensures right { IfOk result (λ b. b ≡ blocks.end_here statement.now.at (reverse nest.old.items)) }
{
    let right = close_ended(lines, nest, statement.at)?;
    open_repeat(lines, nest, limit, statement.at, here.by_condition)?;
    let word = word_by(limit, here, statement, nest);
    lines.push(Line {
        word,
        at: statement.at,
        behind: statement.behind,
    })?;
    open_behind(nest, here.by_value, word, statement)?;
    Ok(right)
}

/// Returns whether `nest` is empty, so that no block is open.
#[tactic(auto, using(crate::proofs::Lists::reverse_pushed))]
fn none_open(nest: &[Block]) -> bool
    ensures value { result ≡ blocks.is_empty (reverse nest.now) }
{
    nest.last().is_none()
}

/// Returns whether both `one` and `other` are true.
fn both(one: bool, other: bool) -> bool
    ensures value { result ≡ (one && other) }
{
    one && other
}

/// The lines of statements, and whether each block ends exactly at the target of its jump.
#[derive(Drop)]
struct Tried {
    lines: Vec<Line>,
    right: bool,
}

/// Returns the lines of `statements`, and whether each block ends exactly at the target of its jump.
fn try_blocks(alloc: Global, statements: &[Statement]) -> Result<Tried, AllocError>
    ensures lines { IfOk result (λ t. t.lines.items
        ≡ blocks.lines_from (blocks.code_end statements.now) statements.now [] statements.now) }
    ensures right { IfOk result (λ t. t.right
        ≡ blocks.all_end (blocks.code_end statements.now) statements.now [] statements.now) }
{
    let limit = code_end(statements);
    let backs = Backs::of(alloc, statements)?;
    let room = statements.len().saturating_add(statements.len() / BLOCK);
    let mut lines = Vec::with_capacity(alloc, room)?;
    let mut nest = Vec::new(alloc);
    let mut so_far = true;
    for statement in statements {
        let here = backs.loops_at(statement);
        let ends_right = add(&mut lines, &mut nest, limit, here, statement)?;
        so_far = both(so_far, ends_right);
    }
    let last_right = close_ended(&mut lines, &mut nest, limit)?;
    let all_right = both(so_far, last_right);
    let none = none_open(&nest);
    let right = both(all_right, none);
    Ok(Tried { lines, right })
}

/// Returns the lines that show `statements` in blocks. Each statement has one line, and the order is unchanged. The
/// definition `expanded` recovers the statements from the lines.
///
/// Returns `None` if a block would not end at the target of the jump around it.
#[tactic(auto, using(crate::proofs::Read::read_back), unfolding(crate::specs::Blocks::blocks))]
pub fn blocks(alloc: Global, statements: &[Statement]) -> Result<Option<Vec<Line>>, AllocError>
    ensures blocks { IfOk result (λ o. option_map (λ ls. ls.items) o ≡ blocks.blocks statements.now) }
    ensures expanded { IfOk result (λ o. IfSome o (λ ls. expanded ls.items ≡ Some statements.now)) }
{
    let tried = try_blocks(alloc, statements)?;
    if tried.right {
        Ok(Some(tried.lines))
    } else {
        Ok(None)
    }
}
