//! The effect of one statement on the lines and on the open blocks. `limit` is the end of the code, and the last item
//! of `nest` is the innermost open block.

ghost use Rattle.std.specs.Prelude.{◌≡◌, ◌++◌, reverse, IfOk, OnOk};
ghost use Rattle.pm_trees.specs.Blocks as blocks;

use crate::backs::{Loops, place_of};
use crate::block::{Block, Kind, fits};
use crate::line::{Line, Word};
use crate::statement::{Leads, Statement};
use std::alloc::AllocError;

/// Opens the REPEAT loop from `at` to `end`, and appends its line, if `end` is after `at` and the loop fits into the
/// innermost block.
#[tactic(auto, using(crate::proofs::Lists::reverse_pushed))]
pub(crate) fn open_repeat(
    lines: &mut Vec<Line>,
    nest: &mut Vec<Block>,
    limit: usize,
    at: usize,
    end: usize,
) -> Result<(), AllocError>
    ensures lines { OnOk result (lines.new.items
        ≡ lines.old.items ++ blocks.repeat_lines limit at end (reverse nest.old.items)) }
    ensures nest { OnOk result (reverse nest.new.items ≡ blocks.with_repeat limit at end (reverse nest.old.items)) }
{
    if at < end && fits(limit, end, nest) {
        lines.push(Line {
            word: Word::Repeat,
            at,
            behind: at,
        })?;
        nest.push(Block {
            kind: Kind::Repeat(at),
            end,
        })?;
    }
    Ok(())
}

/// Returns whether the innermost block is the WHILE loop that begins at `place` and ends at `behind`.
#[tactic(auto, using(crate::proofs::Lists::reverse_pushed))]
fn ends_while(nest: &[Block], place: usize, behind: usize) -> bool
    ensures value { result ≡ blocks.ends_while place behind (reverse nest.now) }
{
    match nest.last() {
        Some(block) => match block.kind {
            Kind::While(from) => from == place && block.end == behind,
            _ => false,
        },
        None => false,
    }
}

/// Returns whether the innermost block is the REPEAT loop that begins at `place` and ends at `behind`.
#[tactic(auto, using(crate::proofs::Lists::reverse_pushed))]
fn ends_repeat(nest: &[Block], place: usize, behind: usize) -> bool
    ensures value { result ≡ blocks.ends_repeat place behind (reverse nest.now) }
{
    match nest.last() {
        Some(block) => match block.kind {
            Kind::Repeat(from) => from == place && block.end == behind,
            _ => false,
        },
        None => false,
    }
}

/// Returns whether the innermost block is the CASE whose case jump is at `place`, and which ends at `behind`.
#[tactic(auto, using(crate::proofs::Lists::reverse_pushed))]
fn ends_case(nest: &[Block], place: usize, behind: usize) -> bool
    ensures value { result ≡ blocks.ends_case place behind (reverse nest.now) }
{
    match nest.last() {
        Some(block) => match block.kind {
            Kind::Case(to) => to == place && block.end == behind,
            _ => false,
        },
        None => false,
    }
}

/// Returns whether the innermost block is a CASE that ends at `place`.
#[tactic(auto, using(crate::proofs::Lists::reverse_pushed))]
fn leaves_case(nest: &[Block], place: usize) -> bool
    ensures value { result ≡ blocks.leaves_case place (reverse nest.now) }
{
    match nest.last() {
        Some(block) => matches!(block.kind, Kind::Case(_)) && block.end == place,
        None => false,
    }
}

/// Returns whether the innermost block is an IF block that ends at `behind`, and an ELSE block up to `end` fits into
/// the block around it.
#[tactic(auto, using(crate::proofs::Lists::reverse_pushed))]
fn ends_if(nest: &[Block], limit: usize, end: usize, behind: usize) -> bool
    ensures value { result ≡ blocks.ends_if limit end behind (reverse nest.now) }
{
    match nest.split_last() {
        Some((block, before)) => {
            matches!(block.kind, Kind::If) && block.end == behind && fits(limit, end, before)
        }
        None => false,
    }
}

/// Returns the keyword of a statement that jumps to `place` under a condition. `again` is the end of the last statement
/// that always jumps back to the statement.
fn condition_word(limit: usize, again: usize, behind: usize, place: usize, nest: &[Block]) -> Word
    ensures word { result ≡ blocks.condition_word limit again behind place (reverse nest.now) }
{
    if behind < place && fits(limit, place, nest) {
        if again == place {
            Word::While
        } else {
            Word::If
        }
    } else if ends_repeat(nest, place, behind) {
        Word::Until
    } else {
        Word::Plain(Leads::ByCondition(place))
    }
}

/// Returns the keyword of a statement that always jumps to `place`. `end` is the end of the case jump at `place`, or 0
/// if `place` has no case jump.
fn always_word(limit: usize, end: usize, behind: usize, place: usize, nest: &[Block]) -> Word
    ensures word { result ≡ blocks.always_word limit end behind place (reverse nest.now) }
{
    if ends_while(nest, place, behind) {
        Word::EndWhile
    } else if behind < place && ends_if(nest, limit, place, behind) {
        Word::Else
    } else if leaves_case(nest, place) {
        Word::Leave
    } else if behind < place && place < end && fits(limit, end, nest) {
        Word::Case
    } else {
        Word::Plain(Leads::Always(place))
    }
}

/// Returns the keyword of a case jump from `at` to `behind`.
fn value_word(at: usize, behind: usize, nest: &[Block]) -> Word
    ensures word { result ≡ blocks.value_word at behind (reverse nest.now) }
{
    if ends_case(nest, at, behind) {
        Word::EndCase
    } else {
        Word::Plain(Leads::ByValue)
    }
}

/// Returns the keyword of `statement`. `here` has the ends of the loops that begin at the statement, and of the case
/// jump at its target.
pub(crate) fn word_by(limit: usize, here: Loops, statement: &Statement, nest: &[Block]) -> Word
    ensures word { result
        ≡ blocks.word_by limit here statement.now.at statement.now.behind statement.now.leads (reverse nest.now) }
{
    let behind = statement.behind;
    match statement.leads {
        Leads::Nowhere => Word::Plain(Leads::Nowhere),
        Leads::ByCondition(place) => condition_word(limit, here.always, behind, place, nest),
        Leads::Always(place) => always_word(limit, here.by_value, behind, place, nest),
        Leads::ByValue => value_word(statement.at, behind, nest),
    }
}

/// Removes the innermost block from `nest`, if a block is open.
#[tactic(auto, using(crate::proofs::Lists::reverse_pushed))]
fn close_one(nest: &mut Vec<Block>)
    ensures nest { reverse nest.new.items ≡ blocks.without_first (reverse nest.old.items) }
{
    nest.pop();
}

/// Returns whether a statement with the keyword `word` closes the innermost block.
fn closes_one(word: Word) -> bool
    ensures value { result ≡ blocks.closes_one word }
{
    matches!(
        word,
        Word::Else | Word::EndWhile | Word::Until | Word::EndCase
    )
}

/// Returns the block that `statement` with the keyword `word` opens, if it opens one. A CASE block ends at `case_end`.
fn opened_by(case_end: usize, word: Word, statement: &Statement) -> Option<Block>
    ensures block { result ≡ blocks.opened_by case_end word statement.now }
{
    let end = place_of(statement.leads);
    match word {
        Word::If => Some(Block {
            kind: Kind::If,
            end,
        }),
        Word::Else => Some(Block {
            kind: Kind::Else,
            end,
        }),
        Word::While => Some(Block {
            kind: Kind::While(statement.at),
            end,
        }),
        Word::Case => Some(Block {
            kind: Kind::Case(end),
            end: case_end,
        }),
        _ => None,
    }
}

/// Updates the open blocks `nest` after `statement` with the keyword `word`: removes the block that it closes, and
/// appends the block that it opens. A CASE block ends at `case_end`.
#[tactic(auto, using(crate::proofs::Lists::reverse_pushed))]
pub(crate) fn open_behind(
    nest: &mut Vec<Block>,
    case_end: usize,
    word: Word,
    statement: &Statement,
) -> Result<(), AllocError>
    ensures nest { OnOk result (reverse nest.new.items
        ≡ blocks.open_behind case_end word statement.now (reverse nest.old.items)) }
{
    if closes_one(word) {
        close_one(nest);
    }
    if let Some(block) = opened_by(case_end, word, statement) {
        nest.push(block)?;
    }
    Ok(())
}
