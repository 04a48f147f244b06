//! The lines that show statements in blocks.

use crate::statement::Leads;

/// The keyword of a line. It states which block the line opens or closes.
#[derive(Clone, Copy, Drop)]
pub enum Word {
    /// A statement that opens and closes no block. The field is its jump.
    Plain(Leads),
    /// A condition that opens an IF block. The lines of the block are executed if the condition is true.
    If,
    /// The jump that ends an IF block and opens an ELSE block, which is executed if the condition is false.
    Else,
    /// A condition that opens a WHILE loop. The lines of the loop are repeated as long as the condition is true.
    While,
    /// The jump back to the condition of a WHILE loop, which closes the loop.
    EndWhile,
    /// The beginning of a REPEAT loop. The line has no statement.
    Repeat,
    /// The condition that closes a REPEAT loop.
    Until,
    /// The jump to the case jump at the end of a CASE, which opens the CASE block.
    Case,
    /// A jump to the end of the innermost CASE.
    Leave,
    /// The case jump that closes a CASE block.
    EndCase,
    /// The end of an IF or ELSE block. The line has no statement.
    End,
}

/// A line that shows a statement, or the beginning or end of a block.
#[derive(Clone, Copy, Drop)]
pub struct Line {
    /// The keyword of the line.
    pub word: Word,
    /// The offset of the statement of the line. If the line has no statement, this is the offset of the next statement,
    /// or the end of the code.
    pub at: usize,
    /// The offset after the statement of the line, or `at` if the line has no statement.
    pub behind: usize,
}

impl Word {
    ghost use Rattle.std.specs.Prelude.{◌≡◌, ◌≤◌, IfSome, IsSome};
    ghost use Rattle.pm_trees.specs.Lines as lines;

    /// Returns whether a line with this keyword has no statement.
    pub fn is_extra(self) -> bool
        ensures value { result ≡ lines.is_extra self }
    {
        matches!(self, Word::Repeat | Word::End)
    }

    /// Returns the depth at which a line with this keyword is indented, if `blocks` blocks are open before the line.
    pub fn depth_at(self, blocks: usize) -> usize
        ensures depth { result ≡ lines.depth_at self blocks }
    {
        match self {
            Word::Else | Word::EndWhile | Word::Until | Word::EndCase | Word::End => {
                blocks.saturating_sub(1)
            }
            Word::Plain(_) | Word::If | Word::While | Word::Repeat | Word::Case | Word::Leave =>
                blocks,
        }
    }

    /// Returns the number of open blocks after a line with this keyword, if `blocks` blocks are open before it. Returns
    /// `None` only if the result exceeds 64 bits.
    pub fn depth_behind(self, blocks: usize) -> Option<usize>
        ensures depth { IfSome result (λ depth. depth ≡ lines.depth_behind self blocks) }
        ensures counted { lines.depth_behind self blocks ≤ 18446744073709551615 → IsSome result }
    {
        match self {
            Word::If | Word::While | Word::Repeat | Word::Case => blocks.checked_add(1),
            Word::EndWhile | Word::Until | Word::EndCase | Word::End => {
                Some(blocks.saturating_sub(1))
            }
            Word::Plain(_) | Word::Else | Word::Leave => Some(blocks),
        }
    }
}
