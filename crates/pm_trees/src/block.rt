//! Open blocks: the blocks that contain the next statement.

ghost use Rattle.std.specs.Prelude.{◌≡◌, reverse};
ghost use Rattle.pm_trees.specs.Blocks as blocks;

/// The kind of a block.
#[derive(Clone, Copy, Drop)]
pub enum Kind {
    /// The statements after IF, which are executed if the condition is true.
    If,
    /// The statements after ELSE, which are executed if the condition is false.
    Else,
    /// A WHILE loop. Its condition is at the given offset, where the loop begins.
    While(usize),
    /// A REPEAT loop, which begins at the given offset and ends with its condition.
    Repeat(usize),
    /// The branches of a CASE. The case jump is at the given offset, and ends the block.
    Case(usize),
}

/// A block: its kind and its end.
#[derive(Clone, Copy, Drop)]
pub struct Block {
    /// The kind of the block.
    pub kind: Kind,
    /// The offset after the last byte of the block.
    pub end: usize,
}

/// Returns whether a block of this kind is closed by its own last statement, and not by an END line.
pub(crate) fn closes_itself(kind: Kind) -> bool
    ensures value { result ≡ blocks.closes_itself kind }
{
    match kind {
        Kind::If | Kind::Else => false,
        Kind::While(_) | Kind::Repeat(_) | Kind::Case(_) => true,
    }
}

/// Returns whether a block that ends at `end` is inside the innermost open block, or inside the code, which ends at
/// `limit`, if no block is open. The last item of `nest` is the innermost block.
#[tactic(auto, using(crate::proofs::Lists::reverse_pushed))]
pub(crate) fn fits(limit: usize, end: usize, nest: &[Block]) -> bool
    ensures value { result ≡ blocks.fits limit end (reverse nest.now) }
{
    let Some(outer) = nest.last() else {
        return end <= limit;
    };
    if closes_itself(outer.kind) {
        end < outer.end
    } else {
        end <= outer.end
    }
}
