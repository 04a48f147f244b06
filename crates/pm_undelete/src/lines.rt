//! The lines of the candidates.
ghost use Rattle.std.specs.Prelude.{◌≡◌, ◌++◌, IfOk, OnOk};
ghost use Rattle.std.specs.List.{flat_map};
ghost use Rattle.pm_undelete.specs.Lines as lines;

use crate::finding::{Candidate, Looks};
use std::alloc::{AllocError, Global};

/// Returns the end of the line of a candidate that looks like this.
fn word_of(looks: Looks) -> &'static str
    ensures word { result.now ≡ lines.word_of looks }
{
    match looks {
        Looks::Code => " code\n",
        Looks::Text => " text\n",
    }
}

/// Appends the line of `candidate`.
fn push_line(alloc: Global, text: &mut Vec<u8>, candidate: Candidate) -> Result<(), AllocError>
    ensures text { OnOk result (text.new.items ≡ text.old.items ++ lines.line_of candidate) }
{
    let Candidate {
        first,
        blocks,
        looks,
    } = candidate;
    let line = format!(in alloc; "block {first} blocks {blocks}")?;
    text.extend_from_slice(line.as_bytes())?;
    text.extend_from_slice(word_of(looks).as_bytes())
}

/// Returns a line for each of `candidates`: `block N blocks K code` or `block N blocks K text`, with the first block N
/// and the number of blocks K. Each line ends with byte 10.
///
/// # Errors
///
/// `AllocError`: memory was refused.
pub fn lines_of(alloc: Global, candidates: &[Candidate]) -> Result<Vec<u8>, AllocError>
    ensures text { IfOk result (λ text. text.items ≡ lines.lines_of candidates.now) }
{
    let mut text = Vec::new(alloc);
    for candidate in candidates {
        push_line(alloc, &mut text, *candidate)?;
    }
    Ok(text)
}
