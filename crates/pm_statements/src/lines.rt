//! Writes statements as lines, without blocks.
//!
//! In this file, `left` is the summary of a statement, and `phrase` is its text.

ghost use Rattle.std.specs.Prelude.{◌≡◌, ◌∷◌, ◌++◌, false, string_bytes, OnOk};
ghost use Rattle.pm_phrases.specs.Shown.{value_text};
ghost use Rattle.pm_statements.specs.Texts as texts;

use crate::depths::Depths;
use pm_phrases::{Phrase, push_offset, push_value};
use pm_trees::{Leaves, Left, Pile, Place, Role, is_reached, leaves_nothing};
use std::alloc::AllocError;

/// The maximum depth that is shown. A greater depth is shown like this depth.
const DEEPEST: usize = 30;

/// The spaces for eight levels of depth: two for each level.
const EIGHT_LEVELS: &str = "                ";

/// The spaces for thirty levels, the maximum depth.
const ALL_LEVELS: &str = "                                                            ";

/// Appends a line with a label if `place` has a label, and a line `EXIT:` if the exit code begins at `place`. A line
/// feed precedes each line.
pub(crate) fn push_place_lines(out: &mut String, place: Place) -> Result<(), AllocError>
    ensures text { OnOk result (string_bytes out.new ≡ string_bytes out.old ++ texts.place_lines place) }
{
    if place.has_label {
        out.push_str("\nL")?;
        push_offset(out, place.offset)?;
        out.push(':')?;
    }
    if place.is_exit {
        out.push_str("\nEXIT:")?;
    }
    Ok(())
}

/// Appends the text of a statement to `out`. If the statement leaves words on the stack, the text begins with `PUSH`.
pub(crate) fn push_own(out: &mut String, leaves: Leaves, phrase: &Phrase) -> Result<(), AllocError>
    ensures text { OnOk result (string_bytes out.new
        ≡ string_bytes out.old ++ (texts.push_text leaves ++ value_text phrase.now 0)) }
{
    if !leaves_nothing(leaves) {
        out.push_str("PUSH ")?;
    }
    push_value(out, phrase)
}

/// Appends a space and the I/O check `check` to the last line of `out`, which has the call before the check.
pub(crate) fn push_beside(out: &mut String, check: &Phrase) -> Result<(), AllocError>
    ensures text { OnOk result (string_bytes out.new
        ≡ string_bytes out.old ++ (32 ∷ value_text check.now 0)) }
{
    out.push_str(" ")?;
    push_value(out, check)
}

/// Returns whether a statement is a call that leaves nothing on the stack.
pub(crate) fn is_call(left: &Left) -> bool
    ensures value { result ≡ texts.is_call left.now }
{
    leaves_nothing(left.leaves) && matches!(left.role, Role::Call)
}

/// Returns whether a statement is an I/O check that has no label and does not begin the exit code.
pub(crate) fn is_check(left: &Left) -> bool
    ensures value { result ≡ texts.is_check left.now }
{
    !is_reached(left.place) && matches!(left.role, Role::Check)
}

/// Appends two spaces to `out` for each level of `depth`, up to thirty levels.
#[tactic(auto, using(crate::proofs::Listed::all_levels, crate::proofs::Listed::few_levels, crate::proofs::Listed::blanks_step, crate::proofs::Listed::blanks_done))]
pub(crate) fn push_blanks(out: &mut String, depth: usize) -> Result<(), AllocError>
    ensures text { OnOk result (string_bytes out.new ≡ string_bytes out.old ++ texts.blanks depth) }
{
    if depth >= DEEPEST {
        return out.push_str(ALL_LEVELS);
    }
    let mut rest = depth;
    while rest > 0 {
        if rest >= 8 {
            out.push_str(EIGHT_LEVELS)?;
            rest -= 8;
        } else {
            out.push_str("  ")?;
            rest -= 1;
        }
    }
    Ok(())
}

/// Appends the text before the indentation of a statement at `place`: the lines for its label and the exit code, a line
/// feed, and its offset.
pub(crate) fn push_front(out: &mut String, place: Place) -> Result<(), AllocError>
    ensures text { OnOk result (string_bytes out.new ≡ string_bytes out.old ++ texts.front place) }
{
    push_place_lines(out, place)?;
    out.push('\n')?;
    push_offset(out, place.offset)?;
    out.push(' ')
}

/// Appends a statement to `out`, on a new line that is indented by `depth`. If the statement is an I/O check and
/// `behind_call` is true, it is appended to the line of the call before it.
fn push_line(
    out: &mut String,
    depth: usize,
    behind_call: bool,
    left: &Left,
    phrase: &Phrase,
) -> Result<(), AllocError>
    ensures text { OnOk result (string_bytes out.new
        ≡ string_bytes out.old ++ texts.line depth behind_call left.now phrase.now) }
{
    if behind_call && is_check(left) {
        return push_beside(out, phrase);
    }
    push_front(out, left.place)?;
    push_blanks(out, depth)?;
    push_own(out, left.leaves, phrase)
}

/// Appends the statements `lefts`, whose texts are `phrases`, to `out`. Each statement is indented by the number that
/// `depths` has for its offset.
#[tactic(auto, using(crate::proofs::Listed::lines_none))]
fn push_lines(
    out: &mut String,
    depths: &Depths,
    lefts: &[Left],
    phrases: &[Phrase],
) -> Result<(), AllocError>
    ensures text { OnOk result (string_bytes out.new
        ≡ string_bytes out.old ++ texts.lines depths.now false lefts.now phrases.now) }
{
    let mut behind_call = false;
    let mut rest = phrases;
    for left in lefts {
        let Some((phrase, more)) = rest.split_first() else {
            return Ok(());
        };
        let depth = depths.at_place(left.place.offset);
        push_line(out, depth, behind_call, left, phrase)?;
        behind_call = is_call(left);
        rest = more;
    }
    Ok(())
}

/// Appends the lines of `statements` to `out`, each after a line feed. Each statement is indented by the number that
/// `depths` has for its offset.
#[tactic(auto, using(pm_trees::proofs::Ends::twice_reversed))]
pub fn push_statements(
    out: &mut String,
    depths: &Depths,
    statements: &Pile,
) -> Result<(), AllocError>
    ensures text { OnOk result (string_bytes out.new
        ≡ string_bytes out.old ++ texts.pile_lines depths.now statements.now) }
{
    push_lines(out, depths, &statements.lefts, &statements.phrases)
}
