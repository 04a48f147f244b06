//! The open spans of jumps. A span is a range of code; it is represented by the offset of its end.

ghost use Rattle.std.specs.Prelude.{◌≡◌, reverse, OnOk};
ghost use Rattle.pm_statements.specs.Depths as depths;

use std::alloc::AllocError;

/// Returns whether the innermost span, which is the last of `ends`, ends at `at` or before `at`.
#[tactic(auto, using(pm_trees::proofs::Ends::reverse_pushed))]
fn has_ended(ends: &[usize], at: usize) -> bool
    ensures value { result ≡ depths.has_ended at (reverse ends.now) }
{
    match ends.last() {
        Some(end) => *end <= at,
        None => false,
    }
}

/// Removes from `ends` the innermost spans that end at `at` or before `at`.
#[tactic(auto, using(crate::proofs::Spanned::ended_before, crate::proofs::Spanned::none_ended, crate::proofs::Spanned::some_ended))]
pub(crate) fn close_ended(ends: &mut Vec<usize>, at: usize)
    ensures ends { reverse ends.new.items ≡ depths.open_at at (reverse ends.old.items) }
{
    'spans: while has_ended(ends, at) {
        ends.truncate(ends.len() - 1);
    }
}

/// Opens a span from `at` to `end`, if `end` is given, the span is not empty, and it is inside the innermost open span.
#[tactic(auto, using(pm_trees::proofs::Ends::reverse_pushed))]
pub(crate) fn open_span(
    ends: &mut Vec<usize>,
    at: usize,
    end: Option<usize>,
) -> Result<(), AllocError>
    ensures ends { OnOk result (reverse ends.new.items ≡ depths.with_span at end (reverse ends.old.items)) }
{
    let Some(end) = end else {
        return Ok(());
    };
    let fits = match ends.last() {
        Some(outer) => at < end && end <= *outer,
        None => at < end,
    };
    if fits {
        ends.push(end)?;
    }
    Ok(())
}
