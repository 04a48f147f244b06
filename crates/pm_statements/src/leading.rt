//! The targets of the jumps that statements contain.

ghost use Rattle.std.specs.Prelude.{◌≡◌, drop, IfOk};
ghost use Rattle.pm_statements.specs.Leading as leading;

use pm_code::Target;
use pm_families::Condition;
use pm_phrases::{Form, Phrase};
use pm_trees::{Leads, Left, Role, Statement};
use std::alloc::{AllocError, Global};

/// Returns the offset of `target`. Returns None if `entries`, the jump table, lacks the entry that `target` uses.
fn place_in(entries: &[usize], target: Target<usize>) -> Option<usize>
    ensures place { result ≡ leading.place_in entries.now target }
{
    match target {
        Target::To(place) => Some(place),
        Target::Through(k) => entries.get(usize::from(k)).copied(),
    }
}

/// Returns the offset `place` as a number of bytes from `start`, or None if `place` is before `start`.
fn from_start(start: usize, place: Option<usize>) -> Option<usize>
    ensures place { result ≡ leading.from_start start place }
{
    match place {
        Some(place) => place.checked_sub(start),
        None => None,
    }
}

/// Returns whether a text of this form is a statement. The other texts are lines of the disassembly in braces.
fn is_sentence(form: Form) -> bool
    ensures value { result ≡ leading.is_sentence form }
{
    match form {
        Form::Value(strength) => strength == 0,
        _ => false,
    }
}

/// Returns where a jump with `condition` to the offset `place` leads. A conditional jump leads nowhere if its text is
/// not a statement. Any jump leads nowhere if `place` is None.
fn leads_to(condition: Condition, form: Form, place: Option<usize>) -> Leads
    ensures leads { result ≡ leading.leads_to condition form place }
{
    let Some(place) = place else {
        return Leads::Nowhere;
    };
    match condition {
        Condition::Always => Leads::Always(place),
        Condition::IfFalse | Condition::IfDifferent | Condition::IfEqual => {
            if is_sentence(form) {
                Leads::ByCondition(place)
            } else {
                Leads::Nowhere
            }
        }
    }
}

/// Returns where a case jump with a text of this form leads.
fn leads_by_value(form: Form) -> Leads
    ensures leads { result ≡ leading.leads_by_value form }
{
    if is_sentence(form) {
        Leads::ByValue
    } else {
        Leads::Nowhere
    }
}

/// Returns where a statement with `role` and `phrase` leads. Targets are counted in bytes from `start`.
fn leads_by(start: usize, entries: &[usize], role: Role, phrase: &Phrase) -> Leads
    ensures leads { result ≡ leading.leads_by start entries.now role phrase.now.form }
{
    match role {
        Role::Jump(condition, target) => {
            let place = from_start(start, place_in(entries, target));
            leads_to(condition, phrase.form, place)
        }
        Role::Case => leads_by_value(phrase.form),
        Role::Call | Role::Check | Role::Other => Leads::Nowhere,
    }
}

/// Returns the offset of the first statement of `lefts`, or `end` if `lefts` is empty.
fn next_place(end: usize, lefts: &[Left]) -> usize
    ensures place { result ≡ leading.next_place end lefts.now }
{
    match lefts.split_first() {
        Some((next, _)) => next.place.offset,
        None => end,
    }
}

/// Returns `list` without its first item. An empty list remains empty.
pub(crate) fn behind_first<T>(list: &[T]) -> &[T]
    ensures rest { result.now ≡ drop 1 list.now }
{
    match list.split_first() {
        Some((_, rest)) => rest,
        None => list,
    }
}

/// Returns the code ranges of the statements `lefts`, and where each statement leads. `start` and `end` are the offsets
/// at which the code starts and ends.
pub(crate) fn stretches(
    alloc: Global,
    start: usize,
    entries: &[usize],
    end: usize,
    lefts: &[Left],
    phrases: &[Phrase],
) -> Result<Vec<Statement>, AllocError>
    ensures stretches { IfOk result (λ ss. ss.items ≡ leading.stretches start entries.now end lefts.now phrases.now) }
{
    let mut list = Vec::with_capacity(alloc, lefts.len())?;
    let mut rest = phrases;
    let mut more = lefts;
    for left in lefts {
        let Some((phrase, others)) = rest.split_first() else {
            return Ok(list);
        };
        more = behind_first(more);
        list.push(Statement {
            at: left.place.offset.saturating_sub(start),
            behind: next_place(end, more).saturating_sub(start),
            leads: leads_by(start, entries, left.role, phrase),
        })?;
        rest = others;
    }
    Ok(list)
}
