//! The text of case jumps.

ghost use Rattle.std.specs.Prelude.{◌≡◌, ◌%◌, ◌∷◌, ◌++◌, ◌+◌, IfOk, Some};
ghost use Rattle.pm_code.specs.Views.{placed_target};
ghost use Rattle.pm_phrases.specs.Cases as texts;

use crate::jumps::push_target;
use crate::operand::{Phrase, ROOM, push_value, room_for, valued};
use pm_code::{Label, Signed, Target};
use std::alloc::{AllocError, Global};
use std::fmt;

/// Returns the case value that follows `value`. The value after 65,535 (-1) is 0.
fn next_value(value: u16) -> u16
    ensures next { result ≡ texts.next_value value }
{
    if value == 65535 { 0 } else { value + 1 }
}

/// An arm of a case: a case value and the offset of its label, shown as `value: label`.
#[derive(Clone, Copy)]
struct Arm(u16, usize);

impl fmt::Display for Arm {
    ghost output = { λ a. Some (texts.arm_text a.0 a.1) };

    #[tactic(auto, unfolding(crate::specs::Cases::arm_text))]
    fn fmt<W: fmt::Write>(&self, f: &mut fmt::Formatter<W>) -> fmt::Result {
        write!(f, "{}: {}", Signed(self.0), Label(self.1))
    }
}

/// The further arms of a case, each shown after a separator. The first of `places` belongs to `value`, the next one to
/// the next value.
#[derive(Clone, Copy)]
struct MoreArms<'a> {
    value: u16,
    places: &'a [usize],
}

impl fmt::Display for MoreArms<'_> {
    ghost output = { λ a. Some (texts.more_arms a.value a.places.now) };

    fn fmt<W: fmt::Write>(&self, f: &mut fmt::Formatter<W>) -> fmt::Result {
        let mut value = self.value;
        let places = self.places;
        for place in places {
            let arm = Arm(value, *place);
            write!(f, "; {arm}")?;
            value = next_value(value);
        }
        Ok(())
    }
}

/// The table of a case jump: its bounds `low` and `high`, and the offsets of its labels.
#[derive(Clone, Copy)]
pub(crate) struct Table<'a> {
    pub low: u16,
    pub high: u16,
    pub places: &'a [usize],
}

impl fmt::Display for Table<'_> {
    ghost output = { λ t. Some (texts.table_text t.low t.high t.places.now) };

    #[tactic(auto, unfolding(crate::specs::Cases::table_text))]
    fn fmt<W: fmt::Write>(&self, f: &mut fmt::Formatter<W>) -> fmt::Result {
        let low = self.low;
        match self.places {
            [] => write!(f, "{{{}, {}}}", Signed(low), Signed(self.high)),
            [first, places @ ..] => {
                let value = next_value(low);
                write!(f, "{}{}", Arm(low, *first), MoreArms { value, places })
            }
        }
    }
}

#[tactic(auto, unfolding(crate::specs::Cases::case_on))]
pub(crate) fn case_on(
    alloc: Global,
    table: &Table<'_>,
    otherwise: &Target<usize>,
    a: &Phrase,
) -> Result<Phrase, AllocError>
    ensures shown { IfOk result
        (λ p. p ≡ texts.case_on table.now.low table.now.high (placed_target otherwise.now)
        table.now.places.now a.now) }
{
    let mut text = String::with_capacity(alloc, room_for(4 * ROOM, a))?;
    text.push_str("CASE ")?;
    push_value(&mut text, a)?;
    text.push_str(" OF ")?;
    text.write(table)?;
    text.push_str(" ELSE ")?;
    push_target(&mut text, *otherwise)?;
    Ok(valued(text, 0))
}
