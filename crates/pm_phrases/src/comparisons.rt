//! The texts of comparisons of strings, truth values, sets, bytes and words.

ghost use Rattle.std.specs.Prelude.{◌≡◌, ◌++◌, IfOk, OnOk, string_bytes};
ghost use Rattle.pm_phrases.specs.Comparisons as texts;

use crate::leaf::push_number;
use crate::operand::{Phrase, ROOM, push_operand, push_place, push_sign, room_for, valued};
use crate::signs::relation_sign;
use crate::spelling::{Spelling, marks_of};
use pm_families::{Kind, Relation};
use std::alloc::{AllocError, Global};

/// Appends the name of `kind`, such as `str` or `bool`. The sizes of bytes and words follow, with the marks of
/// `spelling`.
#[tactic(auto, unfolding(crate::specs::Comparisons::kind_text))]
fn push_kind(out: &mut String, spelling: Spelling, kind: Kind) -> Result<(), AllocError>
    ensures text { OnOk result (string_bytes out.new ≡ string_bytes out.old ++ texts.kind_text spelling kind) }
{
    match kind {
        Kind::Real => out.push_str("real"),
        Kind::String => out.push_str("str"),
        Kind::Boolean => out.push_str("bool"),
        Kind::Set => out.push_str("sets"),
        Kind::Bytes(n) => {
            out.push_str("bytes[")?;
            push_number(out, u32::from(n))?;
            out.push_str(marks_of(spelling))?;
            out.push(']')
        }
        Kind::Words(n) => {
            out.push_str("words[")?;
            push_number(out, u32::from(n))?;
            out.push_str(marks_of(spelling))?;
            out.push(']')
        }
    }
}

/// Returns the text of the comparison `r` of the operands `a` and `b`. Real numbers, truth values and sets are operands
/// themselves. For any other `kind`, the operands are addresses, and the text shows what is at these addresses.
#[tactic(auto, unfolding(crate::specs::Comparisons::compare_two, crate::specs::Comparisons::values_compared, crate::specs::Comparisons::places_compared))]
pub(crate) fn compare_two(
    alloc: Global,
    spelling: Spelling,
    r: Relation,
    kind: Kind,
    a: &Phrase,
    b: &Phrase,
) -> Result<Phrase, AllocError>
    ensures shown { IfOk result (λ p. p ≡ texts.compare_two spelling r kind a.now b.now) }
{
    let mut text = String::with_capacity(alloc, room_for(room_for(ROOM, a), b))?;
    push_kind(&mut text, spelling, kind)?;
    text.push(' ')?;
    match kind {
        Kind::Real | Kind::Boolean | Kind::Set => {
            push_operand(&mut text, a, 2)?;
            push_sign(&mut text, relation_sign(r))?;
            push_operand(&mut text, b, 2)?;
        }
        Kind::String | Kind::Bytes(_) | Kind::Words(_) => {
            push_place(&mut text, a)?;
            push_sign(&mut text, relation_sign(r))?;
            push_place(&mut text, b)?;
        }
    }
    Ok(valued(text, 1))
}
