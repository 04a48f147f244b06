//! The texts of operations on words as integers.

ghost use Rattle.std.specs.Prelude.{◌≡◌, IfOk};
ghost use Rattle.pm_phrases.specs.Arithmetic as texts;

use crate::leaf::{Leaf, Text, push_text};
use crate::literals::push_beside;
use crate::operand::{
    Form, Phrase, ROOM, leafed, push_operand, push_sign, push_value, room_for, standing, valued,
};
use crate::signs::{binary_sign, relation_sign};
use crate::spelling::{Spelling, marks_of};
use pm_families::{Arithmetic, Unary};
use std::alloc::{AllocError, Global};

#[tactic(auto, unfolding(crate::specs::Arithmetic::arithmetic_alone))]
pub(crate) fn arithmetic_alone(
    alloc: Global,
    spelling: Spelling,
    what: Arithmetic,
) -> Result<Option<Phrase>, AllocError>
    ensures shown { IfOk result (λ p. p ≡ texts.arithmetic_alone spelling what) }
{
    match what {
        Arithmetic::Constant(word) => match spelling {
            Spelling::Shortest => Ok(Some(leafed(Leaf::Number(word), Form::Constant(word)))),
            _ => {
                let mut text = String::with_capacity(alloc, ROOM)?;
                push_text(&mut text, &Text::Leaf(Leaf::Number(word)))?;
                text.push_str(marks_of(spelling))?;
                let strength = if word < 32768 { 9 } else { 4 };
                Ok(Some(standing(Text::Written(text), Form::Value(strength))))
            }
        },
        Arithmetic::Nil => Ok(Some(leafed(Leaf::Fixed("NIL"), Form::Value(9)))),
        _ => Ok(None),
    }
}

#[tactic(auto, unfolding(crate::specs::Arithmetic::arithmetic_one, crate::specs::Arithmetic::unary_on))]
pub(crate) fn arithmetic_one(
    alloc: Global,
    what: Arithmetic,
    a: &Phrase,
) -> Result<Option<Phrase>, AllocError>
    ensures shown { IfOk result (λ p. p ≡ texts.arithmetic_one what a.now) }
{
    let Arithmetic::OnOne(o) = what else {
        return Ok(None);
    };
    let mut text = String::with_capacity(alloc, room_for(ROOM, a))?;
    let (name, strength) = match o {
        Unary::Absolute => ("ABS(", 9),
        Unary::Negate => ("-(", 4),
        Unary::Square => ("SQR(", 9),
        Unary::Complement => {
            text.push_str("NOT ")?;
            push_operand(&mut text, a, 4)?;
            return Ok(Some(valued(text, 4)));
        }
    };
    text.push_str(name)?;
    push_value(&mut text, a)?;
    text.push(')')?;
    Ok(Some(valued(text, strength)))
}

#[tactic(auto, unfolding(crate::specs::Arithmetic::arithmetic_two, crate::specs::Arithmetic::between, crate::specs::Arithmetic::compared))]
pub(crate) fn arithmetic_two(
    alloc: Global,
    what: Arithmetic,
    a: &Phrase,
    b: &Phrase,
) -> Result<Option<Phrase>, AllocError>
    ensures shown { IfOk result (λ p. p ≡ texts.arithmetic_two what a.now b.now) }
{
    match (a.form, what) {
        (Form::Set(_), _) => Ok(None),
        (_, Arithmetic::OnTwo(o)) => {
            let (sign, strength) = binary_sign(o);
            let mut text = String::with_capacity(alloc, room_for(room_for(ROOM, a), b))?;
            push_operand(&mut text, a, strength)?;
            push_sign(&mut text, sign)?;
            push_operand(&mut text, b, strength + 1)?;
            Ok(Some(valued(text, strength)))
        }
        (_, Arithmetic::Compare(r)) => {
            let mut text = String::with_capacity(alloc, room_for(room_for(ROOM, a), b))?;
            push_beside(&mut text, b.form, a, 1)?;
            push_sign(&mut text, relation_sign(r))?;
            push_beside(&mut text, a.form, b, 2)?;
            Ok(Some(valued(text, 1)))
        }
        _ => Ok(None),
    }
}

#[tactic(auto, unfolding(crate::specs::Arithmetic::arithmetic_three))]
pub(crate) fn arithmetic_three(
    alloc: Global,
    what: Arithmetic,
    a: &Phrase,
    b: &Phrase,
    c: &Phrase,
) -> Result<Option<Phrase>, AllocError>
    ensures shown { IfOk result (λ p. p ≡ texts.arithmetic_three what a.now b.now c.now) }
{
    match what {
        Arithmetic::Check => {
            let room = room_for(room_for(room_for(ROOM, a), b), c);
            let mut text = String::with_capacity(alloc, room)?;
            text.push_str("CHECK(")?;
            push_value(&mut text, a)?;
            text.push_str(", ")?;
            push_value(&mut text, b)?;
            text.push_str("..")?;
            push_value(&mut text, c)?;
            text.push(')')?;
            Ok(Some(valued(text, 9)))
        }
        _ => Ok(None),
    }
}
