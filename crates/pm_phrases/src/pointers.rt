//! The texts of operations on addresses.

ghost use Rattle.std.specs.Prelude.{◌≡◌, IfOk};
ghost use Rattle.pm_phrases.specs.Pointers as texts;

use crate::leaf::{Text, push_number};
use crate::operand::{
    Form, Phrase, ROOM, push_operand, push_place, push_sized, push_value, room_for, standing,
    valued,
};
use crate::spelling::{Spelling, marks_of};
use pm_families::Pointer;
use std::alloc::{AllocError, Global};

/// Whether the text of a load of word `number` omits this number. The address of word 0 is an operand of the form
/// `form`. The number is omitted if it is 0 in the shortest encoding, except for a variable, a field or a literal.
#[tactic(auto, unfolding(crate::specs::Pointers::is_unnumbered))]
fn is_unnumbered(spelling: Spelling, form: Form, number: u16) -> bool
    ensures unnumbered { result ≡ texts.is_unnumbered spelling form number }
{
    match (spelling, form) {
        (_, Form::Variable | Form::Place | Form::Literal) => false,
        (Spelling::Shortest, _) => number == 0,
        _ => false,
    }
}

#[tactic(auto, unfolding(crate::specs::Pointers::pointer_one, crate::specs::Pointers::loaded))]
pub(crate) fn pointer_one(
    alloc: Global,
    spelling: Spelling,
    what: Pointer,
    a: &Phrase,
) -> Result<Option<Phrase>, AllocError>
    ensures shown { IfOk result (λ p. p ≡ texts.pointer_one spelling what a.now) }
{
    if matches!(
        what,
        Pointer::Index(_) | Pointer::Store | Pointer::StoreWords(_) | Pointer::Move(_)
    ) {
        return Ok(None);
    }
    let mut text = String::with_capacity(alloc, room_for(ROOM, a))?;
    match what {
        Pointer::Increment(n) => {
            push_place(&mut text, a)?;
            text.push('.')?;
            push_number(&mut text, u32::from(n))?;
            text.push_str(marks_of(spelling))?;
            Ok(Some(standing(Text::Written(text), Form::Place)))
        }
        Pointer::Load(n) => {
            push_place(&mut text, a)?;
            if !is_unnumbered(spelling, a.form, n) {
                text.push('.')?;
                push_number(&mut text, u32::from(n))?;
                text.push_str(marks_of(spelling))?;
            }
            Ok(Some(valued(text, 9)))
        }
        Pointer::LoadWords(n) => {
            push_sized(&mut text, "load", u16::from(n), "")?;
            push_place(&mut text, a)?;
            Ok(Some(valued(text, 4)))
        }
        _ => Ok(None),
    }
}

#[tactic(auto, unfolding(crate::specs::Pointers::indexed, crate::specs::Pointers::is_by_word))]
fn indexed(
    alloc: Global,
    spelling: Spelling,
    number: u16,
    a: &Phrase,
    b: &Phrase,
) -> Result<Phrase, AllocError>
    ensures shown { IfOk result (λ p. p ≡ texts.indexed spelling number a.now b.now) }
{
    let mut text = String::with_capacity(alloc, room_for(room_for(ROOM, a), b))?;
    push_place(&mut text, a)?;
    text.push('[')?;
    push_value(&mut text, b)?;
    match spelling {
        Spelling::Shortest if number == 1 => {
            text.push(']')?;
            Ok(standing(Text::Written(text), Form::Element))
        }
        _ => {
            text.push(':')?;
            push_number(&mut text, u32::from(number))?;
            text.push_str(marks_of(spelling))?;
            text.push(']')?;
            Ok(standing(Text::Written(text), Form::Element))
        }
    }
}

#[tactic(auto, unfolding(crate::specs::Pointers::pointer_two, crate::specs::Pointers::moved, crate::specs::Shown::stored_text))]
pub(crate) fn pointer_two(
    alloc: Global,
    spelling: Spelling,
    what: Pointer,
    a: &Phrase,
    b: &Phrase,
) -> Result<Option<Phrase>, AllocError>
    ensures shown { IfOk result (λ p. p ≡ texts.pointer_two spelling what a.now b.now) }
{
    if let Pointer::Index(n) = what {
        return Ok(Some(indexed(alloc, spelling, n, a, b)?));
    }
    let mut text = String::with_capacity(alloc, room_for(room_for(ROOM, a), b))?;
    match (what, a.form) {
        (Pointer::Store, Form::Variable) => {
            push_operand(&mut text, a, 9)?;
            text.push_str("^ := ")?;
            push_value(&mut text, b)?;
        }
        (Pointer::Store, _) => {
            push_place(&mut text, a)?;
            text.push_str(" := ")?;
            push_value(&mut text, b)?;
        }
        (Pointer::StoreWords(n), _) => {
            push_place(&mut text, a)?;
            push_sized(&mut text, " :=", u16::from(n), "")?;
            push_value(&mut text, b)?;
        }
        (Pointer::Move(n), _) => {
            push_place(&mut text, a)?;
            push_sized(&mut text, " := move", n, marks_of(spelling))?;
            push_place(&mut text, b)?;
        }
        _ => return Ok(None),
    }
    Ok(Some(valued(text, 0)))
}
