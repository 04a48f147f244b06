//! The texts of operations on bytes, characters of strings, and bits of words.

ghost use Rattle.std.specs.Prelude.{◌≡◌, ◌++◌, IfOk, OnOk, Some, string_bytes};
ghost use Rattle.pm_phrases.specs.Parts as texts;

use crate::leaf::{self, push_number, push_text};
use crate::literals::push_beside;
use crate::operand::{
    Form, Phrase, ROOM, push_place, push_sized, push_value, room_for, standing, valued,
};
use pm_families::{Byte, Field, Text};
use std::alloc::{AllocError, Global};

/// Appends the text of `c` bits from bit `b` of the word at the address `a`, without the closing bracket.
fn push_bits(out: &mut String, a: &Phrase, b: &Phrase, c: &Phrase) -> Result<(), AllocError>
    ensures text { OnOk result (string_bytes out.new ≡ string_bytes out.old ++ texts.bits_text a.now b.now c.now) }
{
    push_place(out, a)?;
    out.push_str(".bits[")?;
    push_value(out, b)?;
    out.push_str(": ")?;
    push_value(out, c)
}

/// Returns the text of a store of the value `b` to the byte or the bits that `a` denotes. `kind` is the form of `a`.
#[tactic(auto, unfolding(crate::specs::Parts::part_stored))]
fn part_stored(alloc: Global, kind: Form, a: &Phrase, b: &Phrase) -> Result<Phrase, AllocError>
    ensures shown { IfOk result (λ p. p ≡ texts.part_stored kind a.now b.now) }
{
    let mut text = String::with_capacity(alloc, room_for(room_for(ROOM, a), b))?;
    push_text(&mut text, &a.text)?;
    text.push_str(" := ")?;
    push_beside(&mut text, kind, b, 0)?;
    Ok(valued(text, 0))
}

#[tactic(auto, unfolding(crate::specs::Parts::byte_one))]
pub(crate) fn byte_one(alloc: Global, what: Byte, a: &Phrase) -> Result<Option<Phrase>, AllocError>
    ensures shown { IfOk result (λ p. p ≡ texts.byte_one what a.now) }
{
    match (what, a.form) {
        (Byte::Load, Form::Character) => {
            Ok(Some(standing(leaf::Text::Written(a.to_text(alloc)?), Form::Byte)))
        }
        _ => Ok(None),
    }
}

#[tactic(auto, unfolding(crate::specs::Parts::byte_two))]
pub(crate) fn byte_two(
    alloc: Global,
    what: Byte,
    a: &Phrase,
    b: &Phrase,
) -> Result<Option<Phrase>, AllocError>
    ensures shown { IfOk result (λ p. p ≡ texts.byte_two what a.now b.now) }
{
    match (what, a.form) {
        (Byte::Load, _) => {
            let mut text = String::with_capacity(alloc, room_for(room_for(ROOM, a), b))?;
            push_place(&mut text, a)?;
            text.push_str(".byte[")?;
            push_value(&mut text, b)?;
            text.push(']')?;
            Ok(Some(standing(leaf::Text::Written(text), Form::Byte)))
        }
        (Byte::Store, Form::Character) => Ok(Some(part_stored(alloc, Form::Byte, a, b)?)),
        _ => Ok(None),
    }
}

#[tactic(auto, unfolding(crate::specs::Parts::byte_three))]
pub(crate) fn byte_three(
    alloc: Global,
    what: Byte,
    a: &Phrase,
    b: &Phrase,
    c: &Phrase,
) -> Result<Option<Phrase>, AllocError>
    ensures shown { IfOk result (λ p. p ≡ texts.byte_three what a.now b.now c.now) }
{
    match what {
        Byte::Load => Ok(None),
        Byte::Store => {
            let room = room_for(room_for(room_for(ROOM, a), b), c);
            let mut text = String::with_capacity(alloc, room)?;
            push_place(&mut text, a)?;
            text.push_str(".byte[")?;
            push_value(&mut text, b)?;
            text.push_str("] := ")?;
            push_beside(&mut text, Form::Byte, c, 0)?;
            Ok(Some(valued(text, 0)))
        }
    }
}

#[tactic(auto, unfolding(crate::specs::Parts::text_two))]
pub(crate) fn text_two(
    alloc: Global,
    what: Text,
    a: &Phrase,
    b: &Phrase,
) -> Result<Phrase, AllocError>
    ensures shown { IfOk result (λ p. p ≡ texts.text_two what a.now b.now) }
{
    match what {
        Text::Index => {
            let mut text = String::with_capacity(alloc, room_for(room_for(ROOM, a), b))?;
            push_place(&mut text, a)?;
            text.push_str(".char[")?;
            push_value(&mut text, b)?;
            text.push(']')?;
            Ok(standing(leaf::Text::Written(text), Form::Character))
        }
        Text::Assign(n) => {
            let mut text = String::with_capacity(alloc, room_for(room_for(ROOM, a), b))?;
            push_place(&mut text, a)?;
            push_sized(&mut text, " := string", u16::from(n), "")?;
            push_place(&mut text, b)?;
            Ok(valued(text, 0))
        }
    }
}

#[tactic(auto, unfolding(crate::specs::Parts::field_two, crate::specs::Parts::packed))]
pub(crate) fn field_two(
    alloc: Global,
    what: Field,
    a: &Phrase,
    b: &Phrase,
) -> Result<Option<Phrase>, AllocError>
    ensures shown { IfOk result (λ p. p ≡ texts.field_two what a.now b.now) }
{
    match (what, a.form) {
        (Field::Index { per_word, width }, _) => {
            let mut text = String::with_capacity(alloc, room_for(room_for(2 * ROOM, a), b))?;
            push_place(&mut text, a)?;
            text.push_str(".packed[")?;
            push_value(&mut text, b)?;
            text.push_str(": ")?;
            push_number(&mut text, u32::from(per_word))?;
            text.push_str(" of ")?;
            push_number(&mut text, u32::from(width))?;
            text.push_str(" bits]")?;
            Ok(Some(standing(leaf::Text::Written(text), Form::Bits)))
        }
        (Field::Store, Form::Bits) => Ok(Some(part_stored(alloc, Form::Bits, a, b)?)),
        _ => Ok(None),
    }
}

#[tactic(auto, unfolding(crate::specs::Parts::field_three))]
pub(crate) fn field_three(
    alloc: Global,
    what: Field,
    a: &Phrase,
    b: &Phrase,
    c: &Phrase,
) -> Result<Option<Phrase>, AllocError>
    ensures shown { IfOk result (λ p. p ≡ texts.field_three what a.now b.now c.now) }
{
    match what {
        Field::Load => {
            let room = room_for(room_for(room_for(ROOM, a), b), c);
            let mut text = String::with_capacity(alloc, room)?;
            push_bits(&mut text, a, b, c)?;
            text.push(']')?;
            Ok(Some(valued(text, 9)))
        }
        _ => Ok(None),
    }
}

#[tactic(auto, unfolding(crate::specs::Parts::field_four))]
pub(crate) fn field_four(
    alloc: Global,
    what: Field,
    a: &Phrase,
    b: &Phrase,
    c: &Phrase,
    d: &Phrase,
) -> Result<Option<Phrase>, AllocError>
    ensures shown { IfOk result (λ p. p ≡ texts.field_four what a.now b.now c.now d.now) }
{
    match what {
        Field::Store => {
            let room = room_for(room_for(room_for(room_for(2 * ROOM, a), b), c), d);
            let mut text = String::with_capacity(alloc, room)?;
            push_bits(&mut text, a, b, c)?;
            text.push_str("] := ")?;
            push_value(&mut text, d)?;
            Ok(Some(valued(text, 0)))
        }
        _ => Ok(None),
    }
}
