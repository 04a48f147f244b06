//! Texts as operands of other texts. A phrase is the text of an operand, with what this text denotes (its form).

ghost use Rattle.std.specs.Prelude.{◌≡◌, ◌∷◌, ◌++◌, IfOk, IfSome, OnOk, codes, string_bytes};
ghost use Rattle.std.specs.Fmt.{decimal};
ghost use Rattle.std.specs.List.{flat_map};
ghost use Rattle.pm_phrases.specs.Leaves.{bytes_of, leaf_text};
ghost use Rattle.pm_phrases.specs.Shown as shown;

use crate::leaf::{Leaf, Text, push_number, push_text};
use std::alloc::{AllocError, Global};
use std::marker::Model;

/// The initial capacity of a new text, in bytes.
pub(crate) const ROOM: usize = 24;

/// Returns the capacity in bytes of a text that needs `room` bytes and also contains the text of `operand`. The text of
/// `operand` is counted only if it is in memory.
pub(crate) fn room_for(room: usize, operand: &Phrase) -> usize {
    match operand.as_str() {
        Some(text) => room.saturating_add(text.len()),
        None => room,
    }
}

/// What the text of an operand denotes. The form decides how the text is used as a value.
#[derive(Clone, Copy, Drop)]
pub enum Form {
    /// A value. The number is the precedence of the outermost operator of the text; 9 is the highest.
    Value(u8),
    /// A set. The number is the precedence of the outermost operator of the text; 9 is the highest.
    Set(u8),
    /// The number that is shown, in its shortest encoding.
    Constant(u16),
    /// The value of a byte.
    Byte,
    /// The variable at an address. The operand is the address.
    Variable,
    /// A word at a constant distance from an address. The operand is the address of that word.
    Place,
    /// An array element. The operand is its address.
    Element,
    /// Characters in the code. The text denotes their address.
    Literal,
    /// The character of a string at an index. The operand is the pair of address and index.
    Character,
    /// Bits of a word. The operand is their address, their position and their count.
    Bits,
}

/// The text of an operand.
#[derive(Drop)]
pub struct Phrase {
    /// The text.
    pub(crate) text: Text,
    /// What the text denotes.
    pub form: Form,
    /// The bytes of the words, if the operand is an LDC; else `None`.
    pub(crate) words: Option<Vec<u8>>,
}

impl Model for Phrase {
    ghost use Rattle.std.specs.Prelude.{option_map};
    ghost use Rattle.pm_phrases.specs.Leaves.{bytes_of};
    ghost use Rattle.pm_phrases.specs.Shown.{Shown};

    ghost Value = { Shown };

    ghost view = { λ o. record {
      text = bytes_of o.text;
      form = o.form;
      words = option_map (λ bytes. bytes.items) o.words;
    } };
}

impl Phrase {
    /// Returns the text if it is in memory, or `None` if it is generated when needed.
    pub fn as_str(&self) -> Option<&str>
        ensures text { IfSome result (λ text. text.now ≡ self.now.text) }
    {
        match &self.text {
            Text::Written(text) => Some(text.as_str()),
            Text::Leaf(_) => None,
        }
    }

    /// Returns a copy of the text.
    pub fn to_text(&self, alloc: Global) -> Result<String, AllocError>
        ensures text { IfOk result (λ text. string_bytes text ≡ self.now.text) }
    {
        let mut text = String::with_capacity(alloc, ROOM)?;
        push_text(&mut text, &self.text)?;
        Ok(text)
    }
}

/// Returns the precedence of the text of an operand of the form `form`, if it is used as a value.
pub(crate) fn strength_of(form: Form) -> u8
    ensures strength { result ≡ shown.strength_of form }
{
    match form {
        Form::Value(strength) | Form::Set(strength) => strength,
        Form::Constant(word) => { if word < 32768 { 9 } else { 4 } }
        Form::Literal | Form::Byte => 9,
        Form::Variable | Form::Place | Form::Element | Form::Character | Form::Bits => 8,
    }
}

/// Appends the operand `phrase` as a value next to an operator of the precedence `strength`.
///
/// The operand is put in parentheses if its own precedence is lower than `strength`. It is prefixed with `@` if its
/// text denotes what is at an address.
#[tactic(auto, unfolding(crate::specs::Shown::value_text))]
pub(crate) fn push_operand(
    out: &mut String,
    phrase: &Phrase,
    strength: u8,
) -> Result<(), AllocError>
    ensures text { OnOk result
        (string_bytes out.new ≡ string_bytes out.old ++ shown.value_text phrase.now strength) }
{
    let in_brackets = strength_of(phrase.form) < strength;
    if in_brackets {
        out.push('(')?;
    }
    match phrase.form {
        Form::Value(_) | Form::Set(_) | Form::Constant(_) | Form::Byte | Form::Literal => {}
        Form::Variable | Form::Place | Form::Element | Form::Character | Form::Bits => {
            out.push('@')?;
        }
    }
    push_text(out, &phrase.text)?;
    if in_brackets {
        out.push(')')?;
    }
    Ok(())
}

/// Appends the operand `phrase` as a value, without parentheses around it.
pub fn push_value(out: &mut String, phrase: &Phrase) -> Result<(), AllocError>
    ensures text { OnOk result (string_bytes out.new ≡ string_bytes out.old ++ shown.value_text phrase.now 0) }
{
    push_operand(out, phrase, 0)
}

/// Appends `word`, then `number` and `marks` in square brackets, then a space.
pub(crate) fn push_sized(
    out: &mut String,
    word: &str,
    number: u16,
    marks: &str,
) -> Result<(), AllocError>
    ensures text { OnOk result (string_bytes out.new ≡ string_bytes out.old
        ++ (word.now ++ (codes "[" ++ (decimal number ++ (marks.now ++ codes "] "))))) }
{
    out.push_str(word)?;
    out.push('[')?;
    push_number(out, u32::from(number))?;
    out.push_str(marks)?;
    out.push_str("] ")
}

/// Appends the operator `sign` between two spaces.
pub(crate) fn push_sign(out: &mut String, sign: &str) -> Result<(), AllocError>
    ensures text { OnOk result
        (string_bytes out.new ≡ string_bytes out.old ++ (codes " " ++ (sign.now ++ codes " "))) }
{
    out.push(' ')?;
    out.push_str(sign)?;
    out.push(' ')
}

/// Appends the text of what is at the address that `phrase` denotes.
#[tactic(auto, unfolding(crate::specs::Shown::place_text))]
pub(crate) fn push_place(out: &mut String, phrase: &Phrase) -> Result<(), AllocError>
    ensures text { OnOk result (string_bytes out.new ≡ string_bytes out.old ++ shown.place_text phrase.now) }
{
    match phrase.form {
        Form::Variable | Form::Place | Form::Element | Form::Literal => {
            push_text(out, &phrase.text)
        }
        Form::Value(_)
        | Form::Set(_)
        | Form::Constant(_)
        | Form::Byte
        | Form::Character
        | Form::Bits => {
            push_operand(out, phrase, 9)?;
            out.push('^')
        }
    }
}

/// Appends each of `operands` after a comma and a space.
pub(crate) fn push_further(out: &mut String, operands: &[Phrase]) -> Result<(), AllocError>
    ensures text { OnOk result
        (string_bytes out.new ≡ string_bytes out.old ++ flat_map shown.further operands.now) }
{
    for operand in operands {
        out.push_str(", ")?;
        push_value(out, operand)?;
    }
    Ok(())
}

/// Appends `operands` as an argument list in parentheses. Appends nothing if `operands` is empty.
pub(crate) fn push_listed(out: &mut String, operands: &[Phrase]) -> Result<(), AllocError>
    ensures text { OnOk result
        (string_bytes out.new ≡ string_bytes out.old ++ shown.arguments operands.now) }
{
    match operands {
        [] => Ok(()),
        [first, more @ ..] => {
            out.push('(')?;
            push_value(out, first)?;
            push_further(out, more)?;
            out.push(')')
        }
    }
}

/// Returns the operand with the text `text` and the form `form`.
pub(crate) fn standing(text: Text, form: Form) -> Phrase
    ensures standing { result ≡ shown.standing form (bytes_of text) }
{
    Phrase {
        text,
        form,
        words: None,
    }
}

/// Returns the operand with the text of `leaf`, which needs no memory, and the form `form`.
pub(crate) fn leafed(leaf: Leaf, form: Form) -> Phrase
    ensures standing { result ≡ shown.standing form (leaf_text leaf) }
{
    standing(Text::Leaf(leaf), form)
}

/// Returns the operand with the text `text`, as a value of the precedence `strength`.
pub(crate) fn valued(text: String, strength: u8) -> Phrase
    ensures value { result ≡ shown.value strength (string_bytes text) }
{
    standing(Text::Written(text), Form::Value(strength))
}
