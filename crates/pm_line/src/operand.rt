//! Parsing of the operands of instructions and directives. Each function returns `None` if its operand is malformed.

ghost use Rattle.std.specs.Prelude.{◌≡◌, ◌<◌, ◌≤◌, ◌∷◌, [], length, option_map, IfOk, IfSome};
ghost use Rattle.pm_source.specs.Line.{bound_operand, byte_operand, is_plain, jump_operand, label_operand};
ghost use Rattle.pm_source.specs.Line.{lower_hex, number_operand, numeral_operand, size_operand};
ghost use Rattle.pm_source.specs.Line.{slot_operand, text_operand, unescaped, word_operand};
ghost use Rattle.pm_line.specs.Views.{first_unescaped, number_seen, onto_bytes, operand_seen};
ghost use Rattle.pm_line.specs.Views.{labelled_target, text_seen, unescaped_if};

use crate::number::{is_within, number, stored};
use crate::words::is_name;
use pm_code::Target;
use std::alloc::{AllocError, Global};

/// A number, and whether its encoding has two bytes although it is below 128.
#[derive(Clone, Copy)]
pub(crate) struct Number {
    pub value: u16,
    pub long: bool,
}

/// Parses a number. Returns its value modulo `values`, and whether it is from `-below` to `above`.
pub(crate) fn numeral_operand(
    below: u32,
    above: u32,
    values: u32,
    text: &[u8],
) -> Option<(u32, bool)>
    requires some { 0 < values }
    ensures operand { result ≡ numeral_operand below above values text.now }
    ensures small { IfSome result (λ x. x.0 < values) }
{
    let n = number(text)?;
    Some((stored(values, n), is_within(below, above, n)))
}

/// Parses a byte, 0 to 255. Returns its value and whether it is in range.
pub(crate) fn byte_operand(text: &[u8]) -> Option<(u8, bool)>
    ensures operand { result ≡ byte_operand text.now }
{
    let (n, in_range) = numeral_operand(0, 255, 256, text)?;
    Some((n as u8, in_range))
}

/// Parses a word, -32,768 to 65,535. Returns its value modulo 65,536 and whether it is in range.
pub(crate) fn word_operand(text: &[u8]) -> Option<(u16, bool)>
    ensures operand { result ≡ word_operand text.now }
{
    let (n, in_range) = numeral_operand(32768, 65535, 65536, text)?;
    Some((n as u16, in_range))
}

/// Parses a bound of a case jump, -32,768 to 32,767. Returns its value modulo 65,536 and whether it is in range.
pub(crate) fn bound_operand(text: &[u8]) -> Option<(u16, bool)>
    ensures operand { result ≡ bound_operand text.now }
{
    let (n, in_range) = numeral_operand(32768, 32767, 65536, text)?;
    Some((n as u16, in_range))
}

/// Parses the level of a procedure, -128 to 127. Returns its value modulo 256 and whether it is in range.
pub(crate) fn level_operand(text: &[u8]) -> Option<(u8, bool)>
    ensures operand { result ≡ numeral_operand 128 127 256 text.now }
{
    let (n, in_range) = numeral_operand(128, 127, 256, text)?;
    Some((n as u8, in_range))
}

/// Parses the size of a procedure's parameters or locals: an even number of bytes up to 65,534. Returns the size and
/// whether it is in range and even.
pub(crate) fn size_operand(text: &[u8]) -> Option<(u16, bool)>
    ensures operand { result ≡ size_operand text.now }
{
    let (n, in_range) = numeral_operand(0, 65534, 65536, text)?;
    Some((n as u16, in_range && n % 2 == 0))
}

/// Parses the number of a segment, 0 to 15. Returns the number and true, or 16 and false if the number is out of range.
pub(crate) fn slot_operand(text: &[u8]) -> Option<(u8, bool)>
    ensures operand { result ≡ slot_operand text.now }
{
    let n = number(text)?;
    if is_within(0, 15, n) {
        Some((n.magnitude as u8, true))
    } else {
        Some((16, false))
    }
}

/// Parses a number `n` up to 32,767, or `n!` with `n` up to 127. The mark `!` requests an encoding in two bytes.
pub(crate) fn number_operand(text: &[u8]) -> Option<(Number, bool)>
    ensures operand { operand_seen number_seen result ≡ number_operand text.now }
{
    if let [digits @ .., b'!'] = text {
        let (n, in_range) = numeral_operand(0, 127, 65536, digits)?;
        let value = n as u16;
        return Some((Number { value, long: true }, in_range));
    }
    let (n, in_range) = numeral_operand(0, 32767, 65536, text)?;
    let value = n as u16;
    Some((Number { value, long: false }, in_range))
}

/// Parses a label. Returns the label and true.
pub(crate) fn label_operand(text: &[u8]) -> Option<(&[u8], bool)>
    ensures operand { operand_seen text_seen result ≡ label_operand text.now }
{
    if is_name(text) {
        Some((text, true))
    } else {
        None
    }
}

/// Parses the target of a jump: a label, or `^k` for entry k of the jump table. k is at most 59.
pub(crate) fn jump_operand(text: &[u8]) -> Option<(Target<&[u8]>, bool)>
    ensures operand { operand_seen labelled_target result ≡ jump_operand text.now }
{
    match text {
        [b'^', digits @ ..] => {
            let (k, in_range) = numeral_operand(0, 59, 256, digits)?;
            Some((Target::Through(k as u8), in_range))
        }
        label if is_name(label) => Some((Target::To(label), true)),
        _ => None,
    }
}

fn lower_hex(digit: u8) -> Option<u8>
    ensures value { result ≡ lower_hex digit }
    ensures small { IfSome result (λ value. value < 16) }
{
    match digit {
        b'0'..=b'9' => Some(digit - b'0'),
        b'a'..=b'f' => Some(digit - b'a' + 10),
        _ => None,
    }
}

/// Returns whether the character `byte` represents itself between quotes.
fn is_plain(byte: u8) -> bool
    ensures plain { result ≡ is_plain byte }
{
    (32..=126).contains(&byte) && byte != b'"' && byte != b'\\'
}

/// Parses the first byte that the characters between quotes represent. Returns this byte and the remaining characters.
#[tactic(auto, using(crate::proofs::Escapes::plain_slice))]
fn first_unescaped(text: &[u8]) -> Option<(u8, &[u8])>
    requires some { 0 < length text.now }
    ensures front { unescaped text.now ≡ first_unescaped (option_map (λ x. (x.0, x.1.now)) result) }
    ensures shorter { IfSome result (λ x. length x.1.now < length text.now) }
{
    match text {
        [b'\\', high, low, rest @ ..] => {
            let high = lower_hex(*high)?;
            let low = lower_hex(*low)?;
            Some((16 * high + low, rest))
        }
        [byte, rest @ ..] if is_plain(*byte) => Some((*byte, rest)),
        _ => None,
    }
}

/// Parses all characters between quotes. `\` and two lower case hexadecimal digits represent one byte.
#[tactic(auto, using(crate::proofs::Escapes::onto_both))]
fn unescaped(alloc: Global, text: &[u8]) -> Result<Option<Vec<u8>>, AllocError>
    ensures bytes { IfOk result (λ list. option_map (λ bytes. bytes.items) list ≡ unescaped text.now) }
{
    let mut bytes = Vec::new(alloc);
    let mut rest = text;
    'bytes: while !rest.is_empty() {
        let Some((byte, behind)) = first_unescaped(rest) else {
            return Ok(None);
        };
        bytes.push(byte)?;
        rest = behind;
    }
    Ok(Some(bytes))
}

/// Returns the text between a quote at the start of `text` and a quote at its end. Returns `None` if one of them is
/// missing.
#[tactic(auto, using(crate::proofs::Escapes::quoted_slice))]
fn between_quotes(text: &[u8]) -> Option<&[u8]>
    ensures inner { text_operand text.now ≡ unescaped_if (option_map text_seen result) }
{
    match text {
        [b'"', inner @ .., b'"'] => Some(inner),
        _ => None,
    }
}

/// Parses a string in quotes, and returns the bytes that it represents.
///
/// Each character from 32 to 126, except `"` and `\`, represents itself. `\` and two lower case hexadecimal digits
/// represent one byte. Returns `None` if `text` is malformed.
pub fn text_operand(alloc: Global, text: &[u8]) -> Result<Option<Vec<u8>>, AllocError>
    ensures bytes { IfOk result (λ list. option_map (λ bytes. bytes.items) list ≡ text_operand text.now) }
{
    match between_quotes(text) {
        Some(inner) => unescaped(alloc, inner),
        None => Ok(None),
    }
}
