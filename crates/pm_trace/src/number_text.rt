//! The text of instructions whose operands are numbers. The text is appended to a page, which is the output buffer.

ghost use Rattle.std.specs.Prelude.{◌≡◌, ◌<◌, ◌≤◌, ◌∷◌, ◌++◌, ◌+◌, ◌*◌, length, slice_index, IfOk, OnOk, if◌then◌else◌};
ghost use Rattle.std.specs.Fmt.{decimal};
ghost use Rattle.pm_opcode.specs.Spelling.{signed_byte};
ghost use Rattle.pm_opcode.specs.Table.{form_of, implied, mnemonic_of};
ghost use Rattle.pm_code.specs.Text.{implied_texts, operands_text, signed_text};
ghost use Rattle.pm_disasm.specs.Text.{text_at};

use pm_opcode::{Form, form_at, implied_number, row_at};
use std::alloc::AllocError;

/// Appends the character `lead` and `number` in decimal to `page`.
#[inline(always)]
#[tactic(auto, using(crate::proofs::Decimals::one_digit, crate::proofs::Decimals::two_digits))]
fn add_number(page: &mut Vec<u8>, lead: u8, number: u16) -> Result<(), AllocError>
    ensures text { OnOk result (page.new.items ≡ page.old.items ++ lead ∷ decimal number) }
{
    if number < 10 {
        page.extend_from_slice(&[lead, b'0' + number as u8])
    } else if number < 100 {
        let tens = b'0' + (number / 10) as u8;
        page.extend_from_slice(&[lead, tens, b'0' + (number % 10) as u8])
    } else {
        add_long_number(page, lead, number)
    }
}

/// Appends the character `lead` and `number`, which has three to five digits, to `page`.
#[inline(never)]
#[tactic(auto, using(crate::proofs::Decimals::three_digits, crate::proofs::Decimals::four_digits, crate::proofs::Decimals::five_digits))]
fn add_long_number(page: &mut Vec<u8>, lead: u8, number: u16) -> Result<(), AllocError>
    requires long { 100 ≤ number }
    ensures text { OnOk result (page.new.items ≡ page.old.items ++ lead ∷ decimal number) }
{
    let tens = number / 10;
    let hundreds = tens / 10;
    let thousands = hundreds / 10;
    let first = b'0' + (number % 10) as u8;
    let second = b'0' + (tens % 10) as u8;
    let third = b'0' + (hundreds % 10) as u8;
    let fourth = b'0' + (thousands % 10) as u8;
    let fifth = b'0' + (thousands / 10) as u8;
    if number < 1000 {
        page.extend_from_slice(&[lead, third, second, first])
    } else if number < 10000 {
        page.extend_from_slice(&[lead, fourth, third, second, first])
    } else {
        page.extend_from_slice(&[lead, fifth, fourth, third, second, first])
    }
}

/// Appends the mnemonic of the opcode `op`, and the number that the opcode contains, if any.
#[inline(always)]
fn add_plain(page: &mut Vec<u8>, op: u8) -> Result<(), AllocError>
    ensures text { OnOk result (page.new.items
        ≡ page.old.items ++ mnemonic_of op ++ operands_text (implied_texts (implied op))) }
{
    page.extend_from_slice(row_at(op).mnemonic.as_bytes())?;
    match implied_number(op) {
        None => Ok(()),
        Some(number) => add_number(page, b' ', u16::from(number)),
    }
}

/// Appends the mnemonic of the opcode `op` and `byte` as a number.
#[inline(always)]
fn add_byte(page: &mut Vec<u8>, op: u8, byte: u8) -> Result<(), AllocError>
    ensures text { OnOk result (page.new.items ≡ page.old.items ++ mnemonic_of op ++ 32 ∷ decimal byte) }
{
    page.extend_from_slice(row_at(op).mnemonic.as_bytes())?;
    add_number(page, b' ', u16::from(byte))
}

/// Appends the mnemonic of the opcode `op` and the word with the bytes `low` and `high`.
#[inline(always)]
fn add_word(page: &mut Vec<u8>, op: u8, low: u8, high: u8) -> Result<(), AllocError>
    ensures text { OnOk result (page.new.items
        ≡ page.old.items ++ mnemonic_of op ++ 32 ∷ decimal (low + 256 * high)) }
{
    page.extend_from_slice(row_at(op).mnemonic.as_bytes())?;
    add_number(page, b' ', u16::from(low) + 256 * u16::from(high))
}

/// Appends the mnemonic of the opcode `op` and `byte` as a signed number.
#[inline(always)]
#[tactic(auto, using(crate::proofs::ShortText::positive, crate::proofs::ShortText::negative))]
fn add_signed(page: &mut Vec<u8>, op: u8, byte: u8) -> Result<(), AllocError>
    ensures text { OnOk result (page.new.items
        ≡ page.old.items ++ mnemonic_of op ++ 32 ∷ signed_text (signed_byte byte)) }
{
    page.extend_from_slice(row_at(op).mnemonic.as_bytes())?;
    if byte < 128 {
        return add_number(page, b' ', u16::from(byte));
    }
    page.push(b' ')?;
    add_number(page, b'-', 256 - u16::from(byte))
}

/// Appends the mnemonic of the opcode `op` and the bytes `first` and `second` as numbers.
#[inline(always)]
fn add_pair(page: &mut Vec<u8>, op: u8, first: u8, second: u8) -> Result<(), AllocError>
    ensures text { OnOk result (page.new.items
        ≡ page.old.items ++ mnemonic_of op ++ 32 ∷ decimal first ++ 44 ∷ 32 ∷ decimal second) }
{
    page.extend_from_slice(row_at(op).mnemonic.as_bytes())?;
    add_number(page, b' ', u16::from(first))?;
    page.push(b',')?;
    add_number(page, b' ', u16::from(second))
}

/// Appends the text of the instruction at offset `at` of `bytes` to `page`, and returns true. The operands must be
/// none, a byte, a word, a number of one byte, or a byte and such a number. For another instruction, or one near the
/// end of `bytes`, the function returns false and appends nothing.
#[inline(always)]
pub(crate) fn add_short(page: &mut Vec<u8>, bytes: &[u8], at: usize) -> Result<bool, AllocError>
    requires inside { at < length bytes.now }
    ensures text { IfOk result (λ added. page.new.items
        ≡ (if added then page.old.items ++ text_at bytes.now at else page.old.items)) }
{
    let op = bytes[at];
    if bytes.len() - at < 3 {
        return Ok(false);
    }
    let (a, b) = (bytes[at + 1], bytes[at + 2]);
    match form_at(op) {
        Form::Plain => add_plain(page, op)?,
        Form::Ub => add_byte(page, op, a)?,
        Form::Db => add_byte(page, op, a)?,
        Form::W => add_word(page, op, a, b)?,
        Form::Sb => add_signed(page, op, a)?,
        Form::B => {
            if a >= 128 {
                return Ok(false);
            }
            add_byte(page, op, a)?;
        }
        Form::DbB => {
            if b >= 128 {
                return Ok(false);
            }
            add_pair(page, op, a, b)?;
        }
        _ => return Ok(false),
    }
    Ok(true)
}
