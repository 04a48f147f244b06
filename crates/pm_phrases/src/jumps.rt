//! The texts of jumps.

ghost use Rattle.std.specs.Prelude.{◌≡◌, ◌++◌, IfOk, OnOk, string_bytes};
ghost use Rattle.pm_code.specs.Shown.{padded, target_text};
ghost use Rattle.pm_code.specs.Views.{placed_target};
ghost use Rattle.pm_phrases.specs.Jumps as texts;

use crate::leaf::push_number;
use crate::operand::{Phrase, ROOM, push_operand, push_value, room_for, valued};
use pm_code::{FiveDigits, Target};
use pm_families::{Condition, Jump};
use pm_opcode::{Instr, Operation};
use std::alloc::{AllocError, Global};

/// Returns the condition of the short jump with the opcode `op`, or `None` if `op` is not the opcode of a short jump.
#[tactic(auto, unfolding(crate::specs::Jumps::condition_of))]
pub fn condition_of(op: u8) -> Option<Condition>
    ensures condition { result ≡ texts.condition_of op }
{
    match Operation::of(&Instr::bare(op)) {
        Operation::Jump(Jump::Short(condition, _)) => Some(condition),
        _ => None,
    }
}

/// Appends `offset` with at least five decimal digits.
#[tactic(auto, using(pm_code::proofs::Digits::padded_written))]
pub fn push_offset(out: &mut String, offset: usize) -> Result<(), AllocError>
    ensures text { OnOk result (string_bytes out.new ≡ string_bytes out.old ++ padded 5 offset) }
{
    if offset > 99_999 {
        return out.write(FiveDigits(offset));
    }
    let tens = offset / 10;
    let hundreds = tens / 10;
    let thousands = hundreds / 10;
    out.push(char::from(48 + (thousands / 10) as u8))?;
    out.push(char::from(48 + (thousands % 10) as u8))?;
    out.push(char::from(48 + (hundreds % 10) as u8))?;
    out.push(char::from(48 + (tens % 10) as u8))?;
    out.push(char::from(48 + (offset % 10) as u8))?;
    Ok(())
}

/// Appends `target`, the target of a jump: a label, or `^` and the number of the jump table entry.
pub fn push_target(out: &mut String, target: Target<usize>) -> Result<(), AllocError>
    ensures text { OnOk result
        (string_bytes out.new ≡ string_bytes out.old ++ target_text (placed_target target)) }
{
    match target {
        Target::To(place) => {
            out.push('L')?;
            push_offset(out, place)
        }
        Target::Through(entry) => {
            out.push('^')?;
            push_number(out, u32::from(entry))
        }
    }
}

#[tactic(auto, unfolding(crate::specs::Jumps::jump_alone))]
pub(crate) fn jump_alone(
    alloc: Global,
    op: u8,
    target: &Target<usize>,
) -> Result<Option<Phrase>, AllocError>
    ensures shown { IfOk result (λ p. p ≡ texts.jump_alone op (placed_target target.now)) }
{
    match condition_of(op) {
        Some(Condition::Always) => {
            let mut text = String::with_capacity(alloc, ROOM)?;
            text.push_str("GOTO ")?;
            push_target(&mut text, *target)?;
            Ok(Some(valued(text, 0)))
        }
        _ => Ok(None),
    }
}

#[tactic(auto, unfolding(crate::specs::Jumps::jump_one))]
pub(crate) fn jump_one(
    alloc: Global,
    op: u8,
    target: &Target<usize>,
    a: &Phrase,
) -> Result<Option<Phrase>, AllocError>
    ensures shown { IfOk result (λ p. p ≡ texts.jump_one op (placed_target target.now) a.now) }
{
    match condition_of(op) {
        Some(Condition::IfFalse) => {
            let mut text = String::with_capacity(alloc, room_for(2 * ROOM, a))?;
            text.push_str("IF NOT (")?;
            push_value(&mut text, a)?;
            text.push_str(") GOTO ")?;
            push_target(&mut text, *target)?;
            Ok(Some(valued(text, 0)))
        }
        _ => Ok(None),
    }
}

#[tactic(auto, unfolding(crate::specs::Jumps::jump_two))]
pub(crate) fn jump_two(
    alloc: Global,
    op: u8,
    target: &Target<usize>,
    a: &Phrase,
    b: &Phrase,
) -> Result<Option<Phrase>, AllocError>
    ensures shown { IfOk result
        (λ p. p ≡ texts.jump_two op (placed_target target.now) a.now b.now) }
{
    let sign = match condition_of(op) {
        Some(Condition::IfDifferent) => " <> ",
        Some(Condition::IfEqual) => " = ",
        _ => return Ok(None),
    };
    let mut text = String::with_capacity(alloc, room_for(room_for(2 * ROOM, a), b))?;
    text.push_str("IF ")?;
    push_operand(&mut text, a, 2)?;
    text.push_str(sign)?;
    push_operand(&mut text, b, 2)?;
    text.push_str(" GOTO ")?;
    push_target(&mut text, *target)?;
    Ok(Some(valued(text, 0)))
}
