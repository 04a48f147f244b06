//! The texts of calls and returns.

ghost use Rattle.std.specs.Prelude.{◌≡◌, ◌++◌, IfOk, OnOk, string_bytes};
ghost use Rattle.std.specs.Fmt.{decimal};
ghost use Rattle.pm_phrases.specs.Calls as texts;
ghost use Rattle.pm_phrases.specs.Missing.{stand_ins};

use crate::around::{Missing, push_arguments};
use crate::leaf::{Leaf, push_number};
use crate::operand::{Form, Phrase, ROOM, leafed, valued};
use pm_families::{Call, Return};
use pm_notes::{standard_name, system_name};
use pm_opcode::Operation;
use std::alloc::{AllocError, Global};

/// Appends `name`, followed by `number` in decimal.
fn push_numbered(out: &mut String, name: &str, number: u8) -> Result<(), AllocError>
    ensures text { OnOk result (string_bytes out.new ≡ string_bytes out.old ++ (name.now ++ decimal number)) }
{
    out.push_str(name)?;
    push_number(out, u32::from(number))
}

/// Appends the name of the procedure that `call` calls, such as `CLP_2`. A procedure of the operating system may have
/// its own name.
#[tactic(auto, unfolding(crate::specs::Calls::called_text, crate::specs::Calls::external_name))]
fn push_called(out: &mut String, call: Call) -> Result<(), AllocError>
    ensures text { OnOk result (string_bytes out.new ≡ string_bytes out.old ++ texts.called_text call) }
{
    match call {
        Call::Clp(number) => push_numbered(out, "CLP_", number),
        Call::Cgp(number) => push_numbered(out, "CGP_", number),
        Call::Cbp(number) => push_numbered(out, "CBP_", number),
        Call::Cip(number) => push_numbered(out, "CIP_", number),
        Call::Cxp(segment, number) => {
            let name = if segment == 0 {
                system_name(number)
            } else {
                None
            };
            match name {
                Some(name) => out.push_str(name),
                None => {
                    push_numbered(out, "CXP_", segment)?;
                    push_numbered(out, "_", number)
                }
            }
        }
    }
}

#[tactic(auto, unfolding(crate::specs::Calls::called, crate::specs::Calls::standard_call))]
pub(crate) fn called(
    alloc: Global,
    what: Operation,
    known: bool,
    missing: Missing,
    operands: &[Phrase],
) -> Result<Option<Phrase>, AllocError>
    ensures shown { IfOk result (λ p. p ≡ texts.called what (stand_ins known missing ++ operands.now)) }
{
    match what {
        Operation::Call(call) => {
            let mut text = String::with_capacity(alloc, ROOM)?;
            push_called(&mut text, call)?;
            push_arguments(&mut text, known, missing, operands)?;
            Ok(Some(valued(text, 9)))
        }
        Operation::Standard(number) => {
            let Some(name) = standard_name(number) else {
                return Ok(None);
            };
            let mut text = String::with_capacity(alloc, ROOM)?;
            text.push_str(name)?;
            push_arguments(&mut text, known, missing, operands)?;
            Ok(Some(valued(text, 9)))
        }
        _ => Ok(None),
    }
}

#[tactic(auto, unfolding(crate::specs::Calls::returned))]
pub(crate) fn returned(alloc: Global, what: Return) -> Result<Phrase, AllocError>
    ensures shown { IfOk result (λ p. p ≡ texts.returned what) }
{
    let (name, words) = match what {
        Return::Normal(words) => ("RETURN", words),
        Return::Base(words) => ("RETURN FROM BASE", words),
    };
    if words == 0 {
        return Ok(leafed(Leaf::Fixed(name), Form::Value(0)));
    }
    let mut text = String::with_capacity(alloc, ROOM)?;
    text.push_str(name)?;
    text.push(' ')?;
    push_number(&mut text, u32::from(words))?;
    Ok(valued(text, 0))
}
