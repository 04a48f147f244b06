//! The texts of operations on variables.

ghost use Rattle.std.specs.Prelude.{◌≡◌, ◌++◌, IfOk, OnOk, string_bytes};
ghost use Rattle.pm_phrases.specs.Variables as texts;

use crate::around::Around;
use crate::leaf::{Leaf, push_number};
use crate::operand::{Form, Phrase, ROOM, leafed, push_value, valued};
use crate::spelling::{Spelling, marks_of};
use pm_families::{Scope, Variable};
use std::alloc::{AllocError, Global};

/// Returns the prefix of the name of local variable `number` of the procedure `around`: `param` if the variable is a
/// parameter, else `local`.
#[tactic(auto, unfolding(crate::specs::Variables::local_word))]
pub(crate) fn local_word(around: Around, number: u16) -> &'static str
    ensures word { result.now ≡ texts.local_word around number }
{
    if 1 <= number && number <= around.parameters {
        "param"
    } else {
        "local"
    }
}

/// Appends the name of variable `number` of `scope`, with the marks of the encoding `spelling`. `around` is the
/// procedure that uses the variable.
#[tactic(auto, unfolding(crate::specs::Variables::variable_text))]
pub(crate) fn push_name(
    out: &mut String,
    around: Around,
    scope: Scope,
    number: u16,
    spelling: Spelling,
) -> Result<(), AllocError>
    ensures text { OnOk result
        (string_bytes out.new ≡ string_bytes out.old ++ texts.variable_text around scope number spelling) }
{
    match scope {
        Scope::Global => {
            out.push_str("global")?;
            push_number(out, u32::from(number))?;
            out.push_str(marks_of(spelling))
        }
        Scope::Local => {
            out.push_str(local_word(around, number))?;
            push_number(out, u32::from(number))?;
            out.push_str(marks_of(spelling))
        }
        Scope::Intermediate(links) => {
            out.push_str("up")?;
            push_number(out, u32::from(links))?;
            out.push('_')?;
            push_number(out, u32::from(number))?;
            out.push_str(marks_of(spelling))
        }
    }
}

#[tactic(auto, unfolding(crate::specs::Variables::variable_alone))]
pub(crate) fn variable_alone(around: Around, spelling: Spelling, what: Variable) -> Option<Phrase>
    ensures shown { result ≡ texts.variable_alone around spelling what }
{
    match what {
        Variable::Address(scope, number) => {
            let name = Leaf::Variable(around, scope, number, spelling);
            Some(leafed(name, Form::Variable))
        }
        Variable::Load(scope, number) => {
            let name = Leaf::Variable(around, scope, number, spelling);
            Some(leafed(name, Form::Value(9)))
        }
        Variable::Store(_, _) => None,
    }
}

#[tactic(auto, unfolding(crate::specs::Variables::variable_one))]
pub(crate) fn variable_one(
    alloc: Global,
    around: Around,
    spelling: Spelling,
    what: Variable,
    a: &Phrase,
) -> Result<Option<Phrase>, AllocError>
    ensures shown { IfOk result (λ p. p ≡ texts.variable_one around spelling what a.now) }
{
    match what {
        Variable::Store(scope, number) => {
            let mut text = String::with_capacity(alloc, ROOM)?;
            push_name(&mut text, around, scope, number, spelling)?;
            text.push_str(" := ")?;
            push_value(&mut text, a)?;
            Ok(Some(valued(text, 0)))
        }
        _ => Ok(None),
    }
}
