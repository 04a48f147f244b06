//! The stack effects on the historical machine, of instructions that cause error 11 on this machine.

ghost use Rattle.std.specs.Prelude.{◌≡◌};
ghost use Rattle.pm_effects.specs.History as history;

use crate::effect::Effect;
use crate::table::{effect_of, words};
use pm_families::{Kind, Value};
use pm_opcode::{Instr, Operation};

/// Returns the historical stack effect of the opcode `op`, if it is for real numbers, which have two words, or for
/// variables of other segments. Otherwise returns `None`.
#[tactic(auto, unfolding(crate::specs::History::opcode_effect, crate::specs::History::opcode_effects))]
fn of_opcode(op: u8) -> Option<Effect>
    ensures value { result ≡ history.opcode_effect op }
{
    match op {
        129 | 146 | 153 => Some(words(2, 2)),
        131 | 135 | 144 | 150 => Some(words(4, 2)),
        137 => Some(words(3, 4)),
        138 => Some(words(1, 2)),
        157 | 167 => Some(words(0, 1)),
        209 => Some(words(1, 0)),
        _ => None,
    }
}

/// Returns the historical stack effect of the standard procedure `number`, if it is a function on real numbers or the
/// power of ten. Otherwise returns `None`.
#[tactic(auto, unfolding(crate::specs::History::standard_effect, crate::specs::History::standard_effects))]
fn of_standard(number: u8) -> Option<Effect>
    ensures value { result ≡ history.standard_effect number }
{
    match number {
        23 | 24 => Some(words(2, 1)),
        25 | 26 | 27 | 28 | 29 | 30 | 31 => Some(words(2, 2)),
        36 => Some(words(1, 2)),
        _ => None,
    }
}

/// Returns the historical stack effect of an instruction with the operation `what` and the opcode `op`, if this machine
/// does not execute it. Otherwise returns `None`.
fn historical_effect(what: Operation, op: u8) -> Option<Effect>
    ensures value { result ≡ history.historical_effect what op }
{
    match what {
        Operation::Value(Value::Compare(_, Kind::Real)) => Some(words(4, 1)),
        Operation::Standard(number) => of_standard(number),
        Operation::Unimplemented => of_opcode(op),
        _ => None,
    }
}

/// Returns the stack effect of instruction `i` on this machine or, if this machine defines none, on the historical
/// machine.
///
/// Returns `None` for calls, for `IDSEARCH` and `TREESEARCH`, for standard procedures without a definition, and for
/// opcodes that are not assigned.
pub fn instruction_effect(i: &Instr) -> Option<Effect>
    ensures value { result ≡ history.instruction_effect i.now }
{
    let what = Operation::of(i);
    match effect_of(what) {
        Some(effect) => Some(effect),
        None => historical_effect(what, i.op),
    }
}
