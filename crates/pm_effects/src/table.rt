//! The stack effects of operations on this machine.

ghost use Rattle.std.specs.Prelude.{◌≡◌, ◌<◌, ◌≤◌};
ghost use Rattle.pm_effects.specs.Effects as effects;

use crate::effect::{Effect, Share};
use pm_families::{
    Arithmetic, Byte, Condition, Field, Jump, Kind, Literal, Pointer, Set, Text, Value, Variable,
};
use pm_opcode::Operation;

/// Returns the effect of an operation that pops `takes` words and pushes `leaves` words.
pub fn words(takes: u16, leaves: u16) -> Effect
    ensures value { result ≡ effects.words takes leaves }
{
    Effect {
        top: Share::Words(takes),
        below: Share::Words(0),
        leaves: Share::Words(leaves),
    }
}

/// Returns the effect of an operation that pops `takes` words and pushes a set.
fn makes_set(takes: u16) -> Effect
    ensures value { result ≡ effects.makes_set takes }
{
    Effect {
        top: Share::Words(takes),
        below: Share::Words(0),
        leaves: Share::Set,
    }
}

/// Returns the effect of an operation that pops a set and then `below`, and pushes `leaves`.
fn takes_set(below: Share, leaves: Share) -> Effect
    ensures value { result ≡ effects.takes_set below leaves }
{
    Effect {
        top: Share::Set,
        below,
        leaves,
    }
}

fn of_arithmetic(what: Arithmetic) -> Effect
    ensures value { result ≡ effects.arithmetic_effect what }
{
    match what {
        Arithmetic::Constant(_) | Arithmetic::Nil => words(0, 1),
        Arithmetic::OnOne(_) => words(1, 1),
        Arithmetic::OnTwo(_) | Arithmetic::Compare(_) => words(2, 1),
        Arithmetic::Check => words(3, 1),
    }
}

fn of_variable(what: Variable) -> Effect
    ensures value { result ≡ effects.variable_effect what }
{
    match what {
        Variable::Address(_, _) | Variable::Load(_, _) => words(0, 1),
        Variable::Store(_, _) => words(1, 0),
    }
}

fn of_pointer(what: Pointer) -> Effect
    ensures value { result ≡ effects.pointer_effect what }
{
    match what {
        Pointer::Increment(_) | Pointer::Load(_) => words(1, 1),
        Pointer::Index(_) => words(2, 1),
        Pointer::Store | Pointer::Move(_) => words(2, 0),
        Pointer::LoadWords(n) => words(1, u16::from(n)),
        Pointer::StoreWords(n) => words(u16::from(n) + 1, 0),
    }
}

fn of_literal(what: Literal) -> Effect
    ensures value { result ≡ effects.literal_effect what }
{
    match what {
        Literal::String(_) | Literal::Characters(_) => words(0, 1),
        Literal::Words { count, .. } => words(0, (count / 2 % 256) as u16),
    }
}

fn of_set(what: Set) -> Effect
    ensures value { result ≡ effects.set_effect what }
{
    match what {
        Set::Member => takes_set(Share::Words(1), Share::Words(1)),
        Set::Intersection | Set::Union | Set::Difference => takes_set(Share::Set, Share::Set),
        Set::Singleton => makes_set(1),
        Set::Subrange => makes_set(2),
        Set::Adjust(n) => takes_set(Share::Words(0), Share::Words(u16::from(n))),
    }
}

fn of_field(what: Field) -> Effect
    ensures value { result ≡ effects.field_effect what }
{
    match what {
        Field::Index { .. } => words(2, 3),
        Field::Load => words(3, 1),
        Field::Store => words(4, 0),
    }
}

fn of_comparison(kind: Kind) -> Option<Effect>
    ensures value { result ≡ effects.compare_effect kind }
{
    match kind {
        Kind::Real => None,
        Kind::Set => Some(takes_set(Share::Set, Share::Words(1))),
        Kind::String | Kind::Boolean | Kind::Bytes(_) | Kind::Words(_) => Some(words(2, 1)),
    }
}

fn of_value(what: Value) -> Option<Effect>
    ensures value { result ≡ effects.value_effect what }
{
    match what {
        Value::Byte(Byte::Load) => Some(words(2, 1)),
        Value::Byte(Byte::Store) => Some(words(3, 0)),
        Value::Set(what) => Some(of_set(what)),
        Value::Text(Text::Index) => Some(words(2, 2)),
        Value::Text(Text::Assign(_)) => Some(words(2, 0)),
        Value::Field(what) => Some(of_field(what)),
        Value::Compare(_, kind) => of_comparison(kind),
    }
}

fn of_jump(what: Jump) -> Effect
    ensures value { result ≡ effects.jump_effect what }
{
    match what {
        Jump::Short(Condition::Always, _) => words(0, 0),
        Jump::Short(Condition::IfFalse, _) | Jump::Case { .. } => words(1, 0),
        Jump::Short(Condition::IfDifferent | Condition::IfEqual, _) => words(2, 0),
    }
}

/// Returns the stack effect of the standard procedure `number`. Returns `None` if this machine has no such procedure
/// (error 11).
///
/// For `EXIT` (4), and for the procedures that load and unload a segment (21, 22), the effect is what they pop from the
/// caller's stack.
pub fn standard_effect(number: u8) -> Option<Effect>
    ensures value { result ≡ effects.standard_effect number }
{
    match number {
        0 | 39 => Some(words(0, 0)),
        1 | 4 | 9 => Some(words(2, 0)),
        2 | 3 => Some(words(5, 0)),
        5 | 6 => Some(words(6, 0)),
        10 => Some(words(4, 0)),
        11 => Some(words(6, 1)),
        21 | 22 | 32 | 33 | 37 | 38 => Some(words(1, 0)),
        34 | 40 => Some(words(0, 1)),
        35 => Some(words(1, 1)),
        _ => None,
    }
}

/// Returns the stack effect of the operation `what`. Returns `None` for a call, and for an operation that causes error
/// 11 on this machine.
pub fn effect_of(what: Operation) -> Option<Effect>
    ensures value { result ≡ effects.effect_of what }
{
    match what {
        Operation::Arithmetic(what) => Some(of_arithmetic(what)),
        Operation::Variable(what) => Some(of_variable(what)),
        Operation::Pointer(what) => Some(of_pointer(what)),
        Operation::Literal(what) => Some(of_literal(what)),
        Operation::Value(what) => of_value(what),
        Operation::Jump(what) => Some(of_jump(what)),
        Operation::Return(_) | Operation::Nothing | Operation::End => Some(words(0, 0)),
        Operation::Standard(number) => standard_effect(number),
        Operation::Call(_) | Operation::Unimplemented => None,
    }
}
