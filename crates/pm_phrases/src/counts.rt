//! The text of an item, selected by the number of its operands and by the family of its operation. A family is a group
//! of instructions that do similar things, such as `Pointer` or `Set`.

ghost use Rattle.std.specs.Prelude.{◌≡◌, ◌++◌, IfOk};
ghost use Rattle.pm_code.specs.Views.{placed_item};
ghost use Rattle.pm_opcode.specs.Operations.{operation_of};
ghost use Rattle.pm_phrases.specs.Counts as texts;

use crate::arithmetic::{arithmetic_alone, arithmetic_one, arithmetic_three, arithmetic_two};
use crate::around::{Around, Pops};
use crate::calls::returned;
use crate::cases::{Table, case_on};
use crate::comparisons::compare_two;
use crate::jumps::{jump_alone, jump_one, jump_two};
use crate::literals::literal_alone;
use crate::operand::{Form, Phrase, valued};
use crate::parts::{byte_one, byte_three, byte_two, field_four, field_three, field_two, text_two};
use crate::pointers::{pointer_one, pointer_two};
use crate::sets::{set_four, set_one, set_three, set_two};
use crate::spelling::spelling_of;
use crate::variables::{variable_alone, variable_one};
use pm_code::Item;
use pm_families::{Field, Value};
use pm_opcode::{Instr, Operation};
use std::alloc::{AllocError, Global};

#[tactic(auto, unfolding(crate::specs::Counts::plain_none))]
fn plain_none(
    alloc: Global,
    around: Around,
    i: &Instr,
    what: Operation,
    named: &[u8],
) -> Result<Option<Phrase>, AllocError>
    requires what { what ≡ operation_of i.now }
    ensures shown { IfOk result (λ p. p ≡ texts.plain_none around i.now named.now) }
{
    match what {
        Operation::Arithmetic(o) => arithmetic_alone(alloc, spelling_of(i, what), o),
        Operation::Variable(o) => Ok(variable_alone(around, spelling_of(i, what), o)),
        Operation::Literal(what) => literal_alone(alloc, what, named),
        Operation::Return(what) => Ok(Some(returned(alloc, what)?)),
        _ => Ok(None),
    }
}

#[tactic(auto, unfolding(crate::specs::Counts::plain_one, crate::specs::Parts::field_one))]
fn plain_one(
    alloc: Global,
    around: Around,
    i: &Instr,
    what: Operation,
    a: &Phrase,
) -> Result<Option<Phrase>, AllocError>
    requires what { what ≡ operation_of i.now }
    ensures shown { IfOk result (λ p. p ≡ texts.plain_one around i.now a.now) }
{
    match what {
        Operation::Arithmetic(what) => arithmetic_one(alloc, what, a),
        Operation::Variable(o) => variable_one(alloc, around, spelling_of(i, what), o, a),
        Operation::Pointer(o) => pointer_one(alloc, spelling_of(i, what), o, a),
        Operation::Value(Value::Byte(what)) => byte_one(alloc, what, a),
        Operation::Value(Value::Field(what)) => match (what, a.form) {
            (Field::Load, Form::Bits) => Ok(Some(valued(a.to_text(alloc)?, 9))),
            _ => Ok(None),
        },
        Operation::Value(Value::Set(what)) => set_one(alloc, what, a),
        _ => Ok(None),
    }
}

#[tactic(auto, unfolding(crate::specs::Counts::plain_two))]
fn plain_two(
    alloc: Global,
    i: &Instr,
    what: Operation,
    a: &Phrase,
    b: &Phrase,
) -> Result<Option<Phrase>, AllocError>
    requires what { what ≡ operation_of i.now }
    ensures shown { IfOk result (λ p. p ≡ texts.plain_two i.now a.now b.now) }
{
    match what {
        Operation::Arithmetic(what) => arithmetic_two(alloc, what, a, b),
        Operation::Pointer(o) => pointer_two(alloc, spelling_of(i, what), o, a, b),
        Operation::Value(Value::Byte(what)) => byte_two(alloc, what, a, b),
        Operation::Value(Value::Text(what)) => Ok(Some(text_two(alloc, what, a, b)?)),
        Operation::Value(Value::Field(what)) => field_two(alloc, what, a, b),
        Operation::Value(Value::Set(what)) => set_two(alloc, what, a, b),
        Operation::Value(Value::Compare(r, kind)) => {
            Ok(Some(compare_two(alloc, spelling_of(i, what), r, kind, a, b)?))
        }
        _ => Ok(None),
    }
}

#[tactic(auto, unfolding(crate::specs::Counts::of_none, crate::specs::Counts::operation_in))]
fn of_none(
    alloc: Global,
    around: Around,
    item: &Item<usize>,
    what: Operation,
) -> Result<Option<Phrase>, AllocError>
    requires what { what ≡ texts.operation_in (placed_item item.now) }
    ensures shown { IfOk result (λ p. p ≡ texts.of_none around (placed_item item.now)) }
{
    match item {
        Item::Plain(i, named) => plain_none(alloc, around, i, what, named),
        Item::Jump(op, target) => jump_alone(alloc, *op, target),
        _ => Ok(None),
    }
}

#[tactic(auto, unfolding(crate::specs::Counts::of_one, crate::specs::Counts::operation_in))]
fn of_one(
    alloc: Global,
    around: Around,
    item: &Item<usize>,
    what: Operation,
    a: &Phrase,
) -> Result<Option<Phrase>, AllocError>
    requires what { what ≡ texts.operation_in (placed_item item.now) }
    ensures shown { IfOk result (λ p. p ≡ texts.of_one around (placed_item item.now) a.now) }
{
    match item {
        Item::Plain(i, _) => plain_one(alloc, around, i, what, a),
        Item::Jump(op, target) => jump_one(alloc, *op, target, a),
        Item::Case {
            low: least,
            high: greatest,
            otherwise,
            places,
        } => {
            let (low, high) = (*least, *greatest);
            let table = Table { low, high, places };
            Ok(Some(case_on(alloc, &table, otherwise, a)?))
        }
        Item::OneByte(_) => Ok(None),
    }
}

#[tactic(auto, unfolding(crate::specs::Counts::of_two, crate::specs::Counts::operation_in))]
fn of_two(
    alloc: Global,
    item: &Item<usize>,
    what: Operation,
    a: &Phrase,
    b: &Phrase,
) -> Result<Option<Phrase>, AllocError>
    requires what { what ≡ texts.operation_in (placed_item item.now) }
    ensures shown { IfOk result (λ p. p ≡ texts.of_two (placed_item item.now) a.now b.now) }
{
    match item {
        Item::Plain(i, _) => plain_two(alloc, i, what, a, b),
        Item::Jump(op, target) => jump_two(alloc, *op, target, a, b),
        _ => Ok(None),
    }
}

/// Returns the operation of the instruction `item`, or `Nothing` if `item` is a jump, a case or a single byte.
#[tactic(auto, unfolding(crate::specs::Counts::operation_in))]
pub(crate) fn operation_in(item: &Item<usize>) -> Operation
    ensures operation { result ≡ texts.operation_in (placed_item item.now) }
{
    match item {
        Item::Plain(i, _) => Operation::of(i),
        _ => Operation::Nothing,
    }
}

fn of_three(
    alloc: Global,
    what: Operation,
    a: &Phrase,
    b: &Phrase,
    c: &Phrase,
) -> Result<Option<Phrase>, AllocError>
    ensures shown { IfOk result (λ p. p ≡ texts.three_by a.now b.now c.now what) }
{
    match what {
        Operation::Arithmetic(what) => arithmetic_three(alloc, what, a, b, c),
        Operation::Value(Value::Byte(what)) => byte_three(alloc, what, a, b, c),
        Operation::Value(Value::Field(what)) => field_three(alloc, what, a, b, c),
        Operation::Value(Value::Set(what)) => set_three(alloc, what, a, b, c),
        _ => Ok(None),
    }
}

fn of_four(
    alloc: Global,
    what: Operation,
    a: &Phrase,
    b: &Phrase,
    c: &Phrase,
    d: &Phrase,
) -> Result<Option<Phrase>, AllocError>
    ensures shown { IfOk result (λ p. p ≡ texts.four_by a.now b.now c.now d.now what) }
{
    match what {
        Operation::Value(Value::Field(what)) => field_four(alloc, what, a, b, c, d),
        Operation::Value(Value::Set(what)) => set_four(alloc, what, a, b, c, d),
        _ => Ok(None),
    }
}

/// Returns the text of `item`, whose operation is `what`, applied to the stand-ins `pops` followed by `operands`.
/// Returns `None` if `item` has no special text for this number of operands.
#[tactic(auto, unfolding(crate::specs::Counts::by_count, crate::specs::Counts::of_three, crate::specs::Counts::of_four))]
pub(crate) fn by_count(
    alloc: Global,
    around: Around,
    item: &Item<usize>,
    what: Operation,
    pops: Pops<'_>,
    operands: &[Phrase],
) -> Result<Option<Phrase>, AllocError>
    requires what { what ≡ texts.operation_in (placed_item item.now) }
    ensures shown { IfOk result
        (λ p. p ≡ texts.by_count around (placed_item item.now) (texts.in_order pops.entry ++ operands.now)) }
{
    match (pops, operands) {
        (Pops::None, []) => of_none(alloc, around, item, what),
        (Pops::None, [a]) | (Pops::One(a), []) => of_one(alloc, around, item, what, a),
        (Pops::None, [a, b]) | (Pops::One(a), [b]) | (Pops::Two(a, b), []) => {
            of_two(alloc, item, what, a, b)
        }
        (Pops::None, [a, b, c]) | (Pops::One(a), [b, c]) | (Pops::Two(a, b), [c]) => {
            of_three(alloc, what, a, b, c)
        }
        (Pops::None, [a, b, c, d]) | (Pops::One(a), [b, c, d]) | (Pops::Two(a, b), [c, d]) => {
            of_four(alloc, what, a, b, c, d)
        }
        _ => Ok(None),
    }
}
