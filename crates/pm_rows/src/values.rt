//! The rules of the instructions on bytes, sets, strings and packed fields, and of the typed comparisons.

ghost use Rattle.std.specs.Prelude.{◌≡◌, IfOk};
ghost use Rattle.pm_words.specs.Stack.{IsStack, Changes};
ghost use Rattle.pm_words.specs.Top.{MovesTop};
ghost use Rattle.pm_rows.specs.Values.{field_row, set_row, value_row};

use pm_families::{Byte, Field, Set, Text, Value};
use pm_words::{ExecError, Memory, Top};

// Executes an operation on sets, and returns the new SP. SP and NP are separate numbers, as the functions of pm_values
// require.
#[tactic(auto, unfolding(crate::specs::Values::set_row), using(pm_words::proofs::WatchLaws::stays))]
fn set(memory: &mut Memory, sp: u16, np: u16, operation: Set) -> Result<u16, ExecError>
    ensures row { Changes result memory.old memory.new (set_row operation memory.old.words sp np) }
    ensures stack { IsStack sp np → IfOk result (λ sp. IsStack sp np) }
{
    match operation {
        Set::Member => pm_values::in_set(memory, sp, np),
        Set::Intersection => pm_values::intersect(memory, sp, np),
        Set::Union => pm_values::union(memory, sp, np),
        Set::Difference => pm_values::difference(memory, sp, np),
        Set::Singleton => pm_values::singleton(memory, sp, np),
        Set::Subrange => pm_values::subrange(memory, sp, np),
        Set::Adjust(words) => pm_values::adjust(memory, sp, np, words),
    }
}

#[tactic(auto, unfolding(crate::specs::Values::field_row), using(pm_words::proofs::WatchLaws::stays))]
fn field(memory: &mut Memory, sp: u16, np: u16, operation: Field) -> Result<u16, ExecError>
    ensures row { Changes result memory.old memory.new (field_row operation memory.old.words sp np) }
    ensures stack { IsStack sp np → IfOk result (λ sp. IsStack sp np) }
{
    match operation {
        Field::Index { per_word, width } => {
            pm_values::index_field(memory, sp, np, per_word, width)
        }
        Field::Load => pm_values::load_field(memory, sp, np),
        Field::Store => pm_values::store_field(memory, sp, np),
    }
}

#[inline(always)]
#[tactic(auto, unfolding(crate::specs::Values::value_row), using(pm_words::proofs::WatchLaws::stays))]
fn value(memory: &mut Memory, sp: u16, np: u16, operation: Value) -> Result<u16, ExecError>
    ensures row { Changes result memory.old memory.new (value_row operation memory.old.words sp np) }
    ensures stack { IsStack sp np → IfOk result (λ sp. IsStack sp np) }
{
    match operation {
        Value::Byte(Byte::Load) => pm_values::load_byte(memory, sp, np),
        Value::Byte(Byte::Store) => pm_values::store_byte(memory, sp, np),
        Value::Set(operation) => set(memory, sp, np, operation),
        Value::Text(Text::Index) => pm_values::index_string(memory, sp, np),
        Value::Text(Text::Assign(limit)) => pm_values::assign(memory, sp, np, limit),
        Value::Field(operation) => field(memory, sp, np, operation),
        Value::Compare(relation, kind) => { pm_values::compare(memory, sp, np, relation, kind) }
    }
}

/// Executes an operation on a byte, a set, a string or a packed field, or a typed comparison. Returns SP and NP after
/// the operation.
///
/// # Errors
///
/// The error is the error of the called function of pm_values. It leaves the memory unchanged.
#[inline(always)]
pub fn perform(memory: &mut Memory, top: Top, operation: Value) -> Result<Top, ExecError>
    ensures row { MovesTop result top memory.old memory.new
        (value_row operation memory.old.words top.sp top.np) }
{
    let np = top.np();
    let sp = value(memory, top.sp(), np, operation)?;
    Ok(Top::of(sp, np))
}
