//! The rules of the instructions on words as integers. A line such as `.., a, b -> .., c` shows the stack before and
//! after the instruction, with the top at the right.

ghost use Rattle.std.specs.Prelude.{◌≡◌};
ghost use Rattle.pm_words.specs.Top.{MovesTop};
ghost use Rattle.pm_rows.specs.Integers.{unary, binary, relation};
ghost use Rattle.pm_rows.specs.Arithmetic.{arithmetic_row, binary_row, check_row, constant_row, relation_row};
ghost use Rattle.pm_rows.specs.Arithmetic.{unary_row};

use pm_families::{Arithmetic, Binary, Relation, Unary};
use pm_words::{ExecError, Memory, Top};

// Returns the result of an operation on the word `a`.
#[inline(always)]
fn word_of_one(operation: Unary, a: u16) -> u16
    ensures word { result ≡ unary operation a }
{
    match operation {
        Unary::Absolute => a.cast_signed().unsigned_abs(),
        Unary::Negate => 0u16.wrapping_sub(a),
        Unary::Square => a.wrapping_mul(a),
        Unary::Complement => !a,
    }
}

// Returns the result of an operation on the words `a` and `b`, or the error `DivideByZero`.
#[inline(always)]
fn word_of_two(operation: Binary, a: u16, b: u16) -> Result<u16, ExecError>
    ensures word { result ≡ binary operation a b }
{
    match operation {
        Binary::Add => Ok(a.wrapping_add(b)),
        Binary::Subtract => Ok(a.wrapping_sub(b)),
        Binary::Multiply => Ok(a.wrapping_mul(b)),
        Binary::Divide => quotient(a, b),
        Binary::Modulo => remainder(a, b),
        Binary::And => Ok(a & b),
        Binary::Or => Ok(a | b),
    }
}

// `DVI`: returns the signed quotient of `a` and `b`, rounded toward zero.
fn quotient(a: u16, b: u16) -> Result<u16, ExecError>
    ensures word { result ≡ binary Binary.Divide a b }
{
    if b == 0 {
        return Err(ExecError::DivideByZero);
    }
    let quotient = a.cast_signed().wrapping_div(b.cast_signed());
    Ok(quotient.cast_unsigned())
}

// `MODI`: returns the signed remainder of `a` and `b`, which has the sign of `a`.
fn remainder(a: u16, b: u16) -> Result<u16, ExecError>
    ensures word { result ≡ binary Binary.Modulo a b }
{
    if b == 0 {
        return Err(ExecError::DivideByZero);
    }
    let remainder = a.cast_signed().wrapping_rem(b.cast_signed());
    Ok(remainder.cast_unsigned())
}

// Returns whether the relation is true for `a` and `b` as signed numbers.
#[inline(always)]
fn holds(operation: Relation, a: u16, b: u16) -> bool
    ensures holds { result ≡ relation operation a b }
{
    let left = a.cast_signed();
    let right = b.cast_signed();
    match operation {
        Relation::Equal => a == b,
        Relation::NotEqual => a != b,
        Relation::Less => left < right,
        Relation::LessOrEqual => left <= right,
        Relation::Greater => left > right,
        Relation::GreaterOrEqual => left >= right,
    }
}

// SLDC, LDCI and LDCN. .. -> .., word: pushes `word`.
#[inline(always)]
#[tactic(auto, unfolding(crate::specs::Arithmetic::constant_row), using(pm_words::proofs::WatchLaws::stays))]
fn constant(memory: &mut Memory, top: Top, word: u16) -> Result<Top, ExecError>
    ensures row { MovesTop result top memory.old memory.new
        (constant_row word memory.old.words top.sp top.np) }
{
    let mut stack = top;
    stack.push(memory, word)?;
    Ok(stack)
}

// ABI, NGI, SQI and LNOT. .., a -> .., b: replaces the word `a` by the result of the operation.
#[inline(always)]
#[tactic(auto, unfolding(crate::specs::Arithmetic::unary_row), using(pm_words::proofs::WatchLaws::stays))]
fn unary(memory: &mut Memory, top: Top, operation: Unary) -> Result<Top, ExecError>
    ensures row { MovesTop result top memory.old memory.new
        (unary_row operation memory.old.words top.sp top.np) }
{
    let mut stack = top;
    let a = stack.one(memory)?;
    stack.replace_one(memory, word_of_one(operation, a))?;
    Ok(stack)
}

// ADI, SBI, MPI, DVI, MODI, LAND and LOR. .., a, b -> .., c: replaces two words by the result of the operation.
#[inline(always)]
#[tactic(auto, unfolding(crate::specs::Arithmetic::binary_row), using(pm_words::proofs::WatchLaws::stays))]
fn binary(memory: &mut Memory, top: Top, operation: Binary) -> Result<Top, ExecError>
    ensures row { MovesTop result top memory.old memory.new
        (binary_row operation memory.old.words top.sp top.np) }
{
    let mut stack = top;
    let (a, b) = stack.two(memory)?;
    let c = word_of_two(operation, a, b)?;
    stack.replace_two(memory, c)?;
    Ok(stack)
}

// EQUI, NEQI, LESI, LEQI, GRTI and GEQI. .., a, b -> .., 1 or 0: compares two signed words.
#[inline(always)]
#[tactic(auto, unfolding(crate::specs::Arithmetic::relation_row), using(pm_words::proofs::WatchLaws::stays))]
fn relation(memory: &mut Memory, top: Top, operation: Relation) -> Result<Top, ExecError>
    ensures row { MovesTop result top memory.old memory.new
        (relation_row operation memory.old.words top.sp top.np) }
{
    let mut stack = top;
    let (a, b) = stack.two(memory)?;
    stack.replace_two(memory, u16::from(holds(operation, a, b)))?;
    Ok(stack)
}

// CHK. .., a, b, c -> .., a: fails unless b <= a <= c as signed numbers.
#[inline(always)]
#[tactic(auto, unfolding(crate::specs::Arithmetic::check_row), using(pm_words::proofs::WatchLaws::stays))]
fn check(memory: &mut Memory, top: Top) -> Result<Top, ExecError>
    ensures row { MovesTop result top memory.old memory.new (check_row memory.old.words top.sp top.np) }
{
    let mut stack = top;
    let c = stack.pop(memory)?;
    let b = stack.pop(memory)?;
    let a = stack.pop(memory)?;
    let value = a.cast_signed();
    if b.cast_signed() > value || value > c.cast_signed() {
        return Err(ExecError::InvalidIndex);
    }
    stack.push(memory, a)?;
    Ok(stack)
}

/// Executes an operation on words as integers. Returns SP and NP after the operation.
///
/// # Errors
///
/// An error leaves the memory unchanged. The errors are checked in this order:
///
/// - `InvalidMemory` if the stack has too few words.
/// - `DivideByZero` if `DVI` or `MODI` divides by 0.
/// - `InvalidIndex` if the value of `CHK` is outside its bounds.
/// - `StackOverflow` if SP would be below NP.
#[inline(always)]
#[tactic(auto, unfolding(crate::specs::Arithmetic::arithmetic_row), using(pm_words::proofs::WatchLaws::stays))]
pub fn perform(memory: &mut Memory, top: Top, operation: Arithmetic) -> Result<Top, ExecError>
    ensures row { MovesTop result top memory.old memory.new
        (arithmetic_row operation memory.old.words top.sp top.np) }
{
    match operation {
        Arithmetic::Constant(word) => constant(memory, top, word),
        Arithmetic::Nil => constant(memory, top, 0),
        Arithmetic::OnOne(operation) => unary(memory, top, operation),
        Arithmetic::OnTwo(operation) => binary(memory, top, operation),
        Arithmetic::Compare(operation) => relation(memory, top, operation),
        Arithmetic::Check => check(memory, top),
    }
}
