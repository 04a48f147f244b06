//! The encoding of an instruction, compared with its shortest encoding.

ghost use Rattle.std.specs.Prelude.{◌≡◌};
ghost use Rattle.pm_phrases.specs.Spelled as spelled;

use pm_families::{Arithmetic, Pointer, Scope, Variable};
use pm_opcode::{Instr, Operation, implied_number};

/// How an instruction is encoded.
#[derive(Clone, Copy)]
pub(crate) enum Spelling {
    /// The shortest encoding.
    Shortest,
    /// A number in two bytes although one suffices, or an operand although an opcode exists that includes the number.
    Longer,
    /// A number in two bytes although one suffices, and an operand although an opcode exists that includes the number.
    Longest,
}

/// Returns the marks that show the encoding `spelling` after a number.
pub(crate) fn marks_of(spelling: Spelling) -> &'static str
    ensures marks { result.now ≡ spelled.marks spelling }
{
    match spelling {
        Spelling::Shortest => "",
        Spelling::Longer => "!",
        Spelling::Longest => "!!",
    }
}

/// Returns the encoding of the instruction `i`, whose operation is `what`.
#[tactic(auto, unfolding(crate::specs::Spelled::spelling_of, crate::specs::Spelled::has_shorter, crate::specs::Spelled::fits_opcode))]
pub(crate) fn spelling_of(i: &Instr, what: Operation) -> Spelling
    ensures spelling { result ≡ spelled.spelling_of i.now what }
{
    let fits_opcode = match what {
        Operation::Arithmetic(Arithmetic::Constant(n)) => n < 128,
        Operation::Variable(Variable::Load(Scope::Global | Scope::Local, n)) => 1 <= n && n <= 16,
        Operation::Pointer(Pointer::Load(n)) => n < 8,
        _ => false,
    };
    let shorter = implied_number(i.op).is_none() && fits_opcode;
    match (i.long, shorter) {
        (false, false) => Spelling::Shortest,
        (true, true) => Spelling::Longest,
        _ => Spelling::Longer,
    }
}
