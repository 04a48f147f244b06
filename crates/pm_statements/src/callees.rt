//! The sizes of the parameters and of the result of a procedure, in words.

ghost use Rattle.std.specs.Prelude.{◌≡◌, map};
ghost use Rattle.pm_code.specs.Views.{placed_item, procedure_seen};
ghost use Rattle.pm_statements.specs.Callees as callees;

use pm_code::{Item, Procedure};
use pm_families::Return;
use pm_opcode::Operation;
use pm_trees::Callee;

/// The opcode of RNP, the return from a procedure that is not a base procedure.
const RNP: u8 = 173;

/// The opcode of RBP, the return from a base procedure.
const RBP: u8 = 193;

/// Returns a `Callee` with these numbers of words for the parameters and the result.
fn sized(parameters: u8, results: u8) -> Callee
    ensures sized { result ≡ callees.sized parameters results }
{
    Callee {
        parameters,
        results,
    }
}

/// Returns the sizes of procedure `number` of the operating system, which is in segment 0. Returns None for procedures
/// that programs do not call, and for procedures on real numbers.
#[tactic(auto, unfolding(crate::specs::Callees::system_callee, crate::specs::Callees::system_callees))]
pub fn system_callee(number: u8) -> Option<Callee>
    ensures callee { result ≡ callees.system_callee number }
{
    match number {
        4 | 7 | 8 | 21 | 22 => Some(sized(1, 0)),
        6 | 9 | 12 | 16 | 29 => Some(sized(2, 0)),
        3 | 13 | 17 | 18 | 19 | 23 | 26 => Some(sized(3, 0)),
        5 | 20 | 24 | 25 => Some(sized(4, 0)),
        10 | 11 => Some(sized(3, 1)),
        27 => Some(sized(4, 1)),
        28 => Some(sized(8, 1)),
        _ => None,
    }
}

/// The number of words that the returns of a procedure leave on the stack.
#[derive(Clone, Copy)]
pub enum Returns {
    /// The procedure has no return instruction.
    NoReturn,
    /// Each return leaves this number of words on the stack.
    Of(u8),
    /// At least two returns leave different numbers of words.
    Different,
}

/// If `item` is a return, returns the number of words that it leaves on the stack. Otherwise returns None.
#[tactic(auto, using(crate::proofs::Called::no_words))]
fn words_returned(item: &Item<usize>) -> Option<u8>
    ensures words { result ≡ callees.words_returned (placed_item item.now) }
{
    let Item::Plain(instr, _) = item else {
        return None;
    };
    if instr.op != RNP && instr.op != RBP {
        return None;
    }
    match Operation::of(instr) {
        Operation::Return(Return::Normal(words)) => Some(words),
        Operation::Return(Return::Base(words)) => Some(words),
        _ => None,
    }
}

/// Returns `returns`, updated for one more item. `words` is the number of words that this item leaves if it is a
/// return.
fn joined(returns: Returns, words: Option<u8>) -> Returns
    ensures returns { result ≡ callees.joined returns words }
{
    let Some(words) = words else {
        return returns;
    };
    match returns {
        Returns::NoReturn => Returns::Of(words),
        Returns::Of(before) => {
            if before == words {
                returns
            } else {
                Returns::Different
            }
        }
        Returns::Different => Returns::Different,
    }
}

/// Returns how many words the returns in `items` leave on the stack.
pub(crate) fn returns_of(items: &[Item<usize>]) -> Returns
    ensures returns { result ≡ callees.returns_from callees.no_return (map placed_item items.now) }
{
    let mut returns = Returns::NoReturn;
    for item in items {
        returns = joined(returns, words_returned(item));
    }
    returns
}

/// Returns the sizes of a procedure with `words` words of parameters. Returns None if `words` exceeds 255, or if
/// `returns` is not one common number of words.
pub(crate) fn callee_by(words: u16, returns: Returns) -> Option<Callee>
    ensures callee { result ≡ callees.callee_by words returns }
{
    if words > 255 {
        return None;
    }
    match returns {
        Returns::Of(results) => Some(sized(words as u8, results)),
        Returns::NoReturn | Returns::Different => None,
    }
}

/// Returns the sizes of `procedure`, computed from its code. Returns None if its parameters exceed 255 words, or if its
/// returns do not all leave the same number of words.
pub fn callee_of(procedure: &Procedure) -> Option<Callee>
    ensures callee { result ≡ callees.callee_of (procedure_seen procedure.now) }
{
    callee_by(procedure.parameters / 2, returns_of(&procedure.items))
}
