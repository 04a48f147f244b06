//! The selection of the lines that are shown.

ghost use Rattle.std.specs.Prelude.{◌≡◌};
ghost use Rattle.pm_trace.specs.Selected.{is_at_call, is_call_or_return, is_selected, stands_in};
ghost use Rattle.pm_machine.specs.CodePlaces.{place_in_code};

use pm_jobs::{Code, Selection};
use pm_machine::{CodePlace, Machine, place_in_code};
use pm_opcode::row_at;

/// Whether the position `place` is in the code that `code` selects. If `place` is `None`, this is true only for
/// `Anywhere`.
fn stands_in(code: Code, place: Option<CodePlace>) -> bool
    ensures value { result ≡ stands_in code place }
{
    match (code, place) {
        (Code::Anywhere, _) => true,
        (_, None) => false,
        (Code::Segment { segment }, Some(place)) => place.segment == segment,
        (Code::Procedure { segment, procedure }, Some(place)) => {
            place.segment == segment && place.procedure == procedure
        }
    }
}

/// Whether the next step of `machine` is in the code that `code` selects.
fn is_inside(machine: &Machine, code: Code) -> bool
    ensures value { result ≡ stands_in code (place_in_code machine.now.state) }
{
    match code {
        Code::Anywhere => true,
        code => stands_in(code, place_in_code(machine)),
    }
}

/// Whether `name` is the mnemonic of a call or a return.
fn is_call_or_return(name: &str) -> bool
    ensures value { result ≡ is_call_or_return name.now }
{
    matches!(name, "CIP" | "CBP" | "CXP" | "CLP" | "CGP" | "RNP" | "RBP")
}

/// Whether the next step of `machine` is a call or a return.
fn is_at_call(machine: &Machine) -> bool
    ensures value { result ≡ is_at_call machine.now.state }
{
    let op = machine.memory().byte(machine.registers().ipc);
    is_call_or_return(row_at(op).mnemonic)
}

/// Whether `wanted` selects the line of the next step of `machine`.
pub(crate) fn is_selected(wanted: Selection, machine: &Machine) -> bool
    ensures value { result ≡ is_selected wanted machine.now.state }
{
    u64::from(wanted.from) <= machine.steps()
        && is_inside(machine, wanted.code)
        && (!wanted.calls || is_at_call(machine))
}
