//! The columns of the position of a step in the code.

ghost use Rattle.std.specs.Prelude.{◌≡◌, ◌++◌, OnOk};
ghost use Rattle.pm_trace.specs.Selected.{column, place_columns};

use crate::digits::column;
use pm_machine::CodePlace;
use std::alloc::AllocError;

/// Returns `number`, the number of a segment or a procedure, in three digits, followed by a space.
#[tactic(auto, using(crate::proofs::PlaceDigits::three_digits))]
fn number_column(number: u8) -> [u8; 4]
    ensures digits { result ≡ column 3 number }
{
    let tens = number / 10;
    [b'0' + tens / 10, b'0' + tens % 10, b'0' + number % 10, b' ']
}

/// Appends the columns of the position `place` to `page`, or dashes if it is `None`.
pub(crate) fn add_place(page: &mut Vec<u8>, place: Option<CodePlace>) -> Result<(), AllocError>
    ensures columns { OnOk result (page.new.items ≡ page.old.items ++ place_columns place) }
{
    let Some(place) = place else {
        return page.extend_from_slice(b"--- --- ----- ");
    };
    page.extend_from_slice(&number_column(place.segment))?;
    page.extend_from_slice(&number_column(place.procedure))?;
    page.extend_from_slice(&column(place.offset))?;
    Ok(())
}
