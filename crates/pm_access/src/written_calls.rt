//! What calls write: the code that is loaded for them, and the new frame. A query asks whether one of the bytes `bytes`
//! is written.

ghost use Rattle.std.specs.Prelude.{◌≡◌, ◌∷◌, []};
ghost use Rattle.pm_machine.specs.Written.{call_written, frame_stretch};
ghost use Rattle.pm_access.specs.Reached.{segment_seen};
ghost use Rattle.pm_access.specs.Writing.{frame_and_code, meets};

use crate::reached::{Segment, call_reached};
use crate::stretches::{Bytes, meets_to};
use pm_calls::{Table, is_base, procedure_called};
use pm_families::Call;
use pm_machine::Machine;

// Is true if one of the bytes `bytes` belongs to the new frame of a call of the procedure with the table `table`.
// `base` states whether the call is a base call, `loaded` how many bytes of code were loaded for it.
fn is_of_frame(bytes: Bytes, base: bool, loaded: usize, sp: u16, table: Table) -> bool
    ensures frame { result ≡ meets bytes (frame_stretch base loaded sp table ∷ []) }
{
    let parameters = usize::from(table.parameters);
    let top = if loaded > 0 {
        usize::from(sp).saturating_sub(loaded)
    } else {
        usize::from(sp) + parameters
    };
    let end = top.saturating_sub(usize::from(table.locals));
    let below = if base { 2 } else { 0 };
    meets_to(bytes, end, below + 12 + parameters)
}

// Is true if `call` writes one of the bytes `bytes`, where `segment` is the segment that it reaches. The bytes belong
// to the code that is loaded for the call and ends at SP, or to the new frame.
fn frame_and_code(bytes: Bytes, call: Call, sp: u16, segment: Segment<'_>) -> bool
    ensures written { result ≡ meets bytes (frame_and_code call sp (segment_seen segment.entry)) }
{
    let loaded = segment.memory.code.len();
    if meets_to(bytes, usize::from(sp), loaded) {
        return true;
    }
    match segment.memory.table(segment.place, procedure_called(call)) {
        Ok(table) => is_of_frame(bytes, is_base(call, table.level), loaded, sp, table),
        Err(_) => false,
    }
}

/// Is true if the call `what` writes one of the bytes `bytes`.
#[tactic(auto, using(crate::proofs::WritingLaws::written_seen))]
pub(crate) fn call_written(bytes: Bytes, what: Call, machine: &Machine) -> bool
    ensures written { result ≡ meets bytes (call_written what machine.now.state) }
{
    match call_reached(machine, what) {
        Some(segment) => frame_and_code(bytes, what, machine.registers().sp, segment),
        None => false,
    }
}
