//! The segment that a call reaches: the segment that contains the called procedure.

ghost use Rattle.std.specs.Prelude.{◌≡◌, ℕ, option_map, slice_get};
ghost use Rattle.pm_calls.specs.Calls.{reach_loading, reach_standing};
ghost use Rattle.pm_stdproc.specs.Loads.{slot_code};
ghost use Rattle.pm_machine.specs.Procedures.{parts};
ghost use Rattle.pm_machine.specs.Written.{call_reached, slot_reached};
ghost use Rattle.pm_access.specs.Reached.{reached_seen, segment_seen};

use crate::loaded::Loaded;
use pm_families::Call;
use pm_machine::Machine;

/// A segment that a call reaches, in the memory after its code was loaded for the call.
#[derive(Clone, Copy)]
pub(crate) struct Segment<'a> {
    /// The memory, with the code that was loaded.
    pub memory: Loaded<'a>,
    /// The address of the highest word of the segment.
    pub place: u16,
}

// Returns the loaded segment whose highest word is at `place`. No code is loaded for the call.
fn standing(machine: &Machine, place: u16) -> Segment<'_>
    ensures seen { segment_seen result
        ≡ record { memory = machine.now.state.memory; place = place; loaded = 0 } }
{
    let memory = Loaded::plain(machine.memory());
    Segment { memory, place }
}

// Returns the segment whose highest word is at `place` and which has `count` calls that have not returned. Returns
// `None` if `count` is 65,535 and the segment is not the running one, because the call then fails.
#[tactic(auto, unfolding(pm_calls::specs::Calls::reach_standing))]
fn standing_reached(machine: &Machine, place: u16, count: u16) -> Option<Segment<'_>>
    ensures reached { (slot keeps : ℕ) → option_map segment_seen result
        ≡ reached_seen (reach_standing (parts machine.now.state) slot
        (record { place = place; count = count; keeps = keeps })) }
{
    if place != machine.registers().seg && count == 65535 {
        return None;
    }
    Some(standing(machine, place))
}

// Returns the segment with the code `code`, which the call loads below SP. Returns `None` if `code` is empty or longer
// than the space between NP and SP.
#[tactic(auto, unfolding(pm_calls::specs::Calls::reach_loading))]
fn loading_reached<'a>(machine: &'a Machine, code: &'a [u8]) -> Option<Segment<'a>>
    ensures reached { (slot : ℕ) → option_map segment_seen result
        ≡ reached_seen (reach_loading (parts machine.now.state) slot code.now) }
{
    let registers = machine.registers();
    let (sp, np) = (registers.sp, registers.np);
    if code.is_empty() || code.len() > usize::from(sp - np) {
        return None;
    }
    let memory = Loaded {
        memory: machine.memory(),
        code,
        start: sp - code.len() as u16,
    };
    let place = sp.wrapping_sub(2);
    Some(Segment { memory, place })
}

// Returns the segment of `slot`, or `None` if a call of this segment fails before it reaches the segment.
fn slot_reached(machine: &Machine, slot: u8) -> Option<Segment<'_>>
    ensures reached { option_map segment_seen result
        ≡ reached_seen (slot_reached slot (parts machine.now.state) (slice_get machine.now.state.places slot)
        (slot_code slot machine.now.state.places machine.now.state.rows machine.now.state.devices)) }
{
    if machine.keeps(slot).is_none() {
        return None;
    }
    if let Some((place, count)) = machine.place(slot) {
        return standing_reached(machine, place, count);
    }
    match machine.code_wanted(u16::from(slot)) {
        Ok(Some(code)) => loading_reached(machine, code),
        Ok(None) | Err(_) => None,
    }
}

/// Returns the segment that `call` reaches, or `None` if `call` fails before it reaches a segment.
#[tactic(auto, unfolding(pm_stdproc::specs::Loads::code_needed))]
pub(crate) fn call_reached(machine: &Machine, call: Call) -> Option<Segment<'_>>
    ensures reached { option_map segment_seen result ≡ reached_seen (call_reached call machine.now.state) }
{
    match call {
        Call::Cxp(slot, _) => slot_reached(machine, slot),
        Call::Clp(_) | Call::Cgp(_) | Call::Cbp(_) | Call::Cip(_) => {
            Some(standing(machine, machine.registers().seg))
        }
    }
}
