//! Laws of lists of events, and of the code that calls load. Each function has an empty body.

ghost use Rattle.law_engine.specs.EventLaws.{CallsGiveAll, EventsGoOn, LoadsGiveSegments};

/// If each state of a sequence is obtained from the state before it by an event, the last state is obtained from the
/// first one by the list of these events.
#[tactic(auto, using(crate::proofs::EventLaws::calls_give_all))]
pub fn calls_give_all()
    ensures law { CallsGiveAll }
{}

/// The state after a list of events and a second list is the state after the second list, executed from the state after
/// the first list.
#[tactic(auto, using(crate::proofs::EventLaws::events_go_on))]
pub fn events_go_on()
    ensures law { EventsGoOn }
{}

/// If the disk of a unit is the volume from which a program was booted, then a CXP to a slot without an address loads
/// the segment of this slot of the code file, or nothing if the slot has no segment. Premise: the block number after
/// the last block of the file is less than 65,536.
#[tactic(auto, using(crate::proofs::LoadedSegments::loads_give_segments))]
pub fn loads_give_segments()
    ensures law { LoadsGiveSegments }
{}
