//! Laws of segments with keeps: segments that the program requests to remain loaded.

ghost use Rattle.law_engine.specs.Keeping.{KeptSegmentsStand, UnkeptMachinesArePlain};

/// If a segment has at least one keep in a state, it has the same address after any events, and at least as many keeps.
/// Premise: no step of these events is standard procedure 22.
#[tactic(auto, using(crate::proofs::KeepLaws::kept_segments_stand))]
pub fn kept_segments_stand()
    ensures law { KeptSegmentsStand }
{}

/// If no step executes standard procedure 21 or 22, then the state after any events is that of the machine without
/// keeps, and no segment has a keep. In the machine without keeps, the return from the last call of a segment removes
/// the segment's address, and the procedures 21 and 22 are not implemented. The law holds for each state with which a
/// machine begins, and for each state in which no segment has a keep.
#[tactic(auto, using(crate::proofs::KeepLaws::unkept_machines_are_plain))]
pub fn unkept_machines_are_plain()
    ensures law { UnkeptMachinesArePlain }
{}
