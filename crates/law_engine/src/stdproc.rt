//! Laws of the standard procedures MOVELEFT, MOVERIGHT and SCAN. Each function has an empty body. In comments, a *valid
//! memory* has 32,768 words, each less than 65,536.

ghost use Rattle.law_engine.specs.ProcedureLaws.{MoveLeftCopies, MoveLeftRepeats, MoveRightCopies, MoveRightRepeats};
ghost use Rattle.law_engine.specs.ProcedureLaws.{MovesStayInside, ScansStopFirst};

/// If the destination does not begin inside the source after the first byte of the source, then MOVELEFT copies the old
/// bytes of the source. Premises: the memory is valid, and both ranges are in it.
#[tactic(auto, using(crate::proofs::MoveLaws::move_left_copies))]
pub fn move_left_copies()
    ensures law { MoveLeftCopies }
{}

/// If the destination begins at or after the beginning of the source, or ends at or before it, then MOVERIGHT copies
/// the old bytes of the source. Premises: the memory is valid, and both ranges are in it.
#[tactic(auto, using(crate::proofs::MoveLaws::move_right_copies))]
pub fn move_right_copies()
    ensures law { MoveRightCopies }
{}

/// After a MOVELEFT to the same or a higher address, each byte of the destination equals the byte that the source has
/// after the move. Hence, if both ranges overlap, the bytes between the two addresses are repeated. Premises: the
/// memory is valid, and both ranges are in it.
#[tactic(auto, using(crate::proofs::MoveLaws::move_left_repeats))]
pub fn move_left_repeats()
    ensures law { MoveLeftRepeats }
{}

/// After a MOVERIGHT to the same or a lower address, each byte of the destination equals the byte that the source has
/// after the move. Premises: the memory is valid, and both ranges are in it.
#[tactic(auto, using(crate::proofs::MoveLaws::move_right_repeats))]
pub fn move_right_repeats()
    ensures law { MoveRightRepeats }
{}

/// MOVELEFT and MOVERIGHT change no byte outside their destination. Premises: the memory is valid, and both ranges are
/// in it.
pub fn moves_stay_inside()
    ensures law { MovesStayInside }
{}

/// SCAN returns the distance of the first byte that stops the scan, or its limit if no byte before the limit stops it.
/// For a negative limit it scans downward, and the distance is negative. Premises: the memory is valid, and the scanned
/// bytes are in it.
#[tactic(auto, using(crate::proofs::ScanLaws::scans_stop_first))]
pub fn scans_stop_first()
    ensures law { ScansStopFirst }
{}
