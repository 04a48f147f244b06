//! Worked examples of moves. The function does nothing; its clause states the examples.

ghost use Rattle.pm_stdproc.specs.Worked.{WorkedMoves};

/// States the results of MOVELEFT and MOVERIGHT for some bytes.
#[tactic(auto, using(crate::proofs::Computed::worked_moves))]
pub fn worked_moves()
    ensures law { WorkedMoves }
{}
