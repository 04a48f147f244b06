//! Worked examples of the lines of `LIST`, of line ends, and of the files of a folder without `LIST`.
ghost use Rattle.pm_import.specs.Worked.{WorkedLists, WorkedPlain};

/// Does nothing. Its clause states laws and examples.
#[tactic(auto, using(crate::proofs::Computed::worked_lists))]
pub fn worked_lists()
    ensures worked { WorkedLists }
{}

/// States worked examples of the files of a folder without `LIST`: their names, kinds and lines.
#[tactic(auto, using(crate::proofs::Computed::worked_plain))]
pub fn worked_plain()
    ensures worked { WorkedPlain }
{}
