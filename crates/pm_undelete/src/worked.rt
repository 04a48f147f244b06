//! Laws and worked examples of removed files. The functions do nothing; their clauses state the laws.
ghost use Rattle.pm_undelete.specs.Worked.{WorkedCandidates, WorkedFoundLines, WorkedFree, WorkedLooks};

/// States that the candidates are the blocks of free areas that look like the beginning of a file.
#[tactic(auto, using(crate::proofs::Computed::worked_candidates))]
pub fn worked_candidates()
    ensures law { WorkedCandidates }
{}

/// States which blocks are free.
#[tactic(auto, using(crate::proofs::Computed::worked_free))]
pub fn worked_free()
    ensures law { WorkedFree }
{}

/// States worked examples of slots, characters and sizes.
#[tactic(auto, using(crate::proofs::Computed::worked_looks))]
pub fn worked_looks()
    ensures law { WorkedLooks }
{}

/// States worked examples of lines.
#[tactic(auto, using(crate::proofs::Computed::worked_found_lines))]
pub fn worked_found_lines()
    ensures law { WorkedFoundLines }
{}
