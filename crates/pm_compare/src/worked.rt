//! Laws and worked examples of comparisons. The functions do nothing; their clauses state the laws.
ghost use Rattle.pm_compare.specs.Worked.{WorkedVerdicts, WorkedLines, WorkedPairs};

/// States which result two files of the same name have.
#[tactic(auto, using(crate::proofs::Computed::worked_verdicts))]
pub fn worked_verdicts()
    ensures law { WorkedVerdicts }
{}

/// States which files are compared with each other, and which are on one volume only.
#[tactic(auto, using(crate::proofs::Computed::worked_pairs))]
pub fn worked_pairs()
    ensures law { WorkedPairs }
{}

/// States worked examples of lines.
#[tactic(auto, using(crate::proofs::Computed::worked_lines))]
pub fn worked_lines()
    ensures law { WorkedLines }
{}
