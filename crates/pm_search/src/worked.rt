//! Laws and worked examples of searches. The functions do nothing; their clauses state the laws.
ghost use Rattle.pm_search.specs.Worked.{WorkedAnswers, WorkedLines, WorkedNames, WorkedSearches};

/// States which files are listed by their names, in which order, and what their lines are.
#[tactic(auto, using(crate::proofs::Computed::worked_names))]
pub fn worked_names()
    ensures law { WorkedNames }
{}

/// States which lines of which files are listed, in which order, and what their numbers are.
#[tactic(auto, using(crate::proofs::Computed::worked_lines))]
pub fn worked_lines()
    ensures law { WorkedLines }
{}

/// States which answer an image has, by the formats in which it opens.
#[tactic(auto, using(crate::proofs::Computed::worked_answers))]
pub fn worked_answers()
    ensures law { WorkedAnswers }
{}

/// States worked examples of lines.
#[tactic(auto, using(crate::proofs::Computed::worked_searches))]
pub fn worked_searches()
    ensures law { WorkedSearches }
{}
