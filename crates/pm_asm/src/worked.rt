//! Worked examples: hints for a few lines, and the examples in the hints. The functions have an empty body; their
//! clauses are the examples.

ghost use Rattle.pm_asm.specs.HintTexts.{ExamplesAreTaken};
ghost use Rattle.pm_asm.specs.Marks.{WorkedMarks};
ghost use Rattle.pm_asm.specs.WorkedHints.{WorkedHints};

/// States the hints for a few lines.
#[tactic(auto, using(crate::proofs::Computed::worked_hints))]
pub fn worked_hints()
    ensures law { WorkedHints }
{}

/// States the positions of the marks in a few lines.
#[tactic(auto, using(crate::proofs::Computed::worked_marks))]
pub fn worked_marks()
    ensures law { WorkedMarks }
{}

/// States that the example operands in the hint for an instruction are valid.
#[tactic(auto, using(crate::proofs::Examples::examples_are_taken))]
pub fn examples_are_taken()
    ensures law { ExamplesAreTaken }
{}
