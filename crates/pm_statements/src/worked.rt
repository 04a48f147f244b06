//! Worked examples of statements, checked by the checker. The function does nothing.

ghost use Rattle.pm_statements.specs.Worked.{WorkedStatements};

/// The statements of an example procedure: their offsets, labels, numbers of parts, and depths. The depths of code with
/// a choice, two loops, and a jump out of an inner block. The labels of statements in blocks.
#[tactic(auto, using(crate::proofs::Computed::worked_statements))]
pub fn worked_statements()
    ensures law { WorkedStatements }
{}
