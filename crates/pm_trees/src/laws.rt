//! Laws about statements. The functions have empty bodies. A *part* is one item of the code with its stack effect. A
//! *tree* is a part with the trees that push its operands.

ghost use Rattle.pm_trees.specs.Laws.{LabelsStandBeforeStatements, MissingIsBelow, OperandsAreWhatIsTaken};
ghost use Rattle.pm_trees.specs.Laws.{StatementsAreTheCode};
ghost use Rattle.pm_trees.specs.Piles.{TextGrows};

/// If the statements of a procedure are read with the operands first, the result is its code: every item once, in
/// order.
#[tactic(auto, using(crate::proofs::Grown::statements_are_the_code))]
pub fn statements_are_the_code()
    ensures law { StatementsAreTheCode }
{}

/// Each part of a statement pops exactly what its operands push, and what is recorded as missing.
#[tactic(auto, using(crate::proofs::Fair::operands_are_what_is_taken))]
pub fn operands_are_what_is_taken()
    ensures law { OperandsAreWhatIsTaken }
{}

/// In a statement, only the first part can have a label or begin the exit code.
#[tactic(auto, using(crate::proofs::Labels::labels_stand_before_statements))]
pub fn labels_stand_before_statements()
    ensures law { LabelsStandBeforeStatements }
{}

/// If a statement pops something that none of its operands pushes, then this was on the stack before the statement.
#[tactic(auto, using(crate::proofs::First::missing_is_below))]
pub fn missing_is_below()
    ensures law { MissingIsBelow }
{}

/// The phrases that are built part by part are the phrases of the statements.
#[tactic(auto, using(crate::proofs::Written::text_grows))]
pub fn text_grows()
    ensures law { TextGrows }
{}
