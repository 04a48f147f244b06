//! Laws and worked examples of lists for other programs. The functions do nothing; their clauses state the laws.
ghost use Rattle.pm_table.specs.Worked.{WorkedJson, WorkedRows, WorkedTabs};

/// States which files are listed, in which order, and with which slots.
#[tactic(auto, using(crate::proofs::Computed::worked_rows))]
pub fn worked_rows()
    ensures law { WorkedRows }
{}

/// States that the fields of a line come back, and worked examples of lines.
#[tactic(auto, using(crate::proofs::Computed::worked_tabs))]
pub fn worked_tabs()
    ensures law { WorkedTabs }
{}

/// States that a name comes back from its JSON string, and worked examples of JSON.
#[tactic(auto, using(crate::proofs::Computed::worked_json))]
pub fn worked_json()
    ensures law { WorkedJson }
{}
