//! Worked examples of lines and texts. The checker computes them; the function has an empty body.

ghost use Rattle.pm_textfile.specs.Worked.{WorkedTexts};

/// States the values of the definitions for some lines and texts (see `WorkedTexts`).
#[tactic(auto, using(crate::proofs::Computed::worked_texts))]
pub fn worked_texts()
    ensures law { WorkedTexts }
{}
