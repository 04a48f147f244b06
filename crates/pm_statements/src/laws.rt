//! Laws about the text of statements. The functions do nothing.

ghost use Rattle.pm_statements.specs.Laws.{DepthsAreBlanksAlone};
ghost use Rattle.pm_statements.specs.Spans.{DepthsAreSpans};

/// Two texts of the same statements with different depths differ only in spaces.
#[tactic(auto, using(crate::proofs::Blanks::depths_are_blanks_alone))]
pub fn depths_are_blanks_alone()
    ensures law { DepthsAreBlanksAlone }
{}

/// The depth of an offset in the code is the number of counted spans that contain this offset.
#[tactic(auto, using(crate::proofs::Around::depths_are_spans))]
pub fn depths_are_spans()
    ensures law { DepthsAreSpans }
{}
