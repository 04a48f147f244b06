//! A worked example of a listing. The function has an empty body; its clause is the example.

ghost use Rattle.pm_code.specs.Worked.{WorkedListing};

/// States the listing of a segment, character by character.
#[tactic(auto, using(crate::proofs::Computed::worked_listing))]
pub fn worked_listing()
    ensures law { WorkedListing }
{}
