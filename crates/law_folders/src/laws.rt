//! Laws of imports and of conversions.
ghost use Rattle.law_folders.specs.Laws.{ConversionLaws, ImportLaws};

/// States which file of a folder a volume gets, which it has already, and what the date of `LIST` does.
#[tactic(auto, using(crate::proofs::Computed::import_laws))]
pub fn law_of_imports()
    ensures law { ImportLaws }
{}

/// States which image a conversion makes, and which of the four faults a refused conversion has.
#[tactic(auto, using(crate::proofs::Computed::conversion_laws))]
pub fn law_of_conversions()
    ensures law { ConversionLaws }
{}
