//! Laws and worked examples of conversions. The functions do nothing; their clauses state the laws.
ghost use Rattle.pm_convert.specs.Worked.{WorkedBig, WorkedCovers, WorkedForeigners, WorkedImages, WorkedNames};
ghost use Rattle.pm_convert.specs.Worked.{WorkedOpens, WorkedTurns};

/// States that a volume comes back if it is converted to an order and back, and that conversions keep the length.
#[tactic(auto, using(crate::proofs::TurnLaws::worked_turns))]
pub fn worked_turns()
    ensures law { WorkedTurns }
{}

/// States that the blocks that an image gets, and those of a new image, come back. Also states that an image that gets
/// its own blocks is unchanged, and that the checksum of DiskCopy 4.2 matches.
#[tactic(auto, using(crate::proofs::Computed::worked_images))]
pub fn worked_images()
    ensures law { WorkedImages }
{}

/// States that each name of a format is that of one format. Also states the twelve names.
#[tactic(auto, using(crate::proofs::Computed::worked_names))]
pub fn worked_names()
    ensures law { WorkedNames }
{}

/// States worked examples of checksums, headers and lengths.
#[tactic(auto, using(crate::proofs::Computed::worked_covers))]
pub fn worked_covers()
    ensures law { WorkedCovers }
{}

/// States which words are exchanged in the order `big`.
#[tactic(auto, using(crate::proofs::Computed::worked_big))]
pub fn worked_big()
    ensures law { WorkedBig }
{}

/// States worked examples of images in formats that are not supported.
#[tactic(auto, using(crate::proofs::Computed::worked_foreigners))]
pub fn worked_foreigners()
    ensures law { WorkedForeigners }
{}

/// States when an image opens in a format.
#[tactic(auto, using(crate::proofs::Computed::worked_opens))]
pub fn worked_opens()
    ensures law { WorkedOpens }
{}
