//! Laws of the faults that `check` reports and of the files that `salvage` saves. Each function has an empty body.
ghost use Rattle.law_disks.specs.CheckLaws as laws;
ghost use Rattle.law_disks.specs.SalvageLaws.{EntriesAreSaved};

/// An image has no fault for which it is refused as a volume if and only if `check` finds no fault in the image.
#[tactic(auto, using(crate::proofs::RuleLaws::good_images_open))]
pub fn good_images_open()
    ensures law { laws.GoodImagesOpen }
{}

/// `check` finds that two entries share blocks if and only if some block belongs to both entries.
#[tactic(auto, using(crate::proofs::RuleLaws::shared_blocks))]
pub fn shared_blocks()
    ensures law { laws.SharedBlocks }
{}

/// If `salvage` succeeds on an image whose elements are bytes, then the new volume has one file for each entry that is
/// valid by itself, in some order. The entries are those of the selected copy of the directory.
///
/// - Each file has the kind, the date and the bytes of its entry in the image.
/// - The name of a file is the name of its entry, made valid, with a number. The number 0 adds nothing to the name. Any
///   other number follows the first 12 characters and a period. For each lower number, a file of the volume has the
///   name with the lower number.
/// - No two files have the same name, even if upper and lower case are considered equal.
/// - If the names of the entries, made valid, all differ, then each file has the name of its entry without a number.
#[tactic(auto, using(crate::proofs::SalvagedFiles::entries_are_saved))]
pub fn entries_are_saved()
    ensures law { EntriesAreSaved }
{}

/// If `form_seen` finds an image format in an image, then this format is the first format that `check` notes. If it
/// finds none, then `check` notes no format. `form_seen` finds the format that the message of a refusal suggests.
#[tactic(auto, using(crate::proofs::FormLaws::form_is_noted))]
pub fn form_is_noted()
    ensures law { laws.FormIsNoted }
{}
