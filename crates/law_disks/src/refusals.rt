//! Laws that state which refusal a call returns if several conditions hold: the first refusal in a fixed order. Each
//! function has an empty body.

ghost use Rattle.law_disks.specs.Refusals as refusals;

/// A `Put` is refused with `BadName` if the name is invalid. Otherwise it is refused with `Duplicate` if a file has the
/// name. Otherwise it is refused with `DirectoryFull` if the volume has at least 77 files. Otherwise it is refused with
/// `NoRoom`, or it succeeds.
#[tactic(auto, using(crate::proofs::RefusalLaws::puts_tell_first))]
pub fn puts_tell_first()
    ensures law { refusals.PutsTellFirst }
{}

/// A `Change` is refused with `NoFile` if no file has the old name. Otherwise it is refused with `BadName` if the new
/// name is invalid. Otherwise it is refused with `Duplicate` if another file has the new name. Otherwise it succeeds.
#[tactic(auto, using(crate::proofs::RefusalLaws::changes_tell_first))]
pub fn changes_tell_first()
    ensures law { refusals.ChangesTellFirst }
{}

/// A `Duplicate`, which adds a second copy of the directory, is refused with `BadHeader` if the volume has fewer than
/// 10 blocks. Otherwise it is refused with `Occupied` if a file begins before block 10.
#[tactic(auto, using(crate::proofs::RefusalLaws::doubling_tells_first))]
pub fn doubling_tells_first()
    ensures law { refusals.DoublingTellsFirst }
{}

/// If all earlier entries of a directory are valid, then the fault of the next entry is `BadEntry` with its number if
/// the entry is not sound, as `is_sound_entry` states. Otherwise the fault is `PastEnd` if the entry ends after the
/// last block of the volume.
#[tactic(auto, using(crate::proofs::RefusalLaws::entries_tell_first))]
pub fn entries_tell_first()
    ensures law { refusals.EntriesTellFirst }
{}

/// The fault of a directory is `BadHeader` if its header is not sound. Otherwise it is `PastEnd` if the directory
/// states more blocks than the image has. Otherwise it is `TooManyFiles` if the directory states more than 77 files.
/// Otherwise it is the fault of its entries, if they have one.
#[tactic(auto, using(crate::proofs::RefusalLaws::directories_tell_first))]
pub fn directories_tell_first()
    ensures law { refusals.DirectoriesTellFirst }
{}

/// The fault of an image is `NotBlocks` if its length is not a multiple of 512. Otherwise it is `TooShort` if the image
/// has fewer than 6 blocks. Otherwise it depends on the first copy of the directory. If this copy has no fault, the
/// image has none. If it has a fault and the second copy is valid, the fault of the image is `FirstCopyBad` with the
/// number of this fault. If the second copy is not valid, the fault of the image is that of the first copy.
#[tactic(auto, using(crate::proofs::RefusalLaws::images_tell_first))]
pub fn images_tell_first()
    ensures law { refusals.ImagesTellFirst }
{}
