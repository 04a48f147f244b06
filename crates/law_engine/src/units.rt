//! The law of the bytes that a disk stores. The function has an empty body.

ghost use Rattle.law_engine.specs.UnitsLaws.{DisksKeep};

/// If UNITWRITE has written bytes to a disk, then UNITREAD of the same block and count reads the same bytes. Premises:
/// the memory is valid (32,768 words, each less than 65,536); the bytes are in it; the transfer is possible on this
/// disk.
#[tactic(auto, using(crate::proofs::DiskLaws::disks_keep))]
pub fn disks_keep()
    ensures law { DisksKeep }
{}
