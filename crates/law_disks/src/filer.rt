//! Laws of the commands on volumes, and of the second copy of the directory. Each function has an empty body. In
//! comments, a *volume of bytes* is a volume whose elements are all below 256. A name *gives* the bytes of the first
//! file with this name, or nothing if no file has the name. Upper and lower case of a name are equal.
ghost use Rattle.pm_filer.specs.Laws.{ChangeKeepsOthers, KrunchKeepsFree, KrunchLeavesOneGap, NamesAreKept};
ghost use Rattle.pm_filer.specs.Laws.{NewNameGives, PutFindsRoom, PutIsGot, PutIsLowest, RemovalKeepsOthers};
ghost use Rattle.pm_filer.specs.Laws.{SlotsCountFiles, SlotsEnd, TextIsGot, TextKeepsOthers};
ghost use Rattle.law_disks.specs.Kinds.{CopyIsGot, CopyKeepsKind, CopySlotIsGot, CopySlotKeepsKind, KindIsSet};
ghost use Rattle.law_disks.specs.Kinds.{KindKeepsNames};
ghost use Rattle.pm_volume.specs.Laws.{DamageIsUndone, GoodImagesStay, SecondCopySaves};

/// After a successful `Put` on a volume of bytes, the name gives the bytes that were put. Every other name gives what
/// it gave before.
pub fn put_is_got()
    ensures law { PutIsGot }
{}

/// After a successful `PutText` on a volume of bytes, `GetText` of the name returns the text with a line feed after its
/// last line. Every other name gives the bytes that it gave before.
pub fn text_is_got()
    ensures law { TextIsGot }
    ensures others { TextKeepsOthers }
{}

/// After a successful `Copy` from one volume of bytes to another, the name gives the bytes that it gives on the volume
/// that was copied from. Every other name gives what it gave before. The first file with the name has the kind and the
/// date of the first file with the name on the volume that was copied from.
pub fn copy_is_got()
    ensures law { CopyIsGot }
    ensures alike { CopyKeepsKind }
{}

/// After a successful `CopySlot` from one volume of bytes to another, the name gives the bytes of the file in this slot
/// of the volume that was copied from. Every other name gives what it gave before. The first file with the name has the
/// kind and the date of the file in the slot.
pub fn slot_copy_is_got()
    ensures law { CopySlotIsGot }
    ensures alike { CopySlotKeepsKind }
{}

/// After a successful `Kind` on a volume, the first file with the name has the given kind, modulo 16, and its entry is
/// otherwise unchanged. Every name gives the bytes that it gave before.
pub fn kind_is_set()
    ensures law { KindIsSet }
    ensures names { KindKeepsNames }
{}

/// After a successful `Change` on a volume, the new name gives the bytes that the old name gave before. Every name that
/// differs from both names gives what it gave before.
pub fn change_moves_the_name()
    ensures law { NewNameGives }
    ensures others { ChangeKeepsOthers }
{}

/// After a successful `Remove` on a volume, every other name gives the bytes that it gave before.
pub fn removal_keeps_others()
    ensures law { RemovalKeepsOthers }
{}

/// After a successful `Krunch`, `Date`, `Duplicate` or `Single` on a volume of bytes, every name gives the bytes that
/// it gave before.
pub fn names_are_kept()
    ensures law { NamesAreKept }
{}

/// After a successful `Put` of at least one byte on a volume of bytes, the first file with the name has exactly the
/// blocks that its bytes require. These blocks were free before. No range of as many free blocks began at a lower
/// block. If a `Put` of at least one byte is refused with `NoRoom`, then no range of free blocks is large enough for
/// the bytes.
pub fn put_is_lowest()
    ensures law { PutIsLowest }
    ensures room { PutFindsRoom }
{}

/// After a successful `Krunch` on a volume of bytes, as many blocks are free as before. If no file of the old volume
/// has kind 1 (bad blocks), then all free blocks are in one range.
pub fn krunch_joins_free_blocks()
    ensures law { KrunchKeepsFree }
    ensures gap { KrunchLeavesOneGap }
{}

/// If the length of an image is a multiple of 512 and the second copy of its directory is valid, then the image opens
/// as a volume, or opening it is refused with `FirstCopyBad`. In the second case, `Volume::repair` returns a volume
/// with the files of the second copy. Each file has the bytes that it has in the image.
pub fn second_copy_saves()
    ensures law { SecondCopySaves }
{}

/// If a volume has two equal copies of its directory, and any bytes are written over the whole first copy, then the
/// image opens as a volume with these bytes, or `Volume::repair` returns the old volume.
pub fn damage_is_undone()
    ensures law { DamageIsUndone }
{}

/// `Volume::repair` does not change an image that is a volume, even if the two copies of its directory differ.
pub fn good_images_stay()
    ensures law { GoodImagesStay }
{}

/// The slot of a file is one more than the number of files before it in the list. Slot 0, and each slot greater than
/// the number of files, has no file.
pub fn slots_count_files()
    ensures law { SlotsCountFiles }
    ensures end { SlotsEnd }
{}
