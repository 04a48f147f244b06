//! Laws of how removing or renaming a file, which is selected by slot or by pattern, changes the list of files. Each
//! function has an empty body.

ghost use Rattle.law_disks.specs.Fitting as fitting;
ghost use Rattle.law_disks.specs.Slots as slots;

/// `RemoveSlot` with the slot of a file of a volume succeeds. The list of files is then the old list without this file.
/// All other files, even files with the same name, have the same order and the same bytes as before.
pub fn removal_takes_one()
    ensures law { slots.RemovalTakesOne }
{}

/// `ChangeSlot` with the slot of a file of a volume succeeds if the new name is valid and no other file has it. The
/// file then has the new name at the same position of the list, and is otherwise unchanged. All other files, even files
/// with its old name, are unchanged. All files have the bytes that they had before.
pub fn change_names_one()
    ensures law { slots.ChangeNamesOne }
{}

/// `ChangeSlot` with the slot of a file is refused with `BadName` if the new name is invalid. Otherwise it is refused
/// with `Duplicate` if another file has the new name. Otherwise it succeeds.
pub fn slot_changes_tell_first()
    ensures law { slots.SlotChangesTellFirst }
{}

/// `RemoveSlot`, and `ChangeSlot` with any new name, are refused with `NoFile` if the slot has no file.
pub fn empty_slots_are_refused()
    ensures law { slots.EmptySlotsAreRefused }
{}

/// `Remove` and `Change` of a name give the same result as `RemoveSlot` and `ChangeSlot` of the slot of the first file
/// that has the name.
pub fn names_are_slots()
    ensures law { slots.NamesAreSlots }
{}

/// A pattern that contains `=` matches exactly the names with three parts: the characters before its first `=`, any
/// characters, and the characters after this `=`. A pattern without `=` matches exactly the names that equal the
/// pattern. Upper and lower case are equal.
pub fn equals_is_anything()
    ensures law { fitting.EqualsIsAnything }
    ensures name { fitting.PatternIsName }
{}

/// `RemoveFitting` on a volume succeeds if some file matches the pattern. The list of files is then the old list
/// without the files that match. The other files have the same order and the same bytes as before. If no file matches,
/// the command is refused with `NoFile`.
pub fn removal_leaves_unfit()
    ensures law { fitting.RemovalLeavesUnfit }
    ensures refused { fitting.UnfitIsRefused }
{}
