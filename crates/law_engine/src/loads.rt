//! Laws of the memory in which loaded code is stored.

ghost use Rattle.law_engine.specs.Loads.{BootsLoadSegment, StepsKeepSegments, StepsLoadSegments, StepsLoadWhatIsThere};

use crate::shapes::machines_hold_words;
use pm_machine::Machine;

/// If a machine was booted from a code file on a volume of bytes, and the unit's disk is still this volume after any
/// events, then a successful step that calls a procedure of a slot without an address loads the segment of this slot of
/// the file. The segment is then in memory, directly below the SP before the step.
pub fn steps_load_segments(machine: &Machine)
    ensures law { StepsLoadSegments machine.now.state }
{
    machines_hold_words(machine);
}

/// If a machine was booted from a code file on a volume of bytes, and the unit's disk is still this volume after any
/// events, then a successful step of standard procedure 21 for a slot without an address loads the segment of this slot
/// of the file. The segment is then in memory, directly below the SP after the number of the slot is popped.
pub fn steps_keep_segments(machine: &Machine)
    ensures law { StepsKeepSegments machine.now.state }
{
    machines_hold_words(machine);
}

/// If a slot has no address, and its row in the dictionary of the machine has a length other than 0, then a successful
/// step that loads the slot leaves the present bytes of the disk in memory. These are the bytes at the block of the
/// row, on the disk of the row's unit. A call leaves them directly below the SP before the call. Standard procedure 21
/// leaves them directly below the SP after the number of the slot is popped. Premise: the disk has these bytes.
pub fn steps_load_what_is_there(machine: &Machine)
    ensures law { StepsLoadWhatIsThere machine.now.state }
{
    machines_hold_words(machine);
}

/// If a machine is booted from a code file on a volume of bytes, then it begins with the segment of slot 1 of this file
/// in memory, directly below 65,492.
pub fn boots_load_segment()
    ensures law { BootsLoadSegment }
{}
