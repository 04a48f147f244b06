//! Laws of the fields of the state that each event may change.

ghost use Rattle.law_engine.specs.Writes.{EventsLeaveTheRest};
ghost use Rattle.law_engine.specs.WrittenLaws.{StepsWriteWhatIsNamed};
ghost use Rattle.law_engine.specs.WorkedStretches.{WorkedStretches};

/// An event changes only the fields of the state that the table of docs/MACHINE.md lists for it. The fields are each
/// word of the memory, each register, each disk, the queue, the outputs, the addresses of slots, the rows of the
/// dictionary, the clock, the count of steps and the status. No event changes the rows or the clock.
pub fn events_leave_the_rest()
    ensures law { EventsLeaveTheRest }
{}

/// A step of a plain state changes no word of memory, except words with a byte that the definition `writes` lists for
/// the step. The state before the step determines this list. The list has the words that the instruction pushes or
/// stores, the frame of a call with the code that is loaded, and the result of a return. It also has the saved IPC of
/// the frames that EXIT leaves, and the bytes of a move, a fill or a transfer. A plain state has a valid memory (32,768
/// words, each less than 65,536) and a valid stack, and bytes on its disks and in its queue.
#[tactic(auto, using(crate::proofs::WrittenLaws::steps_write_what_is_named))]
pub fn steps_write_what_is_named()
    ensures law { StepsWriteWhatIsNamed }
{}

/// Worked examples: the ranges of memory that single definitions state as written.
#[tactic(auto, using(crate::proofs::WorkedStretches::worked_stretches))]
pub fn worked_stretches()
    ensures law { WorkedStretches }
{}
