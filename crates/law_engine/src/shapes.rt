//! Laws of the properties that each machine has and that no event changes.

ghost use Rattle.law_engine.specs.Shapes.{EventsKeepShape, MachinesCountCalls, MachinesHaveShape};
ghost use Rattle.pm_words.specs.Stack.{IsStack};
ghost use Rattle.pm_words.specs.Words.{IsMemory};

use pm_machine::Machine;

/// No event changes the rows of the dictionary, the number of slots or the number of disks.
#[tactic(auto, using(crate::proofs::ShapeLaws::events_keep_shape))]
pub fn events_keep_shape()
    ensures law { EventsKeepShape }
{}

/// After any events, a machine has 16 rows, 16 slots and six disks, and no slot above 15 has an address. This holds for
/// a machine that begins with code and for one that is booted from a list of six images.
#[tactic(auto, using(crate::proofs::ShapeLaws::machines_have_shape))]
pub fn machines_have_shape()
    ensures law { MachinesHaveShape }
{}

/// If a segment of a machine has an address, then it has at least one call or keep. This holds after any events, for a
/// machine that begins with code and for one that is booted.
#[tactic(auto, using(crate::proofs::CountLaws::machines_count_calls))]
pub fn machines_count_calls()
    ensures law { MachinesCountCalls }
{}

/// Each machine has 32,768 words of memory, and each of them is less than 65,536. SP and NP are even, and NP ≤ SP ≤
/// 65,504.
pub fn machines_hold_words(machine: &Machine)
    ensures memory { IsMemory machine.now.state.memory }
    ensures stack { IsStack machine.now.state.registers.sp machine.now.state.registers.np }
{
    let _bytes = machine.memory().bytes();
    let _registers = machine.registers();
}
