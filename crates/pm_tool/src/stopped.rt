//! Records the state in which an execution error stopped a run.
ghost use Rattle.std.specs.Prelude.{◌≡◌};
ghost use Rattle.pm_tool.specs.Stops.{AreStops, IsStop, stop_of};

use pm_machine::{CodePlace, Machine, place_in_code};
use pm_session::Ending;
use pm_trace::trace_line;
use std::alloc::Global;

/// The state in which an error stopped a run. The step that failed was not executed.
#[derive(Drop)]
pub struct Stopped {
    /// The position: the numbers of the segment and the procedure, and the offset of IPC from the entry of the
    /// procedure, in bytes. None if SEG or JTAB is odd.
    pub place: Option<CodePlace>,
    /// The trace line of the step that failed. None if memory was refused.
    pub step: Option<String>,
    /// The three bytes of memory from address IPC.
    pub code: [u8; 3],
    /// IORESULT, the result of the last input or output.
    pub ioresult: u16,
}

impl Stopped {
    /// Returns the state of `machine`, with the position and the trace line of its next step.
    fn at(alloc: Global, machine: &Machine) -> Stopped
        ensures stop { IsStop result machine.now.state }
    {
        let registers = machine.registers();
        let memory = machine.memory();
        let ipc = registers.ipc;
        Stopped {
            place: place_in_code(machine),
            step: trace_line(alloc, machine).ok(),
            code: [
                memory.byte(ipc),
                memory.byte(ipc.wrapping_add(1)),
                memory.byte(ipc.wrapping_add(2)),
            ],
            ioresult: registers.ioresult,
        }
    }
}

/// If `ending` is an error, returns the state of `machine`. Otherwise returns None.
pub(crate) fn stopped_at(alloc: Global, machine: &Machine, ending: Ending) -> Option<Stopped>
    ensures stops { AreStops result (stop_of ending machine.now.state) }
{
    match ending {
        Ending::Error(_) => Some(Stopped::at(alloc, machine)),
        Ending::Ended | Ending::Limit | Ending::Waiting => None,
    }
}
