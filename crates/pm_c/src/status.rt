//! The statuses that calls of the library return.
ghost use Rattle.std.specs.Prelude.{◌≡◌, ◌≢◌, ◌+◌};
ghost use Rattle.pm_c.specs.Codes.{boot_code, status_code, stop_code};
ghost use Rattle.pm_volume.specs.Faults.{number_of};

use pm_machine::{BootFault, Status, Stop};
use pm_volume::VolumeFault;

/// The version 0.1 of the library, as the number 1. The library has the same version as the program.
pub const VERSION: u32 = 1;

/// The call succeeded. After a step or a run, the machine can continue.
pub const DONE: u32 = 0;

/// The machine waits for console bytes.
pub const WAITING: u32 = 1;

/// The program has ended.
pub const ENDED: u32 = 2;

/// A job is refused, and its answer states the reason.
pub const REFUSED: u32 = 2;

/// An execution error stopped the program of a job.
pub const FAILED: u32 = 3;

/// The program of a job reached the limit of its steps, or waits for console bytes.
pub const STOPPED: u32 = 6;

/// The input of a job is too long.
pub const TOO_LONG: u32 = 4;

/// Out of memory. Nothing has changed, unless the call states something else.
pub const NO_MEMORY: u32 = 5;

/// The buffer is too short, and nothing was written to it.
pub const TOO_SHORT: u32 = 7;

/// The handle is empty.
pub const NO_MACHINE: u32 = 8;

/// The handle already has a machine.
pub const HAS_MACHINE: u32 = 9;

/// The address is odd.
pub const ODD_ADDRESS: u32 = 10;

/// The unit has no disk.
pub const NO_DISK: u32 = 11;

/// A name is not UTF-8.
pub const NO_TEXT: u32 = 12;

/// The machine has no position in the code, because SEG or JTAB is odd.
pub const NO_PLACE: u32 = 13;

/// The kind of a file is above 15.
pub const NO_KIND: u32 = 14;

/// A breakpoint stopped a run.
pub const AT_BREAK: u32 = 15;

/// A watched word has changed.
pub const CHANGED: u32 = 16;

/// A name is not the name of a format.
pub const NO_FORMAT: u32 = 17;

/// A search found nothing.
pub const NOTHING: u32 = 18;

/// Two volumes do not have the same files.
pub const DIFFERENT: u32 = 19;

/// Returns the status of a step that ended with `stop`.
pub(crate) fn stop_code(stop: Stop) -> u32
    ensures value { result ≡ stop_code stop }
    ensures other { result ≢ NO_MEMORY }
{
    match stop {
        Stop::Went => DONE,
        Stop::Waiting => WAITING,
        Stop::Ended => ENDED,
        Stop::Halted(error) => 100 + u32::from(error.number()),
    }
}

/// Returns the number that calls return for the status of a machine.
pub(crate) fn status_code(status: Status) -> u32
    ensures value { result ≡ status_code status }
{
    match status {
        Status::Running => DONE,
        Status::Ended => ENDED,
        Status::Halted(error) => 100 + u32::from(error.number()),
    }
}

/// Returns the status of a start that is refused because of `fault`.
pub(crate) fn boot_code(fault: BootFault) -> u32
    ensures value { result ≡ boot_code fault }
    ensures fault { result ≢ DONE }
{
    match fault {
        BootFault::Exec(error) => 100 + u32::from(error.number()),
        BootFault::NoMemory => NO_MEMORY,
        BootFault::NoFile | BootFault::NotCode | BootFault::BadCode => {
            200 + u32::from(fault.number())
        }
    }
}

/// Returns the status of a call that is refused because the image is no volume.
pub(crate) fn volume_code(fault: VolumeFault) -> u32
    ensures value { result ≡ 400 + number_of fault }
{
    400 + u32::from(fault.number())
}
