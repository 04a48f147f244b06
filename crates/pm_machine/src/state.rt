//! The types of the machine's state that contain only plain values.

ghost use Rattle.std.specs.Prelude.{◌≡◌};
ghost use Rattle.pm_machine.specs.Faults.{boot_number};

use pm_words::ExecError;
use std::alloc::AllocError;
use thiserror::Error;

/// Whether the machine continues, and otherwise why not.
#[derive(Clone, Copy, Debug, PartialEq, Eq)]
pub enum Status {
    /// The machine continues: the next step executes an instruction.
    Running,
    /// The program has ended.
    Ended,
    /// An execution error has stopped the machine.
    Halted(ExecError),
}

/// The answer of a step: how the step ended.
#[derive(Clone, Copy, Debug, PartialEq, Eq)]
pub enum Stop {
    /// The step succeeded, and the machine continues.
    Went,
    /// The instruction waits for console bytes. Nothing has changed.
    Waiting,
    /// The program has ended.
    Ended,
    /// An execution error has stopped the machine. The step with the error changed only the status.
    Halted(ExecError),
}

/// The reason why a run ended.
#[derive(Clone, Copy, Debug, PartialEq, Eq)]
pub enum RunEnd {
    /// The run has executed its maximum number of steps.
    Limit,
    /// The test of the run stopped it before a step.
    Stopped,
    /// A step had this answer, which is not `Went`.
    Answered(Stop),
}

/// The reason why a machine cannot be created.
#[derive(Clone, Copy, Debug, Drop, Error)]
pub enum BootFault {
    /// 1: the disk unit has no volume, or the volume has no such file.
    #[error("no such file")]
    NoFile,
    /// 2: the kind of the file is not code.
    #[error("not a code file")]
    NotCode,
    /// 3: the code file cannot be read or has no segment 1, or bare code is too long.
    #[error("bad code file")]
    BadCode,
    /// 4: the first call of the program fails with this execution error.
    #[error("execution error at the first call")]
    Exec(ExecError),
    /// 5: the host has no memory for the machine.
    #[error("out of memory")]
    NoMemory,
}

impl BootFault {
    /// Returns the number of the fault, as the program prints it.
    pub fn number(self) -> u8
        ensures value { result ≡ boot_number self }
    {
        match self {
            BootFault::NoFile => 1,
            BootFault::NotCode => 2,
            BootFault::BadCode => 3,
            BootFault::Exec(_) => 4,
            BootFault::NoMemory => 5,
        }
    }
}

impl From<AllocError> for BootFault {
    ghost use Rattle.pm_machine.specs.declared.state.BootFault.TheVariants.{NoMemory};

    ghost from_gives = { λ _ f. f ≡ NoMemory };

    fn from(_: AllocError) -> BootFault {
        BootFault::NoMemory
    }
}

impl From<ExecError> for BootFault {
    ghost use Rattle.pm_machine.specs.declared.state.BootFault.TheVariants.{Exec};

    ghost from_gives = { λ e f. f ≡ Exec e };

    fn from(error: ExecError) -> BootFault {
        BootFault::Exec(error)
    }
}
