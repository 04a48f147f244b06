//! The reasons why the system segment is not added to a program.
ghost use Rattle.std.specs.Prelude.{◌≡◌};
ghost use Rattle.pm_filer.specs.SystemFaults.{number_of};

use pm_codefile::CodeFault;
use pm_volume::VolumeFault;
use std::alloc::AllocError;
use thiserror::Error;

/// The reason why the system segment is not added to a program. Nothing has changed.
#[derive(Clone, Copy, Debug, Error)]
pub enum SystemFault {
    /// 1: the system's file is not a code file, for this reason.
    #[error("the file of --system is not a code file: {0}")]
    NoCode(CodeFault),
    /// 2: slot 0 of the system's file has no segment.
    #[error("the file of --system has no segment in slot 0")]
    NoSegment,
    /// 3: the program's file is not a code file, for this reason.
    #[error("the program is not a code file: {0}")]
    NoProgram(CodeFault),
    /// 4: slot 0 of the program's file has a segment.
    #[error("the program already has a segment in slot 0; run it without --system")]
    Taken,
    /// 5: the volume refuses the program's file with the added segment, for this reason.
    #[error("cannot add the system segment to the program on unit 4: {0}")]
    Volume(VolumeFault),
    /// 6: the host has no memory for the new file.
    #[error("out of memory")]
    NoMemory,
}

impl SystemFault {
    /// Returns the fault's number, as the program prints it.
    pub fn number(self) -> u8
        ensures value { result ≡ number_of self }
    {
        match self {
            SystemFault::NoCode(_) => 1,
            SystemFault::NoSegment => 2,
            SystemFault::NoProgram(_) => 3,
            SystemFault::Taken => 4,
            SystemFault::Volume(_) => 5,
            SystemFault::NoMemory => 6,
        }
    }
}

impl From<VolumeFault> for SystemFault {
    ghost use Rattle.pm_filer.specs.declared.system_fault.SystemFault.TheVariants.{Volume};

    ghost from_gives = { λ inner fault. fault ≡ Volume inner };

    fn from(fault: VolumeFault) -> SystemFault {
        SystemFault::Volume(fault)
    }
}

impl From<AllocError> for SystemFault {
    ghost use Rattle.pm_filer.specs.declared.system_fault.SystemFault.TheVariants.{NoMemory};

    ghost from_gives = { λ _ fault. fault ≡ NoMemory };

    fn from(_: AllocError) -> SystemFault {
        SystemFault::NoMemory
    }
}
