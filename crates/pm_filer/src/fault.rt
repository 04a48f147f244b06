//! The reasons why a command on a volume is refused.
ghost use Rattle.std.specs.Prelude.{◌≡◌};
ghost use Rattle.pm_filer.specs.Filed.{filer_number};

use pm_textfile::TextFault;
use pm_volume::VolumeFault;
use std::alloc::AllocError;
use thiserror::Error;

/// The reason why a command is refused. The volume is unchanged.
#[derive(Clone, Copy, Debug, Error)]
pub enum FilerFault {
    /// The volume refuses the command, for this reason.
    #[error("{0}")]
    Volume(VolumeFault),
    /// The text that is added, or the text file that is read, has this fault.
    #[error("{0}")]
    Text(TextFault),
    /// The year is above 127, the month is not 1 to 12, or the day is not 1 to 31.
    #[error("not a date")]
    BadDate,
    /// The host has no memory for the command.
    #[error("out of memory")]
    NoMemory,
}

impl FilerFault {
    /// Returns the number of the fault: 1 for a fault of the volume, 2 for a fault of a text, 3 for an invalid date,
    /// and 4 for out of memory.
    pub fn number(self) -> u8
        ensures value { result ≡ filer_number self }
    {
        match self {
            FilerFault::Volume(_) => 1,
            FilerFault::Text(_) => 2,
            FilerFault::BadDate => 3,
            FilerFault::NoMemory => 4,
        }
    }
}

impl From<VolumeFault> for FilerFault {
    ghost use Rattle.pm_filer.specs.declared.fault.FilerFault.TheVariants.{Volume};

    ghost from_gives = { λ inner fault. fault ≡ Volume inner };

    fn from(fault: VolumeFault) -> FilerFault {
        FilerFault::Volume(fault)
    }
}

impl From<AllocError> for FilerFault {
    ghost use Rattle.pm_filer.specs.declared.fault.FilerFault.TheVariants.{NoMemory};

    ghost from_gives = { λ _ fault. fault ≡ NoMemory };

    fn from(_: AllocError) -> FilerFault {
        FilerFault::NoMemory
    }
}

impl From<TextFault> for FilerFault {
    ghost use Rattle.pm_filer.specs.Filed.{of_text};

    ghost from_gives = { λ inner fault. fault ≡ of_text inner };

    fn from(fault: TextFault) -> FilerFault {
        match fault {
            TextFault::NoMemory => FilerFault::NoMemory,
            fault => FilerFault::Text(fault),
        }
    }
}
