//! The reasons why a job is aborted.
ghost use Rattle.std.specs.Prelude.{◌≡◌};
ghost use Rattle.pm_jobs.specs.Faults.{fault_text};

use std::alloc::AllocError;

/// The reason why a job is aborted.
#[derive(Clone, Copy)]
pub enum Fault {
    /// A read returned an error, or the input has more than `INPUT_LIMIT` bytes.
    Read,
    /// A write returned an error or wrote no byte.
    Write,
    /// The host has no more memory for the job.
    NoMemory,
}

impl Fault {
    /// Returns the message for this fault: `read fault`, `write fault` or `no memory`.
    pub fn text(self) -> &'static str
        ensures value { result.now ≡ fault_text self }
    {
        match self {
            Fault::Read => "read fault",
            Fault::Write => "write fault",
            Fault::NoMemory => "no memory",
        }
    }
}

impl From<AllocError> for Fault {
    ghost use Rattle.pm_jobs.specs.declared.fault.Fault.TheVariants.{NoMemory};

    ghost from_gives = { λ _ fault. fault ≡ NoMemory };

    fn from(_: AllocError) -> Fault {
        Fault::NoMemory
    }
}
