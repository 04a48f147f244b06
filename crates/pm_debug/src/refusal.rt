//! The refusals of the debugger.

ghost use Rattle.std.specs.Prelude.{◌≡◌};
ghost use Rattle.pm_debug.specs.Refusals.{number_of, refusal_of};

use pm_words::ExecError;
use std::alloc::{AllocError, AllocFailed};
use thiserror::Error;

/// The reason why the debugger refuses a call. Nothing has changed, except after `NoMemory` from a run.
#[derive(Clone, Copy, Debug, Drop, Error, PartialEq, Eq)]
pub enum DebugRefusal {
    /// 1: 64 breakpoints, or 64 watched words, are set already.
    #[error("too many breakpoints or watched words")]
    Full,
    /// 2: no such breakpoint or watched word is set.
    #[error("not set")]
    NotSet,
    /// 3: an address that must be read is odd.
    #[error("odd address")]
    OddAddress,
    /// 4: out of memory.
    #[error("out of memory")]
    NoMemory,
    /// 5: more than 127 static links were to be followed.
    #[error("too many static links")]
    TooDeep,
    /// 6: no run can be continued.
    #[error("there is no run to continue")]
    NothingLeft,
}

impl DebugRefusal {
    /// Returns the number of the refusal, as the program prints it.
    pub fn number(self) -> u8
        ensures value { result ≡ number_of self }
    {
        match self {
            DebugRefusal::Full => 1,
            DebugRefusal::NotSet => 2,
            DebugRefusal::OddAddress => 3,
            DebugRefusal::NoMemory => 4,
            DebugRefusal::TooDeep => 5,
            DebugRefusal::NothingLeft => 6,
        }
    }
}

impl From<AllocError> for DebugRefusal {
    ghost use Rattle.pm_debug.specs.declared.refusal.DebugRefusal.TheVariants.{NoMemory};

    ghost from_gives = { λ _ refusal. refusal ≡ NoMemory };

    fn from(_: AllocError) -> DebugRefusal {
        DebugRefusal::NoMemory
    }
}

impl<T: Drop> From<AllocFailed<T>> for DebugRefusal {
    ghost use Rattle.pm_debug.specs.declared.refusal.DebugRefusal.TheVariants.{NoMemory};

    ghost from_gives = { λ _ refusal. refusal ≡ NoMemory };

    fn from(_: AllocFailed<T>) -> DebugRefusal {
        DebugRefusal::NoMemory
    }
}

/// Returns the refusal for `error`, the error of a read of memory.
pub(crate) fn refusal_of(error: ExecError) -> DebugRefusal
    ensures refusal { result ≡ refusal_of error }
{
    match error {
        ExecError::NoSegment => DebugRefusal::TooDeep,
        _ => DebugRefusal::OddAddress,
    }
}
