//! The reasons why an instruction is not completed.

use pm_words::ExecError;
use std::alloc::AllocError;
use thiserror::Error;

/// The reason why an instruction is not completed. The state is the state before the instruction.
#[derive(Clone, Copy, Debug, Drop, Error)]
pub enum Trap {
    /// An execution error, which halts the machine.
    #[error("execution error")]
    Exec(ExecError),
    /// The input queue has fewer bytes than the instruction reads.
    #[error("waiting for input")]
    Waiting,
    /// The host has no memory for the bytes that the instruction writes.
    #[error("out of memory")]
    NoMemory,
}

impl From<ExecError> for Trap {
    ghost use Rattle.std.specs.Prelude.{◌≡◌};
    ghost use Rattle.pm_units.specs.declared.trap.Trap.TheVariants.{Exec};

    ghost from_gives = { λ e t. t ≡ Exec e };

    fn from(error: ExecError) -> Trap {
        Trap::Exec(error)
    }
}

impl From<AllocError> for Trap {
    ghost use Rattle.std.specs.Prelude.{◌≡◌};
    ghost use Rattle.pm_units.specs.declared.trap.Trap.TheVariants.{NoMemory};

    ghost from_gives = { λ _ t. t ≡ NoMemory };

    fn from(_: AllocError) -> Trap {
        Trap::NoMemory
    }
}
