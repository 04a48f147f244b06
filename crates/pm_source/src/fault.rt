//! The faults of an assembly text.

ghost use Rattle.std.specs.Prelude.{◌≡◌};
ghost use Rattle.pm_source.specs.FaultNumbers.{number_of, place_of};

use thiserror::Error;

/// The reason why the assembler rejects a text. Lines are counted from 1.
#[derive(Clone, Copy, Debug, Error)]
pub enum AsmFault {
    /// 1: a line is ill-formed or is not allowed at its position, or it begins a procedure that has no `.END`.
    #[error("line {0} is ill-formed or in the wrong place")]
    Syntax(usize),
    /// 2: a mnemonic, directive or type keyword is unknown.
    #[error("line {0} has an unknown mnemonic, directive or type keyword")]
    Unknown(usize),
    /// 3: a number is outside its range, or a count or a length is wrong.
    #[error("line {0} has a number out of range, or ends a procedure with odd length or a wrong number of .JUMP lines")]
    Range(usize),
    /// 4: a line uses a label that its procedure does not define.
    #[error("line {0} names a label that its procedure does not have")]
    NoLabel(usize),
    /// 5: a line defines a segment, a label of the procedure or its `.EXIT` again.
    #[error("line {0} defines a segment, a label or .EXIT again")]
    Twice(usize),
    /// 6: a short jump leads backward, or more than 127 bytes forward.
    #[error("line {0} jumps backward, or more than 127 bytes forward")]
    Far(usize),
    /// 7: a segment has more than 60,000 bytes.
    #[error("segment {0} has more than 60,000 bytes")]
    TooLong(u8),
    /// 8: the host has no memory for the result.
    #[error("no memory")]
    NoMemory,
}

impl AsmFault {
    /// Returns the number of the fault, as the program prints it.
    pub fn number(self) -> u8
        ensures value { result ≡ number_of self }
    {
        match self {
            AsmFault::Syntax(_) => 1,
            AsmFault::Unknown(_) => 2,
            AsmFault::Range(_) => 3,
            AsmFault::NoLabel(_) => 4,
            AsmFault::Twice(_) => 5,
            AsmFault::Far(_) => 6,
            AsmFault::TooLong(_) => 7,
            AsmFault::NoMemory => 8,
        }
    }

    /// Returns the line of the fault. For `TooLong`, returns the number of the segment. For `NoMemory`, returns `None`.
    pub fn place(self) -> Option<usize>
        ensures value { result ≡ place_of self }
    {
        match self {
            AsmFault::Syntax(line)
            | AsmFault::Unknown(line)
            | AsmFault::Range(line)
            | AsmFault::NoLabel(line)
            | AsmFault::Twice(line)
            | AsmFault::Far(line) => Some(line),
            AsmFault::TooLong(segment) => Some(usize::from(segment)),
            AsmFault::NoMemory => None,
        }
    }
}
