//! The execution errors and their numbers.

ghost use Rattle.std.specs.Prelude.{◌≡◌};
ghost use Rattle.pm_words.specs.Errors.{number_of};

use thiserror::Error;

/// An execution error. It halts the machine in the state before the instruction.
///
/// The numbers 0, 5, 8, 12 and 15 of the p-System (system error, integer overflow, user break, floating point, bad
/// block) do not occur.
#[derive(Clone, Copy, Debug, Drop, Error, PartialEq, Eq)]
pub enum ExecError {
    /// 1: an index or a member of a set is outside its bounds.
    #[error("invalid index")]
    InvalidIndex,
    /// 2: a segment, a procedure or a static link does not exist; a table has an odd address or an odd size; a level
    /// is wrong; or a code file is invalid.
    #[error("no segment or bad code file")]
    NoSegment,
    /// 3: EXIT leads to a procedure that is not active.
    #[error("procedure not present at exit time")]
    NoProcedure,
    /// 4: SP would be below NP; a segment does not fit into memory; or a segment has 65,535 calls in progress and is
    /// called again.
    #[error("stack overflow")]
    StackOverflow,
    /// 6: a division by zero was executed.
    #[error("divide by zero")]
    DivideByZero,
    /// 7: the address of a word is odd, a range extends past the end of memory, or the stack has too few words.
    #[error("invalid memory reference")]
    InvalidMemory,
    /// 9: code cannot be loaded from its disk.
    #[error("system I/O error")]
    SystemIo,
    /// 10: an I/O check found an IORESULT other than 0.
    #[error("user I/O error")]
    UserIo,
    /// 11: this machine does not have the opcode or the standard procedure.
    #[error("unimplemented instruction")]
    Unimplemented,
    /// 13: a string is longer than the variable to which it is assigned.
    #[error("string too long")]
    StringTooLong,
    /// 14: the program has halted.
    #[error("halt or breakpoint")]
    Halt,
}

impl ExecError {
    /// Returns the number of the error, as the system prints it.
    pub fn number(self) -> u8
        ensures value { result ≡ number_of self }
    {
        match self {
            ExecError::InvalidIndex => 1,
            ExecError::NoSegment => 2,
            ExecError::NoProcedure => 3,
            ExecError::StackOverflow => 4,
            ExecError::DivideByZero => 6,
            ExecError::InvalidMemory => 7,
            ExecError::SystemIo => 9,
            ExecError::UserIo => 10,
            ExecError::Unimplemented => 11,
            ExecError::StringTooLong => 13,
            ExecError::Halt => 14,
        }
    }
}
