//! The reasons why bytes are not a text file, or why a text cannot be converted to a text file.

ghost use Rattle.std.specs.Prelude.{◌≡◌};
ghost use Rattle.pm_textfile.specs.Faults.{number_of, place_of_text_fault};

use std::alloc::AllocError;
use thiserror::Error;

/// The reason why bytes are not a text file, or why a text cannot be converted to a text file.
#[derive(Clone, Copy, Debug, Error)]
pub enum TextFault {
    /// 1: the file has fewer than 1,024 bytes, the length of a header.
    #[error("the file has no header")]
    NoHeader,
    /// 2: the host has no memory for the result.
    #[error("out of memory")]
    NoMemory,
    /// 3: the encoded line with this number has more than 1,024 bytes. Lines are counted from 1.
    #[error("line {0} does not fit in a page")]
    LineTooLong(usize),
    /// 4: the byte at this position of the text is 0, 13 or 16. Positions are counted from 0.
    #[error("the byte at position {0} is not allowed in a text file")]
    BadByte(usize),
}

impl TextFault {
    /// Returns the number of the fault, as the program prints it.
    pub fn number(self) -> u8
        ensures value { result ≡ number_of self }
    {
        match self {
            TextFault::NoHeader => 1,
            TextFault::NoMemory => 2,
            TextFault::LineTooLong(_) => 3,
            TextFault::BadByte(_) => 4,
        }
    }

    /// Returns the line of `LineTooLong`, or the position of `BadByte`. Returns `None` for the other faults.
    pub fn place(self) -> Option<usize>
        ensures value { result ≡ place_of_text_fault self }
    {
        match self {
            TextFault::NoHeader | TextFault::NoMemory => None,
            TextFault::LineTooLong(line) => Some(line),
            TextFault::BadByte(place) => Some(place),
        }
    }
}

impl From<AllocError> for TextFault {
    ghost use Rattle.pm_textfile.specs.declared.fault.TextFault.TheVariants.{NoMemory};

    ghost from_gives = { λ _ e. e ≡ NoMemory };

    fn from(_: AllocError) -> TextFault {
        TextFault::NoMemory
    }
}
