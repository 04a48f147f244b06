//! The reasons why bytes are not a code file.

ghost use Rattle.std.specs.Prelude.{◌≡◌};
ghost use Rattle.pm_codefile.specs.Faults.{number_of, slot_of_fault};

use thiserror::Error;

/// The reason why bytes are not a code file. The field is the number of a slot of the dictionary, 0 to 15.
#[derive(Clone, Copy, Debug, Error)]
pub enum CodeFault {
    /// 1: the file has fewer than 512 bytes, the length of a dictionary.
    #[error("the file has no dictionary")]
    NoDictionary,
    /// 2: the segment of a slot extends past the end of the file.
    #[error("the segment of slot {0} extends past the end of the file")]
    SlotPastEnd(u8),
    /// 3: the length of a slot is odd.
    #[error("the length of slot {0} is odd")]
    OddLength(u8),
}

impl CodeFault {
    /// Returns the number of the fault, as the program prints it.
    pub fn number(self) -> u8
        ensures value { result ≡ number_of self }
    {
        match self {
            CodeFault::NoDictionary => 1,
            CodeFault::SlotPastEnd(_) => 2,
            CodeFault::OddLength(_) => 3,
        }
    }

    /// Returns the slot that the fault reports, or `None` if the fault has no slot.
    pub fn slot(self) -> Option<u8>
        ensures value { result ≡ slot_of_fault self }
    {
        match self {
            CodeFault::NoDictionary => None,
            CodeFault::SlotPastEnd(n) | CodeFault::OddLength(n) => Some(n),
        }
    }
}
