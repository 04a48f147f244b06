//! The faults of volumes and their numbers.

ghost use Rattle.std.specs.Prelude.{◌≡◌};
ghost use Rattle.pm_volume.specs.Faults.{detail_of, number_of};

use thiserror::Error;

/// The reason why an image is not a volume, or why a change of a volume is refused.
#[derive(Clone, Copy, Debug, PartialEq, Eq, Error)]
pub enum VolumeFault {
    /// 1: the length of the image is not a multiple of 512 bytes.
    #[error("the length of the image is not a multiple of 512 bytes")]
    NotBlocks,
    /// 2: the image has fewer than 6 blocks, too few for a directory.
    #[error("the image is too short for a directory")]
    TooShort,
    /// 3: the header of the directory is damaged in one of these ways:
    /// - The volume's name does not have 1 to 7 characters.
    /// - Files begin neither at block 6 nor at block 10.
    /// - The volume has fewer blocks than the number of the block at which files begin.
    #[error("the header of the directory is damaged")]
    BadHeader,
    /// 4: the entry with this number is damaged in one of these ways:
    /// - Its name does not have 1 to 15 characters.
    /// - Its first block is below the end of the previous entry.
    /// - Its end is below its first block.
    /// - Its last block does not have 1 to 512 bytes.
    #[error("entry {0} of the directory is damaged")]
    BadEntry(u16),
    /// 5: the directory states that it has more than 77 files.
    #[error("the header of the directory states more than 77 files")]
    TooManyFiles,
    /// 6: the volume extends past the end of the image, or a file extends past the end of the volume.
    #[error("the volume extends past the end of the image, or a file past the end of the volume")]
    PastEnd,
    /// 7: no free area has enough blocks.
    #[error("no free area is large enough")]
    NoRoom,
    /// 8: the directory has 77 files.
    #[error("the directory is full")]
    DirectoryFull,
    /// 9: a file of that name exists.
    #[error("a file of that name exists")]
    Duplicate,
    /// 10: the text is not a valid name.
    #[error("invalid name")]
    BadName,
    /// 11: no file has that name.
    #[error("no file of that name")]
    NoFile,
    /// 12: the host has no memory for the image.
    #[error("out of memory")]
    NoMemory,
    /// 13: the first copy of the directory has the fault with this number, from 3 to 6, and the second copy is valid.
    #[error("the first copy of the directory is damaged, the second is good")]
    FirstCopyBad(u8),
    /// 14: a file begins below block 10, in the blocks of the second copy of the directory.
    #[error("a file is in the blocks of the second copy of the directory")]
    Occupied,
}

impl VolumeFault {
    /// Returns the fault's number, as the program prints it.
    pub fn number(self) -> u8
        ensures value { result ≡ number_of self }
    {
        match self {
            VolumeFault::NotBlocks => 1,
            VolumeFault::TooShort => 2,
            VolumeFault::BadHeader => 3,
            VolumeFault::BadEntry(_) => 4,
            VolumeFault::TooManyFiles => 5,
            VolumeFault::PastEnd => 6,
            VolumeFault::NoRoom => 7,
            VolumeFault::DirectoryFull => 8,
            VolumeFault::Duplicate => 9,
            VolumeFault::BadName => 10,
            VolumeFault::NoFile => 11,
            VolumeFault::NoMemory => 12,
            VolumeFault::FirstCopyBad(_) => 13,
            VolumeFault::Occupied => 14,
        }
    }

    /// Returns the second number of a fault that has one: for `BadEntry` the number of the entry, counted from 1, and
    /// for `FirstCopyBad` the number of the fault of the first copy.
    pub fn detail(self) -> Option<u16>
        ensures named { result ≡ detail_of self }
    {
        match self {
            VolumeFault::BadEntry(n) => Some(n),
            VolumeFault::FirstCopyBad(number) => Some(u16::from(number)),
            _ => None,
        }
    }
}
