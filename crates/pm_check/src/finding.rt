//! The rules of a volume that an image breaks, and their texts.
ghost use Rattle.std.specs.Prelude.{Some};
ghost use Rattle.pm_check.specs.Findings.{finding_text, slot_text};

use std::fmt;

/// A rule that an image breaks.
#[derive(Clone, Copy)]
pub enum Finding {
    /// The image has this number of bytes, which is not a multiple of 512.
    NotBlocks(usize),
    /// The image has this number of bytes, fewer than the 6 blocks that it needs for a directory.
    TooShort(usize),
    /// The volume's name has this number of characters, not 1 to 7.
    VolumeName(u8),
    /// The directory states that files begin at the block with this number, not at 6 or 10.
    FilesBegin(u16),
    /// The volume has the first number of blocks, but files begin at the block with the second number.
    FewBlocks(u16, u16),
    /// The directory states the first number of blocks, but the image has only the second number.
    PastImage(u16, usize),
    /// The directory states this number of files, which is greater than 77.
    ManyFiles(u16),
    /// The entry in the slot with this number breaks the rule.
    Slot(u16, SlotFinding),
}

/// A rule that the entry in a slot breaks.
#[derive(Clone, Copy)]
pub enum SlotFinding {
    /// The name of the file has this number of characters, not 1 to 15.
    Name(u8),
    /// The entry begins at the block with the first number, but files begin at the block with the second number.
    First(u16, u16),
    /// The entry ends before the block with the first number, but begins at the block with the second number.
    End(u16, u16),
    /// The entry ends before the block with the first number, but the volume has only the second number of blocks.
    PastVolume(u16, u16),
    /// The last block of the file has this number of bytes.
    LastBytes(u16),
    /// The entry begins at the block with the first number, but the entry in the slot before ends before the block with
    /// the second number.
    Order(u16, u16),
}

impl fmt::Display for SlotFinding {
    ghost output = { λ finding. Some (slot_text finding) };

    fn fmt<W: fmt::Write>(&self, f: &mut fmt::Formatter<W>) -> fmt::Result {
        match *self {
            SlotFinding::Name(length) => write!(f, "name has {length} characters, not 1 to 15"),
            SlotFinding::First(first, begin) => write!(f, "first block {first} is below {begin}"),
            SlotFinding::End(end, first) => write!(f, "end {end} is below the first block {first}"),
            SlotFinding::PastVolume(end, blocks) => write!(f, "end {end} is above {blocks}"),
            SlotFinding::LastBytes(bytes) => write!(
                f,
                "last block has {bytes} bytes, not 1 to 512"
            ),
            SlotFinding::Order(first, end) => {
                write!(
                    f,
                    "first block {first} is below {end}, the end of the slot before"
                )
            }
        }
    }
}

impl fmt::Display for Finding {
    ghost output = { λ finding. Some (finding_text finding) };

    fn fmt<W: fmt::Write>(&self, f: &mut fmt::Formatter<W>) -> fmt::Result {
        match *self {
            Finding::NotBlocks(bytes) => write!(f, "length {bytes} is no multiple of 512"),
            Finding::TooShort(bytes) => write!(f, "length {bytes} is below 3072"),
            Finding::VolumeName(length) => {
                write!(f, "header name has {length} characters, not 1 to 7")
            }
            Finding::FilesBegin(begin) => write!(f, "header files begin at {begin}, not 6 or 10"),
            Finding::FewBlocks(blocks, begin) => {
                write!(
                    f,
                    "header blocks {blocks} are below {begin}, where files begin"
                )
            }
            Finding::PastImage(blocks, image) => {
                write!(
                    f,
                    "header blocks {blocks} are above {image}, those of the image"
                )
            }
            Finding::ManyFiles(files) => write!(f, "header files {files} are above 77"),
            Finding::Slot(slot, finding) => write!(f, "slot {slot} {finding}"),
        }
    }
}
