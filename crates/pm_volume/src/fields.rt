//! The layout of a volume: the directory and its second copy in the image, the header in slot 0 of the directory, and
//! the slot of a file. Offsets in the header and in a slot are in bytes, from its first byte.

/// The offset of the directory in the image, in bytes. The directory is in blocks 2 to 5.
pub const DIRECTORY: usize = 1024;

/// The number of bytes of a directory.
pub const DIRECTORY_SIZE: usize = 2048;

/// The offset, in the image, of the first byte after the directory.
pub const DIRECTORY_END: usize = 3072;

/// The offset of the second copy of the directory in the image, in bytes. The second copy is in blocks 6 to 9.
pub const SECOND: usize = 3072;

/// The offset, in the image, of the first byte after the second copy of the directory.
pub const SECOND_END: usize = 5120;

/// The block at which files begin if the volume has only one copy of the directory.
pub const PAST_DIRECTORY: u16 = 6;

/// The block at which files begin if the volume has a second copy of the directory.
pub const PAST_SECOND: u16 = 10;

/// The offset in the header of the word with the block at which files begin.
pub const HEADER_FILES_BEGIN: usize = 2;

/// The offset in the header of the volume's name: a byte with the length, then up to 7 characters.
pub const HEADER_NAME: usize = 6;

/// The offset in the header of the word with the volume's number of blocks.
pub const HEADER_BLOCKS: usize = 14;

/// The offset in the header of the word with the number of files.
pub const HEADER_FILES: usize = 16;

/// The offset in the header of the word with the last date that was set.
pub const HEADER_DATE: usize = 20;

/// The maximum number of characters of a volume's name.
pub const LONGEST_VOLUME_NAME: usize = 7;

/// The number of bytes of a directory slot.
pub const SLOT: usize = 26;

/// The maximum number of files in a directory. Files are in slots 1 to 77.
pub const MOST_FILES: u16 = 77;

/// The offset in a slot of the word with the first block of the file.
pub const ENTRY_FIRST: usize = 0;

/// The offset in a slot of the word with the block after the last block of the file.
pub const ENTRY_END: usize = 2;

/// The offset in a slot of the word whose low four bits are the kind of the file.
pub const ENTRY_KIND: usize = 4;

/// The offset in a slot of the file's name: a byte with the length, then up to 15 characters.
pub const ENTRY_NAME: usize = 6;

/// The offset in a slot of the word with the number of bytes in the last block of the file.
pub const ENTRY_LAST_BYTES: usize = 22;

/// The offset in a slot of the word with the date of the file.
pub const ENTRY_DATE: usize = 24;

/// The maximum number of characters of a file's name.
pub const LONGEST_NAME: usize = 15;
