//! The kinds of files. The kind is the low four bits of the kind word in a file's slot. Kinds 9 to 15 have no meaning.

/// The kind of a file for which no other kind is stated.
pub const UNTYPED: u8 = 0;

/// The kind of blocks of the disk that cannot be read. A file of this kind is never moved.
pub const BAD_BLOCKS: u8 = 1;

/// The kind of a code file.
pub const CODE: u8 = 2;

/// The kind of a text file.
pub const TEXT: u8 = 3;

/// The kind of a file with information about a code file, for a debugger.
pub const INFO: u8 = 4;

/// The kind of a file with data of a program.
pub const DATA: u8 = 5;

/// The kind of a picture that is stored as a list of vectors.
pub const GRAF: u8 = 6;

/// The kind of a picture that is stored as points.
pub const FOTO: u8 = 7;

/// The kind of a secure directory.
pub const SECURE: u8 = 8;
