//! Images in formats that are not supported, but recognized.
ghost use Rattle.std.specs.Prelude.{◌≡◌, slice_index};
ghost use Rattle.pm_convert.specs.Foreigners.{foreign_text, is_dos33, is_hfs, is_prodos, recognized, volume_size};

use crate::cover::{cover_of, part_in};

/// The length in bytes of the nibbles of a disk.
const NIBBLES: usize = 232960;

/// The offset in bytes of block 2.
const BLOCK_2: usize = 1024;

/// The offset in bytes of track 17, sector 0, of a disk of DOS 3.3.
const TRACK_17: usize = 69632;

/// A format that is not supported, but recognized.
#[derive(Clone, Copy, Debug, PartialEq, Eq)]
pub enum Foreign {
    /// A compressed file of gzip.
    Gzip,
    /// A .woz file: the bits of a disk.
    Woz,
    /// A .nib file: the nibbles of a disk.
    Nib,
    /// A Macintosh disk.
    Hfs,
    /// A disk of ProDOS.
    ProDos,
    /// A disk of DOS 3.3.
    Dos33,
}

impl Foreign {
    /// Returns a text for an error message: what the image is, and what to do with it.
    pub fn text(self) -> &'static str
        ensures text { result.now ≡ foreign_text self }
    {
        match self {
            Foreign::Gzip => "it is compressed; decompress it with gunzip",
            Foreign::Woz => {
                "it looks like .woz, the bits of a disk; convert it to sectors with another tool"
            }
            Foreign::Nib => {
                "it has the length of .nib, the nibbles of a disk; convert it to sectors with another tool"
            }
            Foreign::Hfs => "it looks like a Macintosh disk (HFS)",
            Foreign::ProDos => "it looks like a ProDOS disk",
            Foreign::Dos33 => "it looks like a DOS 3.3 disk",
        }
    }
}

/// Returns the byte of `image` at offset `place`, or 0 if `image` ends before it.
fn byte_at(image: &[u8], place: usize) -> u8
    ensures byte { result ≡ slice_index image.now place }
{
    if place < image.len() { image[place] } else { 0 }
}

/// Returns the length of the volume in `image`, after the cover that `image` has.
fn volume_size(image: &[u8]) -> usize
    ensures size { result ≡ volume_size image.now }
{
    match part_in(image, cover_of(image)) {
        Some(part) => part.size,
        None => 0,
    }
}

/// Is true if block 2 of `image` begins with the letters BD.
fn is_hfs(image: &[u8]) -> bool
    ensures hfs { result ≡ is_hfs image.now }
{
    byte_at(image, BLOCK_2) == 66 && byte_at(image, BLOCK_2 + 1) == 68
}

/// Is true if block 2 of `image` begins with two zeros, and has 15 in the high four bits of byte 4.
fn is_prodos(image: &[u8]) -> bool
    ensures prodos { result ≡ is_prodos image.now }
{
    byte_at(image, BLOCK_2) == 0
        && byte_at(image, BLOCK_2 + 1) == 0
        && byte_at(image, BLOCK_2 + 4) / 16 == 15
}

/// Is true if byte 1 of track 17 is 17, and byte 3 is 3.
fn is_dos33(image: &[u8]) -> bool
    ensures dos33 { result ≡ is_dos33 image.now }
{
    byte_at(image, TRACK_17 + 1) == 17 && byte_at(image, TRACK_17 + 3) == 3
}

/// Returns the format of `image` if it is one that is not supported, but recognized. Call it only for an image that
/// opens as a volume in no format.
pub fn recognized(image: &[u8]) -> Option<Foreign>
    ensures foreign { result ≡ recognized image.now }
{
    if byte_at(image, 0) == 31 && byte_at(image, 1) == 139 {
        Some(Foreign::Gzip)
    } else if byte_at(image, 0) == 87 && byte_at(image, 1) == 79 && byte_at(image, 2) == 90 {
        Some(Foreign::Woz)
    } else if volume_size(image) == NIBBLES {
        Some(Foreign::Nib)
    } else if is_hfs(image) {
        Some(Foreign::Hfs)
    } else if is_prodos(image) {
        Some(Foreign::ProDos)
    } else if is_dos33(image) {
        Some(Foreign::Dos33)
    } else {
        None
    }
}
