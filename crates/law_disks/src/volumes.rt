//! Laws of a volume after `Zero`, and of the largest gap of a volume. Each function has an empty body. In comments, a
//! *volume of bytes* is a volume whose elements are all below 256.

ghost use Rattle.law_disks.specs.Volumes.{LargestIsAGap, ZeroKeepsTheVolume};

/// After a successful `Zero` on a volume of bytes, the volume has no files. Its date, its number of blocks and the
/// block where files begin are unchanged.
pub fn zero_keeps_the_volume()
    ensures law { ZeroKeepsTheVolume }
{}

/// On a volume, `largest_gap` is the size of a range of free blocks, and no range of free blocks is larger.
pub fn largest_is_a_gap()
    ensures law { LargestIsAGap }
{}
