//! Blocks of 512 bytes, the units in which disks and files are divided.

ghost use Rattle.std.specs.Prelude.{◌≡◌};
ghost use Rattle.pm_bytes.specs.Blocks.{blocks_for};

/// The number of bytes of a block.
pub const BLOCK: usize = 512;

/// Returns the number of blocks that `size` bytes need. The last block may be only partly used.
pub fn blocks_for(size: usize) -> usize
    ensures count { result ≡ blocks_for size }
{
    size / BLOCK + usize::from(!size.is_multiple_of(BLOCK))
}
