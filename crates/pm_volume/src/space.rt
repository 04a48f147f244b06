//! Computing the free space of a volume from its directory.
ghost use Rattle.std.specs.Prelude.{◌≡◌, ◌≤◌, ◌+◌, max, length};
ghost use Rattle.pm_volume.specs.Directory.{file_count};
ghost use Rattle.pm_volume.specs.Space.{free_in, largest_in};
ghost use Rattle.pm_volume.specs.declared.fields.TheConstants.{DIRECTORY_SIZE, MOST_FILES};

use crate::directory::entry_at;
use crate::fields::{HEADER_BLOCKS, HEADER_FILES, HEADER_FILES_BEGIN};
use pm_bytes::word;

/// The free space of a volume.
#[derive(Clone, Copy)]
pub struct Space {
    /// The number of blocks of all gaps together.
    pub free: u32,
    /// The number of blocks of the largest gap, 0 if no block is free.
    pub largest: u16,
}

impl Space {
    // Returns this space with an additional gap of `size` blocks.
    fn with(self, size: u16) -> Space
        requires room { self.free ≤ 4294901760 }
        ensures free { result.free ≡ self.free + size }
        ensures largest { result.largest ≡ max self.largest size }
    {
        Space {
            free: self.free + u32::from(size),
            largest: self.largest.max(size),
        }
    }
}

// Returns the free space of the volume whose directory is `directory`.
#[tactic(auto, using(crate::proofs::SpaceLaws::space_steps))]
pub(crate) fn space_of(directory: &[u8]) -> Space
    requires whole { length directory.now ≡ DIRECTORY_SIZE }
    requires few { file_count directory.now ≤ MOST_FILES }
    ensures free { result.free ≡ free_in directory.now }
    ensures largest { result.largest ≡ largest_in directory.now }
{
    let mut space = Space {
        free: 0,
        largest: 0,
    };
    let mut from = word(directory, HEADER_FILES_BEGIN);
    for n in 1..word(directory, HEADER_FILES) + 1 {
        let entry = entry_at(directory, n);
        space = space.with(entry.first.saturating_sub(from));
        from = entry.end;
    }
    space.with(word(directory, HEADER_BLOCKS).saturating_sub(from))
}
