//! The second copy of a directory: checking it, and copying one copy over the other.

ghost use Rattle.std.specs.Prelude.{◌≡◌, ◌↔◌, IsTrue, ◌+◌, ◌≤◌, length, slice_range};
ghost use Rattle.std.specs.Bool.{OnTrue};
ghost use Rattle.pm_volume.specs.Copies.{has_second, mirrored, restored};
ghost use Rattle.pm_volume.specs.Directory.{is_second_good};
ghost use Rattle.pm_volume.specs.Words.{written};
ghost use Rattle.pm_volume.specs.declared.fields.TheConstants.{DIRECTORY_END, DIRECTORY_SIZE, SECOND_END};

use crate::directory::fault_of_directory;
use crate::fields::{
    DIRECTORY, DIRECTORY_END, DIRECTORY_SIZE, HEADER_FILES_BEGIN, PAST_SECOND, SECOND, SECOND_END,
};
use pm_bytes::{BLOCK, word};

/// The number of copies of its directory that a volume has, and whether two copies are equal. Each copy has four
/// blocks.
#[derive(Clone, Copy, Debug, PartialEq, Eq)]
pub enum Copies {
    /// One copy, in blocks 2 to 5. Files begin at block 6.
    Single,
    /// A second copy, in blocks 6 to 9, with the same bytes. Files begin at block 10.
    Same,
    /// A second copy, in blocks 6 to 9, with other bytes. Files begin at block 10.
    Differs,
}

// Is true if `image` has a second copy of its directory: files begin at block 10, and `image` has at least 10 blocks.
#[tactic(auto, unfolding(crate::specs::Copies::has_second))]
pub(crate) fn has_second(image: &[u8]) -> bool
    requires whole { DIRECTORY_END ≤ length image.now }
    ensures second { result ≡ has_second image.now }
    ensures room { OnTrue result (SECOND_END ≤ length image.now) }
{
    image.len() >= SECOND_END
        && word(&image[DIRECTORY..DIRECTORY_END], HEADER_FILES_BEGIN) == PAST_SECOND
}

// Is true if `image` has a second copy of its directory, and this copy is valid.
#[tactic(auto, unfolding(crate::specs::Directory::is_second_good))]
pub(crate) fn is_second_good(image: &[u8]) -> bool
    ensures good { result ≡ is_second_good image.now }
{
    if image.len() < SECOND_END {
        return false;
    }
    let second = &image[SECOND..SECOND_END];
    word(second, HEADER_FILES_BEGIN) == PAST_SECOND
        && fault_of_directory(second, image.len() / BLOCK).is_none()
}

// Is true if the copies `left` and `right` have the same bytes.
pub(crate) fn are_same(left: &[u8], right: &[u8]) -> bool
    ensures same { IsTrue result ↔ (left.now ≡ right.now) }
{
    left == right
}

// Copies the 2,048 bytes at offset `from` of `image` to offset `to`.
fn copy_directory(image: &mut [u8], from: usize, to: usize)
    requires source { from + DIRECTORY_SIZE ≤ length image.old }
    requires target { to + DIRECTORY_SIZE ≤ length image.old }
    ensures copied { image.new ≡ written image.old to (slice_range image.old from (from + DIRECTORY_SIZE)) }
{
    image.copy_within(from..from + DIRECTORY_SIZE, to);
}

// Overwrites the second copy of the directory with the first, if `image` has a second copy.
#[tactic(auto, unfolding(crate::specs::Copies::mirrored))]
pub(crate) fn mirror(image: &mut [u8])
    requires whole { DIRECTORY_END ≤ length image.old }
    ensures mirrored { image.new ≡ mirrored image.old }
{
    if has_second(image) {
        copy_directory(image, DIRECTORY, SECOND);
    }
}

// Overwrites the first copy of the directory with the second.
#[tactic(auto, unfolding(crate::specs::Copies::restored))]
pub(crate) fn restore(image: &mut [u8])
    requires whole { SECOND_END ≤ length image.old }
    ensures restored { image.new ≡ restored image.old }
{
    copy_directory(image, SECOND, DIRECTORY);
}
