//! What comes before the volume in an image: the headers of .2mg and of DiskCopy 4.2.
ghost use Rattle.std.specs.Prelude.{◌≡◌, ◌+◌, ◌≤◌, ◌<◌, IfSome, length};
ghost use Rattle.std.specs.Bool.{OnTrue};
ghost use Rattle.pm_convert.specs.Sums.{high_long};
ghost use Rattle.pm_convert.specs.Covers.{Lies, bare_size, cover_of, has_disk_copy, part_in};

use crate::disk_copy::{DISK_COPY_HEADER, high_long};
use crate::format::Cover;
use pm_check::{front_size, has_front, long};

/// The position of the volume in an image.
#[derive(Clone, Copy)]
pub struct Part {
    /// The offset of the volume in bytes.
    pub begin: usize,
    /// The length of the volume in bytes.
    pub size: usize,
}

/// Is true if `image` begins with a valid header of DiskCopy 4.2: it has at least 84 bytes, of which the last two are 1
/// and 0, and the volume and the tags that the header describes are in `image`. The volume is not empty.
#[tactic(auto, unfolding(crate::specs::Covers::has_disk_copy))]
pub(crate) fn has_disk_copy(image: &[u8]) -> bool
    ensures value { result ≡ has_disk_copy image.now }
    ensures room { OnTrue result (84 ≤ length image.now) }
    ensures inside { OnTrue result (84 + high_long image.now 64 ≤ length image.now) }
{
    if image.len() < DISK_COPY_HEADER {
        return false;
    }
    let size = high_long(image, 64);
    let tags = high_long(image, 68);
    image[82] == 1 && image[83] == 0 && 0 < size && DISK_COPY_HEADER + (size + tags) <= image.len()
}

/// Returns the length of the volume in an image of `size` bytes without a header. In an image of 143,488 bytes the last
/// 128 are not part of the volume.
fn bare_size(size: usize) -> usize
    ensures size { result ≡ bare_size size }
    ensures most { result ≤ size }
{
    if size == 143488 { 143360 } else { size }
}

/// Returns the position of the volume in `image` after this cover. Returns `None` if `image` has no such cover.
pub(crate) fn part_in(image: &[u8], cover: Cover) -> Option<Part>
    ensures part { result ≡ part_in cover image.now }
    ensures inside { IfSome result (Lies (length image.now)) }
{
    match cover {
        Cover::Bare => Some(Part {
            begin: 0,
            size: bare_size(image.len()),
        }),
        Cover::TwoImg if has_front(image) => Some(Part {
            begin: long(image, 24),
            size: front_size(image),
        }),
        Cover::DiskCopy if has_disk_copy(image) => Some(Part {
            begin: DISK_COPY_HEADER,
            size: high_long(image, 64),
        }),
        _ => None,
    }
}

/// Returns the cover that `image` has: the first one of `DiskCopy` and `TwoImg` whose header is valid, or `Bare`.
pub(crate) fn cover_of(image: &[u8]) -> Cover
    ensures cover { result ≡ cover_of image.now }
{
    if has_disk_copy(image) {
        Cover::DiskCopy
    } else if has_front(image) {
        Cover::TwoImg
    } else {
        Cover::Bare
    }
}
