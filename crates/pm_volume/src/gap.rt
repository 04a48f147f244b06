//! The gaps of free blocks between files, and the search for a gap for a new file.

ghost use Rattle.std.specs.Prelude.{◌≡◌, ◌+◌, ◌≤◌, length};
ghost use Rattle.pm_volume.specs.Directory.{file_count};
ghost use Rattle.pm_volume.specs.declared.fields.TheConstants.{DIRECTORY_SIZE, MOST_FILES};

use crate::directory::entry_at;
use crate::fields::{HEADER_BLOCKS, HEADER_FILES, HEADER_FILES_BEGIN};
use pm_bytes::word;

/// A gap: the free blocks from `begin` up to, but not including, `end`. A file that is added in this gap gets directory
/// slot `place`.
#[derive(Clone, Copy)]
pub(crate) struct Gap {
    pub(crate) place: u16,
    pub(crate) begin: u16,
    pub(crate) end: u16,
}

impl Gap {
    ghost use Rattle.pm_volume.specs.Changes.{gap_for, serves};

    // Is true if a new file of `need` blocks may be put into this gap, in a directory with `count` files. A file
    // without blocks may only be put into the gap after all files.
    fn serves(&self, need: usize, count: u16) -> bool
        ensures enough { result ≡ serves need count self.now }
    {
        if need == 0 {
            return usize::from(self.place) == usize::from(count) + 1;
        }
        need <= usize::from(self.end.saturating_sub(self.begin))
    }

    // Returns the lowest gap of `directory` for a new file of `need` blocks, or `None` if no gap is large enough.
    #[tactic(auto, using(crate::proofs::GapLaws::gap_steps))]
    pub(crate) fn lowest(directory: &[u8], need: usize) -> Option<Gap>
        requires whole { length directory.now ≡ DIRECTORY_SIZE }
        requires few { file_count directory.now ≤ MOST_FILES }
        ensures lowest { result ≡ gap_for directory.now need }
    {
        let count = word(directory, HEADER_FILES);
        let mut from = word(directory, HEADER_FILES_BEGIN);
        for n in 1..count + 1 {
            let entry = entry_at(directory, n);
            let gap = Gap {
                place: n,
                begin: from,
                end: entry.first,
            };
            if gap.serves(need, count) {
                return Some(gap);
            }
            from = entry.end;
        }
        let last = Gap {
            place: count + 1,
            begin: from,
            end: word(directory, HEADER_BLOCKS),
        };
        if last.serves(need, count) {
            return Some(last);
        }
        None
    }
}
