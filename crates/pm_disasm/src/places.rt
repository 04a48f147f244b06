//! Sets of code offsets.

ghost use Rattle.std.specs.Prelude.{◌≡◌, ◌==◌, ◌<◌, ◌≤◌, ◌^◌, ◌+◌, ◌-◌, ◌||◌, ℕ, false, length, IfOk};
ghost use Rattle.pm_disasm.specs.Views.{IsAlike, IsInside, has};

use std::alloc::{AllocError, Global};

/// A set of offsets, which can contain each offset of some code, from its beginning to its end.
#[derive(Drop)]
pub(crate) struct PlaceSet {
    /// The lowest offset that the set can contain.
    pub begin: usize,
    /// Element `k` is true if the offset `begin + k` is in the set.
    pub marks: Vec<bool>,
}

impl PlaceSet {
    /// Creates an empty set that can contain the offsets from `begin` to `end`.
    pub fn new(alloc: Global, begin: usize, end: usize) -> Result<PlaceSet, AllocError>
        requires order { begin ≤ end }
        requires end { end < 2 ^ 32 }
        ensures none { IfOk result (λ set. (place : ℕ) → has set place ≡ false) }
        ensures begin { IfOk result (λ set. set.begin ≡ begin) }
        ensures size { IfOk result (λ set. length set.marks.items ≡ end - begin + 1) }
    {
        let marks = vec![in alloc; false; end - begin + 1]?;
        Ok(PlaceSet { begin, marks })
    }

    /// Whether the offset `place` is in the set.
    pub fn contains(&self, place: usize) -> bool
        ensures has { result ≡ has self.now place }
    {
        if place < self.begin {
            return false;
        }
        self.marks.get(place - self.begin).copied().unwrap_or(false)
    }

    /// Adds the offset `place`, which must be in the range of the set.
    pub fn add(&mut self, place: usize)
        requires inside { IsInside self.old place }
        ensures has { (p : ℕ) → has self.new p ≡ ((place == p) || has self.old p) }
        ensures alike { IsAlike self.new self.old }
    {
        self.marks[place - self.begin] = true;
    }
}
