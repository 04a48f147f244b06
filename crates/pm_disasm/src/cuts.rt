//! The search of the next forced offset. No instruction may extend over a forced offset: that of the exit code, or the
//! target of a jump table entry.

ghost use Rattle.std.specs.Prelude.{◌≡◌, ◌≤◌, ℕ};
ghost use Rattle.pm_disasm.specs.Offsets.{IsNextCut};

/// Forced offsets, and the lowest of them after a given offset.
#[derive(Clone, Copy)]
pub(crate) struct Cuts<'a> {
    /// The forced offsets, in any order.
    pub forced: &'a [u16],
    /// The lowest forced offset after the given offset, or `usize::MAX` if no forced offset is after it.
    pub next: usize,
}

/// Returns the lowest of the offsets `forced` that is after `at`, or `usize::MAX` if no such offset exists.
fn next_cut(forced: &[u16], at: usize) -> usize
    ensures next { IsNextCut forced.now at result }
{
    let mut next = usize::MAX;
    for place in forced {
        let place = usize::from(*place);
        if at < place && place < next {
            next = place;
        }
    }
    next
}

impl<'a> Cuts<'a> {
    /// Returns the offsets `forced`, with the lowest of them after `at`.
    pub fn new(forced: &'a [u16], at: usize) -> Cuts<'a>
        ensures forced { result.forced.now ≡ forced.now }
        ensures next { IsNextCut forced.now at result.next }
    {
        let next = next_cut(forced, at);
        Cuts { forced, next }
    }

    /// Returns the same forced offsets, with the lowest of them after `at`. `at` must not be lower than the offset for
    /// which `self` was created.
    pub fn moved(self, at: usize) -> Cuts<'a>
        requires before { (before : ℕ) × (before ≤ at) × IsNextCut self.forced.now before self.next }
        ensures forced { result.forced.now ≡ self.entry.forced.now }
        ensures next { IsNextCut self.entry.forced.now at result.next }
    {
        if at < self.next {
            return self;
        }
        Cuts::new(self.forced, at)
    }
}
