//! The number of jump table entries that code needs.

ghost use Rattle.std.specs.Prelude.{◌≡◌, map};
ghost use Rattle.pm_code.specs.Program.{entries_for, entries_needed, entries_used};
ghost use Rattle.pm_code.specs.Views.{item_seen, target_seen};

use crate::item::{Item, Target};

impl<P> Target<P> {
    /// Returns the number of jump table entries that this target needs.
    fn entries(&self) -> usize
        ensures entries { result ≡ entries_for (target_seen (λ p. p) self.now) }
    {
        match self {
            Target::To(_) => 0,
            Target::Through(entry) => usize::from(*entry) + 1,
        }
    }
}

impl<P> Item<P> {
    /// Returns the number of jump table entries that this item needs.
    fn entries(&self) -> usize
        ensures entries { result ≡ entries_used (item_seen (λ p. p) self.now) }
    {
        match self {
            Item::Jump(_, target) => target.entries(),
            Item::Case { otherwise, .. } => otherwise.entries(),
            Item::Plain(_, _) | Item::OneByte(_) => 0,
        }
    }
}

/// Returns the number of jump table entries that `items` need. The number is 1 more than the highest entry through
/// which one of `items` jumps, or 0 if no item jumps through an entry.
pub fn entries_needed<P>(items: &[Item<P>]) -> usize
    ensures entries { result ≡ entries_needed (map (item_seen (λ p. p)) items.now) }
{
    let mut most = 0;
    for item in items {
        most = most.max(item.entries());
    }
    most
}
