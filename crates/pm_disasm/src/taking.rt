//! A fast check whether code uses a jump table entry that is too high. It runs before parts of the code are stored.

ghost use Rattle.std.specs.Prelude.{◌≡◌, ◌<◌, ◌≤◌, ◌^◌, ◌-◌, ℕ, Bool, List, true, drop, length, option_map};
ghost use Rattle.pm_code.specs.Program.{entries_needed};
ghost use Rattle.pm_disasm.specs.Follow.{item_led, items_or_bytes, written_by};
ghost use Rattle.pm_disasm.specs.Offsets.{TellFronts};
ghost use Rattle.pm_disasm.specs.Split.{parts};
ghost use Rattle.pm_disasm.specs.Views.{found_seen};

use crate::cuts::Cuts;
use crate::found::Found;
use crate::front::Front;
use crate::parts::part_at;
use pm_code::Target;

/// Returns the number of entries that a jump table must have for `item`, if it is a short jump through an entry. Such a
/// jump is shown for any boundaries. Returns 0 for all other items.
fn surely_used(item: Option<Found<'_>>) -> usize
    ensures used { (test : ℕ → Bool) (bytes : List ℕ) → result ≤ entries_needed
        (items_or_bytes bytes (item_led test true (option_map found_seen item.entry))) }
{
    match item {
        Some(Found::Jump(_, Target::Through(entry))) => usize::from(entry) + 1,
        _ => 0,
    }
}

/// Whether a short jump in code uses an entry after the first `count` ones. If true, `count` entries do not fit. The
/// code begins at offset `begin`, and `bytes` are the bytes of the segment up to its end. Other instructions are not
/// checked.
pub(crate) fn takes_more<'a>(
    bytes: &'a [u8],
    fronts: &[Option<Front<'a>>],
    begin: usize,
    forced: &[u16],
    count: usize,
) -> bool
    requires fronts { TellFronts fronts.now bytes.now }
    requires short { length bytes.now < 2 ^ 32 - 1 }
    requires inside { begin ≤ length bytes.now }
    ensures more { result ≡ true → (test : ℕ → Bool) → count < entries_needed
        (written_by test true (parts forced.now 0 begin (drop begin bytes.now))) }
{
    let mut cuts = Cuts::new(forced, begin);
    let mut at = begin;
    'parts: while at < bytes.len() {
        let part = part_at(bytes, fronts, at, cuts);
        if surely_used(part.item) > count {
            return true;
        }
        at += part.bytes.len();
        cuts = cuts.moved(at);
    }
    false
}
