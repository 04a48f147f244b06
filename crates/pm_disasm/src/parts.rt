//! Code divided into parts. A part is an instruction, or one byte that is not part of an instruction.

ghost use Rattle.std.specs.Prelude.{◌≡◌, ◌<◌, ◌≤◌, ◌^◌, ◌+◌, ◌-◌, drop, length, map, option_map, IfOk, IfSome};
ghost use Rattle.pm_disasm.specs.Follow.{Follow};
ghost use Rattle.pm_disasm.specs.Offsets.{IsNextCut, TellFronts};
ghost use Rattle.pm_disasm.specs.Split.{bytes_after_first, ends_of, part_of, parts, taken};
ghost use Rattle.pm_disasm.specs.Views.{IsSetOf, front_seen, part_seen};

use crate::cuts::Cuts;
use crate::decoded::front_in;
use crate::found::Found;
use crate::front::Front;
use crate::places::PlaceSet;
use std::alloc::{AllocError, Global};

/// A part of code: an instruction, or one byte that is not part of an instruction.
#[derive(Clone, Copy)]
pub(crate) struct Part<'a> {
    /// The offset of the part in the segment.
    pub at: usize,
    /// The bytes of the part.
    pub bytes: &'a [u8],
    /// The item of the part. It is shown if all its jumps lead to boundaries. Otherwise, and if it is `None`, bytes are
    /// shown.
    pub item: Option<Found<'a>>,
}

/// Returns the instruction at offset `at`, or `None` if no instruction is at `at` or a forced offset is strictly inside
/// it.
fn taken<'a>(
    bytes: &'a [u8],
    fronts: &[Option<Front<'a>>],
    at: usize,
    cuts: Cuts<'_>,
) -> Option<Front<'a>>
    requires short { length bytes.now < 2 ^ 32 }
    requires fronts { TellFronts fronts.now bytes.now }
    requires inside { at < length bytes.now }
    requires next { IsNextCut cuts.forced.now at cuts.next }
    ensures taken { option_map front_seen result ≡ taken cuts.entry.forced.now at (drop at bytes.now) }
    ensures within { IfSome result (λ f. (0 < f.size) × (at + f.size ≤ length bytes.now)) }
{
    let front = front_in(bytes, fronts, at)?;
    if cuts.next < at + front.size {
        return None;
    }
    Some(front)
}

/// Returns the part at offset `at`: the instruction at `at`, or one byte if no instruction is at `at`.
pub(crate) fn part_at<'a>(
    bytes: &'a [u8],
    fronts: &[Option<Front<'a>>],
    at: usize,
    cuts: Cuts<'_>,
) -> Part<'a>
    requires short { length bytes.now < 2 ^ 32 }
    requires fronts { TellFronts fronts.now bytes.now }
    requires inside { at < length bytes.now }
    requires next { IsNextCut cuts.forced.now at cuts.next }
    ensures part { part_seen result ≡ part_of at (drop at bytes.now)
        (taken cuts.entry.forced.now at (drop at bytes.now)) }
    ensures size { bytes_after_first (taken cuts.entry.forced.now at (drop at bytes.now)) + 1
        ≡ length result.bytes.now }
    ensures within { at + length result.bytes.now ≤ length bytes.now }
{
    match taken(bytes, fronts, at, cuts) {
        Some(front) => Part {
            at,
            bytes: &bytes[at..at + front.size],
            item: front.item,
        },
        None => Part {
            at,
            bytes: &bytes[at..at + 1],
            item: None,
        },
    }
}

/// Code divided into parts, with the boundaries of the parts.
#[derive(Drop)]
pub(crate) struct Code<'a> {
    /// The parts in the order of their offsets. Each part begins where the one before ends.
    pub parts: Vec<Part<'a>>,
    /// The boundaries: the offsets at which parts begin, and the end of the code.
    pub boundaries: PlaceSet,
}

/// Divides code into parts. The code begins at offset `begin`. `bytes` are the bytes of the segment up to the end of
/// the code. `fronts` contains the instruction at each offset. No part extends over one of the offsets `forced`.
pub(crate) fn split<'a>(
    alloc: Global,
    bytes: &'a [u8],
    fronts: &[Option<Front<'a>>],
    begin: usize,
    forced: &[u16],
) -> Result<Code<'a>, AllocError>
    requires fronts { TellFronts fronts.now bytes.now }
    requires short { length bytes.now < 2 ^ 32 - 1 }
    requires inside { begin ≤ length bytes.now }
    ensures parts { IfOk result (λ code. map part_seen code.parts.items
        ≡ parts forced.now 0 begin (drop begin bytes.now)) }
    ensures boundaries { IfOk result (λ code. IsSetOf code.boundaries
        (ends_of (length bytes.now) (parts forced.now 0 begin (drop begin bytes.now)))) }
    ensures follow { IfOk result (λ code. Follow begin (length bytes.now) (map part_seen code.parts.items)) }
    ensures begin { IfOk result (λ code. code.boundaries.begin ≡ begin) }
    ensures size { IfOk result (λ code. length code.boundaries.marks.items ≡ length bytes.now - begin + 1) }
{
    let mut parts = Vec::new(alloc);
    let mut boundaries = PlaceSet::new(alloc, begin, bytes.len())?;
    let mut cuts = Cuts::new(forced, begin);
    let mut at = begin;
    'parts: while at < bytes.len() {
        let part = part_at(bytes, fronts, at, cuts);
        boundaries.add(at);
        at += part.bytes.len();
        cuts = cuts.moved(at);
        parts.push(part)?;
    }
    boundaries.add(at);
    Ok(Code { parts, boundaries })
}
