//! The instruction at each offset of a segment. Each offset is decoded, because the code file does not store where
//! instructions begin.

ghost use Rattle.std.specs.Prelude.{◌≡◌, ◌<◌, ◌≤◌, ◌+◌, true, drop, length, option_map, IfOk, IfSome};
ghost use Rattle.pm_disasm.specs.Offsets.{AreFronts, HasCounts, IsDecoded, TellFronts, front_count};
ghost use Rattle.pm_disasm.specs.Split.{front};
ghost use Rattle.pm_disasm.specs.Views.{front_seen, has};

use crate::front::{Front, front_at};
use crate::places::PlaceSet;
use crate::written::entries_used;
use std::alloc::{AllocError, Global};

/// A decoded segment.
#[derive(Drop)]
pub struct Decoded<'a> {
    /// The instruction at each offset, even at an offset without code. `None` if no instruction can be decoded there.
    pub(crate) fronts: Vec<Option<Front<'a>>>,
    /// The numbers of jump table entries that instructions of the segment use, and 0. No other number fits a procedure.
    pub(crate) counts: PlaceSet,
}

/// Returns the instruction at each offset of `segment`.
fn fronts_of(alloc: Global, segment: &[u8]) -> Result<Vec<Option<Front<'_>>>, AllocError>
    requires short { length segment.now ≤ 65534 }
    ensures fronts { IfOk result (λ fronts. AreFronts fronts.items segment.now) }
{
    let mut fronts = Vec::with_capacity(alloc, segment.len())?;
    for at in 0..segment.len() {
        fronts.push(front_at(segment, at))?;
    }
    Ok(fronts)
}

/// Returns the number of entries that a jump table must have for the instruction `front`.
fn front_count(front: Option<Front<'_>>) -> usize
    ensures count { result ≡ front_count (option_map front_seen front.entry) }
{
    match front {
        Some(
            Front {
                item: Some(item),
                ..
            },
        ) => entries_used(item),
        _ => 0,
    }
}

/// Returns the set of the numbers of jump table entries, up to 60, that the instructions `fronts` use. The set contains
/// 0.
fn counts_of(alloc: Global, fronts: &[Option<Front<'_>>]) -> Result<PlaceSet, AllocError>
    ensures counts { IfOk result (λ counts. HasCounts counts fronts.now (length fronts.now)) }
    ensures none { IfOk result (λ counts. has counts 0 ≡ true) }
{
    let mut counts = PlaceSet::new(alloc, 0, 60)?;
    counts.add(0);
    for front in fronts {
        let count = front_count(*front);
        if count <= 60 {
            counts.add(count);
        }
    }
    Ok(counts)
}

/// Decodes `segment`, which may have at most 65,534 bytes. Returns the instruction at each offset, and the numbers of
/// jump table entries that these instructions use.
pub fn decode_segment(alloc: Global, segment: &[u8]) -> Result<Decoded<'_>, AllocError>
    requires short { length segment.now ≤ 65534 }
    ensures decoded { IfOk result (λ decoded. IsDecoded decoded segment.now) }
{
    let fronts = fronts_of(alloc, segment)?;
    let counts = counts_of(alloc, &fronts)?;
    Ok(Decoded { fronts, counts })
}

/// Returns the instruction at offset `at`, or `None` if no instruction is at `at`. `bytes` are the bytes of the segment
/// up to the end of the code. `fronts` contains the instruction at each offset.
pub(crate) fn front_in<'a>(
    bytes: &[u8],
    fronts: &[Option<Front<'a>>],
    at: usize,
) -> Option<Front<'a>>
    requires fronts { TellFronts fronts.now bytes.now }
    requires inside { at < length bytes.now }
    ensures front { option_map front_seen result ≡ front at (drop at bytes.now) }
    ensures within { IfSome result (λ f. (0 < f.size) × (at + f.size ≤ length bytes.now)) }
{
    let Some(front) = fronts[at] else {
        return None;
    };
    if front.size > bytes.len() - at {
        return None;
    }
    Some(front)
}
