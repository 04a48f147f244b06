//! The number of entries of a procedure's jump table, which the code file does not store. No instruction may extend
//! over a forced offset: that of the exit code, or the target of an entry.

ghost use Rattle.std.specs.Prelude.{◌≡◌, ◌<◌, ◌≤◌, ◌^◌, ◌+◌, ◌-◌, ◌*◌, ◌∷◌, [], ◌&&◌};
ghost use Rattle.std.specs.Prelude.{ℕ, nat_le, true, false, is_some, length, IfOk, IfSome};
ghost use Rattle.pm_codefile.specs.Dictionary.{word_in};
ghost use Rattle.pm_disasm.specs.Chosen.{IsReading, IsTable, are_inside, can_read, forced_with};
ghost use Rattle.pm_disasm.specs.Offsets.{IsDecoded};
ghost use Rattle.pm_disasm.specs.Split.{end_with, fits, procedure_of, procedure_with};

use crate::decoded::Decoded;
use crate::parts::{Code, split};
use crate::taking::takes_more;
use crate::written::entries_needed;
use byteorder::{ByteOrder, LittleEndian};
use pm_codefile::Attributes;
use std::alloc::{AllocError, Global};

/// The code of a procedure, decoded under the assumption that its jump table has a certain number of entries.
#[derive(Drop)]
pub(crate) struct Reading<'a> {
    /// The forced offsets: the offset of the exit code, followed by the targets of the entries.
    pub forced: Vec<u16>,
    /// The offset after the code.
    pub end: usize,
    /// The code, divided into instructions and single bytes.
    pub code: Code<'a>,
}

/// Returns the word of `bytes` at offset `place`, whose low byte is first.
#[tactic(auto, unfolding(pm_codefile::specs::Dictionary::word_in))]
fn word(bytes: &[u8], place: usize) -> u16
    requires within { place + 2 ≤ length bytes.now }
    ensures word { result ≡ word_in bytes.now place }
{
    LittleEndian::read_u16(&bytes[place..])
}

/// Whether the offset `at - distance` is in the code, from `enter` to `end`.
fn leads_inside(enter: u16, end: u16, at: u16, distance: u16) -> bool
    ensures inside { result ≡ (nat_le (enter + distance) at && nat_le (at - distance) end) }
{
    u32::from(enter) + u32::from(distance) <= u32::from(at) && at - distance <= end
}

/// Returns the offset of the exit code, followed by the targets of the first `count` jump table entries of the
/// procedure `a`. Returns `None` if a target is before the code or after its end.
fn forced_places(
    alloc: Global,
    segment: &[u8],
    a: &Attributes,
    count: u16,
) -> Result<Option<Vec<u16>>, AllocError>
    requires table { IsTable segment.now a.now }
    requires room { a.now.enter + 8 + 2 * count ≤ a.now.jtab }
    ensures places { IfOk result (λ r. IfSome r (λ v. v.items ≡ forced_with segment.now a.now count)) }
    ensures inside { IfOk result (λ r. is_some r ≡ are_inside segment.now a.now
        (end_with a.now count) a.now.jtab 0 count) }
{
    let end = a.jtab - 8 - 2 * count;
    let mut forced = Vec::new(alloc);
    forced.push(a.exit)?;
    for entry in 0..count {
        let at = a.jtab - 10 - 2 * entry;
        let distance = word(segment, usize::from(at));
        if !leads_inside(a.enter, end, at, distance) {
            return Ok(None);
        }
        forced.push(at - distance)?;
    }
    Ok(Some(forced))
}

/// Returns the offset of the exit code, followed by the targets of `count` jump table entries of the procedure `a`.
/// Returns `None` if the table does not fit, if a target is outside the code, or if the exit code is after the end of
/// the code.
fn places_within(
    alloc: Global,
    segment: &[u8],
    a: &Attributes,
    count: u16,
) -> Result<Option<Vec<u16>>, AllocError>
    requires table { IsTable segment.now a.now }
    ensures places { IfOk result (λ r. IfSome r (λ v. v.items ≡ forced_with segment.now a.now count)) }
    ensures inside { IfOk result (λ r. is_some r ≡ can_read segment.now a.now count) }
{
    if usize::from(a.jtab) < usize::from(a.enter) + 8 + 2 * usize::from(count) {
        return Ok(None);
    }
    if a.exit > a.jtab - 8 - 2 * count {
        return Ok(None);
    }
    forced_places(alloc, segment, a, count)
}

/// Returns the code of the procedure `a`, decoded with the `count` entries whose targets are in `forced`. Returns
/// `None` if a short jump uses a higher entry.
fn read_with<'a>(
    alloc: Global,
    segment: &'a [u8],
    decoded: &Decoded<'a>,
    a: &Attributes,
    count: u16,
    forced: Vec<u16>,
) -> Result<Option<Reading<'a>>, AllocError>
    requires table { IsTable segment.now a.now }
    requires decoded { IsDecoded decoded.now segment.now }
    requires short { length segment.now ≤ 65534 }
    requires order { a.now.enter ≤ a.now.exit }
    requires possible { can_read segment.now a.now count ≡ true }
    requires places { forced.items ≡ forced_with segment.now a.now count }
    ensures reading { IfOk result (λ r. IfSome r (λ r. IsReading segment.now a.now count r)) }
    ensures refused { IfOk result (λ r. is_some r ≡ false → fits segment.now a.now count ≡ false) }
{
    let end = usize::from(a.jtab - 8 - 2 * count);
    let enter = usize::from(a.enter);
    let bytes = &segment[..end];
    if takes_more(bytes, &decoded.fronts, enter, &forced, usize::from(count)) {
        return Ok(None);
    }
    let code = split(alloc, bytes, &decoded.fronts, enter, &forced)?;
    Ok(Some(Reading { forced, end, code }))
}

/// Returns the code of the procedure `a`, decoded with `count` entries, if this count fits. The count fits if the
/// resulting items use exactly `count` entries.
fn fitting<'a>(
    alloc: Global,
    segment: &'a [u8],
    decoded: &Decoded<'a>,
    a: &Attributes,
    count: u16,
) -> Result<Option<Reading<'a>>, AllocError>
    requires table { IsTable segment.now a.now }
    requires decoded { IsDecoded decoded.now segment.now }
    requires short { length segment.now ≤ 65534 }
    requires order { a.now.enter ≤ a.now.exit }
    requires few { count ≤ 60 }
    ensures reading { IfOk result (λ r. IfSome r (λ r. IsReading segment.now a.now count r)) }
    ensures fits { IfOk result (λ r. is_some r ≡ fits segment.now a.now count) }
{
    if !decoded.counts.contains(usize::from(count)) {
        return Ok(None);
    }
    let Some(forced) = places_within(alloc, segment, a, count)? else {
        return Ok(None);
    };
    let Some(reading) = read_with(alloc, segment, decoded, a, count, forced)? else {
        return Ok(None);
    };
    let needed = entries_needed(&reading.code.parts, &reading.code.boundaries);
    if needed != usize::from(count) {
        return Ok(None);
    }
    Ok(Some(reading))
}

/// The code of a procedure as its text shows it.
#[derive(Drop)]
pub(crate) struct Shown<'a> {
    /// The code, decoded with the chosen number of entries.
    pub reading: Reading<'a>,
    /// Whether jumps through an entry are shown as instructions. If false, they are shown as bytes.
    pub allowed: bool,
}

/// Returns the code of the procedure `a` as its text shows it. The code is decoded with the lowest number of entries
/// from 0 to 60 that fits. If no number fits, the code is decoded without entries, and jumps through an entry are shown
/// as bytes.
pub(crate) fn shown_code<'a>(
    alloc: Global,
    segment: &'a [u8],
    decoded: &Decoded<'a>,
    a: &Attributes,
) -> Result<Shown<'a>, AllocError>
    requires table { IsTable segment.now a.now }
    requires decoded { IsDecoded decoded.now segment.now }
    requires short { length segment.now ≤ 65534 }
    requires order { a.now.enter ≤ a.now.exit }
    ensures shown { IfOk result (λ shown. (t : ℕ) ×
        (procedure_of segment.now a.now ≡ procedure_with segment.now a.now shown.allowed t)
        × IsReading segment.now a.now t shown.reading) }
{
    for count in 0..61 {
        if let Some(reading) = fitting(alloc, segment, decoded, a, count)? {
            let allowed = true;
            return Ok(Shown { reading, allowed });
        }
    }
    let mut forced = Vec::new(alloc);
    forced.push(a.exit)?;
    let end = usize::from(a.jtab - 8);
    let enter = usize::from(a.enter);
    let code = split(alloc, &segment[..end], &decoded.fronts, enter, &forced)?;
    let reading = Reading { forced, end, code };
    Ok(Shown {
        reading,
        allowed: false,
    })
}
