//! Segments, and the attribute tables of their procedures.

ghost use Rattle.std.specs.Prelude.{◌≡◌, ◌+◌, ◌%◌, ◌≤◌, length};
ghost use Rattle.pm_codefile.specs.Dictionary.{word_in};
ghost use Rattle.pm_codefile.specs.Segments.{attributes_in, less_or_none, procedures_in};

use crate::table::Attributes;
use pm_bytes::word;

/// Returns the number of procedures of a segment, which is the last byte of `segment`. Returns 0 if `segment` is empty.
pub fn procedures(segment: &[u8]) -> u8
    ensures count { result ≡ procedures_in segment.now }
{
    match segment.last() {
        Some(count) => *count,
        None => 0,
    }
}

// Returns the offset to which the word at offset `place` points: `place` less this word. Returns `None` if the result
// would be below 0.
fn self_relative(segment: &[u8], place: u16) -> Option<u16>
    requires within { place + 2 ≤ length segment.now }
    ensures place { result ≡ less_or_none place (word_in segment.now place) }
{
    place.checked_sub(word(segment, usize::from(place)))
}

/// Returns the attribute table of procedure `procedure` of `segment`. The segment must have an even number of bytes, at
/// most 65,534.
///
/// Returns `None` unless all of these conditions are true:
///
/// - `procedure` is from 1 to the number of procedures of the segment.
/// - The table is inside the segment, at an even offset.
/// - The offsets of the first instruction and of the exit code are from 0 to `jtab` - 8, where `jtab` is the offset of
///   the table.
///
/// The number in the table, the sizes and the jump entries are not checked.
#[tactic(auto, unfolding(crate::specs::Segments::attributes_in))]
pub fn attributes(segment: &[u8], procedure: u8) -> Option<Attributes>
    requires even { length segment.now % 2 ≡ 0 }
    requires size { length segment.now ≤ 65534 }
    ensures value { result ≡ attributes_in segment.now procedure }
{
    if procedure == 0 || procedure > procedures(segment) {
        return None;
    }
    let at = (segment.len() as u16).checked_sub(2 * u16::from(procedure) + 2)?;
    let jtab = self_relative(segment, at)?;
    let last = jtab.checked_sub(8)?;
    if jtab % 2 != 0 {
        return None;
    }
    let enter = self_relative(segment, jtab - 2)?;
    let exit = self_relative(segment, jtab - 4)?;
    if enter > last || exit > last {
        return None;
    }
    let table = usize::from(jtab);
    Some(Attributes {
        procedure: segment[table],
        level: segment[table + 1].cast_signed(),
        enter,
        exit,
        parameters: word(segment, table - 6),
        locals: word(segment, table - 8),
        jtab,
    })
}
