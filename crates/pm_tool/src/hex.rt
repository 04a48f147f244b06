//! Decodes bytes that are written as pairs of hexadecimal digits with white space.
ghost use Rattle.std.specs.Prelude.{◌≡◌, ◌+◌, ◌*◌, ◌<◌, ◌&&◌, IfOk, MatchOption};
ghost use Rattle.std.specs.Prelude.{option_map, Some, None, nat_lt, SomeIff};
ghost use Rattle.std.specs.Char.{digit_value};
ghost use Rattle.pm_tool.specs.Hex.{is_space, is_hex_digit, pair_value, hex_spelled};

use std::alloc::{AllocError, Global};

/// Returns whether `byte` is white space: a tab, a line feed, a carriage return or a space.
fn is_blank(byte: u8) -> bool
    ensures value { result ≡ is_space byte }
{
    matches!(byte, 9 | 10 | 13 | 32)
}

/// Returns the byte with the hexadecimal digits `high` and `low`, or None if one of them is no digit.
fn pair(high: u8, low: u8) -> Option<u8>
    ensures value { result ≡ pair_value high low }
{
    let high = char::from(high).to_digit(16)?;
    let low = char::from(low).to_digit(16)?;
    Some((16 * high + low) as u8)
}

/// Returns the bytes that `text` denotes, or None if `text` has anything except pairs of hexadecimal digits and white
/// space.
pub(crate) fn decode(alloc: Global, text: &[u8]) -> Result<Option<Vec<u8>>, AllocError>
    ensures bytes { IfOk result (λ bytes. option_map (λ v. v.items) bytes ≡ hex_spelled text.now) }
{
    let mut bytes = Vec::new(alloc);
    let mut rest = text;
    'reading: loop {
        match rest {
            [] => return Ok(Some(bytes)),
            [blank, tail @ ..] if is_blank(*blank) => rest = tail,
            [high, low, tail @ ..] => {
                let Some(byte) = pair(*high, *low) else {
                    return Ok(None);
                };
                bytes.push(byte)?;
                rest = tail;
            }
            _ => return Ok(None),
        }
    }
}
