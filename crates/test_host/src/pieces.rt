//! The spelling of bytes in a script.
use std::io;

/// Appends `count` times the bytes of `digits`, which has two hexadecimal digits for each byte. Returns `false` if
/// `digits` spells no bytes.
fn add_piece(bytes: &mut Vec<u8>, count: usize, digits: &str) -> io::Result<bool> {
    let mut piece = [0_u8; 64];
    let length = digits.len() / 2;
    for place in 0..length {
        let from = place.saturating_mul(2);
        let pair = digits.get(from..from.saturating_add(2)).unwrap_or("");
        let (Ok(byte), Some(there)) = (u8::from_str_radix(pair, 16), piece.get_mut(place)) else {
            return Ok(false);
        };
        *there = byte;
    }
    for _ in 0..count {
        bytes.extend_from_slice(piece.get(..length).unwrap_or(b""))?;
    }
    Ok(length > 0 && digits.len() % 2 == 0)
}

/// Appends the bytes of `pieces`, which are separated by single spaces. A piece has two hexadecimal digits for each of
/// at most 64 bytes. `N*` before the digits repeats their bytes N times. Returns false if a piece spells no bytes;
/// bytes before it may be appended.
pub fn add_pieces(bytes: &mut Vec<u8>, pieces: &str) -> io::Result<bool> {
    for piece in pieces.split(' ') {
        let (count, digits) = piece.split_once('*').unwrap_or(("1", piece));
        let count = count.parse().unwrap_or(0);
        if !add_piece(bytes, count, digits)? {
            return Ok(false);
        }
    }
    Ok(true)
}
