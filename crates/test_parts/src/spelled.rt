//! How test rows and cases spell numbers and bytes.
ghost use Rattle.std.specs.Str.Parse.{ParsesUnsigned};

use hex::FromHexError;
use std::alloc::{AllocError, Global};
use std::io;
use std::io::ErrorKind;

/// Returns the error for a test line that cannot be read.
pub fn unreadable() -> io::Error {
    io::Error::from(ErrorKind::InvalidData)
}

/// Returns the decimal number in `text`. A plus sign before its digits is allowed.
///
/// # Errors
///
/// `InvalidData`: the text is not such a number, or the number does not fit in 64 bits.
pub fn number(text: &str) -> io::Result<usize>
    ensures number { ParsesUnsigned 64 10 text.now result }
{
    match text.parse::<usize>() {
        Ok(number) => Ok(number),
        Err(_) => Err(unreadable()),
    }
}

/// Returns the number of steps in `text`, in the form that `number` reads.
///
/// # Errors
///
/// `InvalidData`: the text is not such a number, or the number does not fit in 32 bits.
pub fn steps(text: &str) -> io::Result<u32>
    ensures number { ParsesUnsigned 32 10 text.now result }
{
    match text.parse::<u32>() {
        Ok(number) => Ok(number),
        Err(_) => Err(unreadable()),
    }
}

/// Returns the number of one byte in `text`, in the form that `number` reads.
///
/// # Errors
///
/// `InvalidData`: the text is not such a number, or the number is above 255.
pub fn byte(text: &str) -> io::Result<u8>
    ensures number { ParsesUnsigned 8 10 text.now result }
{
    match text.parse::<u8>() {
        Ok(number) => Ok(number),
        Err(_) => Err(unreadable()),
    }
}

/// Returns the word in `text`: a decimal number, which is in two's complement if it is negative, or `$` and four
/// hexadecimal digits.
///
/// # Errors
///
/// `InvalidData`: the text is neither, or the number does not fit in a word.
pub fn word(text: &str) -> io::Result<u16> {
    if let Some(digits) = text.strip_prefix('$') {
        let mut bytes = [0; 2];
        return match hex::decode_to_slice(digits.as_bytes(), &mut bytes) {
            Ok(()) => Ok(u16::from_be_bytes(bytes)),
            Err(_) => Err(unreadable()),
        };
    }
    if text.starts_with('-') {
        return match text.parse::<i16>() {
            Ok(negative) => Ok(negative.cast_unsigned()),
            Err(_) => Err(unreadable()),
        };
    }
    match text.parse::<u16>() {
        Ok(word) => Ok(word),
        Err(_) => Err(unreadable()),
    }
}

// Returns the bytes that `digits` spells with two hexadecimal digits for each byte.
fn pairs(alloc: Global, digits: &str) -> io::Result<Vec<u8>> {
    match hex::decode(alloc, digits) {
        Ok(bytes) => Ok(bytes),
        Err(FromHexError::OutOfMemory) => Err(io::Error::from(AllocError)),
        Err(_) => Err(unreadable()),
    }
}

// Appends `count` bytes that count up from the only byte of `first`. The byte after 250 is 0. Returns an error if
// `first` does not have exactly one byte.
fn add_run(bytes: &mut Vec<u8>, first: &[u8], count: usize) -> io::Result<()> {
    if let [first] = first {
        let mut byte = *first;
        for _ in 0..count {
            bytes.push(byte)?;
            byte = byte.wrapping_add(1) % 251;
        }
        return Ok(());
    }
    Err(unreadable())
}

// Appends the bytes of `piece`, which has one of these forms: pairs of hexadecimal digits; `N*` and pairs of digits,
// whose bytes are repeated N times; or `N+HH`, which is N bytes that count up.
fn add_piece(alloc: Global, bytes: &mut Vec<u8>, piece: &str) -> io::Result<()> {
    if let Some((count, digits)) = piece.split_once('+') {
        return add_run(bytes, &pairs(alloc, digits)?, number(count)?);
    }
    let (count, digits) = piece.split_once('*').unwrap_or(("1", piece));
    let more = pairs(alloc, digits)?;
    for _ in 0..number(count)? {
        bytes.extend_from_slice(&more)?;
    }
    Ok(())
}

/// Returns the bytes of the pieces of `text`, which are separated by single spaces. A piece is pairs of hexadecimal
/// digits. With `N*` before the digits, their bytes are repeated N times. `N+HH` is N bytes that count up from HH,
/// where 0 follows 250.
///
/// # Errors
///
/// - `InvalidData`: a piece has another form.
/// - `OutOfMemory`: the bytes cannot be allocated.
pub fn hex_bytes(alloc: Global, text: &str) -> io::Result<Vec<u8>> {
    let mut bytes = Vec::new(alloc);
    for piece in text.split(' ') {
        add_piece(alloc, &mut bytes, piece)?;
    }
    Ok(bytes)
}

/// Returns `bytes` as pairs of hexadecimal digits, separated by spaces.
pub fn hex_text(alloc: Global, bytes: &[u8]) -> Result<String, AllocError> {
    let mut text = String::new(alloc);
    for byte in bytes.iter() {
        if !text.is_empty() {
            text.push(' ')?;
        }
        write!(text, "{byte:02X}")?;
    }
    Ok(text)
}

// Returns the byte that two hexadecimal digits spell.
fn pair(high: u8, low: u8) -> io::Result<u8> {
    let mut byte = [0];
    match hex::decode_to_slice(&[high, low], &mut byte) {
        Ok(()) => Ok(byte[0]),
        Err(_) => Err(unreadable()),
    }
}

/// Appends the bytes of `text`. In `text`, `\hh` is the byte with these hexadecimal digits, and every other character
/// is its own bytes. A text that is only a backslash has no bytes.
///
/// # Errors
///
/// - `InvalidData`: two hexadecimal digits do not follow a backslash. Bytes before it may be appended.
/// - `OutOfMemory`: `bytes` cannot grow.
pub fn add_escaped(bytes: &mut Vec<u8>, text: &str) -> io::Result<()> {
    if text == "\\" {
        return Ok(());
    }
    for (place, part) in text.split('\\').enumerate() {
        match part.as_bytes() {
            plain if place == 0 => bytes.extend_from_slice(plain)?,
            [high, low, plain @ ..] => {
                bytes.push(pair(*high, *low)?)?;
                bytes.extend_from_slice(plain)?;
            }
            _ => return Err(unreadable()),
        }
    }
    Ok(())
}

/// Returns the name that the escaped text `text` spells.
///
/// # Errors
///
/// The errors of `add_escaped`, and `InvalidData` if the bytes are not UTF-8.
pub fn name(alloc: Global, text: &str) -> io::Result<String> {
    let mut bytes = Vec::new(alloc);
    add_escaped(&mut bytes, text)?;
    match String::from_utf8(bytes) {
        Ok(name) => Ok(name),
        Err(_) => Err(unreadable()),
    }
}

// Returns the 64-bit FNV-1a hash of `bytes`.
fn digest(bytes: &[u8]) -> u64 {
    let mut hash: u64 = 0xcbf2_9ce4_8422_2325;
    for byte in bytes.iter() {
        hash = (hash ^ u64::from(*byte)).wrapping_mul(0x0000_0100_0000_01b3);
    }
    hash
}

/// Returns the 64-bit FNV-1a hash of `bytes` as 16 hexadecimal digits.
pub fn digest_text(alloc: Global, bytes: &[u8]) -> Result<String, AllocError> {
    let hash = digest(bytes);
    format!(in alloc; "{hash:016x}")
}

/// Returns the number of bytes in `bytes` and their hash, separated by a space.
pub fn measured(alloc: Global, bytes: &[u8]) -> Result<String, AllocError> {
    let count = bytes.len();
    let hash = digest(bytes);
    format!(in alloc; "{count} {hash:016x}")
}

/// Returns `bytes` as a test answer spells them: in hexadecimal, or as their number and hash if there are more than
/// `most` bytes.
pub fn bytes_text(alloc: Global, bytes: &[u8], most: usize) -> Result<String, AllocError> {
    if bytes.len() > most {
        return measured(alloc, bytes);
    }
    hex::encode(alloc, bytes)
}
