//! Files of kind .2mg. The header of such a file states where the blocks of the image begin, how many bytes they have,
//! and their order.
ghost use Rattle.std.specs.Prelude.{◌≡◌, ◌+◌, ◌≤◌, ◌<◌, IfOk, IfSome, length};
ghost use Rattle.pm_bytes.specs.Words.{written};
ghost use Rattle.pm_check.specs.Headed.{Lies, filed, fits, long_bytes, new_file, order_of, span_fitting, span_of};
ghost use Rattle.pm_check.specs.Headed.{volume_in};

use crate::forms::{front_size, long};
use crate::order::Order;
use pm_bytes::{BLOCK, set_bytes};
use std::alloc::{AllocError, Global};

/// The number of bytes of a header.
const HEADER: usize = 64;

/// The first bytes of a new header: the letters of the format, the letters of the program, the size of the header,
/// version 1, the number for blocks in order, and no flags.
const FRONT: [u8; 20] = [
    50, 73, 77, 71, 80, 77, 67, 72, 64, 0, 1, 0, 1, 0, 0, 0, 0, 0, 0, 0,
];

/// The position, size and order of the blocks, as a header states them.
#[derive(Clone, Copy)]
pub struct Span {
    /// The offset of the blocks in bytes.
    pub begin: usize,
    /// The number of bytes of the blocks.
    pub size: usize,
    /// The order in which the file has the blocks.
    pub order: Order,
}

/// Returns the order for which a header has the number `number`.
fn order_of(number: usize) -> Option<Order>
    ensures value { result ≡ order_of number }
{
    match number {
        0 => Some(Order::Dos),
        1 => Some(Order::Blocks),
        _ => None,
    }
}

/// Is true if `header` begins the header of a .2mg file, and the blocks that it describes are in a file of `count`
/// bytes.
#[tactic(auto, unfolding(crate::specs::Headed::fits))]
fn fits(header: &[u8], count: usize) -> bool
    requires room { length header.now ≡ 32 }
    ensures value { result ≡ fits header.now count }
{
    let begin = long(header, 24);
    let size = front_size(header);
    &header[..4] == b"2IMG".as_slice() && 52 <= begin && 0 < size && begin + size <= count
}

/// Returns the position of the blocks that `header` states. Returns `None` if `header` does not fit a file of `count`
/// bytes (`fits`), or has an unknown order.
fn span_from(header: &[u8], count: usize) -> Option<Span>
    requires room { length header.now ≡ 32 }
    ensures value { result ≡ span_fitting header.now count }
{
    if !fits(header, count) {
        return None;
    }
    let order = order_of(long(header, 12))?;
    Some(Span {
        begin: long(header, 24),
        size: front_size(header),
        order,
    })
}

/// Returns the position of the blocks that the header of `file` states, or `None` if `file` does not begin with a
/// fitting header.
#[tactic(auto, unfolding(crate::specs::Headed::span_of), using(crate::proofs::HeadedLaws::span_lies, crate::proofs::HeadedLaws::front_of_32))]
fn span_of(file: &[u8]) -> Option<Span>
    ensures value { result ≡ span_of file.now }
    ensures inside { IfSome (span_of file.now) (Lies (length file.now)) }
{
    if file.len() < HEADER {
        return None;
    }
    span_from(&file[..32], file.len())
}

/// Returns the image of the volume in the .2mg file `file`, with its blocks in order. Returns no bytes if `file` does
/// not begin with a fitting header.
///
/// # Errors
///
/// `AllocError`: memory was refused.
#[tactic(auto, unfolding(crate::specs::Headed::volume_in))]
pub fn volume_in(alloc: Global, file: &[u8]) -> Result<Vec<u8>, AllocError>
    ensures volume { IfOk result (λ made. made.items ≡ volume_in file.now) }
{
    match span_of(file) {
        Some(span) => span
            .order
            .turned(alloc, &file[span.begin..span.begin + span.size]),
        None => Ok(Vec::new(alloc)),
    }
}

/// Returns the low four bytes of `number`, low byte first.
fn long_bytes(number: usize) -> [u8; 4]
    ensures bytes { result ≡ long_bytes number }
{
    [
        (number % 256) as u8,
        (number / 256 % 256) as u8,
        (number / 65536 % 256) as u8,
        (number / 16777216 % 256) as u8,
    ]
}

/// Creates a new .2mg file that contains `volume`.
#[tactic(auto, unfolding(crate::specs::Headed::new_file, crate::specs::Headed::plain_header))]
fn new_file(alloc: Global, volume: &[u8]) -> Result<Vec<u8>, AllocError>
    ensures file { IfOk result (λ file. file.items ≡ new_file volume.now) }
{
    let mut file = Vec::new(alloc);
    file.extend_from_slice(&FRONT)?;
    file.extend_from_slice(&long_bytes(volume.len() / BLOCK))?;
    file.extend_from_slice(&long_bytes(HEADER))?;
    file.extend_from_slice(&long_bytes(volume.len()))?;
    file.extend_from_slice(&[0; 32])?;
    file.extend_from_slice(volume)?;
    Ok(file)
}

/// Returns a copy of `file` in which the bytes from offset `begin` on are replaced by `blocks`. All other bytes are
/// unchanged.
fn exchanged(alloc: Global, file: &[u8], begin: usize, blocks: &[u8]) -> Result<Vec<u8>, AllocError>
    requires room { begin + length blocks.now ≤ length file.now }
    ensures file { IfOk result (λ made. made.items ≡ written file.now begin blocks.now) }
{
    let mut made = Vec::new(alloc);
    made.extend_from_slice(file)?;
    set_bytes(made.as_mut_slice(), begin, blocks);
    Ok(made)
}

/// Returns the .2mg file that contains `volume` and replaces the file `old`.
///
/// If the blocks of `old` have as many bytes as `volume`, the header and all other bytes around the blocks are
/// unchanged. Otherwise the file gets a new header. If `volume` has fewer than 4,294,967,296 bytes, `volume_in` returns
/// it from the result.
///
/// # Errors
///
/// `AllocError`: memory was refused.
#[tactic(auto, unfolding(crate::specs::Headed::filed), using(crate::proofs::OrderLaws::turned_size, crate::proofs::HeadedLaws::filed_back))]
pub fn filed(alloc: Global, old: &[u8], volume: &[u8]) -> Result<Vec<u8>, AllocError>
    ensures file { IfOk result (λ file. file.items ≡ filed old.now volume.now) }
    ensures back { length volume.now < 4294967296 → volume_in (filed old.now volume.now) ≡ volume.now }
{
    match span_of(old) {
        Some(span) if span.size == volume.len() => {
            let blocks = span.order.turned(alloc, volume)?;
            exchanged(alloc, old, span.begin, blocks.as_slice())
        }
        _ => new_file(alloc, volume),
    }
}
