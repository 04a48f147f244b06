//! The checksum and the header of DiskCopy 4.2. All numbers in the header have the high byte first.
ghost use Rattle.std.specs.Prelude.{◌≡◌, ◌+◌, ◌*◌, ◌≤◌, ◌<◌, IfOk, length, slice_index};
ghost use Rattle.pm_convert.specs.Sums.{checksum, high_bytes, high_long, with_word};
ghost use Rattle.pm_convert.specs.Headers.{disk_copy_header};

use std::alloc::{AllocError, Global};

/// The number of values that a number of four bytes has.
const LONGS: usize = 4294967296;

/// The number of bytes of a header.
pub(crate) const DISK_COPY_HEADER: usize = 84;

/// The offset in the header of the checksum of the volume.
pub(crate) const DATA_SUM: usize = 72;

/// Returns the number in the four bytes of `image` at offset `place`, high byte first.
pub(crate) fn high_long(image: &[u8], place: usize) -> usize
    requires room { place + 4 ≤ length image.now }
    ensures long { result ≡ high_long image.now place }
    ensures most { result < 4294967296 }
{
    16777216 * usize::from(image[place])
        + (65536 * usize::from(image[place + 1])
            + (256 * usize::from(image[place + 2]) + usize::from(image[place + 3])))
}

/// Returns the low four bytes of `number`, high byte first.
pub(crate) fn high_bytes(number: usize) -> [u8; 4]
    ensures bytes { result ≡ high_bytes number }
{
    [
        (number / 16777216 % 256) as u8,
        (number / 65536 % 256) as u8,
        (number / 256 % 256) as u8,
        (number % 256) as u8,
    ]
}

/// Returns the checksum `sum` after the word `word`: the word is added, and the low 32 bits are rotated right by one
/// bit.
fn with_word(sum: usize, word: usize) -> usize
    requires sum { sum < 4294967296 }
    requires word { word < 65536 }
    ensures sum { result ≡ with_word sum word }
    ensures most { result < 4294967296 }
{
    let sum = (sum + word) % LONGS;
    sum / 2 + sum % 2 * 2147483648
}

/// Returns the checksum of `bytes`. It is less than 4,294,967,296.
#[tactic(auto, using(crate::proofs::SumLaws::sum_steps))]
pub(crate) fn checksum(bytes: &[u8]) -> usize
    ensures sum { result ≡ checksum bytes.now }
{
    let mut sum = 0;
    for n in 0..bytes.len() / 2 {
        sum = with_word(
            sum,
            256 * usize::from(bytes[2 * n]) + usize::from(bytes[2 * n + 1]),
        );
    }
    if bytes.len() % 2 == 1 {
        sum = with_word(sum, 256 * usize::from(bytes[bytes.len() - 1]));
    }
    sum
}

#[tactic(auto, unfolding(crate::specs::Headers::disk_copy_header))]
/// Returns the header for a volume of `size` bytes with the checksum `sum`. The name and the tags are empty.
pub(crate) fn disk_copy_header(
    alloc: Global,
    size: usize,
    sum: usize,
) -> Result<Vec<u8>, AllocError>
    ensures header { IfOk result (λ header. header.items ≡ disk_copy_header size sum) }
{
    let mut header = Vec::new(alloc);
    header.extend_from_slice(&[0; 64])?;
    header.extend_from_slice(&high_bytes(size))?;
    header.extend_from_slice(&[0; 4])?;
    header.extend_from_slice(&high_bytes(sum))?;
    header.extend_from_slice(&[0, 0, 0, 0, 1, 34, 1, 0])?;
    Ok(header)
}
