//! The orders in which a file can have the bytes of an image. A conversion changes one order to blocks in order, or
//! back.
ghost use Rattle.std.specs.Prelude.{◌≡◌, ◌<◌, IfOk, length};
ghost use Rattle.pm_check.specs.Orders.{other_sector, place_in, turned};

use std::alloc::{AllocError, Global};

/// The number of bytes of a sector.
const SECTOR: usize = 256;

/// The number of bytes of a track, which has sixteen sectors.
const TRACK: usize = 4096;

/// The order in which a file has the bytes of an image. Each conversion is its own inverse.
#[derive(Clone, Copy)]
pub enum Order {
    /// The blocks are in order.
    Blocks,
    /// The sectors of each track are in the order of DOS 3.3. Bytes after the last whole track are unchanged.
    Dos,
    /// The two bytes of each word are exchanged. A single last byte is unchanged.
    Swapped,
}

/// Returns the sector with which sector `sector` of a track is exchanged.
#[tactic(auto, unfolding(crate::specs::Orders::other_sector))]
fn other_sector(sector: usize) -> usize
    requires inside { sector < 16 }
    ensures value { result ≡ other_sector sector }
    ensures inside { result < 16 }
{
    if sector == 0 || sector == 15 {
        sector
    } else {
        15 - sector
    }
}

/// Returns the offset that the byte at offset `place` of the converted image had before the conversion. The sectors of
/// each track of the image, which has `size` bytes, are exchanged.
fn place_in_sectors(size: usize, place: usize) -> usize
    requires inside { place < size }
    ensures value { result ≡ place_in Order.Dos size place }
    ensures inside { result < size }
{
    if place < size / TRACK * TRACK {
        place / TRACK * TRACK + (other_sector(place / SECTOR % 16) * SECTOR + place % SECTOR)
    } else {
        place
    }
}

/// Returns the offset that the byte at offset `place` of the converted image had before the conversion. The bytes of
/// each word of the image, which has `size` bytes, are exchanged.
fn place_in_words(size: usize, place: usize) -> usize
    requires inside { place < size }
    ensures value { result ≡ place_in Order.Swapped size place }
    ensures inside { result < size }
{
    if place < size / 2 * 2 {
        place / 2 * 2 + (1 - place % 2)
    } else {
        place
    }
}

impl Order {
    /// Returns the offset that the byte at offset `place` of the converted image had before the conversion. The image
    /// has `size` bytes.
    fn place_in(self, size: usize, place: usize) -> usize
        requires inside { place < size }
        ensures value { result ≡ place_in self size place }
        ensures inside { result < size }
    {
        match self {
            Order::Blocks => place,
            Order::Dos => place_in_sectors(size, place),
            Order::Swapped => place_in_words(size, place),
        }
    }

    /// Converts `image` from this order to blocks in order, or from blocks in order to this order.
    ///
    /// # Errors
    ///
    /// `AllocError`: the host has no memory for the converted image.
    #[tactic(auto, unfolding(crate::specs::Orders::turned), using(crate::proofs::OrderLaws::front_none, crate::proofs::OrderLaws::front_more))]
    pub fn turned(self, alloc: Global, image: &[u8]) -> Result<Vec<u8>, AllocError>
        ensures image { IfOk result (λ made. made.items ≡ turned self image.now) }
    {
        let mut made = Vec::new(alloc);
        for place in 0..image.len() {
            made.push(image[self.place_in(image.len(), place)])?;
        }
        Ok(made)
    }
}
