//! Disks: images of whole blocks, whose directory is not checked.

ghost use Rattle.std.specs.Prelude.{◌≡◌, ◌↔◌, ◌/◌, ◌%◌, IfSome, IsTrue, length};
ghost use Rattle.std.specs.Bool.{OnFalse, OnTrue};
ghost use Rattle.std.specs.Option.{option_map};
ghost use Rattle.pm_volume.specs.Disks.{IsInImage, block_of};
ghost use Rattle.pm_volume.specs.Words.{written};
ghost use Rattle.pm_bytes.specs.declared.blocks.TheConstants.{BLOCK};

use pm_bytes::{BLOCK, set_bytes};
use std::marker::Model;

/// A disk: an image of whole blocks of 512 bytes. Contracts describe a disk as the list of its bytes.
#[derive(Drop)]
pub struct Disk {
    pub(crate) bytes: Vec<u8>,
}

impl Model for Disk {
    ghost use Rattle.std.specs.Prelude.{◌≡◌, ◌%◌, ℕ, List, length};
    ghost use Rattle.pm_bytes.specs.declared.blocks.TheConstants.{BLOCK};

    ghost Value = { List ℕ };

    ghost view = { λ d. d.bytes.items };

    ghost invariant = { λ d. record {
      whole : length d.bytes.items % BLOCK ≡ 0;
    } };
}

impl Disk {
    /// Returns the number of blocks of the image.
    pub fn blocks(&self) -> usize
        ensures whole { length self.now % BLOCK ≡ 0 }
        ensures count { result ≡ length self.now / BLOCK }
    {
        self.bytes.len() / BLOCK
    }

    /// Returns all bytes of the image.
    pub fn bytes(&self) -> &[u8]
        ensures image { result.now ≡ self.now }
    {
        &self.bytes
    }

    /// Returns the 512 bytes of block `n`, or `None` if the block is after the end of the image.
    pub fn block(&self, n: u16) -> Option<&[u8]>
        ensures bytes { option_map (λ bytes. bytes.now) result ≡ block_of self.now n }
        ensures size { IfSome result (λ bytes. length bytes.now ≡ BLOCK) }
    {
        block_in(&self.bytes, n)
    }

    /// Overwrites the bytes of the image from offset `place` on with `bytes`. Returns true if all of them fit into the
    /// image. Otherwise, returns false and changes nothing.
    pub fn write(&mut self, place: usize, bytes: &[u8]) -> bool
        ensures inside { IsTrue result ↔ IsInImage self.old place (length bytes.now) }
        ensures written { OnTrue result (self.new ≡ written self.old place bytes.now) }
        ensures unchanged { OnFalse result (self.new ≡ self.old) }
    {
        if place > self.bytes.len() || bytes.len() > self.bytes.len() - place {
            return false;
        }
        set_bytes(&mut self.bytes, place, bytes);
        true
    }

    /// Returns the bytes of the image.
    pub fn into_bytes(self) -> Vec<u8>
        ensures image { result.items ≡ self }
    {
        let Disk { bytes } = self;
        bytes
    }
}

// Returns the 512 bytes of block `n` of `image`, or `None` if the block is after the end of `image`.
#[tactic(auto, unfolding(crate::specs::Disks::block_of))]
pub(crate) fn block_in(image: &[u8], n: u16) -> Option<&[u8]>
    ensures bytes { option_map (λ bytes. bytes.now) result ≡ block_of image.now n }
    ensures size { IfSome result (λ bytes. length bytes.now ≡ BLOCK) }
{
    let begin = BLOCK * usize::from(n);
    image.get(begin..begin + BLOCK)
}
