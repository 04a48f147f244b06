//! Conversions between an order and blocks in order.
ghost use Rattle.std.specs.Prelude.{◌≡◌, ◌≤◌, IfOk, IsTrue, length};
ghost use Rattle.pm_convert.specs.Turning.{fits, in_blocks, in_order};

use crate::big::{from_big, to_big};
use crate::format::ByteOrder;
use pm_check::Order;
use std::alloc::{AllocError, Global};

/// The length in bytes of a disk whose sectors can be in DOS order.
const SECTORS: usize = 143360;

/// The length in bytes of the blocks up to the end of the directory.
const DIRECTORY_END: usize = 3072;

/// Is true if a volume of `size` bytes can be in this order.
pub(crate) fn fits(order: ByteOrder, size: usize) -> bool
    ensures value { result ≡ fits order size }
{
    match order {
        ByteOrder::Dos => size == SECTORS,
        ByteOrder::Big => size >= DIRECTORY_END,
        ByteOrder::Blocks | ByteOrder::Swapped => true,
    }
}

/// Returns `volume`, which is in this order, with its blocks in order.
pub(crate) fn in_blocks(
    alloc: Global,
    order: ByteOrder,
    volume: &[u8],
) -> Result<Vec<u8>, AllocError>
    requires fits { IsTrue (fits order (length volume.now)) }
    ensures blocks { IfOk result (λ made. made.items ≡ in_blocks order volume.now) }
{
    match order {
        ByteOrder::Blocks => Vec::from_slice(alloc, volume),
        ByteOrder::Dos => Order::Dos.turned(alloc, volume),
        ByteOrder::Swapped => Order::Swapped.turned(alloc, volume),
        ByteOrder::Big => from_big(alloc, volume),
    }
}

/// Returns `blocks`, a volume with its blocks in order, in this order.
#[tactic(auto, using(pm_check::proofs::OrderLaws::turned_size))]
pub(crate) fn in_order(
    alloc: Global,
    order: ByteOrder,
    blocks: &[u8],
) -> Result<Vec<u8>, AllocError>
    requires fits { IsTrue (fits order (length blocks.now)) }
    ensures volume { IfOk result (λ made. made.items ≡ in_order order blocks.now) }
    ensures size { IfOk result (λ made. length made.items ≡ length blocks.now) }
{
    match order {
        ByteOrder::Blocks => Vec::from_slice(alloc, blocks),
        ByteOrder::Dos => Order::Dos.turned(alloc, blocks),
        ByteOrder::Swapped => Order::Swapped.turned(alloc, blocks),
        ByteOrder::Big => to_big(alloc, blocks),
    }
}
