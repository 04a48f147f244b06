//! The addresses of consecutive instructions from an address on.

ghost use Rattle.std.specs.Prelude.{◌≡◌, ◌<◌, ◌+◌, IfOk, OnErr};
ghost use Rattle.pm_words.specs.Words.{bytes_of};
ghost use Rattle.pm_debug.specs.Ahead.{addresses_from, next_address};

use pm_opcode::decode;
use pm_words::Memory;
use std::alloc::{AllocError, Global};

/// Returns the address after the instruction at `address`. If no instruction begins at `address`, its byte counts as an
/// instruction of 1 byte.
fn next_address(memory: &Memory, address: u16) -> u64
    ensures next { result ≡ next_address (bytes_of memory.now.words) address }
{
    let size = match decode(memory.bytes(), address as usize) {
        Ok(instr) => instr.len,
        Err(_) => 1,
    };
    u64::from(address) + u64::from(size)
}

/// Returns the addresses of at most `limit` consecutive instructions, the first of which is at address `first`. No
/// address is above 65,535. If `limit` is 0, no memory is needed.
pub(crate) fn addresses_from(
    alloc: Global,
    memory: &Memory,
    limit: u16,
    first: u16,
) -> Result<Vec<u16>, AllocError>
    ensures addresses { IfOk result (λ addresses.
        addresses.items ≡ addresses_from (bytes_of memory.now.words) limit first) }
    ensures wanted { OnErr result (0 < limit) }
{
    let mut addresses = Vec::new(alloc);
    let mut address = first;
    for _ in 0..limit {
        addresses.push(address)?;
        let next = next_address(memory, address);
        if next > 65535 {
            return Ok(addresses);
        }
        address = next as u16;
    }
    Ok(addresses)
}
