//! A function that appends copies of a byte.

ghost use Rattle.std.specs.Prelude.{◌≡◌, ◌++◌, replicate, OnOk};

use std::alloc::AllocError;

// Appends `count` copies of `byte` to `bytes`.
pub(crate) fn push_copies(bytes: &mut Vec<u8>, byte: u8, count: usize) -> Result<(), AllocError>
    ensures added { OnOk result (bytes.new.items ≡ bytes.old.items ++ replicate count byte) }
{
    for _done in 0..count {
        bytes.push(byte)?;
    }
    Ok(())
}
