//! Copies answers to the buffers of a C program.
ghost use Rattle.std.specs.Prelude.{◌≡◌};
ghost use Rattle.pm_c.specs.Changes.{Fills};

use crate::status::{DONE, TOO_SHORT};

/// Copies `bytes` to the beginning of `out` if all of them fit. Otherwise writes nothing and returns `TOO_SHORT`. In
/// both cases `needed` is set to the number of `bytes`.
pub(crate) fn give(bytes: &[u8], out: &mut [u8], needed: &mut usize) -> u32
    ensures fills { Fills bytes.now result out.old out.new needed.new }
{
    let count = bytes.len();
    *needed = count;
    if out.len() < count {
        return TOO_SHORT;
    }
    out[..count].copy_from_slice(bytes);
    DONE
}
