//! The memory as it is after code was loaded, without a copy of the memory.

ghost use Rattle.std.specs.Prelude.{◌≤◌, ◌<◌, ◌+◌, length};
ghost use Rattle.std.specs.List.{All};

use pm_words::Memory;

/// The memory in which the bytes from `start` on are replaced by `code`.
#[derive(Clone, Copy)]
pub(crate) struct Loaded<'a> {
    /// The memory before the code is loaded.
    pub memory: &'a Memory,
    /// The code that is loaded.
    pub code: &'a [u8],
    /// The address of the first byte of the loaded code.
    pub start: u16,
    ghost bytes: { All (λ b. b < 256) code.now },
    ghost inside: { start + length code.now ≤ 65536 },
}
