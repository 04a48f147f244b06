//! The text of an address in memory, as a string.

ghost use Rattle.std.specs.Prelude.{◌≡◌, string_bytes, IfOk};
ghost use Rattle.pm_disasm.specs.Text.{line_text};

use crate::place::Line;
use pm_words::Memory;
use std::alloc::{AllocError, Global};

/// Returns the text of `address` in `memory`: an instruction, or `.BYTE` and the byte.
pub fn line(alloc: Global, memory: &Memory, address: u16) -> Result<String, AllocError>
    ensures text { IfOk result (λ text. string_bytes text ≡ line_text memory.now.words address) }
{
    format!(in alloc; "{}", Line::new(memory, address))
}
