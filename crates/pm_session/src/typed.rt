//! The bytes that a `type` line appends to the console input queue.
ghost use Rattle.std.specs.Prelude.{◌≡◌, IfOk, OnOk, option_map};
ghost use Rattle.pm_debug.specs.Session.{session_of};
ghost use Rattle.pm_session.specs.Answers.{after_keys};
ghost use Rattle.pm_disasm.specs.Shown.{cut};
ghost use Rattle.pm_session.specs.Orders.{between_spaces, typed};

use crate::commands::without_return;
use pm_debug::Debugger;
use pm_line::text_operand;
use std::alloc::{AllocError, Global};

/// Returns `text` without its leading spaces.
fn behind_spaces(text: &[u8]) -> &[u8]
    ensures text { result.now ≡ cut text.now }
{
    for (i, byte) in text.iter().enumerate() {
        if *byte != b' ' {
            return text.split_at(i).1;
        }
    }
    text.split_at(text.len()).1
}

/// Returns `text` without the spaces at both ends.
fn between_spaces(text: &[u8]) -> &[u8]
    ensures text { result.now ≡ between_spaces text.now }
{
    let rest = behind_spaces(text);
    let mut end = rest.len();
    'spaces: while end > 0 && rest[end - 1] == b' ' {
        end -= 1;
    }
    &rest[..end]
}

/// Returns the bytes that the line `line` types. A `type` line is `type`, spaces, and a string in the form that the
/// assembler accepts. Returns `None` for other lines.
#[tactic(auto, unfolding(crate::specs::Orders::typed))]
pub(crate) fn typed(alloc: Global, line: &[u8]) -> Result<Option<Vec<u8>>, AllocError>
    ensures bytes { IfOk result (λ text. option_map (λ bytes. bytes.items) text ≡ typed line.now) }
{
    let line = behind_spaces(without_return(line));
    let Some(text) = line.strip_prefix(b"type ") else {
        return Ok(None);
    };
    text_operand(alloc, between_spaces(text))
}

/// Appends `bytes` to the console input queue, in their order.
pub(crate) fn keys(debugger: &mut Debugger, bytes: &[u8]) -> Result<(), AllocError>
    ensures session { OnOk result ((session_of debugger.new) ≡ after_keys bytes.now (session_of debugger.old)) }
{
    for byte in bytes {
        debugger.machine().key(*byte)?;
    }
    Ok(())
}
