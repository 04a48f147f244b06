//! The words of memory and the chains of frames, as lists.

ghost use Rattle.std.specs.Prelude.{◌≡◌, ◌==◌, ◌||◌, ◌+◌, ◌*◌, ◌%◌, ◌<◌, ◌≤◌, Some, None, IfOk, OnErr, if◌then◌else◌};
ghost use Rattle.pm_words.specs.Words.{word_at, words_at};
ghost use Rattle.pm_words.specs.Stack.{is_even};
ghost use Rattle.pm_debug.specs.Views.{ShowsChain, chain};
ghost use Rattle.pm_words.specs.declared.layout.TheConstants.{SYSTEM_FRAME};

use crate::refusal::DebugRefusal;
use pm_words::Memory;
use pm_words::layout::SYSTEM_FRAME;
use std::alloc::{AllocError, Global};

/// The offset of MSSTAT, the static link, in a frame, in bytes.
pub(crate) const STATIC_LINK: u16 = 0;

/// The offset of MSDYN, the dynamic link, in a frame, in bytes.
pub(crate) const DYNAMIC_LINK: u16 = 2;

/// Returns the `count` words of `memory` from the even address `start` on. If `count` is 0, no memory is needed.
pub(crate) fn words_at(
    alloc: Global,
    memory: &Memory,
    start: u16,
    count: u16,
) -> Result<Vec<u16>, AllocError>
    requires even { start % 2 ≡ 0 }
    requires inside { start + 2 * count ≤ 65536 }
    ensures words { IfOk result (λ words. words.items ≡ words_at memory.now.words start count) }
    ensures wanted { OnErr result (0 < count) }
{
    let mut words = Vec::new(alloc);
    for i in 0..count {
        words.push(memory.word(start + 2 * i).unwrap_or(0))?;
    }
    Ok(words)
}

// Whether `frame` is the last frame of a chain of which at most `more` further frames are requested.
fn is_last(frame: u16, more: u16) -> bool
    ensures last { result ≡ (more == 0 || frame == SYSTEM_FRAME) }
{
    more == 0 || frame == SYSTEM_FRAME
}

/// Returns the control word at the even offset `distance` of the frame at address `frame`. Returns `None` if `frame` is
/// odd.
pub(crate) fn control_word(memory: &Memory, frame: u16, distance: u16) -> Option<u16>
    requires even { distance % 2 ≡ 0 }
    ensures word { result ≡ (if is_even frame then Some
        (word_at memory.now.words ((frame + distance) % 65536)) else None) }
{
    if frame % 2 != 0 {
        return None;
    }
    memory.word(frame.wrapping_add(distance))
}

/// Returns the addresses of at most `limit` frames. The first is `first`. The word at the even offset `distance` of a
/// frame is the address of the next frame. The system's frame is the last.
pub(crate) fn chain(
    alloc: Global,
    memory: &Memory,
    distance: u16,
    limit: u16,
    first: u16,
) -> Result<Vec<u16>, DebugRefusal>
    requires even { distance % 2 ≡ 0 }
    ensures frames { ShowsChain (λ frames. frames.items) result (chain memory.now.words distance limit first) }
    ensures wanted { OnErr result (0 < limit) }
{
    let mut frames = Vec::new(alloc);
    let mut frame = first;
    for count in 0..limit {
        frames.push(frame)?;
        if is_last(frame, limit - count - 1) {
            return Ok(frames);
        }
        let Some(next) = control_word(memory, frame, distance) else {
            return Err(DebugRefusal::OddAddress);
        };
        frame = next;
    }
    Ok(frames)
}
