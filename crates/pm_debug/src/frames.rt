//! The frames of the dynamic chain, each with the position to which it returns.

ghost use Rattle.std.specs.Prelude.{◌≡◌, ◌<◌, length, OnErr};
ghost use Rattle.pm_debug.specs.Frames.{frame_at, frames_at, frames_of};
ghost use Rattle.pm_debug.specs.Views.{ShowsChain, chain};

use crate::refusal::DebugRefusal;
use crate::views::{DYNAMIC_LINK, chain, control_word};
use pm_machine::{CodePlace, place_at};
use pm_words::Memory;
use pm_words::layout::SYSTEM_FRAME;
use std::alloc::Global;

/// The offset of MSJTAB, the caller's JTAB, in a frame, in bytes.
const CALLER_JTAB: u16 = 4;

/// The offset of MSSEG, the caller's SEG, in a frame, in bytes.
const CALLER_SEG: u16 = 6;

/// The offset of MSIPC, the IPC after the call, in a frame, in bytes.
const CALLER_IPC: u16 = 8;

/// A frame of the dynamic chain.
#[derive(Clone, Copy)]
pub struct Frame {
    /// The address of the frame.
    pub address: u16,
    /// The position in the code to which the frame returns, or `None` if its return ends the program.
    pub returns_to: Option<CodePlace>,
}

/// Returns the frame at `address`, or `None` if `address`, or the SEG or JTAB in the frame, is odd.
#[tactic(auto, unfolding(crate::specs::Frames::frame_at))]
fn frame_at(memory: &Memory, address: u16) -> Option<Frame>
    ensures frame { result ≡ frame_at memory.now.words address }
{
    if control_word(memory, address, DYNAMIC_LINK)? == SYSTEM_FRAME {
        return Some(Frame {
            address,
            returns_to: None,
        });
    }
    let seg = control_word(memory, address, CALLER_SEG)?;
    let jtab = control_word(memory, address, CALLER_JTAB)?;
    let ipc = control_word(memory, address, CALLER_IPC)?;
    let place = place_at(memory, seg, jtab, ipc)?;
    Some(Frame {
        address,
        returns_to: Some(place),
    })
}

/// Returns the frames at the given `addresses`, or `OddAddress` if one of them has no frame. If `addresses` is empty,
/// no memory is needed.
fn frames_at(alloc: Global, memory: &Memory, addresses: &[u16]) -> Result<Vec<Frame>, DebugRefusal>
    ensures frames { ShowsChain (λ frames. frames.items) result (frames_at memory.now.words addresses.now) }
    ensures wanted { OnErr result (0 < length addresses.now) }
{
    let mut frames = Vec::new(alloc);
    for address in addresses {
        let Some(frame) = frame_at(memory, *address) else {
            return Err(DebugRefusal::OddAddress);
        };
        frames.push(frame)?;
    }
    Ok(frames)
}

/// Returns at most `limit` frames. The first is at address `first`, and each dynamic link leads to the next one. If
/// `limit` is 0, no memory is needed.
#[tactic(auto, unfolding(crate::specs::Views::chain, crate::specs::Frames::frames_at))]
pub(crate) fn frames(
    alloc: Global,
    memory: &Memory,
    limit: u16,
    first: u16,
) -> Result<Vec<Frame>, DebugRefusal>
    ensures frames { ShowsChain (λ frames. frames.items) result
        (frames_of memory.now.words (chain memory.now.words 2 limit first)) }
    ensures wanted { OnErr result (0 < limit) }
{
    if limit == 0 {
        return Ok(Vec::new(alloc));
    }
    let addresses = chain(alloc, memory, DYNAMIC_LINK, limit, first)?;
    frames_at(alloc, memory, &addresses)
}
