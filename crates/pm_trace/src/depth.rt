//! The call depth of a machine: the number of frames along the dynamic links, without the system's frame.

ghost use Rattle.std.specs.Prelude.{◌≡◌, ◌≤◌};
ghost use Rattle.pm_trace.specs.Selected.{depth, depth_from, next_frame};

use pm_machine::Machine;
use pm_words::Memory;
use pm_words::layout::SYSTEM_FRAME;

/// The maximum depth that is shown.
const MOST_DEPTH: u16 = 64;

/// The offset of the dynamic link in a frame, in bytes.
const DYNAMIC_LINK: u16 = 2;

/// Returns the frame to which the dynamic link of `frame` leads. Returns `None` if `frame` is the system's frame or
/// odd.
fn next_frame(memory: &Memory, frame: u16) -> Option<u16>
    ensures next { result ≡ next_frame memory.now.words frame }
{
    if frame == SYSTEM_FRAME || frame % 2 != 0 {
        return None;
    }
    memory.word(frame.wrapping_add(DYNAMIC_LINK))
}

/// Returns the number of frames along the dynamic links from `first` on, without the system's frame, or 64 if it is
/// higher.
fn depth_from(memory: &Memory, first: u16) -> u16
    ensures depth { result ≡ depth_from memory.now.words 64 first }
    ensures most { result ≤ 64 }
{
    let mut frame = first;
    for count in 0..MOST_DEPTH {
        let Some(next) = next_frame(memory, frame) else {
            return count;
        };
        frame = next;
    }
    MOST_DEPTH
}

/// Returns the call depth of `machine`, or 64 if it is higher.
pub(crate) fn depth(machine: &Machine) -> u16
    ensures depth { result ≡ depth machine.now.state }
    ensures most { result ≤ 64 }
{
    depth_from(machine.memory(), machine.registers().mp)
}
