//! The value that a handle owns.

use pm_debug::Debugger;
use pm_volume::Disk;

/// A machine with its debugger, the disk that was ejected last, and the answer to the last line of its session.
#[derive(Drop)]
pub struct Held {
    pub(crate) debugger: Debugger,
    pub(crate) ejected: Option<Disk>,
    pub(crate) answer: String,
}
