//! Facts about returns.

ghost use Rattle.std.specs.Prelude.{◌≡◌};
ghost use Rattle.pm_machine.specs.Procedures.{is_base_return, status_after, words_of_return};

use crate::state::Status;
use pm_families::Return;
use pm_words::layout::SYSTEM_FRAME;

/// Returns the number of words of the result that the return `operation` passes to the caller, and whether it restores
/// BASE.
pub fn parts_of_return(operation: Return) -> (u8, bool)
    ensures words { result.0 ≡ words_of_return operation }
    ensures base { result.1 ≡ is_base_return operation }
{
    match operation {
        Return::Normal(words) => (words, false),
        Return::Base(words) => (words, true),
    }
}

/// Returns the status after a return to the frame at `mp`, where `now` is the status before. A return to the system's
/// frame ends the program.
pub fn status_after(mp: u16, now: Status) -> Status
    ensures status { result ≡ status_after mp now }
{
    if mp == SYSTEM_FRAME {
        Status::Ended
    } else {
        now
    }
}
