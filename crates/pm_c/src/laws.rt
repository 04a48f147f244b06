//! Laws about the statuses, the buffers and the sessions. The functions do nothing.
ghost use Rattle.pm_c.specs.Laws.{AnswersAreApart, AnswersAreTold, CallsAreLines, LinesAreASession};
ghost use Rattle.pm_c.specs.Laws.{MountIsTold, SlicesAreOneRun, StartIsTold, WantedLengthIsEnough};

/// A buffer that is too short is unchanged. If the call is repeated with a buffer of the needed length, the buffer gets
/// exactly the bytes.
#[tactic(auto, using(crate::proofs::StatusLaws::wanted_length_is_enough))]
pub fn wanted_length_is_enough()
    ensures law { WantedLengthIsEnough }
{}

/// This law has four statements:
///
/// - The status of a start is 0 if and only if the image is a volume on which the program starts.
/// - The status of a mount is 0 if and only if the image is a volume and was mounted.
/// - The status of an executed step is never the status for out of memory or for an empty handle.
/// - The library has a sentence for each status of a step, a run, a start, a unit, a volume and a breakpoint. It also
///   has a sentence for each fault of a conversion and of the system segment. The other sentences are for a name of no
///   format, a search that found nothing, volumes with different files, and the messages `refused form 1` and
///   `refused undelete 1`.
#[tactic(auto, using(crate::proofs::StatusLaws::start_is_told, crate::proofs::StatusLaws::mount_is_told, crate::proofs::StatusLaws::answers_are_apart, crate::proofs::SentenceLaws::answers_are_told))]
pub fn answers_are_told()
    ensures start { StartIsTold }
    ensures mount { MountIsTold }
    ensures apart { AnswersAreApart }
    ensures told { AnswersAreTold }
{}

/// The answers to lines, one after the other, are the bytes that the debugger of the program writes if these lines are
/// its input. A call that sets a breakpoint or a watched word, or executes a run, leaves the same session as the line
/// with the same command.
#[tactic(auto, using(crate::proofs::SessionLaws::lines_are_a_session, crate::proofs::SessionLaws::calls_are_lines))]
pub fn lines_are_a_session()
    ensures law { LinesAreASession }
    ensures calls { CallsAreLines }
{}

/// A run in slices is one run. If its limit stops a run of `pmach_go`, then `pmach_on` continues it. The outcome and
/// the session are those of one call of `pmach_go` with the sum of both limits.
pub fn slices_are_one_run()
    ensures law { SlicesAreOneRun }
{}
