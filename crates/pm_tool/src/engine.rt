//! Executes jobs: each job maps the bytes that it reads to the bytes that it writes.
ghost use Rattle.std.specs.Prelude.{◌≡◌, false, true, [], None, IfOk, IfErr, OnOk, OnErr, codes};
ghost use Rattle.pm_tool.specs.Disks.{NamesFileIn, loaded, images_of};
ghost use Rattle.pm_tool.specs.Hex.{hex_spelled};
ghost use Rattle.pm_tool.specs.Outcomes.{SaysWhy, fault_exit, no_others, outcome_text};
ghost use Rattle.pm_tool.specs.Said.{job_said, said_started, IsSoundExit, IsCutShort, Finishes};
ghost use Rattle.pm_tool.specs.Said.{BreaksOff, TellsAll, TellsFront, IsPrompt, FailsExactly, CountsExactly};
ghost use Rattle.pm_tool.specs.Work.{work_of};
ghost use Rattle.pm_jobs.specs.Streams.{AreWell, IsCounted, both};

use crate::batch::do_batch;
use crate::dis::do_dis;
use crate::outcome::{Exit, Job, Outcome};
use crate::programs::Start;
use crate::steps::Show;
use crate::talk::{Talk, do_talk};
use crate::work::{Work, work_of};
use pm_jobs::{Fault, Nothing, Selection, Sink, Source, read_all};
use std::alloc::Global;

/// Reads a program as hexadecimal digits from `source` and writes the trace of its run to `sink`. At most `limit` steps
/// are executed, and only the lines that `selection` selects are written.
fn raw<R: Source, W: Sink>(
    alloc: Global,
    source: &mut R,
    sink: &mut W,
    limit: u64,
    selection: Selection,
) -> Result<Outcome, Fault>
    requires well { AreWell (both (R.seen source.old) (W.seen sink.old)) }
    ensures done { IfOk result (λ outcome. Finishes (both (R.seen source.old) (W.seen sink.old))
        (both (R.seen source.new) (W.seen sink.new)) outcome
        (λ input. said_started (Show.Trace selection) limit (loaded (hex_spelled input)) [])) }
    ensures told { IfOk result SaysWhy }
    ensures well { OnOk result (AreWell (both (R.seen source.new) (W.seen sink.new))) }
    ensures broken { IfErr result (λ fault. BreaksOff (both (R.seen source.old) (W.seen sink.old))
        (both (R.seen source.new) (W.seen sink.new)) fault
        (λ input. said_started (Show.Trace selection) limit (loaded (hex_spelled input)) [])) }
    ensures counts { IsCounted (R.seen source.old) (R.seen source.new) result }
{
    let text = read_all(alloc, source)?;
    let run = Talk::Run {
        show: Show::Trace(selection),
        limit,
    };
    let outcome = do_talk(alloc, &mut Nothing, sink, Start::Bare { text }, run)?;
    Ok(outcome)
}

/// Executes `job` and returns its outcome, or returns the fault that stopped the job.
fn do_job<R: Source, W: Sink>(
    alloc: Global,
    source: &mut R,
    sink: &mut W,
    job: Job,
) -> Result<Outcome, Fault>
    requires well { AreWell (both (R.seen source.old) (W.seen sink.old)) }
    ensures done { IfOk result (λ outcome. Finishes (both (R.seen source.old) (W.seen sink.old))
        (both (R.seen source.new) (W.seen sink.new)) outcome (job_said job)) }
    ensures told { IfOk result SaysWhy }
    ensures well { OnOk result (AreWell (both (R.seen source.new) (W.seen sink.new))) }
    ensures broken { IfErr result (λ fault. BreaksOff (both (R.seen source.old) (W.seen sink.old))
        (both (R.seen source.new) (W.seen sink.new)) fault (job_said job)) }
    ensures prompt { OnErr result (IsPrompt job (both (R.seen source.old) (W.seen sink.old))
        (both (R.seen source.new) (W.seen sink.new))) }
    ensures counts { IsCounted (R.seen source.old) (R.seen source.new) result }
    ensures about { IfOk result (NamesFileIn (work_of job)) }
{
    match work_of(job) {
        Work::Raw { limit, selection } => raw(alloc, source, sink, limit, selection),
        Work::Talk(start, talk) => do_talk(alloc, source, sink, start, talk),
        Work::Dis(output) => do_dis(alloc, source, sink, output),
        Work::Batch(batch) => do_batch(alloc, source, sink, batch),
    }
}

/// Returns the outcome of a job that `fault` stopped. The function requests no memory.
fn broken_off(alloc: Global, fault: Fault) -> Outcome
    ensures exit { result.exit ≡ fault_exit fault }
    ensures image { result.image ≡ None }
    ensures others { images_of result.others ≡ no_others }
    ensures printer { result.printer.items ≡ [] }
    ensures told { SaysWhy result }
{
    Outcome::plain(alloc, Exit::of_fault(fault), String::new(alloc))
}

/// Executes `job`: reads its input from `source`, writes its output to `sink`, and returns its outcome.
///
/// Neither stream may have failed before. If the input has more than `INPUT_LIMIT` bytes, the job ends with a read
/// fault.
pub fn run<R: Source, W: Sink>(alloc: Global, source: &mut R, sink: &mut W, job: Job) -> Outcome
    requires well { AreWell (both (R.seen source.old) (W.seen sink.old)) }

    // If the outcome is neither a stream fault nor out of memory, and the input is known, the job wrote, returned and
    // left unread exactly what the definition `job_said` states for this input.
    ensures exact { IsSoundExit result.exit → TellsAll (both (R.seen source.old) (W.seen sink.old))
        (both (R.seen source.new) (W.seen sink.new)) result (job_said job) }

    // If the outcome is a stream fault or out of memory, the job wrote a prefix of the defined output.
    ensures cut { IsCutShort result.exit →
        TellsFront (both (R.seen source.old) (W.seen sink.old)) (both (R.seen source.new) (W.seen sink.new))
        (job_said job) }

    // If a read failed, everything that the program had shown before this read was written, and every whole line of a
    // session was answered. The job writes its output before it reads more input.
    ensures prompt { IsPrompt job (both (R.seen source.old) (W.seen sink.old))
        (both (R.seen source.new) (W.seen sink.new)) }

    // The outcome is a read fault if and only if a read failed or the input is too long. The outcome is a write fault
    // if and only if a write failed.
    ensures fails { FailsExactly (both (R.seen source.old) (W.seen sink.old))
        (both (R.seen source.new) (W.seen sink.new)) result.exit }

    // The outcome is a read fault if and only if a read failed or the byte count of the source exceeds the limit. This
    // clause also holds for a source that does not report its bytes.
    ensures counted { CountsExactly (both (R.seen source.old) (W.seen sink.old))
        (both (R.seen source.new) (W.seen sink.new)) result.exit }
    ensures fault { result.exit ≡ Exit.ReadFault → outcome_text result ≡ codes "read fault" }
    ensures write { result.exit ≡ Exit.WriteFault → outcome_text result ≡ codes "write fault" }
    ensures memory { result.exit ≡ Exit.NoMemory → outcome_text result ≡ codes "no memory" }
    ensures nothing_else { IsCutShort result.exit →
        (result.image ≡ None) × (images_of result.others ≡ no_others) × (result.printer.items ≡ []) }

    // The text of a refusal names the fault. A refusal never means out of memory. If a program is refused, the outcome
    // names the file that the refusal is about.
    ensures told { SaysWhy result }
    ensures about { IsSoundExit result.exit → NamesFileIn (work_of job) result }
{
    match do_job(alloc, source, sink, job) {
        Ok(outcome) => outcome,
        Err(fault) => broken_off(alloc, fault),
    }
}
