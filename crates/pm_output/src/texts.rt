//! Jobs on assembler texts and code files: what they read, and where they write. In comments, the input is *known* if
//! the model of `source` states its remaining bytes.
ghost use Rattle.std.specs.Prelude.{◌≡◌, false, IfOk, IfSome, None, OnErr, OnOk, Some, option_map, string_bytes};
ghost use Rattle.pm_jobs.specs.Streams.{AreWell, both};
ghost use Rattle.pm_tool.specs.Said.{IsCutShort, IsSoundExit, job_said};
ghost use Rattle.pm_paths.specs.Locks.{held_at};
ghost use Rattle.pm_filer.specs.Filed.{order_of};
ghost use Rattle.pm_files.specs.Held.{Saves};
ghost use Rattle.pm_output.specs.Texts.{Comes, Delivers, DeliversOf, HoldsOutput, IsGot, LeavesInput, LeavesOutput};
ghost use Rattle.pm_output.specs.Texts.{SavesText};
ghost use Rattle.pm_output.specs.Texts.{getting, reads_text, written_by};

use pm_filer::FileCommand;
use pm_files::{DiskFault, Store};
use pm_jobs::{Reader, Sink, Source};
use pm_plan::{TextFiles, TextInput};
use pm_tool::{Exit, Job, Kept, Outcome};
use std::alloc::Global;

/// Executes `job`, and returns its outcome and its output. The output is collected in memory. `source` must not have
/// failed.
pub fn into_memory<I: Source>(alloc: Global, source: &mut I, job: Job) -> (Outcome, Vec<u8>)
    requires well { (I.seen source.old).failed ≡ false }
    ensures said { IsSoundExit result.0.exit → IfSome (I.seen source.old).remaining (λ input.
        Comes result.0 result.1.items (job_said job input)) }
{
    let mut sink = Kept::new(alloc);
    let outcome = pm_tool::run(alloc, source, &mut sink, job);
    let Kept { bytes, .. } = sink;
    (outcome, bytes)
}

/// Saves `bytes`, the output of a job, as the file at `path` if `exit` is `Ended`, `ExecutionError` or `Stopped`.
/// Otherwise no file changes. On an error, no file has changed.
///
/// # Errors
///
/// - The output did not fit into memory (`exit` is `WriteFault`): `NoMemory`.
/// - The file cannot be written: the error of `Store::put`.
pub fn keep<S: Store>(store: &mut S, path: &str, exit: Exit, bytes: &[u8]) -> Result<(), DiskFault>
    ensures kept { OnOk result (Saves (S.files store.old) (S.files store.new) path.now (written_by exit bytes.now)) }
    ensures held { S.held store.new ≡ S.held store.old }
    ensures unchanged { OnErr result (S.files store.new ≡ S.files store.old) }
{
    match exit {
        Exit::Ended | Exit::ExecutionError | Exit::Stopped => store.put(path, bytes),
        // The output is written to a list, which fails to grow only if memory is exhausted.
        Exit::WriteFault => Err(DiskFault::NoMemory),
        _ => Ok(()),
    }
}

/// Locks the file at `path`, executes `job`, and saves its output as that file. The file changes only if the job ends,
/// or its program has run. No other file changes. `source` must not have failed.
///
/// # Errors
///
/// No file has changed.
///
/// - The file cannot be locked: the error of `Store::hold`.
/// - The output did not fit into memory: `NoMemory`.
/// - The file cannot be written: the error of `Store::put`.
#[tactic(auto, using(crate::proofs::TextLaws::cut_keeps_none))]
pub fn into_file<S: Store, I: Source>(
    alloc: Global,
    store: &mut S,
    source: &mut I,
    path: &str,
    job: Job,
) -> Result<Outcome, DiskFault>
    requires well { (I.seen source.old).failed ≡ false }
    ensures said { IfOk result (λ outcome. IsSoundExit outcome.exit → IfSome (I.seen source.old).remaining (λ input.
        SavesText (S.files store.old) (S.files store.new) path.now outcome (job_said job input))) }
    ensures cut { IfOk result (λ outcome. IsCutShort outcome.exit → S.files store.new ≡ S.files store.old) }
    ensures held { OnOk result (S.held store.new ≡ held_at (Some path.now) (S.held store.old)) }
    ensures unchanged { OnErr result (S.files store.new ≡ S.files store.old) }
{
    store.hold(path)?;
    let (outcome, page) = into_memory(alloc, source, job);
    keep(store, path, outcome.exit, &page)?;
    Ok(outcome)
}

/// Executes `job`. If `path` is a path, the file at `path` is locked first and gets the output. Otherwise the output is
/// written to `sink`. `source` and `sink` must not have failed.
///
/// On an error, no file has changed, and nothing was written to `sink`.
fn deliver<S: Store, I: Source, O: Sink>(
    alloc: Global,
    store: &mut S,
    source: &mut I,
    sink: &mut O,
    path: &Option<String>,
    job: Job,
) -> Result<Outcome, DiskFault>
    requires well { AreWell (both (I.seen source.old) (O.seen sink.old)) }
    ensures said { IfOk result (λ outcome. IsSoundExit outcome.exit → IfSome (I.seen source.old).remaining (λ input.
        Delivers (S.files store.old) (S.files store.new) (option_map string_bytes path.now)
        (O.seen sink.old) (O.seen sink.new) outcome (job_said job input))) }
    ensures silent { LeavesOutput (option_map string_bytes path.now) (O.seen sink.old) (O.seen sink.new) }
    ensures unwritten { OnErr result (O.seen sink.new ≡ O.seen sink.old) }
    ensures cut { IfOk result (λ outcome. IsCutShort outcome.exit → S.files store.new ≡ S.files store.old) }
    ensures held { OnOk result (S.held store.new ≡ held_at (option_map string_bytes path.now) (S.held store.old)) }
    ensures unchanged { OnErr result (S.files store.new ≡ S.files store.old) }
{
    match path {
        Some(path) => into_file(alloc, store, source, path.as_str(), job),
        None => Ok(pm_tool::run(alloc, source, sink, job)),
    }
}

/// The result of reading a file of a volume.
#[derive(Drop)]
enum Got {
    /// The bytes of a file, or its text.
    Bytes(Vec<u8>),
    /// The image or the file was refused. The outcome states the reason.
    Nothing(Outcome),
}

/// Returns whether `job` reads an assembler text. Any other job on texts reads a code file.
fn reads_text(job: &Job) -> bool
    ensures text { result ≡ reads_text job.now }
{
    matches!(job, Job::Asm(_))
}

/// Returns the command that reads the file `name`, as a text if `is_text`, and as bytes otherwise.
fn getting(is_text: bool, name: String) -> FileCommand
    ensures order { order_of result ≡ getting is_text (string_bytes name) }
{
    if is_text {
        FileCommand::GetText(name)
    } else {
        FileCommand::Get(name)
    }
}

/// Reads the file `name` of the volume whose image is at `path`, as a text if `is_text`, and as bytes otherwise. No
/// file changes.
fn get_file<S: Store>(
    alloc: Global,
    store: &mut S,
    path: &str,
    is_text: bool,
    name: String,
) -> Result<Got, DiskFault>
    ensures got { IfOk result (λ got. IsGot (S.files store.old) path.now (getting is_text (string_bytes name)) got) }
    ensures stays { S.files store.new ≡ S.files store.old }
    ensures held { S.held store.new ≡ S.held store.old }
{
    let image = store.read(alloc, path)?;
    let command = getting(is_text, name);
    let mut source = Reader::new(&[] as &[u8]);
    let (outcome, page) = into_memory(alloc, &mut source, Job::Files { image, command });
    match outcome.exit {
        Exit::Ended => Ok(Got::Bytes(page)),
        Exit::Refused => Ok(Got::Nothing(outcome)),
        // This job ends early only if memory is exhausted.
        _ => Err(DiskFault::NoMemory),
    }
}

/// Executes `job` on the input `bytes`. If `path` is a path, the file at `path` is locked first and gets the output.
/// Otherwise the output is written to `sink`. `sink` must not have failed.
///
/// On an error, no file has changed, and nothing was written to `sink`.
fn deliver_bytes<S: Store, O: Sink>(
    alloc: Global,
    store: &mut S,
    sink: &mut O,
    path: &Option<String>,
    bytes: &[u8],
    job: Job,
) -> Result<Outcome, DiskFault>
    requires well { (O.seen sink.old).failed ≡ false }
    ensures said { IfOk result (λ outcome. IsSoundExit outcome.exit →
        Delivers (S.files store.old) (S.files store.new) (option_map string_bytes path.now)
        (O.seen sink.old) (O.seen sink.new) outcome (job_said job bytes.now)) }
    ensures silent { LeavesOutput (option_map string_bytes path.now) (O.seen sink.old) (O.seen sink.new) }
    ensures unwritten { OnErr result (O.seen sink.new ≡ O.seen sink.old) }
    ensures cut { IfOk result (λ outcome. IsCutShort outcome.exit → S.files store.new ≡ S.files store.old) }
    ensures held { OnOk result (S.held store.new ≡ held_at (option_map string_bytes path.now) (S.held store.old)) }
    ensures unchanged { OnErr result (S.files store.new ≡ S.files store.old) }
{
    let mut source = Reader::new(bytes);
    deliver(alloc, store, &mut source, sink, path, job)
}

/// Executes `job` on an assembler text or a code file. `source` and `sink` must not have failed.
///
/// `files.input` selects one of three inputs:
///
/// - the stream `source`;
/// - a file. `source` is not read;
/// - a file of a volume. `source` is not read. The job determines whether the file is read as a text or as bytes.
///
/// Without `files.output`, the output is written to `sink`, and no file changes. With `files.output`, the file at this
/// path is locked, and nothing is written to `sink`. If the job succeeds, this file contains the whole output. No other
/// file changes. If the job is cut short by a stream failure or out of memory, no file changes.
///
/// If the file of a volume is refused, the outcome of that refusal is returned. Then no file is locked, and nothing is
/// written.
///
/// On an error, a file could not be read, locked or written. No file has changed, and nothing was written to `sink`.
#[tactic(auto, using(crate::proofs::TextLaws::held_output, crate::proofs::TextLaws::refused_holds))]
pub fn do_text<S: Store, I: Source, O: Sink>(
    alloc: Global,
    store: &mut S,
    source: &mut I,
    sink: &mut O,
    files: TextFiles,
    job: Job,
) -> Result<Outcome, DiskFault>
    requires well { AreWell (both (I.seen source.old) (O.seen sink.old)) }
    ensures said { IfOk result (λ outcome. IsSoundExit outcome.exit → DeliversOf (S.files store.old) (S.files store.new)
        job files.input (option_map string_bytes files.output)
        (I.seen source.old).remaining (O.seen sink.old) (O.seen sink.new) outcome) }
    ensures unread { LeavesInput files.input (I.seen source.old) (I.seen source.new) }
    ensures silent { LeavesOutput (option_map string_bytes files.output) (O.seen sink.old) (O.seen sink.new) }
    ensures unwritten { OnErr result (O.seen sink.new ≡ O.seen sink.old) }
    ensures cut { IfOk result (λ outcome. IsCutShort outcome.exit → S.files store.new ≡ S.files store.old) }
    ensures held { IfOk result (λ outcome.
        HoldsOutput outcome.exit (option_map string_bytes files.output) (S.held store.old) (S.held store.new)) }
    ensures unchanged { OnErr result (S.files store.new ≡ S.files store.old) }
{
    let TextFiles { input, output } = files;
    let bytes = match input {
        TextInput::Standard => return deliver(alloc, store, source, sink, &output, job),
        TextInput::File(path) => store.read(alloc, path.as_str())?,
        TextInput::OnImage { image, name } => {
            match get_file(alloc, store, image.as_str(), reads_text(&job), name)? {
                Got::Bytes(bytes) => bytes,
                Got::Nothing(outcome) => return Ok(outcome),
            }
        }
    };
    deliver_bytes(alloc, store, sink, &output, &bytes, job)
}
