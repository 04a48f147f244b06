//! The verbs `gettext` and `puttext` of `files` with the option `--ends`. In comments, the input is *known* if the
//! model of `source` states its remaining bytes.
ghost use Rattle.std.specs.Prelude.{◌≡◌, ◌⊎◌, ℕ, List, false, IfOk, IfSome, OnErr, OnOk, option_map, string_bytes};
ghost use Rattle.std.specs.Prelude.{vec_items};
ghost use Rattle.pm_filer.specs.Filed.{order_of};
ghost use Rattle.pm_files.specs.Held.{Saves};
ghost use Rattle.pm_jobs.specs.Streams.{AreWell, both};
ghost use Rattle.pm_verbs.specs.Ended.{DeliversEnded, DeliversPart, IsFed};
ghost use Rattle.pm_output.specs.Texts.{LeavesOutput};
ghost use Rattle.pm_verbs.specs.Verbs.{SavesSaid, TellsVerb, WritesNoneOrAll, WritesPart, takes_lock};
ghost use Rattle.pm_paths.specs.Locks.{held_at, held_by};
ghost use Rattle.pm_tool.specs.Said.{IsCutShort, IsSoundExit};

use crate::verbs::do_files;
use pm_filer::FileCommand;
use pm_files::{DiskFault, Store};
use pm_folder::{Ends, with_ends};
use pm_import::with_feeds;
use pm_jobs::{Fault, Reader, Sink, Source, read_all, write_all};
use pm_output::{into_memory, keep};
use pm_plan::Verb;
use pm_tool::{Exit, Job, Outcome};
use std::alloc::Global;
use std::io::ErrorKind;

/// Returns the fault of a file for the fault of a stream.
fn fault_of(fault: Fault) -> DiskFault {
    match fault {
        Fault::Read => DiskFault::Read(ErrorKind::Other),
        Fault::Write => DiskFault::Write(ErrorKind::Other),
        Fault::NoMemory => DiskFault::NoMemory,
    }
}

/// Reads the whole input, a text whose lines end with `ends`, and returns it with line feeds. `source` must not have
/// failed.
///
/// # Errors
///
/// - `source` failed: `Read`.
/// - Out of memory: `NoMemory`.
pub(crate) fn read_text<I: Source>(
    alloc: Global,
    source: &mut I,
    ends: Ends,
) -> Result<Vec<u8>, DiskFault>
    requires well { (I.seen source.old).failed ≡ false }
    ensures text { IfOk result (λ text. IsFed (I.seen source.old).remaining ends text.items) }
{
    let input = match read_all(alloc, source) {
        Ok(input) => input,
        Err(fault) => return Err(fault_of(fault)),
    };
    Ok(with_feeds(alloc, &input, ends)?)
}

/// Executes `verb` on the image at `path` and on the input `bytes`. Everything is as `do_files` states for this input.
/// `sink` must not have failed.
fn put_bytes<S: Store, O: Sink>(
    alloc: Global,
    store: &mut S,
    sink: &mut O,
    path: &str,
    verb: Verb,
    bytes: &[u8],
) -> Result<Outcome, DiskFault>
    requires well { (O.seen sink.old).failed ≡ false }
    ensures saved { IfOk result (λ outcome.
        Saves (S.files store.old) (S.files store.new) path.now (option_map vec_items outcome.image)) }
    ensures cut { IfOk result (λ outcome. IsCutShort outcome.exit → S.files store.new ≡ S.files store.old) }
    ensures held { OnOk result (S.held store.new ≡ held_by (takes_lock verb) path.now (S.held store.old)) }
    ensures said { IfOk result (λ outcome. IsSoundExit outcome.exit →
        SavesSaid (S.files store.old) (S.files store.new) path.now verb bytes.now) }
    ensures tells { IfOk result (λ outcome. IsSoundExit outcome.exit →
        TellsVerb (S.files store.old) (O.seen sink.old) (O.seen sink.new) outcome path.now verb bytes.now) }
    ensures part { IfOk result (λ outcome. IsCutShort outcome.exit →
        WritesPart (S.files store.old) path.now verb (O.seen sink.old) (O.seen sink.new) bytes.now) }
    ensures broken { OnErr result
        (WritesNoneOrAll (S.files store.old) path.now verb (O.seen sink.old) (O.seen sink.new) bytes.now) }
    ensures unchanged { OnErr result (S.files store.new ≡ S.files store.old) }
{
    let mut source = Reader::new(bytes);
    do_files(alloc, store, &mut source, sink, path, verb)
}

/// Executes `verb`, which reads a text, on the image at `path`. The lines of the text in `source` end with `ends`.
/// `source` and `sink` must not have failed.
///
/// The whole input is read first. Then everything is as `do_files` states, for the input with line feeds.
///
/// On an error, the input or the file could not be read, or the file could not be locked or written, or memory is
/// exhausted. No file has changed.
pub fn do_puttext<S: Store, I: Source, O: Sink>(
    alloc: Global,
    store: &mut S,
    source: &mut I,
    sink: &mut O,
    path: &str,
    verb: Verb,
    ends: Ends,
) -> Result<Outcome, DiskFault>
    requires well { AreWell (both (I.seen source.old) (O.seen sink.old)) }
    ensures saved { IfOk result (λ outcome.
        Saves (S.files store.old) (S.files store.new) path.now (option_map vec_items outcome.image)) }
    ensures cut { IfOk result (λ outcome. IsCutShort outcome.exit → S.files store.new ≡ S.files store.old) }
    ensures held { OnOk result (S.held store.new ≡ held_by (takes_lock verb) path.now (S.held store.old)) }
    ensures said { IfOk result (λ outcome. IsSoundExit outcome.exit → (text : List ℕ)
        × IsFed (I.seen source.old).remaining ends text
        × SavesSaid (S.files store.old) (S.files store.new) path.now verb text) }
    ensures tells { IfOk result (λ outcome. IsSoundExit outcome.exit → (text : List ℕ)
        × IsFed (I.seen source.old).remaining ends text
        × TellsVerb (S.files store.old) (O.seen sink.old) (O.seen sink.new) outcome path.now verb text) }
    ensures part { IfOk result (λ outcome. IsCutShort outcome.exit → (text : List ℕ)
        × IsFed (I.seen source.old).remaining ends text
        × WritesPart (S.files store.old) path.now verb (O.seen sink.old) (O.seen sink.new) text) }
    ensures broken { OnErr result ((O.seen sink.new ≡ O.seen sink.old) ⊎ ((text : List ℕ)
        × IsFed (I.seen source.old).remaining ends text
        × WritesNoneOrAll (S.files store.old) path.now verb (O.seen sink.old) (O.seen sink.new) text)) }
    ensures unchanged { OnErr result (S.files store.new ≡ S.files store.old) }
{
    let text = read_text(alloc, source, ends)?;
    put_bytes(alloc, store, sink, path, verb, &text)
}

/// Executes `command`, which writes the text of a file, on the volume whose image is at `path`. The lines of the output
/// end with `ends`. `source` and `sink` must not have failed.
///
/// Without a path `output`, the output is written to `sink`, and no file changes. With a path, the file at this path is
/// locked, and gets the whole output if the command succeeds. No other file changes. If the command is cut short by out
/// of memory, nothing is written, and no file changes.
///
/// On an error, a file could not be read, locked or written, `sink` failed, or memory is exhausted. No file has
/// changed. If the input is known, a prefix of the output was written, which may be empty.
pub fn do_gettext<S: Store, I: Source, O: Sink>(
    alloc: Global,
    store: &mut S,
    source: &mut I,
    sink: &mut O,
    path: &str,
    output: &Option<String>,
    command: FileCommand,
    ends: Ends,
) -> Result<Outcome, DiskFault>
    requires well { AreWell (both (I.seen source.old) (O.seen sink.old)) }
    ensures said { IfOk result (λ outcome. IsSoundExit outcome.exit → IfSome (I.seen source.old).remaining (λ input.
        DeliversEnded (S.files store.old) (S.files store.new) path.now (option_map string_bytes output.now)
        (O.seen sink.old) (O.seen sink.new) outcome (order_of command) ends input)) }
    ensures silent { LeavesOutput (option_map string_bytes output.now) (O.seen sink.old) (O.seen sink.new) }
    ensures cut { IfOk result (λ outcome. IsCutShort outcome.exit → S.files store.new ≡ S.files store.old) }
    ensures unwritten { IfOk result (λ outcome. IsCutShort outcome.exit → O.seen sink.new ≡ O.seen sink.old) }
    ensures held { OnOk result (S.held store.new ≡ held_at (option_map string_bytes output.now) (S.held store.old)) }
    ensures broken { OnErr result (IfSome (I.seen source.old).remaining (λ input. DeliversPart (S.files store.old)
        path.now (O.seen sink.old) (O.seen sink.new) (order_of command) ends input)) }
    ensures unchanged { OnErr result (S.files store.new ≡ S.files store.old) }
{
    let image = store.read(alloc, path)?;
    if let Some(output) = output {
        store.hold(output.as_str())?;
    }
    let (outcome, text) = into_memory(alloc, source, Job::Files { image, command });
    match outcome.exit {
        Exit::ReadFault | Exit::NoMemory => return Ok(outcome),
        // The output is written to a list, which fails to grow only if memory is exhausted.
        Exit::WriteFault => return Err(DiskFault::NoMemory),
        _ => {}
    }
    let text = with_ends(alloc, &text, ends)?;
    match output {
        Some(output) => keep(store, output.as_str(), outcome.exit, &text)?,
        None => {
            if let Err(fault) = write_all(sink, &text) {
                return Err(fault_of(fault));
            }
        }
    }
    Ok(outcome)
}
