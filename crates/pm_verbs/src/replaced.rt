//! The verbs `put` and `puttext` of `files` with the option `--replace`. In comments, the input is *known* if the model
//! of `source` states its remaining bytes.
ghost use Rattle.std.specs.Prelude.{◌≡◌, IfOk, IfSome, OnErr, OnOk, option_map, vec_items};
ghost use Rattle.pm_filer.specs.Filed.{order_of};
ghost use Rattle.pm_files.specs.Held.{Saves, held_too};
ghost use Rattle.pm_jobs.specs.Streams.{AreWell, both};
ghost use Rattle.pm_verbs.specs.Replaced.{Replaces, ReplacesNoneOrAll, ReplacesPart, without};
ghost use Rattle.pm_tool.specs.Said.{IsCutShort, IsSoundExit};

use pm_filer::FileCommand;
use pm_files::{DiskFault, Store};
use pm_jobs::{Reader, Sink, Source};
use pm_output::{into_memory, save_image};
use pm_tool::{Exit, Job, Outcome};
use std::alloc::Global;

/// Returns the image `image` without the file `name`. If the file cannot be removed, because there is none or `image`
/// is no volume, returns `image` itself. Returns `NoMemory` if memory is exhausted.
fn without(alloc: Global, image: Vec<u8>, name: &str) -> Result<Vec<u8>, DiskFault>
    ensures image { IfOk result (λ made. made.items ≡ without name.now image.items) }
{
    let copy = Vec::from_slice(alloc, &image)?;
    let command = FileCommand::Remove(String::from_str(alloc, name)?);
    let mut source = Reader::new(&[] as &[u8]);
    let job = Job::Files {
        image: copy,
        command,
    };
    let (outcome, _) = into_memory(alloc, &mut source, job);
    match outcome.exit {
        Exit::Ended | Exit::Refused => Ok(outcome.image.unwrap_or(image)),
        // This job ends early only if memory is exhausted.
        _ => Err(DiskFault::NoMemory),
    }
}

/// Executes `command`, which adds the file `name`, on the image at `path` without the old file of this name. The image
/// is saved only if the command succeeds: otherwise the old file remains. `source` and `sink` must not have failed.
///
/// The file at `path` is locked first. No other file changes. If the job is cut short by a stream failure or out of
/// memory, no file changes, and, if the input is known, a prefix of the output was written. Otherwise, if the input is
/// known, the outcome, the output and the saved image are those that the specification of the command states.
///
/// On an error, the file could not be read, locked or written, or memory is exhausted. No file has changed. If the input
/// is known, either nothing was written or all of the output.
pub fn do_replace<S: Store, I: Source, O: Sink>(
    alloc: Global,
    store: &mut S,
    source: &mut I,
    sink: &mut O,
    path: &str,
    name: &str,
    command: FileCommand,
) -> Result<Outcome, DiskFault>
    requires well { AreWell (both (I.seen source.old) (O.seen sink.old)) }
    ensures saved { IfOk result (λ outcome.
        Saves (S.files store.old) (S.files store.new) path.now (option_map vec_items outcome.image)) }
    ensures cut { IfOk result (λ outcome. IsCutShort outcome.exit → S.files store.new ≡ S.files store.old) }
    ensures held { OnOk result (S.held store.new ≡ held_too path.now (S.held store.old)) }
    ensures said { IfOk result (λ outcome. IsSoundExit outcome.exit → IfSome (I.seen source.old).remaining (λ input.
        Replaces (S.files store.old) (S.files store.new) (O.seen sink.old) (O.seen sink.new) path.now name.now
        (order_of command) input outcome)) }
    ensures part { IfOk result (λ outcome. IsCutShort outcome.exit → IfSome (I.seen source.old).remaining (λ input.
        ReplacesPart (S.files store.old) (O.seen sink.old) (O.seen sink.new) path.now name.now (order_of command)
        input)) }
    ensures broken { OnErr result (IfSome (I.seen source.old).remaining (λ input. ReplacesNoneOrAll
        (S.files store.old) (O.seen sink.old) (O.seen sink.new) path.now name.now (order_of command) input)) }
    ensures unchanged { OnErr result (S.files store.new ≡ S.files store.old) }
{
    store.hold(path)?;
    let image = store.read(alloc, path)?;
    let image = without(alloc, image, name)?;
    let outcome = pm_tool::run(alloc, source, sink, Job::Files { image, command });
    save_image(store, path, &outcome.image)?;
    Ok(outcome)
}
