//! The verb of a plan on an image, with the options that select how it reads and writes.
ghost use Rattle.pm_jobs.specs.Streams.{AreWell, both};

use crate::ended::{do_gettext, do_puttext, read_text};
use crate::got::do_get;
use crate::replaced::do_replace;
use crate::verbs::do_files;
use pm_filer::FileCommand;
use pm_files::{DiskFault, Store};
use pm_folder::Ends;
use pm_jobs::{Reader, Sink, Source};
use pm_plan::{FilesPlan, Verb};
use pm_tool::Outcome;
use std::alloc::Global;

/// Executes a verb of `files`. If `plan.output` is a path, the output of the verb is saved as the file at that path.
/// `source` and `sink` must not have failed.
///
/// # Errors
///
/// No file has changed.
///
/// - With `plan.ends`, a text could not be read from `source`, or not be written to `sink`: the fault.
/// - A file could not be locked, read or written: the fault.
/// - Out of memory: `NoMemory`.
pub fn act_on_files<S: Store, I: Source, O: Sink>(
    alloc: Global,
    store: &mut S,
    source: &mut I,
    sink: &mut O,
    plan: FilesPlan,
) -> Result<Outcome, DiskFault>
    requires well { AreWell (both (I.seen source.old) (O.seen sink.old)) }
{
    let FilesPlan {
        path,
        verb,
        output,
        ends,
        replaces,
    } = plan;
    if replaces {
        return replace(alloc, store, source, sink, path, verb, ends);
    }
    if let Some(ends) = ends {
        return act_on_text(alloc, store, source, sink, path, verb, output, ends);
    }
    match (verb, output) {
        (Verb::Command(command), Some(output)) => {
            do_get(
                alloc,
                store,
                source,
                path.as_str(),
                output.as_str(),
                command,
            )
        }
        (verb, _) => do_files(alloc, store, source, sink, path.as_str(), verb),
    }
}

/// Executes `put` or `puttext` with `--replace` on the image at `path`. With `ends`, the input is a text whose lines
/// end with `ends`.
fn replace<S: Store, I: Source, O: Sink>(
    alloc: Global,
    store: &mut S,
    source: &mut I,
    sink: &mut O,
    path: String,
    verb: Verb,
    ends: Option<Ends>,
) -> Result<Outcome, DiskFault>
    requires well { AreWell (both (I.seen source.old) (O.seen sink.old)) }
{
    let path = path.as_str();
    let name = match &verb {
        Verb::Command(FileCommand::Put(name, _, _) | FileCommand::PutText(name, _)) => {
            String::from_str(alloc, name.as_str())?
        }
        _ => String::new(alloc),
    };
    let name = name.as_str();
    match (verb, ends) {
        (Verb::Command(command), None) => {
            do_replace(alloc, store, source, sink, path, name, command)
        }
        (Verb::Command(command), Some(ends)) => {
            let text = read_text(alloc, source, ends)?;
            let mut typed = Reader::new(text.as_slice());
            do_replace(alloc, store, &mut typed, sink, path, name, command)
        }
        (verb, _) => do_files(alloc, store, source, sink, path, verb),
    }
}

/// Executes `gettext` or `puttext` on the image at `path`. The lines of the text end with `ends`.
fn act_on_text<S: Store, I: Source, O: Sink>(
    alloc: Global,
    store: &mut S,
    source: &mut I,
    sink: &mut O,
    path: String,
    verb: Verb,
    output: Option<String>,
    ends: Ends,
) -> Result<Outcome, DiskFault>
    requires well { AreWell (both (I.seen source.old) (O.seen sink.old)) }
{
    let path = path.as_str();
    match verb {
        Verb::Command(command @ (FileCommand::GetText(..) | FileCommand::GetTextSlot(..))) => {
            do_gettext(alloc, store, source, sink, path, &output, command, ends)
        }
        verb => do_puttext(alloc, store, source, sink, path, verb, ends),
    }
}
