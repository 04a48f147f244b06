//! The verbs of `files` on one image, and `salvage`: what they read first, and the image that they save at the end. In
//! comments, the input is *known* if the model of `source` states its remaining bytes.
ghost use Rattle.std.specs.Prelude.{◌≡◌, IfOk, IfSome, OnErr, OnOk, string_bytes, option_map, vec_items};
ghost use Rattle.pm_tool.specs.Said.{IsCutShort, IsSoundExit};
ghost use Rattle.pm_files.specs.Held.{Saves, held_too};
ghost use Rattle.pm_jobs.specs.Streams.{AreWell, both};
ghost use Rattle.pm_verbs.specs.Verbs.{SavesSaid, SavesSalvage, SaysOf, TellsVerb, WritesNoneOrAll};
ghost use Rattle.pm_verbs.specs.Verbs.{WritesPart, takes_lock};
ghost use Rattle.pm_paths.specs.Locks.{held_by};

use pm_files::{DiskFault, Store};
use pm_jobs::{Sink, Source};
use pm_output::save_image;
use pm_plan::{SalvagePlan, Verb};
use pm_tool::{Job, Outcome};
use std::alloc::Global;

/// Returns whether `verb` locks its file, because `verb` may write the file.
fn takes_lock(verb: &Verb) -> bool
    ensures value { result ≡ takes_lock verb.now }
{
    use pm_filer::FileCommand;
    !matches!(
        verb,
        Verb::Command(FileCommand::List | FileCommand::Get(_) | FileCommand::GetText(_))
            | Verb::Command(FileCommand::GetSlot(_) | FileCommand::GetTextSlot(_))
            | Verb::Command(FileCommand::ListAll | FileCommand::ListFitting(_))
            | Verb::Check
    )
}

/// Returns the job of `verb`. It first locks the file at `path` if the verb may write the file. Then it reads the file,
/// except for `New`. No file changes.
fn files_job<S: Store>(
    alloc: Global,
    store: &mut S,
    path: &str,
    verb: Verb,
) -> Result<Job, DiskFault>
    ensures stays { S.files store.new ≡ S.files store.old }
    ensures held { OnOk result (S.held store.new ≡ held_by (takes_lock verb) path.now (S.held store.old)) }
    ensures job { IfOk result (λ job. SaysOf (S.files store.old) path.now verb job) }
{
    if takes_lock(&verb) {
        store.hold(path)?;
    }
    match verb {
        Verb::Command(command) => {
            let image = store.read(alloc, path)?;
            Ok(Job::Files { image, command })
        }
        Verb::New(name, blocks) => Ok(Job::New { name, blocks }),
        Verb::Repair => {
            let image = store.read(alloc, path)?;
            Ok(Job::Repair { image })
        }
        Verb::Check => {
            let image = store.read(alloc, path)?;
            Ok(Job::Check { image })
        }
    }
}

/// Executes `verb` on the image at `path`, and saves the image of the outcome at `path` if the outcome has an image. If
/// the verb may write the file, it locks the file first. `source` and `sink` must not have failed.
///
/// No other file changes. If the job is cut short by a stream failure or out of memory, no file changes, and, if the
/// input is known, a prefix of the output was written. Otherwise, if the input is known, the outcome, the output and the
/// saved image are those that the specification of the verb states. They depend on the input and the image that was
/// read.
///
/// On an error, the file could not be read, locked or written, and no file has changed. If the input is known, either
/// nothing was written or all of the output.
pub fn do_files<S: Store, I: Source, O: Sink>(
    alloc: Global,
    store: &mut S,
    source: &mut I,
    sink: &mut O,
    path: &str,
    verb: Verb,
) -> Result<Outcome, DiskFault>
    requires well { AreWell (both (I.seen source.old) (O.seen sink.old)) }
    ensures saved { IfOk result (λ outcome.
        Saves (S.files store.old) (S.files store.new) path.now (option_map vec_items outcome.image)) }
    ensures cut { IfOk result (λ outcome. IsCutShort outcome.exit → S.files store.new ≡ S.files store.old) }
    ensures held { OnOk result (S.held store.new ≡ held_by (takes_lock verb) path.now (S.held store.old)) }
    ensures said { IfOk result (λ outcome. IsSoundExit outcome.exit → IfSome (I.seen source.old).remaining (λ input.
        SavesSaid (S.files store.old) (S.files store.new) path.now verb input)) }
    ensures tells { IfOk result (λ outcome. IsSoundExit outcome.exit → IfSome (I.seen source.old).remaining (λ input.
        TellsVerb (S.files store.old) (O.seen sink.old) (O.seen sink.new) outcome path.now verb input)) }
    ensures part { IfOk result (λ outcome. IsCutShort outcome.exit → IfSome (I.seen source.old).remaining (λ input.
        WritesPart (S.files store.old) path.now verb (O.seen sink.old) (O.seen sink.new) input)) }
    ensures broken { OnErr result (IfSome (I.seen source.old).remaining (λ input.
        WritesNoneOrAll (S.files store.old) path.now verb (O.seen sink.old) (O.seen sink.new) input)) }
    ensures unchanged { OnErr result (S.files store.new ≡ S.files store.old) }
{
    let job = files_job(alloc, store, path, verb)?;
    let outcome = pm_tool::run(alloc, source, sink, job);
    save_image(store, path, &outcome.image)?;
    Ok(outcome)
}

/// Executes `salvage`: saves the files of the image at `plan.path` in a new volume at `plan.target`. The file at
/// `plan.target` is locked first. `source` and `sink` must not have failed.
///
/// No other file changes. If the job is cut short by a stream failure or out of memory, no file changes. Otherwise, if
/// the input is known, the new volume is the one that the specification of `salvage` states for the image that was
/// read.
///
/// On an error, a file could not be read, locked or written, and no file has changed.
pub fn do_salvage<S: Store, I: Source, O: Sink>(
    alloc: Global,
    store: &mut S,
    source: &mut I,
    sink: &mut O,
    plan: SalvagePlan,
) -> Result<Outcome, DiskFault>
    requires well { AreWell (both (I.seen source.old) (O.seen sink.old)) }
    ensures saved { IfOk result (λ outcome.
        Saves (S.files store.old) (S.files store.new) (string_bytes plan.target) (option_map vec_items outcome.image)) }
    ensures cut { IfOk result (λ outcome. IsCutShort outcome.exit → S.files store.new ≡ S.files store.old) }
    ensures held { OnOk result (S.held store.new ≡ held_too (string_bytes plan.target) (S.held store.old)) }
    ensures said { IfOk result (λ outcome. IsSoundExit outcome.exit → IfSome (I.seen source.old).remaining (λ input.
        SavesSalvage (S.files store.old) (S.files store.new) plan input)) }
    ensures unchanged { OnErr result (S.files store.new ≡ S.files store.old) }
{
    let SalvagePlan {
        path,
        target,
        second,
    } = plan;
    store.hold(target.as_str())?;
    let image = store.read(alloc, path.as_str())?;
    let job = Job::Salvage { image, second };
    let outcome = pm_tool::run(alloc, source, sink, job);
    save_image(store, target.as_str(), &outcome.image)?;
    Ok(outcome)
}
