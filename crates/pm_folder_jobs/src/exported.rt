//! Jobs that write the files of a volume to a new folder: `export`, and `salvage` to a folder.
ghost use Rattle.std.specs.Prelude.{◌≡◌, IfOk, IfSome, OnErr, option_map, vec_items};
ghost use Rattle.pm_jobs.specs.Streams.{AreWell, both};
ghost use Rattle.pm_folder_jobs.specs.Exported.{BreaksOffExport, BreaksOffFill, BreaksOffSalvage, Exports, FillsFrom};
ghost use Rattle.pm_folder_jobs.specs.Exported.{IsFilled, SavesFolder};
ghost use Rattle.pm_tool.specs.Said.{IsSoundExit};

use pm_export::{Unwritten, export};
use pm_files::{DiskFault, Folder, Store};
use pm_folder::Wanted;
use pm_images::open_at;
use pm_jobs::{Sink, Source};
use pm_plan::{ExportPlan, SalvagePlan};
use pm_tool::{Job, Outcome};
use pm_volume::Volume;
use std::alloc::Global;

/// The result of an export.
#[derive(Drop)]
pub enum Exported {
    /// The image is not a volume. The outcome is that of `files list` for it. No folder was created.
    Refused(Outcome),
    /// The folder was created. It has the list and all requested files, except these files, which could not be written.
    Written(Vec<Unwritten>),
}

/// Creates a folder at `path` with the files of the volume in `image`. Returns the files that could not be written.
/// Returns `None`, and creates no folder, if `image` is not a volume.
fn fill_from<F: Folder>(
    alloc: Global,
    folder: &mut F,
    image: Vec<u8>,
    path: &str,
) -> Result<Option<Vec<Unwritten>>, DiskFault>
    ensures filled { IfOk result
        (IsFilled (F.files folder.old) (F.files folder.new) (F.at folder.new) path.now image.items) }
    ensures broken { OnErr result (BreaksOffFill (F.files folder.old) (F.files folder.new) image.items) }
{
    match Volume::open(image) {
        Ok(volume) => Ok(Some(export(alloc, folder, &volume, path, None, &Wanted::All)?)),
        Err(_) => Ok(None),
    }
}

/// Creates a folder at `path` with the files of `volume`. Returns the files that could not be written. Returns `None`,
/// and creates no folder, if `volume` is `None` or not a volume.
fn fill_with<F: Folder>(
    alloc: Global,
    folder: &mut F,
    volume: Option<Vec<u8>>,
    path: &str,
) -> Result<Option<Vec<Unwritten>>, DiskFault>
    ensures filled { IfOk result
        (FillsFrom (F.files folder.old) (F.files folder.new) (F.at folder.new) path.now (option_map vec_items volume)) }
    ensures broken { OnErr result (BreaksOffSalvage (F.files folder.old) (F.files folder.new)) }
{
    match volume {
        Some(volume) => fill_from(alloc, folder, volume, path),
        None => Ok(None),
    }
}

/// Writes the files of a volume, and a list of them, to a new folder. No file of `store` is changed or locked.
///
/// # Errors
///
/// - The image could not be read, or the folder could not be created: the fault. No folder was created.
/// - Out of memory: `NoMemory`. If the folder was created, it has only some of the files, and each of them is complete.
pub fn do_export<S: Store, F: Folder>(
    alloc: Global,
    store: &mut S,
    folder: &mut F,
    plan: &ExportPlan,
) -> Result<Exported, DiskFault>
    ensures exports { IfOk result (λ exported. Exports (S.files store.old) plan.now (F.files folder.old)
        (F.files folder.new) (F.at folder.new) exported) }
    ensures stays { S.files store.new ≡ S.files store.old }
    ensures held { S.held store.new ≡ S.held store.old }
    ensures broken { OnErr result
        (BreaksOffExport (S.files store.old) plan.now (F.files folder.old) (F.files folder.new)) }
{
    match open_at(alloc, store, plan.path.as_str())? {
        Ok(volume) => {
            let path = plan.folder.as_str();
            let unwritten = export(alloc, folder, &volume, path, plan.text, &plan.wanted)?;
            Ok(Exported::Written(unwritten))
        }
        Err(outcome) => Ok(Exported::Refused(outcome)),
    }
}

/// The result of a salvage to a folder.
#[derive(Drop)]
pub struct SavedFolder {
    /// The outcome of the job, without the image of the new volume.
    pub outcome: Outcome,
    /// The files that could not be written to the new folder. `None` if the job has no new volume, so that no folder
    /// was created.
    pub unwritten: Option<Vec<Unwritten>>,
}

/// Executes `salvage`, and writes the files of the new volume to a new folder. No file of `store` is changed or locked.
/// `source` and `sink` must not have failed.
///
/// # Errors
///
/// - The image could not be read, or the folder could not be created: the fault. No folder was created.
/// - Out of memory: `NoMemory`. If the folder was created, it has only some of the files of the new volume, and each of
///   them is complete.
pub fn do_salvage_folder<S: Store, I: Source, O: Sink, F: Folder>(
    alloc: Global,
    store: &mut S,
    source: &mut I,
    sink: &mut O,
    folder: &mut F,
    plan: &SalvagePlan,
) -> Result<SavedFolder, DiskFault>
    requires well { AreWell (both (I.seen source.old) (O.seen sink.old)) }
    ensures saves { IfOk result (λ saved. IsSoundExit saved.outcome.exit → IfSome (I.seen source.old).remaining
        (λ input. SavesFolder (S.files store.old) plan.now (F.files folder.old) (F.files folder.new) (F.at folder.new)
        saved input)) }
    ensures stays { S.files store.new ≡ S.files store.old }
    ensures held { S.held store.new ≡ S.held store.old }
    ensures broken { OnErr result (BreaksOffSalvage (F.files folder.old) (F.files folder.new)) }
{
    let image = store.read(alloc, plan.path.as_str())?;
    let job = Job::Salvage {
        image,
        second: plan.second,
    };
    let mut outcome = pm_tool::run(alloc, source, sink, job);
    let volume = outcome.image.take();
    let unwritten = fill_with(alloc, folder, volume, plan.target.as_str())?;
    Ok(SavedFolder { outcome, unwritten })
}
