//! The files of a folder, added to a volume.
ghost use Rattle.std.specs.Prelude.{◌≡◌, IfOk, OnErr, OnOk, false, not, string_bytes};
ghost use Rattle.pm_folder_jobs.specs.Imported.{ImportsInto, ShowsList, WritesImage};
ghost use Rattle.pm_paths.specs.Locks.{held_by};

use pm_files::{DiskFault, Folder, Store};
use pm_images::open_at;
use pm_import::{ImportReport, Left, import};
use pm_jobs::{Sink, write_all};
use pm_plan::ImportPlan;
use pm_tool::Outcome;
use std::alloc::Global;
use std::io::ErrorKind;

/// How an import ended.
#[derive(Drop)]
pub enum Imported {
    /// The image is not a volume. The outcome is that of `files list` for it. No file changed, and nothing was written.
    Refused(Outcome),
    /// The volume has all files of the folder, except these.
    Done(Vec<Left>),
}

/// Locks the image of a plan, unless the import is a trial.
fn hold<S: Store>(store: &mut S, plan: &ImportPlan) -> Result<(), DiskFault>
    ensures stays { S.files store.new ≡ S.files store.old }
    ensures held { OnOk result (S.held store.new
        ≡ held_by (not plan.now.is_trial) (string_bytes plan.now.path) (S.held store.old)) }
{
    if plan.is_trial {
        return Ok(());
    }
    store.hold(plan.path.as_str())
}

/// Writes the image of a plan, unless the import is a trial.
fn put<S: Store>(store: &mut S, plan: &ImportPlan, image: &[u8]) -> Result<(), DiskFault>
    ensures writes { OnOk result (WritesImage (S.files store.old) (S.files store.new) plan.now image.now) }
    ensures held { S.held store.new ≡ S.held store.old }
    ensures unchanged { OnErr result (S.files store.new ≡ S.files store.old) }
{
    if plan.is_trial {
        return Ok(());
    }
    store.put(plan.path.as_str(), image)
}

/// Writes the lines that `LIST` would have to `sink`, which must not have failed, if the import is a trial.
///
/// # Errors
///
/// `sink` failed: `Write`.
fn show<O: Sink>(sink: &mut O, plan: &ImportPlan, list: &[u8]) -> Result<(), DiskFault>
    requires well { (O.seen sink.old).failed ≡ false }
    ensures shows { OnOk result (ShowsList plan.now list.now (O.seen sink.old).contents (O.seen sink.new).contents) }
{
    if !plan.is_trial {
        return Ok(());
    }
    match write_all(sink, list) {
        Ok(()) => Ok(()),
        Err(_) => Err(DiskFault::Write(ErrorKind::Other)),
    }
}

/// Adds the files of a folder to the volume of an image, and writes the image. The image is written once, after all
/// files were added. If the import is a trial, the lines that `LIST` would have for a folder without `LIST` are written
/// to `sink` instead, which must not have failed before.
///
/// # Errors
///
/// No file has changed.
///
/// - The fault of locking or reading the image.
/// - The fault of opening or reading the folder. `NoMemory`.
/// - The fault of writing the image, or of writing to `sink`.
pub fn do_import<S: Store, O: Sink, F: Folder>(
    alloc: Global,
    store: &mut S,
    sink: &mut O,
    folder: &mut F,
    plan: &ImportPlan,
) -> Result<Imported, DiskFault>
    requires well { (O.seen sink.old).failed ≡ false }
    ensures imports { IfOk result (λ imported. ImportsInto (S.files store.old) (S.files store.new) plan.now
        (F.files folder.new) (F.at folder.new) (O.seen sink.old).contents (O.seen sink.new).contents imported) }
    ensures held { OnOk result (S.held store.new
        ≡ held_by (not plan.now.is_trial) (string_bytes plan.now.path) (S.held store.old)) }
    ensures unchanged { OnErr result (S.files store.new ≡ S.files store.old) }
{
    hold(store, plan)?;
    match open_at(alloc, store, plan.path.as_str())? {
        Ok(mut volume) => {
            let folder_path = plan.folder.as_str();
            let ImportReport { left, list } = import(
                alloc,
                folder,
                &mut volume,
                folder_path,
                plan.ends,
            )?;
            show(sink, plan, &list)?;
            put(store, plan, &volume.into_bytes())?;
            Ok(Imported::Done(left))
        }
        Err(outcome) => Ok(Imported::Refused(outcome)),
    }
}
