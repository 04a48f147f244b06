//! The verb `list` of `files` with `--json` or `--tabs`.
ghost use Rattle.std.specs.Prelude.{◌≡◌, false, IfOk, option_map, string_bytes};
ghost use Rattle.pm_verbs.specs.Tabled.{Tables, table_of};

use pm_files::{DiskFault, Store};
use pm_images::open_at;
use pm_jobs::{Sink, write_all};
use pm_plan::{TableForm, TablePlan};
use pm_table::{json_of, tabs_of};
use pm_tool::Outcome;
use pm_volume::Volume;
use std::alloc::{AllocError, Global};
use std::io::ErrorKind;

/// Returns the list of the files of `volume` whose names match `pattern`, in the form `form`. All files are listed if
/// `pattern` is `None`.
fn table_of(
    alloc: Global,
    volume: &Volume,
    form: TableForm,
    pattern: &Option<String>,
) -> Result<Vec<u8>, AllocError>
    ensures text { IfOk result (λ text. text.items
        ≡ table_of form (option_map string_bytes pattern.now) volume.now) }
{
    match form {
        TableForm::Tabs => tabs_of(alloc, volume, pattern),
        TableForm::Json => json_of(alloc, volume, pattern),
    }
}

/// Writes the list of the files of the volume of `plan` to `sink`, which must not have failed. If the image is no
/// volume, nothing is written, and the result is the outcome of `files list` for it. No file changes.
///
/// # Errors
///
/// - The image could not be read: the fault. Nothing was written.
/// - `sink` failed: `Write`. A prefix of the list may have been written.
/// - Out of memory: `NoMemory`. Nothing was written.
pub fn do_table<S: Store, O: Sink>(
    alloc: Global,
    store: &mut S,
    sink: &mut O,
    plan: &TablePlan,
) -> Result<Option<Outcome>, DiskFault>
    requires well { (O.seen sink.old).failed ≡ false }
    ensures tables { IfOk result (Tables (S.files store.old) plan.now
        (O.seen sink.old).contents (O.seen sink.new).contents) }
    ensures stays { S.files store.new ≡ S.files store.old }
    ensures held { S.held store.new ≡ S.held store.old }
{
    let volume = match open_at(alloc, store, plan.path.as_str())? {
        Ok(volume) => volume,
        Err(outcome) => return Ok(Some(outcome)),
    };
    let text = table_of(alloc, &volume, plan.form, &plan.pattern)?;
    match write_all(sink, &text) {
        Ok(()) => Ok(None),
        Err(_) => Err(DiskFault::Write(ErrorKind::Other)),
    }
}
