//! The job that reads a file of a volume and writes it to a file of the host.
ghost use Rattle.std.specs.Prelude.{◌≡◌, false, IfOk, IfSome, OnErr, OnOk, Some};
ghost use Rattle.pm_filer.specs.Filed.{order_of};
ghost use Rattle.pm_tool.specs.Said.{IsCutShort, IsSoundExit};
ghost use Rattle.pm_verbs.specs.Got.{SavesGot};
ghost use Rattle.pm_paths.specs.Locks.{held_at};

use pm_filer::FileCommand;
use pm_files::{DiskFault, Store};
use pm_jobs::Source;
use pm_output::into_file;
use pm_tool::{Job, Outcome};
use std::alloc::Global;

/// Executes `command` on the volume whose image is at `path`. Its output is saved as the file at `output`, which is
/// locked. `source` must not have failed.
///
/// If the command succeeds, the file at `output` contains its whole output. No other file changes: the image at `path`
/// is unchanged even if the command would change it. If the command is refused or cut short, no file changes.
///
/// On an error, a file could not be read, locked or written, and no file has changed.
pub fn do_get<S: Store, I: Source>(
    alloc: Global,
    store: &mut S,
    source: &mut I,
    path: &str,
    output: &str,
    command: FileCommand,
) -> Result<Outcome, DiskFault>
    requires well { (I.seen source.old).failed ≡ false }
    ensures said { IfOk result (λ outcome. IsSoundExit outcome.exit → IfSome (I.seen source.old).remaining (λ input.
        SavesGot (S.files store.old) (S.files store.new) path.now output.now (order_of command) input outcome)) }
    ensures cut { IfOk result (λ outcome. IsCutShort outcome.exit → S.files store.new ≡ S.files store.old) }
    ensures held { OnOk result (S.held store.new ≡ held_at (Some output.now) (S.held store.old)) }
    ensures unchanged { OnErr result (S.files store.new ≡ S.files store.old) }
{
    let image = store.read(alloc, path)?;
    into_file(alloc, store, source, output, Job::Files { image, command })
}
