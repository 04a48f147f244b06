//! The verb `undelete` of `files`: the free blocks in which a removed file seems to begin, and the bytes of free blocks.
ghost use Rattle.std.specs.Prelude.{◌≡◌, false, IfOk, None, OnErr, OnOk, Some, option_map, string_bytes};
ghost use Rattle.pm_paths.specs.Locks.{held_at};
ghost use Rattle.pm_undelete.specs.Found.{candidates_of};
ghost use Rattle.pm_undelete.specs.Lines.{lines_of};
ghost use Rattle.pm_verbs.specs.Undeleted.{IsUndeleted, Undeletes, WritesBytes};

use pm_files::{DiskFault, Store};
use pm_images::open_at;
use pm_jobs::{Sink, write_all};
use pm_plan::{BlockRange, UndeletePlan};
use pm_tool::Outcome;
use pm_undelete::{candidates, free_blocks, lines_of};
use pm_volume::Volume;
use std::alloc::{AllocError, Global};
use std::io::ErrorKind;

/// How the verb `undelete` ended.
#[derive(Drop)]
pub enum Undeletion {
    /// The image is no volume. The outcome is that of `files list` for it. Nothing was written.
    Refused(Outcome),
    /// The blocks are not all free. Nothing was written.
    NotFree,
    /// The lines or the bytes were written.
    Done,
}

/// Returns the lines of the free blocks of `volume` in which a removed file seems to begin.
fn list_of(alloc: Global, volume: &Volume) -> Result<Vec<u8>, AllocError>
    ensures text { IfOk result (λ text. text.items ≡ lines_of (candidates_of volume.now)) }
{
    let found = candidates(alloc, volume)?;
    lines_of(alloc, &found)
}

/// Writes `bytes` to `sink`, which must not have failed. With a path `output`, locks the file at this path and saves
/// `bytes` as this file instead.
///
/// # Errors
///
/// No file has changed.
///
/// - `sink` failed: `Write`. A prefix of the bytes may have been written.
/// - The file could not be locked or written: the fault. Nothing was written to `sink`.
fn write_bytes<S: Store, O: Sink>(
    store: &mut S,
    sink: &mut O,
    output: &Option<String>,
    bytes: &[u8],
) -> Result<(), DiskFault>
    requires well { (O.seen sink.old).failed ≡ false }
    ensures writes { OnOk result (WritesBytes (S.files store.old) (S.files store.new)
        (option_map string_bytes output.now) (O.seen sink.old).contents (O.seen sink.new).contents bytes.now) }
    ensures held { OnOk result (S.held store.new ≡ held_at (option_map string_bytes output.now) (S.held store.old)) }
    ensures unchanged { OnErr result (S.files store.new ≡ S.files store.old) }
{
    match output {
        Some(path) => {
            store.hold(path.as_str())?;
            store.put(path.as_str(), bytes)
        }
        None => match write_all(sink, bytes) {
            Ok(()) => Ok(()),
            Err(_) => Err(DiskFault::Write(ErrorKind::Other)),
        },
    }
}

/// Writes the list of `volume`, as `write_bytes` states.
fn write_list<S: Store, O: Sink>(
    alloc: Global,
    store: &mut S,
    sink: &mut O,
    output: &Option<String>,
    volume: &Volume,
) -> Result<Undeletion, DiskFault>
    requires well { (O.seen sink.old).failed ≡ false }
    ensures writes { IfOk result (IsUndeleted (S.files store.old) (S.files store.new)
        (option_map string_bytes output.now) None volume.now
        (O.seen sink.old).contents (O.seen sink.new).contents) }
    ensures held { IfOk result (λ end. end ≡ Undeletion.Done →
        S.held store.new ≡ held_at (option_map string_bytes output.now) (S.held store.old)) }
    ensures unchanged { OnErr result (S.files store.new ≡ S.files store.old) }
{
    let text = list_of(alloc, volume)?;
    write_bytes(store, sink, output, &text)?;
    Ok(Undeletion::Done)
}

/// Writes the bytes of the blocks `range` of `volume`, as `write_bytes` states. If they are not all free, nothing is
/// written.
fn write_blocks<S: Store, O: Sink>(
    store: &mut S,
    sink: &mut O,
    output: &Option<String>,
    volume: &Volume,
    range: BlockRange,
) -> Result<Undeletion, DiskFault>
    requires well { (O.seen sink.old).failed ≡ false }
    ensures writes { IfOk result (IsUndeleted (S.files store.old) (S.files store.new)
        (option_map string_bytes output.now) (Some range) volume.now
        (O.seen sink.old).contents (O.seen sink.new).contents) }
    ensures held { IfOk result (λ end. end ≡ Undeletion.Done →
        S.held store.new ≡ held_at (option_map string_bytes output.now) (S.held store.old)) }
    ensures unchanged { OnErr result (S.files store.new ≡ S.files store.old) }
{
    let Some(bytes) = free_blocks(volume, range.first, range.count) else {
        return Ok(Undeletion::NotFree);
    };
    write_bytes(store, sink, output, bytes)?;
    Ok(Undeletion::Done)
}

/// Executes `undelete` on the image of `plan`. `sink` must not have failed.
///
/// Without `plan.blocks`, writes a line for each place in the free areas of the volume at which a removed file seems to
/// begin. With `plan.blocks`, writes the bytes of these blocks, if all of them are free. The output goes to `sink`, or
/// with `plan.output` to the file at this path, which is locked. No other file changes.
///
/// # Errors
///
/// No file has changed.
///
/// - The image could not be read: the fault. Nothing was written.
/// - `sink` failed: `Write`. A prefix of the output may have been written.
/// - The file at `plan.output` could not be locked or written: the fault.
/// - Out of memory: `NoMemory`. Nothing was written.
pub fn do_undelete<S: Store, O: Sink>(
    alloc: Global,
    store: &mut S,
    sink: &mut O,
    plan: &UndeletePlan,
) -> Result<Undeletion, DiskFault>
    requires well { (O.seen sink.old).failed ≡ false }
    ensures undeletes { IfOk result (Undeletes (S.files store.old) (S.files store.new) plan.now
        (O.seen sink.old).contents (O.seen sink.new).contents) }
    ensures held { IfOk result (λ end. end ≡ Undeletion.Done →
        S.held store.new ≡ held_at (option_map string_bytes plan.now.output) (S.held store.old)) }
    ensures unchanged { OnErr result (S.files store.new ≡ S.files store.old) }
{
    let volume = match open_at(alloc, store, plan.path.as_str())? {
        Ok(volume) => volume,
        Err(outcome) => return Ok(Undeletion::Refused(outcome)),
    };
    match plan.blocks {
        None => write_list(alloc, store, sink, &plan.output, &volume),
        Some(range) => write_blocks(store, sink, &plan.output, &volume, range),
    }
}
