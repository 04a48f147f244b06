//! The verb `diff` of `files`: the comparison of the files of two volumes.
ghost use Rattle.std.specs.Prelude.{◌≡◌, false, IfOk};
ghost use Rattle.pm_verbs.specs.Compared.{Compares, WritesCompared};

use pm_compare::{compare, differs, lines_of};
use pm_files::{DiskFault, Store};
use pm_images::open_at;
use pm_jobs::{Sink, write_all};
use pm_plan::ComparePlan;
use pm_tool::Outcome;
use pm_volume::Volume;
use std::alloc::Global;
use std::io::ErrorKind;

/// How a comparison ended.
#[derive(Drop)]
pub enum Comparison {
    /// The first image is no volume. The outcome is that of `files list` for it. Nothing was written.
    HereRefused(Outcome),
    /// The second image is no volume. The outcome is that of `files list` for it. Nothing was written.
    ThereRefused(Outcome),
    /// The lines were written. The field states whether a file differs, or is on one volume only.
    Done(bool),
}

/// Writes a line for each file of `here` and `there` to `sink`, which must not have failed. Returns whether a file
/// differs, or is on one volume only.
///
/// # Errors
///
/// - `sink` failed: `Write`. A prefix of the lines may have been written.
/// - Out of memory: `NoMemory`. Nothing was written.
fn write_compared<O: Sink>(
    alloc: Global,
    sink: &mut O,
    here: &Volume,
    there: &Volume,
) -> Result<bool, DiskFault>
    requires well { (O.seen sink.old).failed ≡ false }
    ensures writes { IfOk result
        (WritesCompared here.now there.now (O.seen sink.old).contents (O.seen sink.new).contents) }
{
    let files = compare(alloc, here, there)?;
    let text = lines_of(alloc, &files)?;
    match write_all(sink, &text) {
        Ok(()) => Ok(differs(&files)),
        Err(_) => Err(DiskFault::Write(ErrorKind::Other)),
    }
}

/// Compares the files of the two volumes of `plan`, and writes a line for each file to `sink`, which must not have
/// failed. The first image is opened before the second one is read. No file changes.
///
/// # Errors
///
/// - An image could not be read: the fault. Nothing was written.
/// - `sink` failed: `Write`. A prefix of the lines may have been written.
/// - Out of memory: `NoMemory`. Nothing was written.
pub fn do_compare<S: Store, O: Sink>(
    alloc: Global,
    store: &mut S,
    sink: &mut O,
    plan: &ComparePlan,
) -> Result<Comparison, DiskFault>
    requires well { (O.seen sink.old).failed ≡ false }
    ensures compares { IfOk result (Compares (S.files store.old) plan.now
        (O.seen sink.old).contents (O.seen sink.new).contents) }
    ensures stays { S.files store.new ≡ S.files store.old }
    ensures held { S.held store.new ≡ S.held store.old }
{
    let here = match open_at(alloc, store, plan.path.as_str())? {
        Ok(volume) => volume,
        Err(outcome) => return Ok(Comparison::HereRefused(outcome)),
    };
    let there = match open_at(alloc, store, plan.other.as_str())? {
        Ok(volume) => volume,
        Err(outcome) => return Ok(Comparison::ThereRefused(outcome)),
    };
    Ok(Comparison::Done(write_compared(alloc, sink, &here, &there)?))
}
