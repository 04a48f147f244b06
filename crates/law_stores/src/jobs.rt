//! Jobs of the program on file stores in memory. The contracts state which bytes the files have after the job.

ghost use Rattle.std.specs.Prelude.{◌≡◌, IfOk, OnErr};
ghost use Rattle.pm_tool.specs.Said.{IsSoundExit};
ghost use Rattle.law_stores.specs.Jobs.{SavesDisk, SavesIn, LeavesRun, StaysWhereCut, left_in};
ghost use Rattle.pm_verbs.specs.Verbs.{said_verb};

use crate::stores::OneFile;
use pm_files::{DiskFault, Store};
use pm_jobs::{Reader, Saving, Writer};
use pm_plan::{Program, Verb};
use pm_runs::{Printing, SavedOfRun, do_run};
use pm_tool::Outcome;
use pm_verbs::do_files;
use std::alloc::Global;

/// The result of a command on a file.
#[derive(Drop)]
pub struct OnFile {
    /// The outcome of the job, or the fault if the file could not be read or written.
    pub done: Result<Outcome, DiskFault>,
    /// The bytes that the file has after the job.
    pub file: Vec<u8>,
}

/// The path of the only file of the store.
const FILE: &str = "file";

/// Executes `verb` of `files` on a file with the bytes `image`. The input of the job is `typed`.
///
/// - If the job has an outcome with an image, then the file has this image after the job.
/// - If the outcome has no image, the file has its old bytes.
/// - If the outcome is neither a stream failure nor out of memory, then the file has the image that the definition of
///   the verb states for `image` and `typed`. If the definition states no image, the file has its old bytes.
/// - After a stream failure or out of memory, or if the file cannot be read or written, the file has its old bytes.
///
/// If the call itself returns an error, the clauses state nothing about the file.
pub fn on_file(alloc: Global, image: Vec<u8>, typed: &[u8], verb: Verb) -> Result<OnFile, DiskFault>
    ensures unchanged { IfOk result (λ came. OnErr came.done (came.file.items ≡ image.items)) }
    ensures cut { IfOk result (λ came. IfOk came.done (StaysWhereCut image.items came.file.items)) }
    ensures saved { IfOk result (λ came. IfOk came.done (SavesIn image.items came.file.items)) }
    ensures said { IfOk result (λ came. IfOk came.done (λ outcome. IsSoundExit outcome.exit →
        came.file.items ≡ left_in image.items (said_verb image.items verb typed.now).image)) }
{
    let mut store = OneFile {
        path: String::from_str(alloc, FILE)?,
        bytes: Some(image),
        alloc,
    };
    let mut written = Vec::new(alloc);
    let mut source = Reader::new(typed);
    let mut sink = Writer::new(&mut written);
    let done = do_files(alloc, &mut store, &mut source, &mut sink, FILE, verb);
    let file = store.read(alloc, FILE)?;
    Ok(OnFile { done, file })
}

/// Runs the program `name` on a disk with the bytes `image` on unit 4, with the input `typed`, for at most `limit`
/// steps.
///
/// - If the job has an outcome with an image, and `saving` selects the image of unit 4, then the file has this image
///   after the job.
/// - In all other outcomes, the file has its old bytes.
/// - If the outcome is neither a stream failure nor out of memory, then the file has the image that the definition of
///   the run states for `typed` and for only this disk. If the definition states no image, the file has its old bytes.
/// - After a stream failure or out of memory, the file has its old bytes.
///
/// If the file cannot be read or written, or if the call itself returns an error, the clauses state nothing about the
/// file.
pub fn on_disk(
    alloc: Global,
    image: Vec<u8>,
    typed: &[u8],
    name: String,
    limit: u64,
    saving: Saving,
) -> Result<OnFile, DiskFault>
    ensures saved { IfOk result (λ came. IfOk came.done (SavesDisk saving image.items came.file.items)) }
    ensures cut { IfOk result (λ came. IfOk came.done (StaysWhereCut image.items came.file.items)) }
    ensures said { IfOk result (λ came. IfOk came.done (λ outcome. IsSoundExit outcome.exit →
        LeavesRun image.items name limit saving typed.now came.file.items)) }
{
    let mut store = OneFile {
        path: String::from_str(alloc, FILE)?,
        bytes: Some(image),
        alloc,
    };
    let program = Program {
        disk: String::from_str(alloc, FILE)?,
        others: [None, None, None, None, None],
        name,
        limit,
        system: None,
        is_text: false,
    };
    let printing = Printing::Nowhere;
    let saved = SavedOfRun { saving, printing };
    let mut written = Vec::new(alloc);
    let mut source = Reader::new(typed);
    let mut sink = Writer::new(&mut written);
    let done = do_run(alloc, &mut store, &mut source, &mut sink, program, saved);
    let file = store.read(alloc, FILE)?;
    Ok(OnFile { done, file })
}
