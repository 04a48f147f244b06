//! Jobs that run a program: the images that they read first, and what they save at the end. In comments, the input is
//! *known* if the model of `source` states its remaining bytes.
ghost use Rattle.std.specs.Prelude.{◌≡◌, ◌∷◌, IfOk, IfSome, OnErr, OnOk, Some, string_bytes, option_map, vec_items};
ghost use Rattle.pm_tool.specs.Said.{IsCutShort, IsSoundExit};
ghost use Rattle.pm_files.specs.Held.{Puts};
ghost use Rattle.pm_jobs.specs.Streams.{AreWell, both};
ghost use Rattle.pm_plan.specs.Asked.{paths_in};
ghost use Rattle.pm_runs.specs.Saved.{SavesAt, SavesEach, SavesFront, SavesFrontSaid, SavesRun, SavesSome, PrintsIf};
ghost use Rattle.pm_runs.specs.Saved.{has_run, held_each, held_paths, saved_paths, IsTyped, Reads, ReadsEach};
ghost use Rattle.pm_runs.specs.Saved.{SavesRunSaid, TellsDebug, TellsPartOfRun, TellsRun, TracesTo, paths_of, printed};
ghost use Rattle.pm_jobs.specs.Streams.{AppendsFront};
ghost use Rattle.std.specs.Io.KnownBytes.{Appends};
ghost use Rattle.pm_paths.specs.Locks.{held_at};
ghost use Rattle.pm_output.specs.Texts.{LeavesFiles, LeavesOutput};
ghost use Rattle.pm_tool.specs.Disks.{images_of};

use pm_files::{DiskFault, Store};
use pm_jobs::{Saving, Selection, Sink, Source, write_all};
use pm_output::{into_file, save_image};
use pm_paths::hold_at;
use pm_plan::{Others, Program, RunChoices};
use pm_tool::{Exit, Job, OtherImages, Outcome};
use std::alloc::Global;
use std::io::ErrorKind;

/// The destination of the printer's output.
#[derive(Drop)]
pub enum Printing {
    /// The output is discarded.
    Nowhere,
    /// The output is written to standard output, after the output of the console.
    Output,
    /// The output is written to the file at this path.
    File(String),
}

/// What a run saves at its end.
#[derive(Drop)]
pub struct SavedOfRun {
    /// Which images are saved.
    pub saving: Saving,
    /// The destination of the printer's output.
    pub printing: Printing,
}

/// Returns the bytes of the file at `path`, or `None` if `path` is `None`. No file changes.
fn image<S: Store>(
    alloc: Global,
    store: &mut S,
    path: &Option<String>,
) -> Result<Option<Vec<u8>>, DiskFault>
    ensures stays { S.files store.new ≡ S.files store.old }
    ensures held { S.held store.new ≡ S.held store.old }
    ensures value { IfOk result (λ image.
        Reads (S.files store.old) (option_map string_bytes path.now) (option_map vec_items image)) }
{
    match path {
        Some(path) => Ok(Some(store.read(alloc, path.as_str())?)),
        None => Ok(None),
    }
}

/// The images of the disks on the units 4, 5, 9, 10, 11 and 12, in this order. `None` for a unit without a disk.
type Images = [Option<Vec<u8>>; 6];

/// Returns the images of the disks, in the order of their units. `disk` is the path for unit 4, and `others` has the
/// paths for the other units. No file changes.
fn images<S: Store>(
    alloc: Global,
    store: &mut S,
    disk: &str,
    others: &Others,
) -> Result<Images, DiskFault>
    ensures stays { S.files store.new ≡ S.files store.old }
    ensures held { S.held store.new ≡ S.held store.old }
    ensures values { IfOk result (λ images.
        ReadsEach (S.files store.old) (paths_of disk.now (paths_in others.now)) (images_of images)) }
{
    let [fifth, ninth, tenth, eleventh, twelfth] = others;
    Ok([
        Some(store.read(alloc, disk)?),
        image(alloc, store, fifth)?,
        image(alloc, store, ninth)?,
        image(alloc, store, tenth)?,
        image(alloc, store, eleventh)?,
        image(alloc, store, twelfth)?,
    ])
}

/// Returns the images of the disks, and the system's code file if `system` is a path. The images are read first, in the
/// order of their units. No file changes.
fn inputs<S: Store>(
    alloc: Global,
    store: &mut S,
    disk: &str,
    others: &Others,
    system: &Option<String>,
) -> Result<(Images, Option<Vec<u8>>), DiskFault>
    ensures stays { S.files store.new ≡ S.files store.old }
    ensures held { S.held store.new ≡ S.held store.old }
    ensures values { IfOk result (λ read.
        ReadsEach (S.files store.old) (paths_of disk.now (paths_in others.now)) (images_of read.0)) }
    ensures system { IfOk result (λ read.
        Reads (S.files store.old) (option_map string_bytes system.now) (option_map vec_items read.1)) }
{
    let images = images(alloc, store, disk, others)?;
    let system = image(alloc, store, system)?;
    Ok((images, system))
}

/// Returns whether `exit` states that a program has run. It has run if it ended, or stopped at its limit of steps, at
/// the end of its input, or at an execution error.
fn has_run(exit: Exit) -> bool
    ensures value { result ≡ has_run exit }
{
    matches!(exit, Exit::Ended | Exit::ExecutionError | Exit::Stopped)
}

/// Writes `bytes`, the printer's output, to `sink`. Returns `Write` if `sink` fails or has failed before. Then a prefix
/// was written.
fn print_out<O: Sink>(sink: &mut O, bytes: &[u8]) -> Result<(), DiskFault>
    ensures shown { OnOk result (Appends (O.seen sink.old).contents (O.seen sink.new).contents bytes.now) }
    ensures front { AppendsFront (O.seen sink.old).contents (O.seen sink.new).contents bytes.now }
{
    if sink.failed() || write_all(sink, bytes).is_err() {
        return Err(DiskFault::Write(ErrorKind::Other));
    }
    Ok(())
}

/// Writes the printer's output to the destination `printing`, if the program has run. On an error, no file has changed,
/// and a prefix was written to `sink`.
#[tactic(auto, using(crate::proofs::OutputLaws::appends_none, crate::proofs::OutputLaws::front_of_none))]
fn save_printer<S: Store, O: Sink>(
    store: &mut S,
    sink: &mut O,
    printing: &Printing,
    outcome: &Outcome,
) -> Result<(), DiskFault>
    ensures saved { OnOk result (
        PrintsIf (has_run outcome.now.exit) (S.files store.old) (S.files store.new) printing.now
        outcome.now.printer.items) }
    ensures shown { OnOk result (Appends (O.seen sink.old).contents (O.seen sink.new).contents
        (printed printing.now (has_run outcome.now.exit) outcome.now.printer.items)) }
    ensures part { AppendsFront (O.seen sink.old).contents (O.seen sink.new).contents
        (printed printing.now (has_run outcome.now.exit) outcome.now.printer.items) }
    ensures held { S.held store.new ≡ S.held store.old }
    ensures unchanged { OnErr result (S.files store.new ≡ S.files store.old) }
{
    if !has_run(outcome.exit) {
        return Ok(());
    }
    match printing {
        Printing::Nowhere => Ok(()),
        Printing::Output => print_out(sink, outcome.printer.as_slice()),
        Printing::File(path) => store.put(path.as_str(), outcome.printer.as_slice()),
    }
}

/// Replaces the contents of the file at `path` with `bytes`. The file is not written if it contains `bytes` already. If
/// memory is too small to compare, the file is written. On an error, no file has changed.
fn put_changed<S: Store>(
    alloc: Global,
    store: &mut S,
    path: &str,
    bytes: &[u8],
) -> Result<(), DiskFault>
    ensures puts { OnOk result (Puts (S.files store.old) (S.files store.new) path.now bytes.now) }
    ensures held { S.held store.new ≡ S.held store.old }
    ensures unchanged { OnErr result (S.files store.new ≡ S.files store.old) }
{
    match store.read(alloc, path) {
        Ok(old) if old.as_slice() == bytes => Ok(()),
        Ok(_) | Err(DiskFault::NoMemory) => store.put(path, bytes),
        Err(fault) => Err(fault),
    }
}

/// Saves `image` at `path`. Does nothing if `image` or `path` is `None`. The file is not written if it contains the
/// image already. On an error, no file has changed.
fn save_at<S: Store>(
    alloc: Global,
    store: &mut S,
    path: &Option<String>,
    image: &Option<Vec<u8>>,
) -> Result<(), DiskFault>
    ensures saved { OnOk result (SavesAt (S.files store.old) (S.files store.new)
        (option_map string_bytes path.now) (option_map vec_items image.now)) }
    ensures held { S.held store.new ≡ S.held store.old }
    ensures unchanged { OnErr result (S.files store.new ≡ S.files store.old) }
{
    match (path, image) {
        (Some(path), Some(image)) => put_changed(alloc, store, path.as_str(), image.as_slice()),
        _ => Ok(()),
    }
}

/// Saves `images`, those of the units other than 4, at `paths`, in the order of the units. On an error, the images of
/// the first units may be saved, and no other file has changed.
fn save_others<S: Store>(
    alloc: Global,
    store: &mut S,
    paths: &Others,
    images: &OtherImages,
) -> Result<(), DiskFault>
    ensures saved { OnOk result (SavesEach (S.files store.old) (S.files store.new)
        (paths_in paths.now) (images_of images.now)) }
    ensures held { S.held store.new ≡ S.held store.old }
    ensures front { OnErr result (SavesFront (S.files store.old) (S.files store.new)
        (paths_in paths.now) (images_of images.now)) }
{
    let [fifth, ninth, tenth, eleventh, twelfth] = paths;
    let [
        fifth_image,
        ninth_image,
        tenth_image,
        eleventh_image,
        twelfth_image,
    ] = images;
    save_at(alloc, store, fifth, fifth_image)?;
    save_at(alloc, store, ninth, ninth_image)?;
    save_at(alloc, store, tenth, tenth_image)?;
    save_at(alloc, store, eleventh, eleventh_image)?;
    save_at(alloc, store, twelfth, twelfth_image)
}

/// Saves the images in `outcome` at the paths `disk` and `others`, in the order of the units. On an error, the images
/// of the first units may be saved, and no other file has changed.
fn save_all<S: Store>(
    alloc: Global,
    store: &mut S,
    disk: &str,
    others: &Others,
    outcome: &Outcome,
) -> Result<(), DiskFault>
    ensures saved { OnOk result (SavesEach (S.files store.old) (S.files store.new)
        (Some disk.now ∷ paths_in others.now)
        (option_map vec_items outcome.now.image ∷ images_of outcome.now.others)) }
    ensures held { S.held store.new ≡ S.held store.old }
    ensures front { OnErr result (SavesFront (S.files store.old) (S.files store.new)
        (Some disk.now ∷ paths_in others.now)
        (option_map vec_items outcome.now.image ∷ images_of outcome.now.others)) }
{
    save_image(store, disk, &outcome.image)?;
    save_others(alloc, store, others, &outcome.others)
}

/// Saves the images that `saving` selects, in the order of the units. On an error, the images of the first units may be
/// saved, and no other file has changed.
fn save_images<S: Store>(
    alloc: Global,
    store: &mut S,
    disk: &str,
    others: &Others,
    saving: Saving,
    outcome: &Outcome,
) -> Result<(), DiskFault>
    ensures saved { OnOk result (SavesEach (S.files store.old) (S.files store.new)
        (saved_paths saving disk.now (paths_in others.now))
        (option_map vec_items outcome.now.image ∷ images_of outcome.now.others)) }
    ensures held { S.held store.new ≡ S.held store.old }
    ensures front { OnErr result (SavesFront (S.files store.old) (S.files store.new)
        (saved_paths saving disk.now (paths_in others.now))
        (option_map vec_items outcome.now.image ∷ images_of outcome.now.others)) }
{
    match saving {
        Saving::Nothing => Ok(()),
        Saving::First => save_image(store, disk, &outcome.image),
        Saving::All => save_all(alloc, store, disk, others, outcome),
        Saving::Others => save_others(alloc, store, others, &outcome.others),
    }
}

/// Locks the files at the paths `others`, which are the images on the units other than 4. No file changes.
fn hold_others<S: Store>(store: &mut S, others: &Others) -> Result<(), DiskFault>
    ensures stays { S.files store.new ≡ S.files store.old }
    ensures held { OnOk result (S.held store.new ≡ held_each (paths_in others.now) (S.held store.old)) }
{
    let [fifth, ninth, tenth, eleventh, twelfth] = others;
    hold_at(store, fifth)?;
    hold_at(store, ninth)?;
    hold_at(store, tenth)?;
    hold_at(store, eleventh)?;
    hold_at(store, twelfth)
}

/// Locks the files of the images that `saving` selects. No file changes.
fn hold_images<S: Store>(
    store: &mut S,
    disk: &str,
    others: &Others,
    saving: Saving,
) -> Result<(), DiskFault>
    ensures stays { S.files store.new ≡ S.files store.old }
    ensures held { OnOk result
        (S.held store.new ≡ held_each (held_paths saving disk.now (paths_in others.now)) (S.held store.old)) }
{
    match saving {
        Saving::Nothing => Ok(()),
        Saving::First => store.hold(disk),
        Saving::All => {
            store.hold(disk)?;
            hold_others(store, others)
        }
        Saving::Others => hold_others(store, others),
    }
}

/// Locks the files of the images that are saved at the end, and prepares the printer's file for writing. No file
/// changes.
fn make_ready<S: Store>(
    store: &mut S,
    disk: &str,
    others: &Others,
    saved: &SavedOfRun,
) -> Result<(), DiskFault>
    ensures stays { S.files store.new ≡ S.files store.old }
    ensures held { OnOk result (S.held store.new
        ≡ held_each (held_paths saved.now.saving disk.now (paths_in others.now)) (S.held store.old)) }
{
    hold_images(store, disk, others, saved.saving)?;
    if let Printing::File(path) = &saved.printing {
        store.prepare(path.as_str())?;
    }
    Ok(())
}

/// Locks and prepares the files that the run saves. Then reads its images and the system's code file. No file changes.
fn run_inputs<S: Store>(
    alloc: Global,
    store: &mut S,
    program: &Program,
    saved: &SavedOfRun,
) -> Result<(Images, Option<Vec<u8>>), DiskFault>
    ensures stays { S.files store.new ≡ S.files store.old }
    ensures held { OnOk result (S.held store.new ≡ held_each
        (held_paths saved.now.saving (string_bytes program.now.disk) (paths_in program.now.others))
        (S.held store.old)) }
    ensures values { IfOk result (λ read. ReadsEach (S.files store.old)
        (paths_of (string_bytes program.now.disk) (paths_in program.now.others)) (images_of read.0)) }
    ensures system { IfOk result (λ read.
        Reads (S.files store.old) (option_map string_bytes program.now.system) (option_map vec_items read.1)) }
{
    let disk = program.disk.as_str();
    make_ready(store, disk, &program.others, saved)?;
    inputs(alloc, store, disk, &program.others, &program.system)
}

/// Saves the images that `saved` selects, and then the printer's output. On an error, the images of the first units may
/// be saved, and no other file has changed. A prefix of the printer's output was written to `sink`.
#[tactic(auto, using(crate::proofs::OutputLaws::front_of_none))]
fn save_run<S: Store, O: Sink>(
    alloc: Global,
    store: &mut S,
    sink: &mut O,
    disk: &str,
    others: &Others,
    saved: &SavedOfRun,
    outcome: &Outcome,
) -> Result<(), DiskFault>
    ensures saved { OnOk result (SavesRun (S.files store.old) (S.files store.new)
        (saved_paths saved.now.saving disk.now (paths_in others.now)) saved.now.printing outcome.now) }
    ensures shown { OnOk result (Appends (O.seen sink.old).contents (O.seen sink.new).contents
        (printed saved.now.printing (has_run outcome.now.exit) outcome.now.printer.items)) }
    ensures part { AppendsFront (O.seen sink.old).contents (O.seen sink.new).contents
        (printed saved.now.printing (has_run outcome.now.exit) outcome.now.printer.items) }
    ensures held { S.held store.new ≡ S.held store.old }
    ensures front { OnErr result (SavesFront (S.files store.old) (S.files store.new)
        (saved_paths saved.now.saving disk.now (paths_in others.now))
        (option_map vec_items outcome.now.image ∷ images_of outcome.now.others)) }
{
    save_images(alloc, store, disk, others, saved.saving, outcome)?;
    save_printer(store, sink, &saved.printing, outcome)
}

/// Runs a program, and then saves its results. `source` and `sink` must not have failed.
///
/// - It locks each image file that it may write, before it reads the files.
/// - It saves each image that `saved.saving` selects and that the outcome has.
/// - It writes the printer's output to `saved.printing`, if the program has run.
///
/// No other file changes. If the job is cut short by a stream failure or out of memory, no file changes, and, if the
/// input is known, a prefix of the output was written. Otherwise, if the input is known, the outcome, the output, the
/// saved images and the printer's output are those that the specification of the run states. They depend on the input
/// and the images that were read.
///
/// On an error, a file could not be read, locked or written. The images of the first units may be saved, and no other
/// file has changed. If the input is known, these images are those that the specification states, and a prefix of the
/// output was written.
pub fn do_run<S: Store, I: Source, O: Sink>(
    alloc: Global,
    store: &mut S,
    source: &mut I,
    sink: &mut O,
    program: Program,
    saved: SavedOfRun,
) -> Result<Outcome, DiskFault>
    requires well { AreWell (both (I.seen source.old) (O.seen sink.old)) }
    ensures saved { IfOk result (λ outcome.
        SavesRun (S.files store.old) (S.files store.new)
        (saved_paths saved.saving (string_bytes program.disk) (paths_in program.others)) saved.printing outcome) }
    ensures cut { IfOk result (λ outcome. IsCutShort outcome.exit → S.files store.new ≡ S.files store.old) }
    ensures held { OnOk result (S.held store.new ≡ held_each
        (held_paths saved.saving (string_bytes program.disk) (paths_in program.others)) (S.held store.old)) }
    ensures said { IfOk result (λ outcome. IsSoundExit outcome.exit → IfSome (I.seen source.old).remaining (λ input.
        SavesRunSaid (S.files store.old) (S.files store.new) program saved input)) }
    ensures tells { IfOk result (λ outcome. IsSoundExit outcome.exit → IfSome (I.seen source.old).remaining (λ input.
        TellsRun (S.files store.old) (O.seen sink.old) (O.seen sink.new) outcome program saved input)) }
    ensures part { IfSome (I.seen source.old).remaining (λ input.
        TellsPartOfRun (S.files store.old) (O.seen sink.old) (O.seen sink.new) program saved input) }
    ensures front { OnErr result (SavesSome (S.files store.old) (S.files store.new)
        (saved_paths saved.saving (string_bytes program.disk) (paths_in program.others))) }
    ensures front_said { OnErr result (IfSome (I.seen source.old).remaining (λ input.
        SavesFrontSaid (S.files store.old) (S.files store.new) program saved input)) }
{
    let (disks, system) = run_inputs(alloc, store, &program, &saved)?;
    let Program {
        disk,
        others,
        name,
        limit,
        ..
    } = program;
    let job = Job::Run {
        disks,
        name,
        limit,
        saving: saved.saving,
        system,
    };
    let outcome = pm_tool::run(alloc, source, sink, job);
    save_run(alloc, store, sink, disk.as_str(), &others, &saved, &outcome).and(Ok(outcome))
}

/// Runs a program and writes the selected lines of its trace. `source` and `sink` must not have failed.
///
/// - Without an `output` path, the trace is written to `sink`, and no file changes.
/// - With an `output` path, the file at this path is locked, and nothing is written to `sink`. If the program has run,
///   the file gets the whole trace.
///
/// If the job is cut short by a stream failure or out of memory, no file changes. Otherwise, if the input is known, the
/// trace is the one that the specification states for the input and the images that were read. Without an `output`
/// path, the same holds for the bytes that remain unread.
///
/// On an error, no file has changed, and nothing was written to `sink`.
pub fn do_trace<S: Store, I: Source, O: Sink>(
    alloc: Global,
    store: &mut S,
    source: &mut I,
    sink: &mut O,
    program: Program,
    selection: Selection,
    output: Option<String>,
) -> Result<Outcome, DiskFault>
    requires well { AreWell (both (I.seen source.old) (O.seen sink.old)) }
    ensures said { IfOk result (λ outcome. IsSoundExit outcome.exit → IfSome (I.seen source.old).remaining (λ input.
        TracesTo (S.files store.old) (S.files store.new) (option_map string_bytes output)
        (both (I.seen source.old) (O.seen sink.old)) (both (I.seen source.new) (O.seen sink.new))
        outcome program selection input)) }
    ensures silent { LeavesOutput (option_map string_bytes output) (O.seen sink.old) (O.seen sink.new) }
    ensures alone { LeavesFiles (option_map string_bytes output) (S.files store.old) (S.files store.new)
        (S.held store.old) (S.held store.new) }
    ensures unwritten { OnErr result (O.seen sink.new ≡ O.seen sink.old) }
    ensures cut { IfOk result (λ outcome. IsCutShort outcome.exit → S.files store.new ≡ S.files store.old) }
    ensures held { OnOk result (S.held store.new ≡ held_at (option_map string_bytes output) (S.held store.old)) }
    ensures unchanged { OnErr result (S.files store.new ≡ S.files store.old) }
{
    let disk = program.disk.as_str();
    let (disks, system) = inputs(alloc, store, disk, &program.others, &program.system)?;
    let Program { name, limit, .. } = program;
    let job = Job::Trace {
        disks,
        name,
        limit,
        system,
        selection,
    };
    match output {
        Some(path) => into_file(alloc, store, source, path.as_str(), job),
        None => Ok(pm_tool::run(alloc, source, sink, job)),
    }
}

/// Returns the bytes with which the console's input queue begins: the bytes of the file at `path`, or an empty list if
/// `path` is `None`. No file changes.
fn typed_of<S: Store>(
    alloc: Global,
    store: &mut S,
    path: &Option<String>,
) -> Result<Vec<u8>, DiskFault>
    ensures bytes { IfOk result (λ bytes.
        IsTyped (S.files store.old) (option_map string_bytes path.now) bytes.items) }
    ensures stays { S.files store.new ≡ S.files store.old }
    ensures held { S.held store.new ≡ S.held store.old }
{
    match path {
        Some(path) => store.read(alloc, path.as_str()),
        None => Ok(Vec::new(alloc)),
    }
}

/// Debugs a program with the commands that are read from `source`. If `typed` is a path, the console's input queue
/// contains the bytes of the file at this path at the start. No file changes. `source` and `sink` must not have failed.
///
/// If the input is known and the job is not cut short by a stream failure or out of memory, the output and the unread
/// bytes are those that the specification states. They depend on the input, the bytes of the `typed` file and the
/// images that were read.
pub fn do_debug<S: Store, I: Source, O: Sink>(
    alloc: Global,
    store: &mut S,
    source: &mut I,
    sink: &mut O,
    program: Program,
    typed: Option<String>,
) -> Result<Outcome, DiskFault>
    requires well { AreWell (both (I.seen source.old) (O.seen sink.old)) }
    ensures stays { S.files store.new ≡ S.files store.old }
    ensures held { S.held store.new ≡ S.held store.old }
    ensures said { IfOk result (λ outcome. IsSoundExit outcome.exit → IfSome (I.seen source.old).remaining (λ input.
        TellsDebug (S.files store.old) (both (I.seen source.old) (O.seen sink.old))
        (both (I.seen source.new) (O.seen sink.new)) outcome program (option_map string_bytes typed) input)) }
{
    let disk = program.disk.as_str();
    let (disks, system) = inputs(alloc, store, disk, &program.others, &program.system)?;
    let typed = typed_of(alloc, store, &typed)?;
    let Program { name, .. } = program;
    let job = Job::Debug {
        disks,
        name,
        system,
        typed,
    };
    Ok(pm_tool::run(alloc, source, sink, job))
}

/// The path of the file that is standard output.
const OUTPUT: &str = "/dev/stdout";

/// Returns which images are saved, and the destination of the printer's output. A path that names the file of standard
/// output means standard output.
pub fn saved_of<S: Store>(store: &S, choices: RunChoices) -> SavedOfRun {
    let RunChoices {
        saving,
        printer,
        ..
    } = choices;
    let is_output = match &printer {
        Some(path) => store.is_same(path.as_str(), OUTPUT),
        None => false,
    };
    let printing = match (printer, is_output) {
        (Some(path), false) => Printing::File(path),
        (Some(_), true) => Printing::Output,
        (None, _) => Printing::Nowhere,
    };
    SavedOfRun { saving, printing }
}
