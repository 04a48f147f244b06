//! The execution of a plan: its streams, its files, the conflicts of its paths, and its job.
ghost use Rattle.std.specs.Prelude.{◌≡◌, false};
ghost use Rattle.pm_jobs.specs.Streams.{AreWell, both};

use pm_conversion::{Converted, do_convert};
use pm_export::Unwritten;
use pm_files::{DiskFault, Folder, Host, HostFolder, HostStore, Store};
use pm_folder_jobs::{Exported, Imported, SavedFolder, do_export, do_import, do_salvage_folder};
use pm_forms::{Form, InForm};
use pm_image_forms::{Formed, Forms, forms_for};
use pm_import::Left;
use pm_jobs::{Reader, Sink, Source, Writer};
use pm_messages::{
    End, Named, end_of_conversion, end_of_import, end_of_job, end_of_search, folder_path,
    has_system, lacks_second, named_in, note_of, note_of_forms,
};
use pm_output::do_text;
use pm_paths::{Conflict, conflict_in, is_folder};
use pm_plan::{
    Asked, BlockRange, ComparePlan, ConvertPlan, ExportPlan, ImportPlan, Plan, SalvagePlan,
    TablePlan, Target, UndeletePlan,
};
use pm_runs::{do_debug, do_run, do_trace, saved_of};
use pm_searches::{Hits, do_search, with_files};
use pm_streams::{Terminals, end_key, is_text, prompted, surprise_of};
use pm_terminal::{Failed, Keys, Lined, Typed};
use pm_tool::{Job, Outcome};
use pm_verbs::{
    Comparison, Undeletion, act_on_files, do_compare, do_salvage, do_table, do_undelete,
};
use std::alloc::Global;
use std::io;
use std::io::Input;

/// The result of executing a plan.
#[derive(Drop)]
pub struct Done {
    pub end: End,
    /// Whether the last line of the output is unfinished, and both standard output and standard error are terminals.
    pub begun: bool,
    /// Whether no message is printed. This is the case if `--quiet` is given. It is also the case if standard error is
    /// a terminal and the reader of the output, such as `head`, has closed the output.
    pub is_silent: bool,
    /// Whether the system's segment was put into the program.
    pub has_system: bool,
    /// What a terminal shows after the message: why the output is unexpected, and what to type.
    pub note: Option<&'static str>,
}

/// The result of the job of a plan.
#[derive(Drop)]
enum Ended {
    /// The job has ended, or was refused.
    Job(Outcome),
    /// A folder was created, but some of its files could not be written. The fields are the folder's path and these
    /// files.
    Folder(String, Vec<Unwritten>),
    /// The files of a folder were added to a volume, except these.
    Import(String, Vec<Left>),
    /// The image at a path was converted, or not.
    Convert(String, Converted),
    /// Images were searched.
    Search(Hits),
    /// The image at a path is no volume. The outcome is that of `files list` for it.
    Refused(String, Outcome),
    /// Lines were written. The field states whether they report a difference of two volumes.
    Lines(bool),
    /// The blocks of the volume in the image at a path are not all free.
    NotFree(String, BlockRange),
}

/// Compares the files of two volumes.
fn compare<S: Store, O: Sink>(
    alloc: Global,
    store: &mut S,
    sink: &mut O,
    plan: ComparePlan,
) -> Result<Ended, DiskFault>
    requires well { (O.seen sink.old).failed ≡ false }
{
    match do_compare(alloc, store, sink, &plan)? {
        Comparison::HereRefused(outcome) => Ok(Ended::Refused(plan.path, outcome)),
        Comparison::ThereRefused(outcome) => Ok(Ended::Refused(plan.other, outcome)),
        Comparison::Done(differ) => Ok(Ended::Lines(differ)),
    }
}

/// Lists the files of a volume in a form that other programs read.
fn table<S: Store, O: Sink>(
    alloc: Global,
    store: &mut S,
    sink: &mut O,
    plan: TablePlan,
) -> Result<Ended, DiskFault>
    requires well { (O.seen sink.old).failed ≡ false }
{
    match do_table(alloc, store, sink, &plan)? {
        Some(outcome) => Ok(Ended::Refused(plan.path, outcome)),
        None => Ok(Ended::Lines(false)),
    }
}

/// Lists the free blocks of a volume in which a removed file seems to begin, or writes the bytes of free blocks.
fn undelete<S: Store, O: Sink>(
    alloc: Global,
    store: &mut S,
    sink: &mut O,
    plan: UndeletePlan,
) -> Result<Ended, DiskFault>
    requires well { (O.seen sink.old).failed ≡ false }
{
    match (do_undelete(alloc, store, sink, &plan)?, plan.blocks) {
        (Undeletion::Refused(outcome), _) => Ok(Ended::Refused(plan.path, outcome)),
        (Undeletion::NotFree, Some(range)) => Ok(Ended::NotFree(plan.path, range)),
        // The list does not end with `NotFree`.
        (Undeletion::NotFree | Undeletion::Done, _) => Ok(Ended::Lines(false)),
    }
}

/// Converts an image.
fn convert<S: Store, O: Sink>(
    alloc: Global,
    store: &mut S,
    sink: &mut O,
    plan: ConvertPlan,
) -> Result<Ended, DiskFault>
    requires well { (O.seen sink.old).failed ≡ false }
{
    let converted = do_convert(alloc, store, sink, &plan)?;
    let ConvertPlan { old, target, .. } = plan;
    let path = match target {
        Target::As(_) => old,
        Target::Back(image) => image,
    };
    Ok(Ended::Convert(path, converted))
}

/// Adds the files of a folder to a volume.
fn import<S: Store, F: Folder, O: Sink>(
    alloc: Global,
    store: &mut S,
    folder: &mut F,
    sink: &mut O,
    plan: ImportPlan,
) -> Result<Ended, DiskFault>
    requires well { (O.seen sink.old).failed ≡ false }
{
    match do_import(alloc, store, sink, folder, &plan)? {
        Imported::Refused(outcome) => Ok(Ended::Job(outcome)),
        Imported::Done(left) => Ok(Ended::Import(plan.folder, left)),
    }
}

/// Executes `plan`, which writes the files of a volume to a new folder.
fn export<S: Store, F: Folder>(
    alloc: Global,
    store: &mut S,
    folder: &mut F,
    plan: ExportPlan,
) -> Result<Ended, DiskFault> {
    match do_export(alloc, store, folder, &plan)? {
        Exported::Refused(outcome) => Ok(Ended::Job(outcome)),
        Exported::Written(unwritten) => Ok(Ended::Folder(plan.folder, unwritten)),
    }
}

/// Executes `plan`, which writes the files that are saved from an image to a new folder.
fn salvage<S: Store, F: Folder, I: Source, O: Sink>(
    alloc: Global,
    store: &mut S,
    folder: &mut F,
    source: &mut I,
    sink: &mut O,
    plan: SalvagePlan,
) -> Result<Ended, DiskFault>
    requires well { AreWell (both (I.seen source.old) (O.seen sink.old)) }
{
    let SavedFolder { outcome, unwritten } = do_salvage_folder(
        alloc, store, source, sink, folder, &plan,
    )?;
    match unwritten {
        Some(files) if !files.is_empty() => Ok(Ended::Folder(plan.target, files)),
        _ => Ok(Ended::Job(outcome)),
    }
}

/// Executes the job of `plan` on its streams and files.
fn act<S: Store, F: Folder, I: Source, O: Sink>(
    alloc: Global,
    store: &mut S,
    folder: &mut F,
    source: &mut I,
    sink: &mut O,
    plan: Plan,
) -> Result<Ended, DiskFault>
    requires well { AreWell (both (I.seen source.old) (O.seen sink.old)) }
{
    let outcome = match plan {
        Plan::Raw { limit, selection } => {
            pm_tool::run(alloc, source, sink, Job::Raw { limit, selection })
        }
        Plan::Asm(what, files) => do_text(alloc, store, source, sink, files, Job::Asm(what))?,
        Plan::Dis(what, files) => do_text(alloc, store, source, sink, files, Job::Dis(what))?,
        Plan::Files(plan) => act_on_files(alloc, store, source, sink, plan)?,
        Plan::Run(program, choices) => {
            let saved = saved_of(store, choices);
            do_run(alloc, store, source, sink, program, saved)?
        }
        Plan::Trace(program, selection, output) => {
            do_trace(alloc, store, source, sink, program, selection, output)?
        }
        Plan::Debug(program, typed) => do_debug(alloc, store, source, sink, program, typed)?,
        Plan::Salvage(plan) if is_folder(plan.target.as_str()) => {
            return salvage(alloc, store, folder, source, sink, plan);
        }
        Plan::Salvage(plan) => do_salvage(alloc, store, source, sink, plan)?,
        Plan::Export(plan) => return export(alloc, store, folder, plan),
        Plan::Import(plan) => return import(alloc, store, folder, sink, plan),
        Plan::Convert(plan) => return convert(alloc, store, sink, plan),
        Plan::Search(plan) => return Ok(Ended::Search(do_search(alloc, store, sink, &plan)?)),
        Plan::Compare(plan) => return compare(alloc, store, sink, plan),
        Plan::Table(plan) => return table(alloc, store, sink, plan),
        Plan::Undelete(plan) => return undelete(alloc, store, sink, plan),
    };
    Ok(Ended::Job(outcome))
}

/// What the execution of a job gave.
#[derive(Drop)]
struct Ran {
    end: End,
    /// Whether `salvage --second` was executed on an image whose directory states that there is no second copy.
    lacks_second: bool,
}

/// Executes the job that `asked` specifies. If `is_told`, the end names the file that a refusal is about. `is_told` states
/// whether standard error is a terminal. `forms` has the forms of the files of the plan.
fn run_plan<R: Host + AllocGlobal, I: Source, O: Sink>(
    rt: &R,
    store: HostStore<R>,
    source: &mut I,
    sink: &mut O,
    asked: Asked,
    forms: Forms,
    is_told: bool,
) -> Ran
    requires well { AreWell (both (I.seen source.old) (O.seen sink.old)) }
{
    let form = forms.first;
    let mut files = forms.store(rt.alloc(), store);
    let lacks_second = is_told && lacks_second(rt.alloc(), &mut files, &asked.plan);
    let end = match with_files(rt, asked.plan) {
        Ok(plan) => end_of_plan(rt, files, source, sink, plan, form, is_told),
        Err(_) => End::File(DiskFault::NoMemory, None),
    };
    Ran { end, lacks_second }
}

/// Executes the job of `plan` with the files `files`, and returns its end, as `run_plan` states. `form` is the form of the
/// first image.
fn end_of_plan<R: Host + AllocGlobal, I: Source, O: Sink>(
    rt: &R,
    mut files: InForm<HostStore<R>>,
    source: &mut I,
    sink: &mut O,
    plan: Plan,
    form: Form,
    is_told: bool,
) -> End
    requires well { AreWell (both (I.seen source.old) (O.seen sink.old)) }
{
    let named = if is_told {
        named_in(rt.alloc(), &plan)
    } else {
        None
    };
    let mut folder = HostFolder::new(rt);
    let path = folder_path(rt.alloc(), &plan);
    match act(rt.alloc(), &mut files, &mut folder, source, sink, plan) {
        Ok(Ended::Job(outcome)) => end_of_job(rt.alloc(), &named, form, outcome),
        Ok(Ended::Folder(path, unwritten)) => End::Folder(path, unwritten),
        Ok(Ended::Import(path, left)) => end_of_import(rt.alloc(), path, left),
        Ok(Ended::Convert(path, converted)) => end_of_conversion(rt.alloc(), path, converted),
        Ok(Ended::Search(hits)) => end_of_search(rt.alloc(), hits),
        Ok(Ended::Refused(path, outcome)) => {
            end_of_job(rt.alloc(), &Some(Named::Image(path)), form, outcome)
        }
        Ok(Ended::Lines(differ)) => End::Lines(differ),
        Ok(Ended::NotFree(path, range)) => End::NotFree(path, range),
        Err(fault) => End::File(fault, files.store.into_refused().or(path)),
    }
}

/// Returns the result of a command line whose job was not executed.
fn not_done(end: End, is_quiet: bool) -> Done {
    Done {
        end,
        begun: false,
        is_silent: is_quiet,
        has_system: false,
        note: None,
    }
}

/// Executes the job that `asked` specifies with the standard streams and the files of the host system.
pub fn follow<R: Host + Input + Print + Eprint + AllocGlobal>(rt: &R, asked: Asked) -> Done {
    let mut store = HostStore::new(rt);
    if let Some(conflict) = conflict_in(&store, &asked.plan) {
        return not_done(End::Words(conflict), asked.is_quiet);
    }
    match forms_for(rt.alloc(), &mut store, asked.form, &asked.plan) {
        Ok(Formed::Found(forms)) => follow_in(rt, store, forms, asked),
        Ok(Formed::Several(several)) => not_done(End::Form(several), asked.is_quiet),
        Err(fault) => not_done(End::File(fault, store.into_refused()), asked.is_quiet),
    }
}

/// Executes the job that `asked` specifies, as `follow` states. `forms` has the forms of its files.
fn follow_in<R: Host + Input + Print + Eprint + AllocGlobal>(
    rt: &R,
    store: HostStore<R>,
    forms: Forms,
    asked: Asked,
) -> Done {
    let plan = &asked.plan;
    let is_quiet = asked.is_quiet;
    let at = Terminals::of(rt, is_quiet);
    let has_system = has_system(plan);
    let end = end_key(plan);
    let has_keys = at.input && matches!(plan, Plan::Run(_, _));
    let is_text = is_text(plan);
    let surprise = surprise_of(plan);
    let of_forms = note_of_forms(asked.form, &forms);
    let mut keys = Typed::new(Keys::new(rt.reader(), has_keys, end), is_text);
    let mut lined = Lined::new(rt.alloc(), io::writer(rt), at.lines_of(plan));
    let mut source = Reader::new(prompted(rt, &mut keys, at.prompt(plan)));
    let mut sink = Writer::new(&mut lined);
    let mut ran = run_plan(rt, store, &mut source, &mut sink, asked, forms, at.error);
    drop(sink);
    drop(source);
    match (lined.finish(), lined.failed()) {
        (_, Some(Failed::NoText)) => ran.end = End::Words(Conflict::BytesOnTerminal),
        (Err(error), _) => ran.end = End::File(DiskFault::Write(error.kind()), None),
        _ => {}
    }
    let note = note_of(
        surprise,
        &ran.end,
        ran.lacks_second,
        &lined,
        keys.has_only_feeds(),
    )
    .or(of_forms);
    Done {
        end: ran.end,
        note,
        // An unfinished line of the output is also an unfinished line of standard error on the same terminal.
        begun: lined.has_begun() && at.output && at.error,
        is_silent: is_quiet || at.error && lined.failed() == Some(Failed::Closed),
        has_system,
    }
}
