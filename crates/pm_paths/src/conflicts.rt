//! The conflicts between the paths of a command.
ghost use Rattle.std.specs.Prelude.{◌≡◌, IfSome, Some, option_map, string_bytes};
ghost use Rattle.pm_plan.specs.Asked.{paths_in};
ghost use Rattle.pm_paths.specs.Conflicts.{are_shared, conflict_of, is_other, is_taken_away, names_image};
ghost use Rattle.pm_paths.specs.Conflicts.{others_take_away, printer_conflict, takes_away};

use pm_files::Store;
use pm_jobs::Saving;
use pm_plan::{ConvertPlan, Plan, Program, RunChoices, Target, TextFiles, TextInput};

/// A conflict between paths, or between output and a terminal.
#[derive(Clone, Copy)]
pub enum Conflict {
    /// An image that is to be saved is also on another unit.
    SavedTwice,
    /// The printer's output would overwrite an image of the run.
    PrinterIsImage,
    /// The printer's output would overwrite the system's code file.
    PrinterIsSystem,
    /// The path for the printer's output is a folder.
    PrinterIsFolder,
    /// The path of a file of the job is also the path of the temporary file with which another file is written.
    FileInTheWay,
    /// The file for a new volume exists already.
    TargetIsThere,
    /// The folder for the files of a volume exists already.
    FolderIsThere,
    /// The output would overwrite a file that is read.
    OutputIsInput,
    /// Binary data would be written to a terminal.
    BytesOnTerminal,
}

impl Conflict {
    /// Returns the message for this conflict on standard error.
    pub fn text(self) -> &'static str {
        match self {
            Conflict::SavedTwice =>
                "error: an image to be saved (--save, --save-all) is on two units; use another image for one unit",
            Conflict::PrinterIsImage =>
                "error: --printer names a disk image of the run; name another file",
            Conflict::PrinterIsSystem => "error: --printer and --system name the same file",
            Conflict::PrinterIsFolder => "error: --printer names a folder; name a file",
            Conflict::FileInTheWay =>
                "error: one file is the temporary file (PATH.pmach-new) of another, and would be deleted; rename it",
            Conflict::TargetIsThere =>
                "error: the file for the new volume exists; name a file that does not exist",
            Conflict::FolderIsThere =>
                "error: the folder for the files exists; name a folder that does not exist",
            Conflict::OutputIsInput =>
                "error: --output names a file that the command reads; name another file",
            Conflict::BytesOnTerminal =>
                "error: refusing to write binary data to a terminal; write to a file with -o FILE or >FILE",
        }
    }
}

/// Returns whether `target`, the path for a new volume, requests a folder: it ends with a slash.
pub fn is_folder(target: &str) -> bool {
    target.ends_with('/')
}

/// Returns whether `path` names the same file as the path `image`. Returns `false` if `image` is `None`.
fn names_image<S: Store>(store: &S, path: &str, image: &Option<String>) -> bool
    ensures value { IfSome (S.same store.now) (λ same.
        result ≡ names_image same path.now (option_map string_bytes image.now)) }
{
    match image {
        Some(image) => store.is_same(path, image.as_str()),
        None => false,
    }
}

/// Returns whether `path` names the same file as one of the paths in `images`.
fn is_other<S: Store>(store: &S, path: &str, images: &[Option<String>]) -> bool
    ensures value { IfSome (S.same store.now) (λ same. result ≡ is_other same path.now (paths_in images.now)) }
{
    match images {
        [] => false,
        [image, more @ ..] => names_image(store, path, image) || is_other(store, path, more),
    }
}

/// Returns whether two of the paths in `images` name the same file.
fn are_shared<S: Store>(store: &S, images: &[Option<String>]) -> bool
    ensures value { IfSome (S.same store.now) (λ same. result ≡ are_shared same (paths_in images.now)) }
{
    match images {
        [] => false,
        [None, more @ ..] => are_shared(store, more),
        [Some(path), more @ ..] => is_other(store, path.as_str(), more) || are_shared(store, more),
    }
}

/// Returns the first conflict of the path `printer`. Returns `None` if `printer` is `None` or has no conflict. The
/// conflicts are checked in this order:
///
/// - the path names an image of the run;
/// - the path names the system's code file;
/// - the path names a directory.
fn printer_conflict<S: Store>(
    store: &S,
    program: &Program,
    printer: &Option<String>,
) -> Option<Conflict>
    ensures value { IfSome (S.same store.now) (λ same. IfSome (S.folders store.now) (λ folders.
        result ≡ printer_conflict same folders program.now (option_map string_bytes printer.now))) }
{
    let path = match printer {
        Some(path) => path.as_str(),
        None => return None,
    };
    if store.is_same(path, program.disk.as_str()) || is_other(store, path, &program.others) {
        return Some(Conflict::PrinterIsImage);
    }
    if names_image(store, path, &program.system) {
        return Some(Conflict::PrinterIsSystem);
    }
    if store.is_folder(path) {
        return Some(Conflict::PrinterIsFolder);
    }
    None
}

/// Returns whether writing the file at `path` would remove the file at the path `other`. Returns `false` if `other` is
/// `None`.
fn takes<S: Store>(store: &S, path: &str, other: &Option<String>) -> bool
    ensures value { IfSome (S.beside store.now) (λ beside.
        result ≡ names_image beside path.now (option_map string_bytes other.now)) }
{
    match other {
        Some(other) => store.is_beside(path, other.as_str()),
        None => false,
    }
}

/// Returns whether writing the file at `path` would remove the file at one of the paths in `images`.
fn takes_other<S: Store>(store: &S, path: &str, images: &[Option<String>]) -> bool
    ensures value { IfSome (S.beside store.now) (λ beside. result ≡ is_other beside path.now (paths_in images.now)) }
{
    match images {
        [] => false,
        [image, more @ ..] => takes(store, path, image) || takes_other(store, path, more),
    }
}

/// Returns whether writing the file at `path` would remove a file of the run: an image, the system's code file or the
/// file at the path `printer`. Returns `false` if `path` is `None`.
fn takes_away<S: Store>(
    store: &S,
    path: &Option<String>,
    program: &Program,
    printer: &Option<String>,
) -> bool
    ensures value { IfSome (S.beside store.now) (λ beside. result
        ≡ takes_away beside (option_map string_bytes path.now) program.now (option_map string_bytes printer.now)) }
{
    match path {
        Some(path) => takes_away_at(store, path.as_str(), program, printer),
        None => false,
    }
}

/// Returns whether writing the file at `path` would remove a file of the run: an image, the system's code file or the
/// file at the path `printer`.
fn takes_away_at<S: Store>(
    store: &S,
    path: &str,
    program: &Program,
    printer: &Option<String>,
) -> bool
    ensures value { IfSome (S.beside store.now) (λ beside.
        result ≡ takes_away beside (Some path.now) program.now (option_map string_bytes printer.now)) }
{
    store.is_beside(path, program.disk.as_str())
        || takes_other(store, path, &program.others)
        || takes(store, path, &program.system)
        || takes(store, path, printer)
}

/// Returns whether writing one of the files at the paths in `images` would remove a file of the run.
fn others_take_away<S: Store>(
    store: &S,
    images: &[Option<String>],
    program: &Program,
    printer: &Option<String>,
) -> bool
    ensures value { IfSome (S.beside store.now) (λ beside. result
        ≡ others_take_away beside (paths_in images.now) program.now (option_map string_bytes printer.now)) }
{
    match images {
        [] => false,
        [image, more @ ..] => {
            takes_away(store, image, program, printer)
                || others_take_away(store, more, program, printer)
        }
    }
}

/// Returns whether writing one of the files that the run writes would remove another file of the run.
fn is_taken_away<S: Store>(
    store: &S,
    program: &Program,
    saving: Saving,
    printer: &Option<String>,
) -> bool
    ensures value { IfSome (S.beside store.now) (λ beside.
        result ≡ is_taken_away beside program.now saving (option_map string_bytes printer.now)) }
{
    (saving.has_first() && takes_away_at(store, program.disk.as_str(), program, printer))
        || (saving.has_others() && others_take_away(store, &program.others, program, printer))
        || takes_away(store, printer, program, printer)
}

/// Returns whether a file or directory exists at `path`. It exists if and only if `path` names the same file as itself.
fn is_there<S: Store>(store: &S, path: &str) -> bool
    ensures value { IfSome (S.same store.now) (λ same. result ≡ same path.now path.now) }
{
    store.is_same(path, path)
}

/// Whether a path is given for a new image, and something exists there.
fn is_new_there<S: Store>(store: &S, new: &Option<String>) -> bool {
    match new {
        Some(new) => is_there(store, new.as_str()),
        None => false,
    }
}

/// Returns the conflict of the paths of a conversion: the new image exists, or a file that is read would be removed as
/// the temporary file of the new image.
fn conflict_of_conversion<S: Store>(store: &S, plan: &ConvertPlan) -> Option<Conflict> {
    if is_new_there(store, &plan.new) {
        return Some(Conflict::TargetIsThere);
    }
    let new = plan.new.as_ref()?.as_str();
    let is_taken = match &plan.target {
        Target::As(_) => false,
        Target::Back(image) => store.is_beside(new, image.as_str()),
    };
    if is_taken || store.is_beside(new, plan.old.as_str()) {
        Some(Conflict::FileInTheWay)
    } else {
        None
    }
}

/// Returns the first conflict of the paths of `run`, or `None`. The conflicts are checked in this order:
///
/// - an image is saved, and the image of unit 4 is also on another unit: `SavedTwice`;
/// - the images of other units are saved, and two of them are the same file: `SavedTwice`;
/// - the printer's path has a conflict, as `printer_conflict` states;
/// - writing a file of the run would remove another file of the run: `FileInTheWay`.
fn conflict_of_run<S: Store>(store: &S, program: &Program, choices: &RunChoices) -> Option<Conflict>
    ensures value { IfSome (S.same store.now) (λ same. IfSome (S.beside store.now) (λ beside.
        IfSome (S.folders store.now) (λ folders. result ≡ conflict_of same beside folders program.now choices.now))) }
{
    let saving = choices.saving;
    if (saving.has_first() || saving.has_others())
        && is_other(store, program.disk.as_str(), &program.others)
    {
        return Some(Conflict::SavedTwice);
    }
    if saving.has_others() && are_shared(store, &program.others) {
        return Some(Conflict::SavedTwice);
    }
    if let Some(conflict) = printer_conflict(store, program, &choices.printer) {
        return Some(conflict);
    }
    if is_taken_away(store, program, choices.saving, &choices.printer) {
        return Some(Conflict::FileInTheWay);
    }
    None
}

/// Returns the conflict between the input path and the output path of `asm` or `dis`, or `None`.
fn text_conflict<S: Store>(store: &S, files: &TextFiles) -> Option<Conflict> {
    match &files.input {
        TextInput::Standard => None,
        TextInput::File(path) | TextInput::OnImage { image: path, .. } => {
            output_conflict(store, path.as_str(), &files.output)
        }
    }
}

/// Returns the conflict between `output` and `input`, the path of a file that is read, or `None`:
///
/// - both paths name the same file: `OutputIsInput`;
/// - writing the output would remove the file at `input`: `FileInTheWay`.
fn output_conflict<S: Store>(store: &S, input: &str, output: &Option<String>) -> Option<Conflict> {
    let output = output.as_ref()?.as_str();
    if store.is_same(output, input) {
        return Some(Conflict::OutputIsInput);
    }
    if store.is_beside(output, input) {
        return Some(Conflict::FileInTheWay);
    }
    None
}

/// Returns the conflict of `output`, the path of a trace, or `None`:
///
/// - the path names an image or the system's code file: `OutputIsInput`;
/// - writing the file at the path would remove a file of the run: `FileInTheWay`.
fn trace_conflict<S: Store>(
    store: &S,
    program: &Program,
    output: &Option<String>,
) -> Option<Conflict> {
    let path = output.as_ref()?.as_str();
    if store.is_same(path, program.disk.as_str())
        || is_other(store, path, &program.others)
        || names_image(store, path, &program.system)
    {
        return Some(Conflict::OutputIsInput);
    }
    if takes_away_at(store, path, program, &None) {
        return Some(Conflict::FileInTheWay);
    }
    None
}

/// Returns the first conflict of the paths of `plan`, or `None`.
pub fn conflict_in<S: Store>(store: &S, plan: &Plan) -> Option<Conflict> {
    match plan {
        Plan::Run(program, choices) => conflict_of_run(store, program, choices),
        Plan::Asm(_, files) | Plan::Dis(_, files) => text_conflict(store, files),
        Plan::Files(plan) => output_conflict(store, plan.path.as_str(), &plan.output),
        Plan::Undelete(plan) => output_conflict(store, plan.path.as_str(), &plan.output),
        Plan::Trace(program, _, output) => trace_conflict(store, program, output),
        Plan::Salvage(plan) if is_there(store, plan.target.as_str()) => {
            if is_folder(plan.target.as_str()) {
                Some(Conflict::FolderIsThere)
            } else {
                Some(Conflict::TargetIsThere)
            }
        }
        Plan::Export(plan) if is_there(store, plan.folder.as_str()) => {
            Some(Conflict::FolderIsThere)
        }
        Plan::Convert(plan) => conflict_of_conversion(store, plan),
        Plan::Salvage(plan) if store.is_beside(plan.target.as_str(), plan.path.as_str()) => {
            Some(Conflict::FileInTheWay)
        }
        _ => None,
    }
}
