//! The forms of the images of a plan. With `--form auto`, each image has the form in which it opens.
ghost use Rattle.std.specs.Prelude.{◌≡◌, ◌∷◌, ◌++◌, [], IfOk, OnOk, map, option_map, string_bytes};
ghost use Rattle.pm_image_forms.specs.Formed.{AreFormed, FormAdded, FormsAdded, IsDetectedAt, IsFound, OwnAdded, PlainAdded};
ghost use Rattle.pm_image_forms.specs.Formed.{given_paths, image_paths, optional_path, plain_paths, program_paths, text_paths};

use pm_files::{DiskFault, Store};
use pm_forms::{Detected, Form, FormChoice, InForm, PathForm, detect};
use pm_plan::{ComparePlan, Order, Plan, Program, TextFiles, TextInput};
use std::alloc::{AllocError, Global};
use std::io::ErrorKind;

/// An image that opens in several forms.
#[derive(Drop)]
pub struct Several {
    /// The path of the image.
    pub path: String,
    /// The forms in which it opens. There are at least two.
    pub forms: Vec<Form>,
}

/// The forms of the files of a plan.
#[derive(Drop)]
pub struct Forms {
    /// The form of the files at all other paths.
    pub form: Form,
    /// The paths whose files have forms of their own.
    pub own: Vec<PathForm>,
    /// The form of the first image, which messages name.
    pub first: Form,
}

/// What was found about the forms of the images of a plan.
#[derive(Drop)]
pub enum Formed {
    /// Each image has one form.
    Found(Forms),
    /// An image opens in several forms.
    Several(Several),
}

/// Appends `path` with the form `form` to `own`.
fn push_own(
    alloc: Global,
    own: &mut Vec<PathForm>,
    path: &str,
    form: Form,
) -> Result<(), AllocError>
    ensures added { OnOk result (OwnAdded path.now form own.old.items own.new.items) }
{
    let path = String::from_str(alloc, path)?;
    own.push(PathForm { path, form })?;
    Ok(())
}

/// Returns what is detected of the file at `path`. The form is `In(Blocks)` if no file exists there. No file changes.
fn detected<S: Store>(alloc: Global, store: &mut S, path: &str) -> Result<Detected, DiskFault>
    ensures detected { IfOk result (IsDetectedAt (S.files store.old) path.now) }
    ensures stays { S.files store.new ≡ S.files store.old }
    ensures held { S.held store.new ≡ S.held store.old }
{
    match store.read(alloc, path) {
        Ok(image) => detect(alloc, &image),
        Err(DiskFault::Read(ErrorKind::NotFound)) => Ok(Detected::One(Form::In(Order::Blocks))),
        Err(fault) => Err(fault),
    }
}

/// Detects the form of the image at `path`, and appends the path with this form to `own`. Returns `None`. If the image
/// opens in several forms, `own` is unchanged, and the path and the forms are returned. No file changes.
///
/// # Errors
///
/// - The file cannot be read: the fault.
/// - Out of memory: `NoMemory`.
fn add_form<S: Store>(
    alloc: Global,
    store: &mut S,
    own: &mut Vec<PathForm>,
    path: &str,
) -> Result<Option<Several>, DiskFault>
    ensures added { IfOk result (FormAdded (S.files store.old) path.now own.old.items own.new.items) }
    ensures stays { S.files store.new ≡ S.files store.old }
    ensures held { S.held store.new ≡ S.held store.old }
{
    match detected(alloc, store, path)? {
        Detected::One(form) => {
            push_own(alloc, own, path, form)?;
            Ok(None)
        }
        Detected::Several(forms) => {
            let path = String::from_str(alloc, path)?;
            Ok(Some(Several { path, forms }))
        }
    }
}

/// Detects the forms of the images at `paths` in their order, as `add_form` states for each. Stops at the first image
/// that opens in several forms.
fn add_forms<S: Store>(
    alloc: Global,
    store: &mut S,
    own: &mut Vec<PathForm>,
    paths: &[&str],
) -> Result<Option<Several>, DiskFault>
    ensures added { IfOk result (FormsAdded (S.files store.old) (map (λ path. path.now) paths.now)
        own.old.items own.new.items) }
    ensures stays { S.files store.new ≡ S.files store.old }
    ensures held { S.held store.new ≡ S.held store.old }
{
    match paths {
        [] => Ok(None),
        [path, more @ ..] => {
            if let Some(several) = add_form(alloc, store, own, path)? {
                return Ok(Some(several));
            }
            add_forms(alloc, store, own, more)
        }
    }
}

/// Appends `path` to `paths` if it is given.
fn push_optional<'a>(paths: &mut Vec<&'a str>, path: &'a Option<String>) -> Result<(), AllocError>
    ensures paths { OnOk result (map (λ path. path.now) paths.new.items
        ≡ map (λ path. path.now) paths.old.items ++ optional_path (option_map string_bytes path.now)) }
{
    if let Some(path) = path {
        paths.push(path.as_str())?;
    }
    Ok(())
}

/// Appends those of the paths `images` to `paths` that are given.
fn push_given<'a>(paths: &mut Vec<&'a str>, images: &'a [Option<String>]) -> Result<(), AllocError>
    ensures paths { OnOk result (map (λ path. path.now) paths.new.items
        ≡ map (λ path. path.now) paths.old.items ++ given_paths (map (option_map string_bytes) images.now)) }
{
    match images {
        [] => Ok(()),
        [path, more @ ..] => {
            push_optional(paths, path)?;
            push_given(paths, more)
        }
    }
}

/// Returns the paths of the disks of `program`, in the order of their units.
fn program_paths(alloc: Global, program: &Program) -> Result<Vec<&str>, AllocError>
    ensures paths { IfOk result (λ paths. map (λ path. path.now) paths.items ≡ program_paths program.now) }
{
    let mut paths = Vec::new(alloc);
    paths.push(program.disk.as_str())?;
    push_given(&mut paths, &program.others)?;
    Ok(paths)
}

/// Returns the paths of the two images that are compared.
fn two_images(alloc: Global, plan: &ComparePlan) -> Result<Vec<&str>, AllocError>
    ensures paths { IfOk result (λ paths. map (λ path. path.now) paths.items
        ≡ string_bytes plan.now.path ∷ string_bytes plan.now.other ∷ []) }
{
    let mut paths = Vec::new(alloc);
    paths.push(plan.path.as_str())?;
    paths.push(plan.other.as_str())?;
    Ok(paths)
}

/// Returns the paths of the images of `plan` to which `--form` applies.
fn image_paths(alloc: Global, plan: &Plan) -> Result<Vec<&str>, AllocError>
    ensures paths { IfOk result (λ paths. map (λ path. path.now) paths.items ≡ image_paths plan.now) }
{
    let image = match plan {
        Plan::Run(program, _) | Plan::Trace(program, ..) | Plan::Debug(program, _) => {
            return program_paths(alloc, program);
        }
        Plan::Files(plan) => plan.path.as_str(),
        Plan::Salvage(plan) => plan.path.as_str(),
        Plan::Export(plan) => plan.path.as_str(),
        Plan::Import(plan) => plan.path.as_str(),
        Plan::Table(plan) => plan.path.as_str(),
        Plan::Undelete(plan) => plan.path.as_str(),
        Plan::Compare(plan) => return two_images(alloc, plan),
        Plan::Asm(_, files) | Plan::Dis(_, files) => match &files.input {
            TextInput::OnImage { image, .. } => image.as_str(),
            TextInput::Standard | TextInput::File(_) => return Ok(Vec::new(alloc)),
        },
        Plan::Raw { .. } | Plan::Convert(_) | Plan::Search(_) => return Ok(Vec::new(alloc)),
    };
    let mut paths = Vec::new(alloc);
    paths.push(image)?;
    Ok(paths)
}

/// Returns the paths of the files of a program that are not converted: the system's code file and `other`.
fn two_paths<'a>(
    alloc: Global,
    program: &'a Program,
    other: &'a Option<String>,
) -> Result<Vec<&'a str>, AllocError>
    ensures paths { IfOk result (λ paths. map (λ path. path.now) paths.items
        ≡ optional_path (option_map string_bytes program.now.system)
        ++ optional_path (option_map string_bytes other.now)) }
{
    let mut paths = Vec::new(alloc);
    push_optional(&mut paths, &program.system)?;
    push_optional(&mut paths, other)?;
    Ok(paths)
}

/// Returns the paths of the files of `asm` or `dis` that are not converted: the file that is read, if it is not on an
/// image, and the file that is written.
fn text_paths(alloc: Global, files: &TextFiles) -> Result<Vec<&str>, AllocError>
    ensures paths { IfOk result (λ paths. map (λ path. path.now) paths.items ≡ text_paths files.now) }
{
    let mut paths = Vec::new(alloc);
    if let TextInput::File(path) = &files.input {
        paths.push(path.as_str())?;
    }
    push_optional(&mut paths, &files.output)?;
    Ok(paths)
}

/// Returns the path of the file that gets an output, if there is one.
fn one_path(alloc: Global, output: &Option<String>) -> Result<Vec<&str>, AllocError>
    ensures paths { IfOk result (λ paths. map (λ path. path.now) paths.items
        ≡ optional_path (option_map string_bytes output.now)) }
{
    let mut paths = Vec::new(alloc);
    push_optional(&mut paths, output)?;
    Ok(paths)
}

/// Returns the paths of `plan` that name no image. `--form` does not apply to the files at these paths:
///
/// - the system's code file, and for `asm` and `dis` the file that is read;
/// - the printer's file; for `debug` the file with console input; for the other commands the value of `--output`.
fn plain_paths(alloc: Global, plan: &Plan) -> Result<Vec<&str>, AllocError>
    ensures paths { IfOk result (λ paths. map (λ path. path.now) paths.items ≡ plain_paths plan.now) }
{
    match plan {
        Plan::Run(program, choices) => two_paths(alloc, program, &choices.printer),
        Plan::Trace(program, _, other) | Plan::Debug(program, other) => {
            two_paths(alloc, program, other)
        }
        Plan::Asm(_, files) | Plan::Dis(_, files) => text_paths(alloc, files),
        Plan::Files(plan) => one_path(alloc, &plan.output),
        Plan::Undelete(plan) => one_path(alloc, &plan.output),
        Plan::Salvage(_)
        | Plan::Export(_)
        | Plan::Import(_)
        | Plan::Raw { .. }
        | Plan::Convert(_)
        | Plan::Search(_)
        | Plan::Compare(_)
        | Plan::Table(_) => Ok(Vec::new(alloc)),
    }
}

/// Appends `paths` to `own` as the paths of files that are not converted.
fn push_plain(alloc: Global, own: &mut Vec<PathForm>, paths: &[&str]) -> Result<(), DiskFault>
    ensures added { OnOk result (PlainAdded (map (λ path. path.now) paths.now) own.old.items own.new.items) }
{
    match paths {
        [] => Ok(()),
        [path, more @ ..] => {
            push_own(alloc, own, path, Form::In(Order::Blocks))?;
            push_plain(alloc, own, more)
        }
    }
}

/// Returns the forms of the files of `plan`. `choice` is what `--form` specifies. No file changes.
///
/// - A form: all images have it.
/// - `auto`: each image has the form that `detect` of pm_plan states. A file that does not exist yet, such as the new
///   image of `salvage`, has its blocks in order. If an image opens in several forms, the first such image is returned.
///
/// # Errors
///
/// - An image cannot be read: the fault. An image that does not exist is not an error.
/// - Out of memory: `NoMemory`.
pub fn forms_for<S: Store>(
    alloc: Global,
    store: &mut S,
    choice: FormChoice,
    plan: &Plan,
) -> Result<Formed, DiskFault>
    ensures formed { IfOk result (AreFormed (S.files store.old) choice plan.now) }
    ensures stays { S.files store.new ≡ S.files store.old }
    ensures held { S.held store.new ≡ S.held store.old }
{
    let plain = plain_paths(alloc, plan)?;
    let mut own = Vec::new(alloc);
    push_plain(alloc, &mut own, plain.as_slice())?;
    match choice {
        FormChoice::Named(form) => Ok(found(form, own, form)),
        FormChoice::Auto => {
            let images = image_paths(alloc, plan)?;
            let form = Form::In(Order::Blocks);
            if let Some(several) = add_forms(alloc, store, &mut own, images.as_slice())? {
                return Ok(Formed::Several(several));
            }
            let first = form_after(own.as_slice(), plain.len());
            Ok(found(form, own, first))
        }
    }
}

/// Returns the forms of all images, with these parts.
fn found(form: Form, own: Vec<PathForm>, first: Form) -> Formed
    ensures found { IsFound form own.items result }
{
    Formed::Found(Forms { form, own, first })
}

/// Returns the form after the first `count` ones of `own`, or `In(Blocks)` if there is none.
fn form_after(own: &[PathForm], count: usize) -> Form {
    match own.get(count) {
        Some(own) => own.form,
        None => Form::In(Order::Blocks),
    }
}

impl Forms {
    /// Returns `store` as a store that converts its files from and to these forms.
    pub fn store<S: Drop>(self, alloc: Global, store: S) -> InForm<S> {
        let Forms { form, own, .. } = self;
        InForm {
            store,
            form,
            own,
            alloc,
        }
    }
}
