//! Executes the jobs on volumes.
ghost use Rattle.std.specs.Prelude.{◌≡◌, IfOk, IfSome, Some, string_bytes};
ghost use Rattle.pm_filer.specs.Filed.{answer_of, order_of};
ghost use Rattle.pm_volume.specs.Copies.{repaired};
ghost use Rattle.pm_volume.specs.Headers.{blank_fault};
ghost use Rattle.pm_batch.specs.Files.{answered, made_check, made_file, made_new, made_salvage, made_volume};
ghost use Rattle.pm_batch.specs.Files.{opened_image, takes_input, with_input};
ghost use Rattle.pm_batch.specs.Products.{product_of};
ghost use Rattle.pm_batch.specs.Told.{form_sentence, form_told, is_behind_header};
ghost use Rattle.pm_check.specs.Saving.{salvaged};

use crate::batch::Made;
use crate::refusal::Refusal;
use pm_check::{Form, form_seen};
use pm_filer::{FileCommand, FilerFault, Reply, apply};
use pm_volume::{Volume, VolumeFault};
use std::alloc::{AllocError, Global};

/// Opens `image` as a volume, or returns the fault for which it is no volume.
pub fn open(image: Vec<u8>) -> Result<Volume, VolumeFault>
    ensures opened { result ≡ opened_image image.items }
{
    match Volume::open(image) {
        Ok(volume) => Ok(volume),
        Err((fault, _)) => Err(fault),
    }
}

/// Returns whether `command` reads bytes from the input of the job.
pub(crate) fn takes_input(command: &FileCommand) -> bool
    ensures value { result ≡ takes_input (order_of command.now) }
{
    matches!(
        command,
        FileCommand::Put(..)
            | FileCommand::PutText(..)
            | FileCommand::Copy(..)
            | FileCommand::CopySlot(..)
    )
}

/// Returns `command` with its bytes replaced by `input`, if it is a command that has bytes.
fn with_input(command: FileCommand, input: Vec<u8>) -> FileCommand
    ensures order { order_of result ≡ with_input (order_of command) input.items }
{
    match command {
        FileCommand::Put(name, kind, _) => FileCommand::Put(name, kind, input),
        FileCommand::PutText(name, _) => FileCommand::PutText(name, input),
        FileCommand::Copy(name, _) => FileCommand::Copy(name, input),
        FileCommand::CopySlot(slot, name, _) => FileCommand::CopySlot(slot, name, input),
        other => other,
    }
}

/// Returns the product of an executed command: the text or the bytes of `reply`, or the image of `volume` if the
/// command changed the volume.
fn answer(volume: Volume, reply: Reply) -> Made
    ensures made { product_of result ≡ answered (answer_of reply) volume }
{
    match reply {
        Reply::Lines(text) => Made::Bytes(text.into_bytes()),
        Reply::Bytes(bytes) => Made::Bytes(bytes),
        Reply::Done => Made::Image(volume.into_bytes()),
    }
}

/// Returns a copy of the name of the file that `command` reads or changes. Returns None if `command` names no such file
/// or memory runs out.
fn wanted_name(alloc: Global, command: &FileCommand) -> Option<String> {
    match command {
        FileCommand::Get(name) | FileCommand::GetText(name) | FileCommand::Remove(name) => {
            String::from_str(alloc, name.as_str()).ok()
        }
        FileCommand::Change(name, _) | FileCommand::Kind(name, _) => {
            String::from_str(alloc, name.as_str()).ok()
        }
        _ => None,
    }
}

/// Returns `name` with `ending` appended if `volume` has a file with this longer name. Otherwise returns None.
fn longer_name(alloc: Global, volume: &Volume, name: &str, ending: &str) -> Option<String> {
    let longer = format!(in alloc; "{name}{ending}").ok()?;
    volume.find(longer.as_str())?;
    Some(longer)
}

/// Returns a message if `fault` is a missing file and a file exists whose name is `name` with `.TEXT` or `.CODE`
/// appended. The message has this longer name.
fn told_missing(
    alloc: Global,
    volume: &Volume,
    fault: FilerFault,
    name: Option<String>,
) -> Option<String> {
    let FilerFault::Volume(VolumeFault::NoFile) = fault else {
        return None;
    };
    let name = name?;
    let text = longer_name(alloc, volume, name.as_str(), ".TEXT");
    let longer = match text {
        Some(longer) => longer,
        None => longer_name(alloc, volume, name.as_str(), ".CODE")?,
    };
    format!(in alloc; "no file of that name, but there is {longer}").ok()
}

/// Returns whether `fault` occurs only in an image that begins with the header of a volume.
fn is_behind_header(fault: VolumeFault) -> bool
    ensures value { result ≡ is_behind_header fault }
{
    matches!(
        fault,
        VolumeFault::BadEntry(_)
            | VolumeFault::TooManyFiles
            | VolumeFault::PastEnd
            | VolumeFault::FirstCopyBad(_)
    )
}

/// Returns a sentence that names the form of an image and states how to read an image of this form.
fn form_sentence(form: Form) -> &'static str
    ensures sentence { result.now ≡ form_sentence form }
{
    match form {
        Form::Dos =>
            "the image has the form dos (sectors in DOS order): add --form dos to the command",
        Form::Swapped => {
            "the image has the form swapped (the bytes of each word are swapped): add --form swapped to the command"
        }
        Form::FrontBlocks | Form::FrontDos | Form::FrontSwapped => {
            "the image has a header before its blocks: --form 2mg reads it, 'pmach convert IMAGE NEW' removes it"
        }
    }
}

/// Returns the message about an image that has `fault` and no header of a volume. Returns None if the form is not
/// known, if `fault` is in an image with a header, or if memory runs out.
pub fn form_told(alloc: Global, fault: VolumeFault, form: Option<Form>) -> Option<String>
    ensures told { IfSome result (λ told. form_told fault form ≡ Some (string_bytes told)) }
{
    let form = form?;
    if is_behind_header(fault) {
        return None;
    }
    String::from_str(alloc, form_sentence(form)).ok()
}

/// Returns the message about an image that is no volume because of `fault`. The message states how to copy the files,
/// or the form of the image. Returns None if neither is known or memory runs out.
fn told_checked(alloc: Global, fault: VolumeFault, form: Option<Form>) -> Option<String> {
    match fault {
        VolumeFault::BadEntry(_) | VolumeFault::TooManyFiles | VolumeFault::PastEnd => {
            let help =
                "'files salvage NEW', with the same image, copies the files with valid entries to the new volume NEW";
            String::from_str(alloc, help).ok()
        }
        _ => form_told(alloc, fault, form),
    }
}

/// Executes `command` on the volume `opened` and returns the product. If `command` reads bytes from the input, `input`
/// has these bytes. If `opened` is a fault, the job is refused.
pub(crate) fn file(
    alloc: Global,
    opened: Result<Volume, VolumeFault>,
    form: Option<Form>,
    command: FileCommand,
    input: Vec<u8>,
) -> Result<Made, AllocError>
    ensures made { IfOk result (λ made. product_of made ≡ made_file opened (order_of command) input.items) }
{
    let mut volume = match opened {
        Ok(volume) => volume,
        Err(fault) => {
            let told = form_told(alloc, fault, form);
            return Ok(Made::Refused(Refusal::Volume(fault), told));
        }
    };
    let name = wanted_name(alloc, &command);
    match apply(alloc, &mut volume, with_input(command, input)) {
        Ok(reply) => Ok(answer(volume, reply)),
        Err(FilerFault::NoMemory) => Err(AllocError),
        Err(fault) => {
            let told = told_missing(alloc, &volume, fault, name);
            Ok(Made::Refused(Refusal::Filer(fault), told))
        }
    }
}

/// Returns the message about a new volume that cannot be created because of `fault`. Returns None if the message for an
/// image with this fault also applies.
fn told_new(alloc: Global, fault: VolumeFault) -> Option<String> {
    match fault {
        VolumeFault::BadHeader => String::from_str(alloc, "a volume has at least 6 blocks").ok(),
        _ => None,
    }
}

/// Creates a volume `name` with `blocks` blocks and without files. The product is its image, or the refusal.
pub(crate) fn new_volume(alloc: Global, name: &str, blocks: u16) -> Result<Made, AllocError>
    ensures made { IfOk result (λ made.
        product_of made ≡ made_new (blank_fault name.now blocks) name.now blocks) }
{
    match Volume::blank(alloc, name, blocks) {
        Ok(volume) => Ok(Made::Image(volume.into_bytes())),
        Err(VolumeFault::NoMemory) => Err(AllocError),
        Err(fault) => Ok(Made::Refused(Refusal::Volume(fault), told_new(alloc, fault))),
    }
}

/// Returns `image` as a volume. If only the first copy of its directory is damaged, the second copy replaces it. Any
/// other damaged image is refused.
pub(crate) fn repair_volume(alloc: Global, image: Vec<u8>) -> Made
    ensures made { product_of result ≡ made_volume (repaired image.items) }
{
    match Volume::repair(image) {
        Ok(repaired) => Made::Image(repaired.into_bytes()),
        Err((fault, image)) => {
            let told = form_told(alloc, fault, form_seen(&image));
            Made::Refused(Refusal::Volume(fault), told)
        }
    }
}

/// Returns a report on the faults of `image`, and the refusal if `image` is no volume.
pub(crate) fn check_image(alloc: Global, image: Vec<u8>) -> Result<Made, AllocError>
    ensures made { IfOk result (λ made. product_of made ≡ made_check image.items) }
{
    let text = pm_check::check(alloc, &image)?;
    let form = form_seen(&image);
    let (refusal, told) = match open(image) {
        Ok(_) => (None, None),
        Err(fault) => (
            Some(Refusal::Volume(fault)),
            told_checked(alloc, fault, form),
        ),
    };
    Ok(Made::Judged(text.into_bytes(), refusal, told))
}

/// Copies the files of `image` to a new volume. The product is the new volume and a report with a line for each entry.
/// If `second` is true, the second copy of the directory is used.
pub(crate) fn salvage_image(alloc: Global, image: &[u8], second: bool) -> Result<Made, AllocError>
    ensures made { IfOk result (λ made. product_of made ≡ made_salvage (salvaged image.now second)) }
{
    match pm_check::salvage(alloc, image, second) {
        Ok(saved) => Ok(Made::Saved(saved.text.into_bytes(), saved.image)),
        Err(VolumeFault::NoMemory) => Err(AllocError),
        Err(fault) => Ok(Made::Refused(Refusal::Volume(fault), None)),
    }
}
