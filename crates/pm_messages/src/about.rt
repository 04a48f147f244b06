//! The file that a refusal is about, with the path that the user typed. A terminal shows this file in the second line
//! of a message.
use crate::saying::Plain;
use pm_filer::{FileCommand, FilerFault};
use pm_forms::Form;
use pm_plan::{Order, Plan, Program, TextInput, Verb};
use pm_tool::{About, Hint, Outcome, Refusal};
use pm_volume::VolumeFault;
use std::alloc::{AllocError, Global};
use std::fmt;

/// The maximum number of characters of a file name in a message.
const MOST: usize = 120;

/// A file's name for a message. It is printed up to 120 characters.
#[derive(Clone, Copy)]
struct Short<'a>(&'a str);

impl fmt::Display for Short<'_> {
    fn fmt<W: fmt::Write>(&self, f: &mut fmt::Formatter<W>) -> fmt::Result {
        for (count, letter) in self.0.chars().enumerate() {
            if count == MOST {
                return f.write_str(" ..");
            }
            f.write_char(if letter.is_control() { '?' } else { letter })?;
        }
        Ok(())
    }
}

/// A program's name, the paths of its disks in the order of their units, and the path of the system's code file.
#[derive(Drop)]
pub struct Disks {
    name: String,
    paths: [Option<String>; 6],
    system: Option<String>,
}

/// The files of a command that a refusal can be about.
#[derive(Drop)]
pub enum Named {
    /// The files of a program that is run, traced or debugged.
    Program(Disks),
    /// The image that a verb of `files` reads or changes, or that contains the file that `asm` or `dis` reads.
    Image(String),
}

/// Returns a copy of `path`, or `None` if `path` is `None`.
fn copy_of(alloc: Global, path: &Option<String>) -> Result<Option<String>, AllocError> {
    match path {
        Some(path) => Ok(Some(String::from_str(alloc, path.as_str())?)),
        None => Ok(None),
    }
}

/// Returns a copy of the name and the paths of `program`.
fn disks_of(alloc: Global, program: &Program) -> Result<Disks, AllocError> {
    let [fifth, ninth, tenth, eleventh, twelfth] = &program.others;
    Ok(Disks {
        name: String::from_str(alloc, program.name.as_str())?,
        paths: [
            Some(String::from_str(alloc, program.disk.as_str())?),
            copy_of(alloc, fifth)?,
            copy_of(alloc, ninth)?,
            copy_of(alloc, tenth)?,
            copy_of(alloc, eleventh)?,
            copy_of(alloc, twelfth)?,
        ],
        system: copy_of(alloc, &program.system)?,
    })
}

/// Returns the path of the image of `plan`. Returns `None` for `check`, which prints the faults of the image itself.
/// Returns `None` also for `new` and `copy`, because their refusals can be about another volume.
fn image_of(plan: &Plan) -> Option<&str> {
    match plan {
        Plan::Files(plan) => match &plan.verb {
            Verb::New(..) | Verb::Check => None,
            Verb::Command(FileCommand::Copy(..) | FileCommand::CopySlot(..)) => None,
            _ => Some(plan.path.as_str()),
        },
        Plan::Salvage(plan) => Some(plan.path.as_str()),
        Plan::Export(plan) => Some(plan.path.as_str()),
        Plan::Import(plan) => Some(plan.path.as_str()),
        Plan::Asm(_, files) | Plan::Dis(_, files) => match &files.input {
            TextInput::OnImage { image, .. } => Some(image.as_str()),
            _ => None,
        },
        _ => None,
    }
}

/// Returns the files of `plan` that a refusal can be about. Returns `None` if no such files exist, or if memory is
/// exhausted.
pub fn named_in(alloc: Global, plan: &Plan) -> Option<Named> {
    match plan {
        Plan::Run(program, _) | Plan::Trace(program, ..) | Plan::Debug(program, _) => {
            Some(Named::Program(disks_of(alloc, program).ok()?))
        }
        _ => Some(Named::Image(String::from_str(alloc, image_of(plan)?).ok()?)),
    }
}

/// Returns a text with the path of the image on the unit `unit` and the unit's number. Returns `None` if the unit has
/// no image, or if memory is exhausted.
fn on_unit(alloc: Global, disks: &Disks, unit: u8) -> Option<String> {
    let path = match unit {
        4 => disks.paths[0].as_ref()?,
        5 => disks.paths[1].as_ref()?,
        9 => disks.paths[2].as_ref()?,
        10 => disks.paths[3].as_ref()?,
        11 => disks.paths[4].as_ref()?,
        _ => disks.paths[5].as_ref()?,
    };
    format!(in alloc; "{path} (unit {unit})").ok()
}

/// Returns the file that the refusal in `outcome` is about: its path, and its unit if it is a disk of a program.
/// Returns `None` if the refusal is about no file, or if memory is exhausted.
pub fn about(alloc: Global, named: &Named, outcome: &Outcome) -> Option<String> {
    match (named, outcome.about, outcome.refusal) {
        (Named::Program(disks), Some(About::Unit(unit)), _) => on_unit(alloc, disks, unit),
        (Named::Program(disks), Some(About::System), _) => copy_of(alloc, &disks.system).ok()?,
        // an invalid name is about an argument
        (_, _, Some(Refusal::Filer(FilerFault::Volume(VolumeFault::BadName)))) => None,
        (Named::Image(path), _, Some(Refusal::Volume(_) | Refusal::Filer(FilerFault::Volume(_)))) =>
            { String::from_str(alloc, path.as_str()).ok() }
        _ => None,
    }
}

/// Returns the option `--form` for a suggested command, with a space before it. Returns an empty text for blocks in
/// order, the default.
fn form_option(form: Form) -> &'static str {
    match form {
        Form::In(Order::Blocks) => "",
        Form::In(Order::Dos) => " --form dos",
        Form::In(Order::Swapped) => " --form swapped",
        Form::Headed => " --form 2mg",
    }
}

/// Returns the message for a program that is not found (`refused boot 1`) or is not a code file (`refused boot 2`). The
/// message contains a command that helps. Returns `None` for any other refusal, or if memory is exhausted.
pub fn no_program(alloc: Global, named: &Named, form: Form, outcome: &Outcome) -> Option<String> {
    let (Named::Program(disks), Some(Refusal::Boot(fault))) = (named, outcome.refusal) else {
        return None;
    };
    let name = Short(disks.name.as_str());
    let image = Plain(disks.paths[0].as_ref()?.as_str());
    let option = form_option(form);
    match (fault.number(), &outcome.hint) {
        (1, Some(Hint::Named(other))) => {
            format!(in alloc; "{image} (unit 4) has no file {name}, but it has {other}").ok()
        }
        (1, _) => format!(in alloc;
            "{image} (unit 4) has no file {name}; list its files with: pmach files --image {image}{option} list"
        ).ok(),
        (2, _) => format!(in alloc;
            "{name} on {image} (unit 4) is not a code file; 'files list' shows its kind, 'files put NAME code' adds one"
        ).ok(),
        _ => None,
    }
}
