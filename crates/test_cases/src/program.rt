//! Programs on the volumes of a case: the arguments that start them, and the jobs that run them.
use crate::case::{Came, Case, MOST_SHOWN};
use crate::code_file::code_file;
use crate::jobs::{Ran, do_job};
use pm_filer::FileCommand;
use pm_tool::{Job, Saving, Selection};
use std::alloc::Global;
use std::io;
use test_parts::{
    add_escaped, byte, bytes_text, digest_text, hex_bytes, name, steps, unreadable, word,
};

/// The defaults of a case: the maximum number of steps, the number of blocks of the volume, and the kind of the file,
/// which is code.
const STEPS: u64 = 200;

const BLOCKS: u16 = 83;

const CODE: u8 = 2;

/// The numbers of the disk units, in order.
pub const UNITS: [&str; 6] = ["4", "5", "9", "10", "11", "12"];

/// The images of the disks in the order of `UNITS`.
pub type Images = [Option<Vec<u8>>; 6];

/// A program that a job starts. The name of its file is the name that the case states, or `P`.
#[derive(Drop)]
pub struct Program {
    /// The image of unit 4, which contains the file.
    pub work: Vec<u8>,
    /// The maximum number of steps.
    pub limit: u64,
    /// The code file whose slot 0 is the system segment, or `None`.
    pub system: Option<Vec<u8>>,
}

/// Returns a volume without files.
fn volume(alloc: Global, name: &str, blocks: u16) -> io::Result<Vec<u8>> {
    let name = String::from_str(alloc, name)?;
    do_job(alloc, Job::New { name, blocks }, b"").into_image()
}

/// Returns the volume of a case. It contains the code file as `P`. If `named` is true, the slots have their names.
pub fn work(alloc: Global, case: &Case<'_>, named: bool) -> io::Result<Vec<u8>> {
    let blocks = match case.value("blocks") {
        Some(blocks) => word(blocks)?,
        None => BLOCKS,
    };
    let kind = match case.value("kind") {
        Some(kind) => byte(kind)?,
        None => CODE,
    };
    let file = code_file(alloc, case, named)?;
    let image = volume(alloc, "WORK", blocks)?;
    let name = String::from_str(alloc, "P")?;
    let command = FileCommand::Put(name, kind, Vec::new(alloc));
    do_job(alloc, Job::Files { image, command }, &file).into_image()
}

/// Returns the maximum number of steps of a case.
pub fn limit(case: &Case<'_>) -> io::Result<u64> {
    match case.value("limit") {
        Some(limit) => Ok(u64::from(steps(limit)?)),
        None => Ok(STEPS),
    }
}

/// Returns the index in `UNITS` of a disk without files, and its image. `rest` is `UNIT BLOCKS`.
fn blank_disk(alloc: Global, rest: &str) -> io::Result<(usize, Vec<u8>)> {
    let (unit, blocks) = rest.split_once(' ').ok_or_else(unreadable)?;
    let place = UNITS.iter().position(|known| *known == unit);
    let place = place.ok_or_else(unreadable)?;
    Ok((place, volume(alloc, "V", word(blocks)?)?))
}

/// Returns the disks of a case: a copy of the volume with the program on unit 4, and the disks without files.
pub fn disks(alloc: Global, case: &Case<'_>, work: &[u8]) -> io::Result<Images> {
    let mut disks = [Some(work.to_vec(alloc)?), None, None, None, None, None];
    for line in case.lines.iter() {
        if line.word == "disk" {
            let (place, image) = blank_disk(alloc, line.rest)?;
            *disks.get_mut(place).ok_or_else(unreadable)? = Some(image);
        }
    }
    Ok(disks)
}

/// The arguments of a job that starts a program.
#[derive(Drop)]
struct Start {
    disks: Images,
    name: String,
    system: Option<Vec<u8>>,
}

/// Returns the bytes that the case types on the console.
fn keys(alloc: Global, case: &Case<'_>) -> io::Result<Vec<u8>> {
    hex_bytes(alloc, case.value("keys").unwrap_or(""))
}

/// Returns the command lines for the debugger.
fn typed(alloc: Global, case: &Case<'_>) -> io::Result<Vec<u8>> {
    let mut typed = Vec::new(alloc);
    for line in case.lines.iter() {
        if line.word == ">" {
            add_escaped(&mut typed, line.rest)?;
            typed.push(b'\n')?;
        }
    }
    Ok(typed)
}

impl Program {
    /// Returns a copy of the file whose slot 0 is the system segment.
    fn system(&self, alloc: Global) -> io::Result<Option<Vec<u8>>> {
        match &self.system {
            Some(file) => Ok(Some(file.to_vec(alloc)?)),
            None => Ok(None),
        }
    }

    /// Returns the arguments that start the program.
    fn start(&self, alloc: Global, case: &Case<'_>) -> io::Result<Start> {
        let name = name(alloc, case.value("name").unwrap_or("P"))?;
        let system = self.system(alloc)?;
        let disks = disks(alloc, case, &self.work)?;
        Ok(Start {
            disks,
            name,
            system,
        })
    }

    /// Runs the program.
    pub fn run(&self, alloc: Global, case: &Case<'_>, saving: Saving) -> io::Result<Ran> {
        let keys = keys(alloc, case)?;
        let Start {
            disks,
            name,
            system,
        } = self.start(alloc, case)?;
        let job = Job::Run {
            disks,
            name,
            limit: self.limit,
            saving,
            system,
        };
        Ok(do_job(alloc, job, &keys))
    }

    /// Returns the trace of the program.
    pub fn trace(&self, alloc: Global, case: &Case<'_>, selection: Selection) -> io::Result<Ran> {
        let keys = keys(alloc, case)?;
        let Start {
            disks,
            name,
            system,
        } = self.start(alloc, case)?;
        let job = Job::Trace {
            disks,
            name,
            limit: self.limit,
            system,
            selection,
        };
        Ok(do_job(alloc, job, &keys))
    }

    /// Returns the debugger's answers to the lines of the case.
    pub fn debug(&self, alloc: Global, case: &Case<'_>) -> io::Result<Ran> {
        let lines = typed(alloc, case)?;
        let Start {
            disks,
            name,
            system,
        } = self.start(alloc, case)?;
        let job = Job::Debug {
            disks,
            name,
            system,
            typed: Vec::new(alloc),
        };
        Ok(do_job(alloc, job, &lines))
    }

    /// Adds the digest of the trace and the answers of the debugger to `came`, each only if the case contains it.
    pub fn add_shown(&self, alloc: Global, case: &Case<'_>, came: &mut Came) -> io::Result<()> {
        if case.has("trace") {
            let ran = self.trace(alloc, case, Selection::ALL)?;
            came.shown = ran.text(alloc)?;
            let digest = digest_text(alloc, &ran.written)?;
            came.answer("trace", digest.as_str())?;
        }
        if case.has(">") {
            let ran = self.debug(alloc, case)?;
            let text = ran.text(alloc)?;
            for line in text.as_str().lines() {
                came.answer("<", line)?;
            }
            if ran.is_refused() {
                came.answer("<", ran.outcome.text())?;
            }
        }
        Ok(())
    }
}

/// Adds an answer with `bytes`, if `bytes` is not empty.
fn add_bytes(alloc: Global, word: &str, bytes: &[u8], came: &mut Came) -> io::Result<()> {
    if !bytes.is_empty() {
        let text = bytes_text(alloc, bytes, MOST_SHOWN)?;
        came.answer(word, text.as_str())?;
    }
    Ok(())
}

/// Adds the outcome of a run, and its output on the console and the printer, as answers to `came`.
pub fn add_run(alloc: Global, ran: &Ran, came: &mut Came) -> io::Result<()> {
    came.answer("run", ran.outcome.text())?;
    add_bytes(alloc, "console", &ran.written, came)?;
    add_bytes(alloc, "printer", &ran.outcome.printer, came)
}

/// Adds an answer with a saved image, if the image `behind` differs from the image `before`.
pub fn add_image(
    alloc: Global,
    word: &str,
    before: &Option<Vec<u8>>,
    behind: &Option<Vec<u8>>,
    came: &mut Came,
) -> io::Result<()> {
    if let (Some(before), Some(behind)) = (before, behind)
        && before.as_slice() != behind.as_slice()
    {
        let digest = digest_text(alloc, behind)?;
        came.answer(word, digest.as_str())?;
    }
    Ok(())
}
