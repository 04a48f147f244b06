//! Jobs and their outcomes.
ghost use Rattle.std.specs.Prelude.{◌≡◌, false, [], List, ℕ, Some, None, IfOk, option_map, string_bytes, vec_items};
ghost use Rattle.pm_tool.specs.Disks.{images_of};
ghost use Rattle.pm_tool.specs.Outcomes.{IsOutcome, SaysWhy, exit_number, exit_of, fault_exit, is_refusal, judged};
ghost use Rattle.pm_tool.specs.Outcomes.{no_others, outcome_text, refused};

use crate::hint::Hint;
use crate::stopped::Stopped;
use pm_batch::Refusal;
use pm_filer::FileCommand;
use pm_jobs::{AsmOutput, DisOutput, Fault, Saving, Selection};
use pm_session::Ending;
use std::alloc::{AllocError, Global};

/// A job: one execution of a command of `pmach`.
#[derive(Drop)]
pub enum Job {
    /// Runs the program in the input. The input has the bytes of the program as pairs of hexadecimal digits in upper or
    /// lower case. White space (tabs, line feeds, carriage returns and spaces) is allowed everywhere except within a
    /// pair.
    ///
    /// The output is the trace of at most `limit` steps. Only the lines that `selection` selects are written. An input
    /// that is not hexadecimal is refused with `refused hex 1`. A program of more than 60,000 bytes is refused with
    /// `refused boot 3`.
    Raw {
        limit: u32,
        selection: Selection,
    },
    /// Runs a program: the code file `name` on the disk of unit 4. `disks` has the images on units 4, 5, 9, 10, 11 and
    /// 12.
    ///
    /// The input is the console input: each time that the program waits for console bytes, one byte is read. The output
    /// is what the program writes to the console. The message is the last line of a trace, such as `ended K`. The
    /// outcome has the bytes that were printed, and the images that `saving` selects, in their state at the end of the
    /// run.
    ///
    /// If `system` is given, it is a code file. Before the run, its segment of slot 0 is added to the code file `name`
    /// on the image, as by `pm_filer::put_system`.
    ///
    /// # Errors
    ///
    /// These refusals are checked in this order, before any input is read:
    ///
    /// - `refused volume N`: an image is no volume. The images are opened in the order of the units.
    /// - `refused system N`: the system segment cannot be added.
    /// - `refused boot N`: the program does not start.
    Run {
        disks: [Option<Vec<u8>>; 6],
        name: String,
        limit: u64,
        saving: Saving,
        system: Option<Vec<u8>>,
    },
    /// Runs a program like `Run`. The output is only the trace: a line for each step that `selection` selects and that
    /// does not wait, and a last line. The line of a step shows the state before the step. The last line is `ended K`,
    /// `error N K`, `limit K` after `limit` steps, or `waiting K` if no input remains.
    Trace {
        disks: [Option<Vec<u8>>; 6],
        name: String,
        limit: u64,
        system: Option<Vec<u8>>,
        selection: Selection,
    },
    /// Opens a debugger of a program that is given as in `Run`. Only commands execute steps. Each line of the input is
    /// a command and is answered before the next line is read. The session ends after the command `quit` or at the end
    /// of the input. The job then succeeds, even if the program ended with an error.
    ///
    /// The console output is shown only by commands, and no input is passed to the console. At the start, the console
    /// input queue has the bytes of `typed`.
    Debug {
        disks: [Option<Vec<u8>>; 6],
        name: String,
        system: Option<Vec<u8>>,
        typed: Vec<u8>,
    },
    /// Assembles the source text in the input. Each byte above 127 is read as character 127. The output is one of the
    /// following:
    ///
    /// - The code file of the program, or its listing. A text with faults is refused with `refused asm N LINE`: the
    ///   number and the line of its first fault. If a segment is too long, the text is refused with `refused asm 7
    ///   SEGMENT`.
    /// - One line for each fault, in ascending order of the lines that the faults name. The line is the message for a
    ///   text with only this fault. The faults are the first fault of each line. If no line has a fault, they are the
    ///   first fault of the labels of each line. If no label has a fault either, the fault is the segment that is too
    ///   long. The job is refused with the first of these faults, as above. If the text has no fault, nothing is
    ///   written.
    /// - A line `SSS PPP OOOOO NAME` for each procedure and each label, in the order of the text. SSS and PPP are the
    ///   numbers of the segment and the procedure. OOOOO is the offset in bytes from the entry of the procedure. NAME
    ///   is the label, or `.PROC` for the procedure itself. A text with faults is refused as above.
    Asm(AsmOutput),
    /// Disassembles the code file in the input. Any other input is refused with `refused code N`, followed by the slot
    /// that the fault names. The output is one of the following:
    ///
    /// - The source text: the segments in ascending order of their slots, each with its procedures.
    /// - The source text with names. If the number `n` in a line `CSP n` or `CXP 0, n` has a name, the line ends with a
    ///   comment: the name of standard procedure `n` or of procedure `n` of the system.
    /// - The listing, with the bytes and offsets of the code file. Segments are in ascending order. Each has a line for
    ///   each item, jump entry and attribute table of its procedures, in the order of its dictionary, and for its
    ///   dictionary.
    /// - The code as statements. Segments are in ascending order. Each procedure has a line with its name and a line
    ///   for each statement. A statement shows each operation of its instructions together with the operands.
    Dis(DisOutput),
    /// Executes a command on the volume of an image. A put reads the bytes or the text of the file from the input. A
    /// copy reads the image of the other volume from the input. No other command reads the input. The output is the
    /// list of the volume, or the bytes or the text of a file. If the command changes the volume, the outcome has the
    /// image to be saved.
    ///
    /// # Errors
    ///
    /// - `refused volume N`: the image is no volume. This is checked before the input is read.
    /// - `refused filer 1 N`: the volume refuses the command with fault number N.
    /// - `refused filer 2 N`: a text or a text file has fault number N. The line or position follows.
    /// - `refused filer 3`: the date is not valid.
    Files {
        image: Vec<u8>,
        command: FileCommand,
    },
    /// Creates a volume with this name, this number of blocks, and no files. The outcome has the image of the volume.
    /// The input is not read.
    ///
    /// # Errors
    ///
    /// - `refused volume 10`: the name is not valid.
    /// - `refused volume 3`: the number of blocks is less than 6.
    New {
        name: String,
        blocks: u16,
    },
    /// Repairs an image of which only the first copy of the directory is damaged: the valid second copy replaces the
    /// first. An image that is a volume remains unchanged. The outcome has the image to be saved. The input is not
    /// read. Any other image is refused with `refused volume N`.
    Repair {
        image: Vec<u8>,
    },
    /// Writes the faults of an image. The image can have any bytes. The input is not read. If the image is no volume,
    /// the job is refused with `refused volume N` after the faults are written.
    Check {
        image: Vec<u8>,
    },
    /// Copies files of an image, which can have any bytes, to a new volume. A file is copied if its directory entry is
    /// valid by itself. The entries are read from the second copy of the directory if `second` is true, and otherwise
    /// from the first copy. The outcome has the image of the new volume. The output has a line for each entry. The
    /// input is not read.
    ///
    /// # Errors
    ///
    /// - `refused volume 2`: the image is too short.
    /// - `refused volume 7`: the files need more than 65,535 blocks.
    Salvage {
        image: Vec<u8>,
        second: bool,
    },
}

/// The kind of end of a job.
#[derive(Clone, Copy, Debug, PartialEq, Eq)]
pub enum Exit {
    /// The job succeeded.
    Ended,
    /// The command line is invalid. No job returns this variant.
    Usage,
    /// The input was refused.
    Refused,
    /// The program stopped at an execution error.
    ExecutionError,
    /// A read failed, or the input had more than `INPUT_LIMIT` bytes.
    ReadFault,
    /// A write failed.
    WriteFault,
    /// The host had no more memory.
    NoMemory,
    /// The program reached the limit of its steps, or it waited and no input remained.
    Stopped,
}

impl Exit {
    /// Returns the exit status of the process.
    pub fn number(self) -> u8
        ensures value { result ≡ exit_number self }
    {
        match self {
            Exit::Ended => 0,
            Exit::Usage => 1,
            Exit::Refused => 2,
            Exit::ExecutionError => 3,
            Exit::ReadFault | Exit::WriteFault => 4,
            Exit::NoMemory => 5,
            Exit::Stopped => 6,
        }
    }

    /// Returns the exit of a job that `fault` stopped.
    pub fn of_fault(fault: Fault) -> Exit
        ensures value { result ≡ fault_exit fault }
    {
        match fault {
            Fault::Read => Exit::ReadFault,
            Fault::Write => Exit::WriteFault,
            Fault::NoMemory => Exit::NoMemory,
        }
    }

    /// Returns the exit of a job whose run ended with `ending`.
    pub(crate) fn of_ending(ending: Ending) -> Exit
        ensures value { result ≡ exit_of ending }
        ensures ran { is_refusal result ≡ false }
    {
        match ending {
            Ending::Ended => Exit::Ended,
            Ending::Error(_) => Exit::ExecutionError,
            Ending::Limit | Ending::Waiting => Exit::Stopped,
        }
    }
}

/// The images on units 5, 9, 10, 11 and 12, in this order. An element is None if the unit has no image to be saved.
pub type OtherImages = [Option<Vec<u8>>; 5];

/// Returns five elements None: no image is to be saved.
pub(crate) fn no_images() -> OtherImages
    ensures none { images_of result ≡ no_others }
{
    [None, None, None, None, None]
}

/// The file because of which a program was refused.
#[derive(Clone, Copy)]
pub enum About {
    /// The image on this unit. It is either an image that is no volume, or the image of unit 4, which contains the
    /// program.
    Unit(u8),
    /// The code file with the system segment.
    System,
}

/// The outcome of a job: everything that the job returns in addition to the bytes that it wrote.
#[derive(Drop)]
pub struct Outcome {
    pub exit: Exit,
    /// The message, without a line feed at its end. The message may be empty. After a stream fault or out of memory it
    /// is empty, and `text` returns the text of the fault.
    pub message: String,
    /// The image of a volume that is to be saved, if the job has one. For a run it is the image on unit 4.
    pub image: Option<Vec<u8>>,
    /// The images on the other disk units that are to be saved after a run.
    pub others: OtherImages,
    /// The bytes that the program printed.
    pub printer: Vec<u8>,
    /// The refusal, if the input was refused.
    pub refusal: Option<Refusal>,
    /// The reason for the end of the run, if the message states one.
    pub ending: Option<Ending>,
    /// The text that a terminal shows instead of the reason for the refusal. None if no such text exists or memory was
    /// refused. For an assembler source text, the text has the line that the refusal names and a hint. For `asm --all`,
    /// it has the lines and hints of the first faults.
    pub line: Option<String>,
    /// The state in which an error stopped the run, if an error stopped it.
    pub stopped: Option<Stopped>,
    /// The file that the refusal is about, if a program was refused because of a file.
    pub about: Option<About>,
    /// The hint for a program that does not start. None if no hint exists or memory was refused.
    pub hint: Option<Hint>,
}

impl Outcome {
    /// Creates an outcome with this `exit` and `message`, without images and printed bytes.
    pub(crate) fn plain(alloc: Global, exit: Exit, message: String) -> Outcome
        ensures exit { result.exit ≡ exit }
        ensures message { result.message ≡ message }
        ensures image { result.image ≡ None }
        ensures others { images_of result.others ≡ no_others }
        ensures printer { result.printer.items ≡ [] }
        ensures refusal { result.refusal ≡ None }
        ensures stopped { result.stopped ≡ None }
    {
        Outcome {
            exit,
            message,
            image: None,
            others: no_images(),
            printer: Vec::new(alloc),
            refusal: None,
            ending: None,
            line: None,
            stopped: None,
            about: None,
            hint: None,
        }
    }

    /// Creates the outcome of a successful job with an `image` to save, without a message and printed bytes.
    pub(crate) fn with_image(alloc: Global, image: Vec<u8>) -> Outcome
        ensures exit { result.exit ≡ Exit.Ended }
        ensures message { string_bytes result.message ≡ [] }
        ensures image { option_map vec_items result.image ≡ Some image.items }
        ensures others { images_of result.others ≡ no_others }
        ensures printer { result.printer.items ≡ [] }
        ensures refusal { result.refusal ≡ None }
        ensures stopped { result.stopped ≡ None }
    {
        let mut outcome = Outcome::plain(alloc, Exit::Ended, String::new(alloc));
        outcome.image = Some(image);
        outcome
    }

    /// Returns the message without a line feed at its end. After a stream fault or out of memory it returns the text of
    /// the fault, which needs no memory.
    pub fn text(&self) -> &str
        ensures value { result.now ≡ outcome_text self.now }
    {
        match self.exit {
            Exit::ReadFault => Fault::Read.text(),
            Exit::WriteFault => Fault::Write.text(),
            Exit::NoMemory => Fault::NoMemory.text(),
            _ => self.message.as_str(),
        }
    }
}

/// Returns the outcome for an input that is refused with `refusal`. The outcome has the text for a terminal (`line`),
/// the file that the refusal is about (`about`), and the `hint`, as far as each is given.
pub(crate) fn refuse_for(
    alloc: Global,
    refusal: Refusal,
    line: Option<String>,
    about: Option<About>,
    hint: Option<Hint>,
) -> Result<Outcome, AllocError>
    ensures outcome { IfOk result (λ outcome. (unread : List ℕ) → IsOutcome outcome (refused refusal unread)) }
    ensures told { IfOk result SaysWhy }
    ensures about { IfOk result (λ outcome. outcome.about ≡ about) }
{
    if refusal.is_want() {
        return Err(AllocError);
    }
    let message = format!(in alloc; "{refusal}")?;
    Ok(Outcome {
        exit: Exit::Refused,
        message,
        image: None,
        others: no_images(),
        printer: Vec::new(alloc),
        refusal: Some(refusal),
        ending: None,
        line,
        stopped: None,
        about,
        hint,
    })
}

/// Returns the outcome for an input that is refused with `refusal`. The outcome has the text for a terminal (`line`),
/// if it is given.
pub(crate) fn refuse_line(
    alloc: Global,
    refusal: Refusal,
    line: Option<String>,
) -> Result<Outcome, AllocError>
    ensures outcome { IfOk result (λ outcome. (unread : List ℕ) → IsOutcome outcome (refused refusal unread)) }
    ensures told { IfOk result SaysWhy }
{
    refuse_for(alloc, refusal, line, None, None)
}

/// Returns the outcome of a job that checks an image or a source text. It is a success if `refusal` is None. Otherwise
/// it is a refusal, with the text for a terminal (`line`) if it is given.
pub(crate) fn conclude(
    alloc: Global,
    refusal: Option<Refusal>,
    line: Option<String>,
) -> Result<Outcome, AllocError>
    ensures outcome { IfOk result (λ outcome. (text unread : List ℕ) → IsOutcome outcome (judged text refusal unread)) }
    ensures told { IfOk result SaysWhy }
{
    match refusal {
        None => Ok(Outcome::plain(alloc, Exit::Ended, String::new(alloc))),
        Some(refusal) => refuse_line(alloc, refusal, line),
    }
}
