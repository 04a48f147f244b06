//! The end of the program: its exit status and its message.
ghost use Rattle.std.specs.Prelude.{◌≡◌};
ghost use Rattle.pm_messages.specs.Statuses.{compare_status, search_status};

use pm_conversion::Converted;
use pm_export::Unwritten;
use pm_files::DiskFault;
use pm_image_forms::Several;
use pm_import::{Left, Why};
use pm_paths::Conflict;
use pm_plan::BlockRange;
use pm_search::SearchEnding;
use pm_searches::Hits;
use pm_tool::{Exit, Outcome};

/// How the program ends. It determines the exit status and the message on standard error.
#[derive(Drop)]
pub enum End {
    /// A job ended with this outcome. The text names the file, and its unit, that a refusal is about, or is `None`.
    Outcome(Outcome, Option<String>),
    /// A file could not be read or written. The fields are the reason and the path of the file, if the path is known.
    File(DiskFault, Option<String>),
    /// A folder was created, but some of its files could not be written. The fields are the folder's path and these
    /// files.
    Folder(String, Vec<Unwritten>),
    /// The files of a folder were added to a volume, except these. The line is the message.
    Import(String, Vec<Left>, String),
    /// An image at this path was converted, or not. The line is the message; it is empty if there was no fault.
    Convert(String, Converted, String),
    /// With `--form auto`, an image opens in several forms. No job was executed.
    Form(Several),
    /// Images were searched. The line is the message; it is empty if no image was refused.
    Search(Hits, String),
    /// Lines were written, and there is no message. The field states whether the lines report a difference of two volumes.
    Lines(bool),
    /// The blocks are not all free, in the volume whose image is at this path. Nothing was written.
    NotFree(String, BlockRange),
    /// The arguments are in conflict.
    Words(Conflict),
}

/// The exit status of a search that found nothing.
const NOTHING_FOUND: u8 = 7;

/// Returns the exit status of a search in images: 2 if an image was refused, 0 if something was found, and 7 if nothing
/// was found.
fn status_of_search(hits: Hits) -> u8
    ensures status { result ≡ search_status hits.ending }
{
    match hits.ending {
        SearchEnding::Refused => Exit::Refused.number(),
        SearchEnding::Found => Exit::Ended.number(),
        SearchEnding::Nothing => NOTHING_FOUND,
    }
}

/// The exit status of a comparison that found a difference.
const DIFFERENT: u8 = 7;

/// Returns the exit status of a job that wrote lines: 7 if they report a difference of two volumes, and 0 otherwise.
fn status_of_lines(differ: bool) -> u8
    ensures status { result ≡ compare_status differ }
{
    if differ {
        DIFFERENT
    } else {
        Exit::Ended.number()
    }
}

impl End {
    /// Returns the exit status.
    pub fn status(&self) -> u8 {
        match self {
            End::Outcome(outcome, _) => outcome.exit.number(),
            End::File(fault, _) => Exit::of_fault(fault.fault()).number(),
            End::Folder(_, unwritten) => match unwritten.first() {
                Some(first) => Exit::of_fault(first.fault.fault()).number(),
                None => Exit::Ended.number(),
            },
            End::Import(_, left, _) => status_of_import(left),
            End::Convert(_, converted, _) if converted.fault.is_some() => Exit::Refused.number(),
            End::Convert(..) => Exit::Ended.number(),
            End::Form(_) | End::NotFree(..) => Exit::Refused.number(),
            End::Search(hits, _) => status_of_search(*hits),
            End::Lines(differ) => status_of_lines(*differ),
            End::Words(_) => Exit::Usage.number(),
        }
    }
}

/// Returns the first file that could not be read, and why.
pub fn first_unread(left: &[Left]) -> Option<DiskFault> {
    for file in left {
        if let Why::Unread(fault) = file.why {
            return Some(fault);
        }
    }
    None
}

/// Returns the exit status of an import that did not add these files.
fn status_of_import(left: &[Left]) -> u8 {
    match first_unread(left) {
        Some(fault) => Exit::of_fault(fault.fault()).number(),
        None if left.is_empty() => Exit::Ended.number(),
        None => Exit::Refused.number(),
    }
}
