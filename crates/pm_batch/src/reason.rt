//! The messages for refused inputs. A message states the reason and a hint: what the user can do.
use crate::refusal::Refusal;
use pm_codefile::CodeFault;
use pm_filer::{FilerFault, SystemFault};
use pm_machine::BootFault;
use pm_textfile::TextFault;
use pm_volume::VolumeFault;
use std::fmt;

/// Returns the hint for an image that is no volume because of `fault`.
fn help_for(fault: VolumeFault) -> &'static str {
    match fault {
        VolumeFault::NotBlocks => {
            "; it may have a header or be truncated: 'pmach convert IMAGE' shows its form, 'files check' all faults"
        }
        VolumeFault::TooShort => "; a volume has at least 6 blocks of 512 bytes",
        VolumeFault::BadHeader => {
            ", or the image has another form: --form dos for DOS order; see 'pmach convert IMAGE' and 'files check'"
        }
        VolumeFault::BadEntry(_) | VolumeFault::TooManyFiles => {
            "; 'files check' lists all faults, 'files salvage NEW' copies the valid files to the new volume NEW"
        }
        VolumeFault::PastEnd => {
            "; the image may be truncated: 'files check' lists all faults, 'files salvage NEW' copies the valid files"
        }
        VolumeFault::FirstCopyBad(_) => "; 'files repair' restores the first from the second",
        VolumeFault::BadName => ": a volume name has 1 to 7 characters, without spaces and colons",
        _ => "",
    }
}

/// Returns the hint for a command that a volume refuses because of `fault`.
fn help_of_command(fault: VolumeFault) -> &'static str {
    match fault {
        VolumeFault::NoRoom =>
            "; 'files krunch' joins the free areas, 'files remove NAME' frees space",
        VolumeFault::DirectoryFull => ": it has 77 files; 'files remove NAME' frees an entry",
        VolumeFault::Duplicate =>
            "; 'files remove NAME' removes it, 'files change OLD NEW' renames it",
        VolumeFault::BadName => {
            ": a file name has 1 to 15 characters, a volume name 1 to 7, without spaces and colons"
        }
        VolumeFault::NoFile => "; 'files list' shows the names",
        VolumeFault::Occupied => "; blocks 6 to 9 must be free",
        _ => "",
    }
}

/// Returns the hint for a text or a text file with `fault`.
fn help_of_text(fault: TextFault) -> &'static str {
    match fault {
        TextFault::NoHeader => ", so it is not a text file; 'files get' writes its bytes unchanged",
        TextFault::LineTooLong(_) => " of 1,024 bytes",
        TextFault::BadByte(_) => "; 'files put NAME data' accepts any bytes",
        TextFault::NoMemory => "",
    }
}

/// Returns the hint for a system segment that cannot be added because of `fault`.
fn help_of_system(fault: SystemFault) -> &'static str {
    match fault {
        SystemFault::NoCode(_) => "; 'asm' of examples/system/system.text makes one",
        SystemFault::NoSegment => "; 'asm' of examples/system/system.text makes a file with one",
        SystemFault::Volume(fault) => help_of_command(fault),
        _ => "",
    }
}

/// The message for a refused command on a volume.
#[derive(Clone, Copy)]
struct Unfiled(FilerFault);

impl fmt::Display for Unfiled {
    fn fmt<W: fmt::Write>(&self, f: &mut fmt::Formatter<W>) -> fmt::Result {
        match self.0 {
            FilerFault::Volume(fault) => {
                let help = help_of_command(fault);
                write!(f, "{fault}{help}")
            }
            FilerFault::Text(fault) => {
                let help = help_of_text(fault);
                write!(f, "{fault}{help}")
            }
            FilerFault::BadDate => f.write_str(
                "invalid date: the year is 0 to 127 (84 for 1984), the month 1 to 12, the day 1 to 31",
            ),
            FilerFault::NoMemory => write!(f, "{}", FilerFault::NoMemory),
        }
    }
}

/// The message for a refusal: its reason and a hint.
#[derive(Clone, Copy)]
pub struct Reason(pub Refusal);

impl fmt::Display for Reason {
    fn fmt<W: fmt::Write>(&self, f: &mut fmt::Formatter<W>) -> fmt::Result {
        match self.0 {
            Refusal::Hex => f.write_str(
                "the input is not pairs of hexadecimal digits and white space, for example 02 03 82 D6",
            ),
            Refusal::Boot(BootFault::Exec(error)) => {
                write!(
                    f,
                    "execution error in the call of the main program: {error}"
                )
            }
            Refusal::Boot(BootFault::NoFile) => f.write_str(
                "no such file; 'files list' shows the names",
            ),
            Refusal::Boot(BootFault::NotCode) => f.write_str(
                "not a code file; 'files list' shows its kind, 'files put NAME code' adds one",
            ),
            Refusal::Boot(fault) => write!(f, "{fault}"),
            Refusal::Volume(fault) => {
                let help = help_for(fault);
                write!(f, "{fault}{help}")
            }
            Refusal::Filer(fault) => write!(f, "{}", Unfiled(fault)),
            Refusal::Code(CodeFault::NoDictionary) => f.write_str(
                "the file has no dictionary: a code file has at least 512 bytes; 'asm' makes one from an assembly text",
            ),
            Refusal::Code(fault) => {
                write!(
                    f,
                    "{fault}, so it is not a code file; 'files get' copies one from an image"
                )
            }
            Refusal::Asm(fault) => write!(f, "{fault}"),
            Refusal::System(fault) => {
                let help = help_of_system(fault);
                write!(f, "{fault}{help}")
            }
        }
    }
}
