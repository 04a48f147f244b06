//! Messages about the end of a run and about the position at which an error stopped it.
use crate::stopped::Stopped;
use pm_notes::system_name;
use pm_opcode::row_at;
use pm_session::Ending;
use pm_words::ExecError;
use std::fmt;

/// The hint for a run that fails because it calls a procedure of the operating system.
const SYSTEM: &str =
    "CXP 0, n calls procedure n of the operating system, and --system PATH adds its segment";

/// A procedure of the operating system, by its number. Its `Display` shows the number and, if it is known, the name.
#[derive(Clone, Copy)]
struct Procedure(u8);

impl fmt::Display for Procedure {
    fn fmt<W: fmt::Write>(&self, f: &mut fmt::Formatter<W>) -> fmt::Result {
        let number = self.0;
        match system_name(number) {
            Some(name) => write!(f, "{number}, {name}"),
            None => write!(f, "{number}"),
        }
    }
}

/// Returns the unit of the system library whose segment has number `segment`, as in Apple Pascal 1.1.
fn unit_name(segment: u8) -> Option<&'static str> {
    match segment {
        20 => Some("TURTLEGRAPHICS"),
        22 => Some("APPLESTUFF"),
        28 => Some("CHAINSTUFF"),
        29 => Some("TRANSCEND"),
        30 => Some("LONGINTIO"),
        31 => Some("PASCALIO"),
        _ => None,
    }
}

/// A call of a procedure whose segment is missing or not valid.
#[derive(Clone, Copy)]
struct Called {
    segment: u8,
    procedure: u8,
    /// Whether the system segment was added.
    has_system: bool,
}

impl fmt::Display for Called {
    fn fmt<W: fmt::Write>(&self, f: &mut fmt::Formatter<W>) -> fmt::Result {
        let (segment, procedure) = (self.segment, self.procedure);
        if segment == 0 && !self.has_system {
            return write!(f, "{SYSTEM}; here n is {}", Procedure(procedure));
        }
        write!(f, "CXP {segment}, {procedure} calls segment {segment}")?;
        match unit_name(segment) {
            Some(name) => write!(f, ", {name}, a unit of the system's library"),
            None => Ok(()),
        }
    }
}

/// Returns whether the instruction in `code` works on reals. Such an instruction operates on reals, compares values of
/// type 2, or calls a standard procedure on reals.
fn is_of_reals(code: [u8; 3]) -> bool {
    match row_at(code[0]).mnemonic {
        "ABR" | "ADR" | "DVR" | "FLO" | "FLT" | "MPR" | "NGR" | "SBR" | "SQR" => true,
        "EQU" | "GEQ" | "GRT" | "LEQ" | "LES" | "NEQ" => code[1] == 2,
        "CSP" => 23 <= code[1] && code[1] <= 31 || code[1] == 36,
        _ => false,
    }
}

/// The message for the end of a run: what the end means, and a hint.
#[derive(Clone, Copy)]
pub struct RunReason<'a> {
    pub ending: Ending,
    /// The state in which an error stopped the run, if an error stopped it.
    pub stopped: Option<&'a Stopped>,
    /// Whether the system segment was added.
    pub has_system: bool,
}

impl RunReason<'_> {
    /// Writes what the instruction that was stopped shows in addition to `error`.
    fn write_more<W: fmt::Write>(
        &self,
        f: &mut fmt::Formatter<W>,
        error: ExecError,
        stopped: &Stopped,
    ) -> fmt::Result {
        let [opcode, segment, procedure] = stopped.code;
        match error {
            ExecError::NoSegment if row_at(opcode).mnemonic == "CXP" => {
                let called = Called {
                    segment,
                    procedure,
                    has_system: self.has_system,
                };
                write!(f, "; {called}")
            }
            ExecError::UserIo => write!(f, "; IORESULT is {}", stopped.ioresult),
            ExecError::Unimplemented if is_of_reals(stopped.code) => {
                f.write_str("; real arithmetic is not supported")
            }
            _ => Ok(()),
        }
    }
}

impl fmt::Display for RunReason<'_> {
    fn fmt<W: fmt::Write>(&self, f: &mut fmt::Formatter<W>) -> fmt::Result {
        match self.ending {
            Ending::Ended => f.write_str("the program ended"),
            Ending::Error(error) => {
                write!(f, "{error}")?;
                match self.stopped {
                    Some(stopped) => self.write_more(f, error, stopped),
                    None => Ok(()),
                }
            }
            Ending::Limit => f.write_str(
                "the step limit was reached; --limit N or --unlimited allows more steps",
            ),
            Ending::Waiting => f.write_str("the program waits for a key, and the input has ended"),
        }
    }
}

/// The message for the position at which an error stopped a run: the position in the code, and the trace line of the
/// step that failed.
#[derive(Clone, Copy)]
pub struct Whereabouts<'a>(pub &'a Stopped);

impl fmt::Display for Whereabouts<'_> {
    fn fmt<W: fmt::Write>(&self, f: &mut fmt::Formatter<W>) -> fmt::Result {
        f.write_str("stopped")?;
        if let Some(place) = self.0.place {
            let (segment, procedure, offset) = (place.segment, place.procedure, place.offset);
            write!(
                f,
                " in segment {segment}, procedure {procedure}, at offset {offset}"
            )?;
        }
        match &self.0.step {
            Some(step) => write!(f, "; the failing step: {step}"),
            None => Ok(()),
        }
    }
}
