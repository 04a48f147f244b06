//! The refusals of an input and their numbers.
ghost use Rattle.std.specs.Prelude.{◌≡◌, Some};
ghost use Rattle.pm_batch.specs.Refusals.{asm_text, boot_text, code_text, is_want, refusal_text, system_text};
ghost use Rattle.pm_batch.specs.Refusals.{text_fault_text, volume_text};

use pm_asm::AsmFault;
use pm_codefile::CodeFault;
use pm_filer::{FilerFault, SystemFault};
use pm_machine::BootFault;
use pm_textfile::TextFault;
use pm_volume::VolumeFault;
use std::fmt;

/// The reason why an input is refused.
#[derive(Clone, Copy)]
pub enum Refusal {
    /// The input is not a list of pairs of hexadecimal digits with white space.
    Hex,
    /// The machine does not start on the program.
    Boot(BootFault),
    /// The image is no volume, or no volume can be created.
    Volume(VolumeFault),
    /// The command on a volume is refused.
    Filer(FilerFault),
    /// The input is no code file.
    Code(CodeFault),
    /// The input is not a valid assembler source text, or one of its segments is too long.
    Asm(AsmFault),
    /// The system segment cannot be added.
    System(SystemFault),
}

impl Refusal {
    /// Returns whether the variant means out of memory. Out of memory is not reported as a refusal.
    pub fn is_want(self) -> bool
        ensures value { result ≡ is_want self }
    {
        match self {
            Refusal::Boot(BootFault::NoMemory) => true,
            Refusal::Volume(VolumeFault::NoMemory) => true,
            Refusal::Filer(FilerFault::NoMemory) => true,
            Refusal::Filer(FilerFault::Volume(VolumeFault::NoMemory)) => true,
            Refusal::Filer(FilerFault::Text(TextFault::NoMemory)) => true,
            Refusal::Asm(AsmFault::NoMemory) => true,
            Refusal::System(SystemFault::NoMemory) => true,
            Refusal::System(SystemFault::Volume(VolumeFault::NoMemory)) => true,
            _ => false,
        }
    }
}

/// The number of a fault of a volume. If the fault names an entry of the directory or the fault of the first copy, this
/// number follows.
#[derive(Clone, Copy)]
struct VolumeNumber(VolumeFault);

impl fmt::Display for VolumeNumber {
    ghost output = { λ fault. Some (volume_text fault.0) };

    fn fmt<W: fmt::Write>(&self, f: &mut fmt::Formatter<W>) -> fmt::Result {
        let number = self.0.number();
        match self.0.detail() {
            Some(detail) => write!(f, "{number} {detail}"),
            None => write!(f, "{number}"),
        }
    }
}

/// The number of a fault of a text. If the fault names a line or a position, it follows.
#[derive(Clone, Copy)]
struct TextNumber(TextFault);

impl fmt::Display for TextNumber {
    ghost output = { λ fault. Some (text_fault_text fault.0) };

    fn fmt<W: fmt::Write>(&self, f: &mut fmt::Formatter<W>) -> fmt::Result {
        let number = self.0.number();
        match self.0.place() {
            Some(place) => write!(f, "{number} {place}"),
            None => write!(f, "{number}"),
        }
    }
}

/// The number of a fault of a code file. If the fault names a slot, it follows.
#[derive(Clone, Copy)]
struct CodeNumber(CodeFault);

impl fmt::Display for CodeNumber {
    ghost output = { λ fault. Some (code_text fault.0) };

    fn fmt<W: fmt::Write>(&self, f: &mut fmt::Formatter<W>) -> fmt::Result {
        let number = self.0.number();
        match self.0.slot() {
            Some(slot) => write!(f, "{number} {slot}"),
            None => write!(f, "{number}"),
        }
    }
}

/// The number of a fault of an assembler source text. If the fault names a line or a segment, it follows.
#[derive(Clone, Copy)]
struct AsmNumber(AsmFault);

impl fmt::Display for AsmNumber {
    ghost output = { λ fault. Some (asm_text fault.0) };

    fn fmt<W: fmt::Write>(&self, f: &mut fmt::Formatter<W>) -> fmt::Result {
        let number = self.0.number();
        match self.0.place() {
            Some(line) => write!(f, "{number} {line}"),
            None => write!(f, "{number}"),
        }
    }
}

/// The number of a fault of a start. If the fault is an execution error, the number of the error follows.
#[derive(Clone, Copy)]
struct BootNumber(BootFault);

impl fmt::Display for BootNumber {
    ghost output = { λ fault. Some (boot_text fault.0) };

    fn fmt<W: fmt::Write>(&self, f: &mut fmt::Formatter<W>) -> fmt::Result {
        let number = self.0.number();
        match self.0 {
            BootFault::Exec(error) => {
                let error = error.number();
                write!(f, "{number} {error}")
            }
            _ => write!(f, "{number}"),
        }
    }
}

/// The number of a fault of the system segment. If the fault contains another fault, the number of that fault follows.
#[derive(Clone, Copy)]
struct SystemNumber(SystemFault);

impl fmt::Display for SystemNumber {
    ghost output = { λ fault. Some (system_text fault.0) };

    fn fmt<W: fmt::Write>(&self, f: &mut fmt::Formatter<W>) -> fmt::Result {
        match self.0 {
            SystemFault::NoCode(fault) => {
                let fault = CodeNumber(fault);
                write!(f, "1 {fault}")
            }
            SystemFault::NoSegment => write!(f, "2"),
            SystemFault::NoProgram(fault) => {
                let fault = CodeNumber(fault);
                write!(f, "3 {fault}")
            }
            SystemFault::Taken => write!(f, "4"),
            SystemFault::Volume(fault) => {
                let fault = VolumeNumber(fault);
                write!(f, "5 {fault}")
            }
            SystemFault::NoMemory => write!(f, "6"),
        }
    }
}

impl fmt::Display for Refusal {
    ghost output = { λ refusal. Some (refusal_text refusal) };

    fn fmt<W: fmt::Write>(&self, f: &mut fmt::Formatter<W>) -> fmt::Result {
        match *self {
            Refusal::Hex => write!(f, "refused hex 1"),
            Refusal::Boot(fault) => {
                let fault = BootNumber(fault);
                write!(f, "refused boot {fault}")
            }
            Refusal::Volume(fault) => {
                let fault = VolumeNumber(fault);
                write!(f, "refused volume {fault}")
            }
            Refusal::Filer(FilerFault::Volume(fault)) => {
                let fault = VolumeNumber(fault);
                write!(f, "refused filer 1 {fault}")
            }
            Refusal::Filer(FilerFault::Text(fault)) => {
                let fault = TextNumber(fault);
                write!(f, "refused filer 2 {fault}")
            }
            Refusal::Code(fault) => {
                let fault = CodeNumber(fault);
                write!(f, "refused code {fault}")
            }
            Refusal::Asm(fault) => {
                let fault = AsmNumber(fault);
                write!(f, "refused asm {fault}")
            }
            Refusal::System(fault) => {
                let fault = SystemNumber(fault);
                write!(f, "refused system {fault}")
            }
            Refusal::Filer(FilerFault::BadDate) => write!(f, "refused filer 3"),
            Refusal::Filer(FilerFault::NoMemory) => write!(f, "refused filer 4"),
        }
    }
}
