//! The faults for which a file cannot be read or written.
ghost use Rattle.std.specs.Prelude.{◌≡◌};
ghost use Rattle.pm_files.specs.Faults.{fault_of};

use pm_jobs::Fault;
use std::alloc::AllocError;
use std::io;
use std::io::ErrorKind;

/// The fault for which an image or the file of the printed bytes could not be read or written.
#[derive(Clone, Copy)]
pub enum DiskFault {
    /// The file cannot be read.
    Read(ErrorKind),
    /// The file has more than `IMAGE_LIMIT` bytes.
    TooLong,
    /// Another program has locked the file in order to write to it.
    Busy,
    /// The file cannot be written.
    Write(ErrorKind),
    /// Since the file was prepared for writing, another program has moved or replaced the file at the path.
    Replaced,
    /// A file exists at the path of the temporary file, and it cannot be removed.
    InTheWay,
    /// The program is out of memory.
    NoMemory,
}

impl DiskFault {
    /// Returns the fault for a failed read with `error`: `NoMemory` if the system was out of memory, and `Read`
    /// otherwise.
    pub(crate) fn of_read(error: io::Error) -> DiskFault {
        match error.kind() {
            ErrorKind::OutOfMemory => DiskFault::NoMemory,
            kind => DiskFault::Read(kind),
        }
    }

    /// Returns the fault for a failed write: `Write`, for any `error`.
    pub(crate) fn of_write(error: io::Error) -> DiskFault {
        DiskFault::Write(error.kind())
    }

    /// Returns the fault that a job reports for this fault: a read fault, a write fault, or out of memory.
    pub fn fault(self) -> Fault
        ensures value { result ≡ fault_of self }
    {
        match self {
            DiskFault::Read(_) | DiskFault::TooLong | DiskFault::Busy => Fault::Read,
            DiskFault::Write(_) | DiskFault::Replaced | DiskFault::InTheWay => Fault::Write,
            DiskFault::NoMemory => Fault::NoMemory,
        }
    }

    /// Returns the reason for this fault, as English text for a message.
    pub fn reason(self) -> &'static str {
        match self {
            DiskFault::Read(kind) | DiskFault::Write(kind) => words(kind),
            DiskFault::TooLong => "more than 33,554,432 bytes",
            DiskFault::Busy => "another program has locked the file",
            DiskFault::Replaced => "another program has moved or replaced the file",
            DiskFault::InTheWay =>
                "the new file must be created at this path, but what exists there cannot be removed",
            DiskFault::NoMemory => "no memory",
        }
    }
}

/// Returns the English text for an error of the operating system.
fn words(kind: ErrorKind) -> &'static str {
    match kind {
        ErrorKind::NotFound => "no such file or folder",
        ErrorKind::PermissionDenied => "no permission",
        ErrorKind::IsADirectory => "it is a folder",
        ErrorKind::NotADirectory => "a part of the path is not a folder",
        ErrorKind::StorageFull => "no space left on the device",
        ErrorKind::FileTooLarge => "the file is too large for the system or its limits",
        ErrorKind::ReadOnlyFilesystem => "the device is read-only",
        ErrorKind::WouldBlock => "another program is writing the file",
        ErrorKind::AlreadyExists => "it exists already",
        ErrorKind::InvalidInput => "it is not a regular file",
        _ => "the operating system refuses the access",
    }
}

impl From<AllocError> for DiskFault {
    ghost use Rattle.pm_files.specs.declared.fault.DiskFault.TheVariants.{NoMemory};

    ghost from_gives = { λ _ fault. fault ≡ NoMemory };

    fn from(_: AllocError) -> DiskFault {
        DiskFault::NoMemory
    }
}
