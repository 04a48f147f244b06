//! Handles standard streams that were closed when the program started. Files must not get the descriptors of these
//! streams.
use std::fs::{File, OpenOptions};
use std::io;
use std::os::fd::AsRawFd;

/// The path of the file that is opened in place of a closed stream.
const NOWHERE: &str = "/dev/null";

/// The path that is opened if `NOWHERE` cannot be opened. It is a directory, which always exists and can be neither
/// read nor written.
const ROOT: &str = "/";

/// Opens `NOWHERE`: only for writing if `writes` is true, and only for reading otherwise. If `NOWHERE` cannot be
/// opened, opens `ROOT`.
fn open(rt: &HostRuntime, writes: bool) -> io::Result<File> {
    match OpenOptions::new()
        .read(!writes)
        .write(writes)
        .open(rt, NOWHERE)
    {
        Ok(file) => Ok(file),
        Err(_) => File::open(rt, ROOT),
    }
}

/// Opens a file that gets the lowest free descriptor, if this descriptor belongs to a standard stream (0, 1 or 2).
///
/// The file with descriptor 0 cannot be read, and the files with descriptors 1 and 2 cannot be written, as if the
/// streams were closed. As long as the file is open, no other file gets this descriptor. Returns `None` if no standard
/// stream was closed, or if no file could be opened.
fn hold(rt: &HostRuntime) -> Option<File> {
    let file = open(rt, true).ok()?;
    let number = file.as_raw_fd();
    if number == 0 {
        return Some(file);
    }
    drop(file);
    if number > 2 {
        return None;
    }
    open(rt, false).ok()
}

/// Opens a file for each standard stream that is closed. As long as the result exists, no other file that is opened
/// gets the descriptor of such a stream.
pub fn hold_closed(rt: &HostRuntime) -> [Option<File>; 3] {
    [hold(rt), hold(rt), hold(rt)]
}
