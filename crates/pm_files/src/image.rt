//! Reads the file of an image.
use crate::fault::DiskFault;
use std::alloc::Global;
use std::fs::File;
use std::io;
use std::io::{ErrorKind, Read};
use std::rt::Files;

/// The maximum length of an image, in bytes.
pub const IMAGE_LIMIT: usize = 33_554_432;

/// Returns the fault for a failed call on an open file. `NotFound` becomes `Other`, because a file that is open exists.
pub(crate) fn fault_of_open(error: io::Error) -> DiskFault {
    match DiskFault::of_read(error) {
        DiskFault::Read(ErrorKind::NotFound) => DiskFault::Read(ErrorKind::Other),
        fault => fault,
    }
}

/// Reads the open file `file` from its current position to its end.
///
/// # Errors
///
/// - A read fails: the fault that `fault_of_open` returns.
/// - The file has more than `IMAGE_LIMIT` bytes after this position: `TooLong`.
/// - Out of memory: `NoMemory`.
pub(crate) fn read_file<F: Read>(alloc: Global, file: &mut F) -> Result<Vec<u8>, DiskFault> {
    let mut image = Vec::new(alloc);
    let mut buffer = [0; 4096];
    for _ in 0..=IMAGE_LIMIT {
        let count = file.read(&mut buffer).map_err(fault_of_open)?;
        if count == 0 {
            return Ok(image);
        }
        if count > IMAGE_LIMIT - image.len().min(IMAGE_LIMIT) {
            return Err(DiskFault::TooLong);
        }
        image.extend_from_slice(&buffer[..count])?;
    }
    Err(DiskFault::TooLong)
}

/// Reads the file at `path` without a lock.
///
/// If another program replaces the file during the read, the result is the old file or the new file, never a mixture.
/// If another program writes into the file during the read, the result can be a mixture, and no error is returned.
///
/// # Errors
///
/// - The file cannot be opened: `Read`, or `NoMemory`.
/// - The file cannot be read: an error of `read_file`, for example `TooLong`.
pub(crate) fn read_image<R: Files>(
    rt: &R,
    alloc: Global,
    path: &str,
) -> Result<Vec<u8>, DiskFault> {
    let mut file = File::open(rt, path).map_err(DiskFault::of_read)?;
    read_file(alloc, &mut file)
}
