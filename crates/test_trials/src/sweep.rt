//! Tests in which each call of a command line fails in turn.
use crate::command::{CommandLine, come};
use std::alloc::Global;
use std::io;
use test_host::{Came, Disk, copy};

/// The letters of the calls whose failure must be reported: reading, writing, truncating, syncing and renaming a file,
/// and reading and writing a standard stream.
const TOLD: &str = "rwlsnIO";

/// Returns whether the first files of `paths` have their new bytes and all others their old bytes, each of them
/// completely.
fn are_whole(old: &Disk, new: &Disk, now: &Disk, paths: &str) -> bool {
    let mut is_old = false;
    for path in paths.split(',') {
        let bytes = now.bytes(path);
        let is_new = bytes == new.bytes(path);
        if bytes != old.bytes(path) && (is_old || !is_new) {
            return false;
        }
        is_old = is_old || !is_new;
    }
    true
}

/// Returns whether a command line has the same result as without a failing call, except that its message may be
/// missing.
fn is_done(good: &Came, came: &Came, paths: &str) -> bool {
    for path in paths.split(',') {
        if came.disk.bytes(path) != good.disk.bytes(path) {
            return false;
        }
    }
    came.status == good.status
        && came.disk.names.len() == good.disk.names.len()
        && came.disk.out.as_slice() == good.disk.out.as_slice()
        && (came.disk.err.as_str() == good.disk.err.as_str() || came.disk.err.is_empty())
}

/// Returns whether the failure of call `number` must be reported.
fn is_told(good: &Came, number: usize) -> bool {
    match good.disk.log.as_bytes().get(number) {
        Some(letter) => TOLD.as_bytes().contains(letter),
        None => false,
    }
}

/// Returns whether a command line stopped at call `number`. Its status is then 4, it has a message, and its output is a
/// prefix of the complete output. It has no more files than without a failing call. If the failure need not be
/// reported, one more temporary file may remain.
fn is_broken_off(good: &Came, came: &Came, number: usize) -> bool {
    let message = came.disk.err.as_str();
    let left = usize::from(!is_told(good, number));
    came.status == 4
        && (message == "read fault\n" || message == "write fault\n")
        && good
            .disk
            .out
            .as_slice()
            .starts_with(came.disk.out.as_slice())
        && came.disk.names.len() <= good.disk.names.len().saturating_add(left)
}

/// Executes a command line once without a failing call, and then once for each of its calls, where this call fails.
/// Returns whether every failing run was correct, and the result without a failing call.
///
/// A failing run is correct in two cases:
///
/// - It stopped with status 4. The first files of `paths` are new and the other files are old.
/// - The failure need not be reported, and the result is the same as without a failing call.
pub fn sweep(
    alloc: Global,
    old: &Disk,
    command: CommandLine<'_>,
    paths: &str,
) -> io::Result<(bool, Came)> {
    let good = come(alloc, copy(alloc, old)?, command, None);
    let mut holds = true;
    for number in 0..good.disk.calls {
        let came = come(alloc, copy(alloc, old)?, command, Some(number));
        let is_right = if is_broken_off(&good, &came, number) {
            are_whole(old, &good.disk, &came.disk, paths)
        } else {
            !is_told(&good, number) && is_done(&good, &came, paths)
        };
        holds = holds && is_right;
    }
    Ok((holds, good))
}
