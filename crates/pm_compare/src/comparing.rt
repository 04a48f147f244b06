//! The files of two volumes, in pairs.
ghost use Rattle.std.specs.Prelude.{◌≡◌, ◌++◌, ◌<◌, IfOk, IfSome, OnOk, length, map};
ghost use Rattle.std.specs.List.{find, position};
ghost use Rattle.pm_volume.specs.Files.{files_of, is_named};
ghost use Rattle.pm_compare.specs.Verdicts as verdicts;

use crate::bytes::{bytes_of, verdict_of};
use crate::verdicts::{Compared, Verdict};
use pm_volume::{Entry, Volume, is_same_name};
use std::alloc::{AllocError, Global};

/// Returns the entries of the files of `volume`, in directory order.
fn files_of(alloc: Global, volume: &Volume) -> Result<Vec<Entry>, AllocError>
    ensures files { IfOk result (λ files. files.items ≡ files_of volume.now) }
{
    let mut list = Vec::new(alloc);
    let mut entries = volume.entries();
    'files: while let Some(entry) = entries.next() {
        list.push(entry)?;
    }
    Ok(list)
}

/// Returns the index of the first of `files` with the name `name`, or `None`. Case is ignored.
fn place_of(files: &[Entry], name: &[u8]) -> Option<usize>
    ensures place { result ≡ position (is_named name.now) files.now }
    ensures within { IfSome result (λ place. place < length files.now) }
{
    files
        .iter()
        .position(|entry| is_same_name(entry.characters(), name))
}

/// Removes the first of `files` with the name `name`, and returns it. Returns `None` if no file has this name. Case is
/// ignored.
fn take_named(files: &mut Vec<Entry>, name: &[u8]) -> Option<Entry>
    ensures taken { result ≡ find (is_named name.now) files.old.items }
    ensures left { files.new.items ≡ verdicts.without_first (is_named name.now) files.old.items }
{
    match place_of(files.as_slice(), name) {
        Some(place) => Some(files.remove(place)),
        None => None,
    }
}

/// Returns the result for the file of `entry` on `here`. `other` is the entry of the file on `there` with which it is
/// compared, or `None` if there is no such file.
fn verdict_for(here: &Volume, there: &Volume, entry: &Entry, other: Option<Entry>) -> Verdict
    ensures verdict { result ≡ verdicts.verdict_for here.now there.now entry.now other }
{
    match other {
        Some(other) => {
            let left = bytes_of(here, entry);
            let right = bytes_of(there, &other);
            verdict_of(left, entry.kind, right, other.kind)
        }
        None => Verdict::OnlyHere,
    }
}

/// Appends the results for the files of the second volume that were compared with no file.
fn push_only_there(found: &mut Vec<Compared>, files: &[Entry]) -> Result<(), AllocError>
    ensures found { OnOk result (found.new.items ≡ found.old.items ++ map verdicts.only_there files.now) }
{
    match files {
        [] => Ok(()),
        [entry, more @ ..] => {
            found.push(Compared {
                entry: *entry,
                verdict: Verdict::OnlyThere,
            })?;
            push_only_there(found, more)
        }
    }
}

/// Compares the files of two volumes, and returns the results.
///
/// The files of `here` come first, in directory order. Each is compared with the first file of `there` that has the
/// same name and was not compared yet. Case is ignored in names. The files of `there` that were compared with no file
/// follow, in directory order.
///
/// # Errors
///
/// `AllocError`: memory was refused.
pub fn compare(alloc: Global, here: &Volume, there: &Volume) -> Result<Vec<Compared>, AllocError>
    ensures compared { IfOk result (λ found. found.items ≡ verdicts.compared here.now there.now) }
{
    let mut found = Vec::new(alloc);
    let mut unpaired = files_of(alloc, there)?;
    let mut entries = here.entries();
    'files: while let Some(entry) = entries.next() {
        let other = take_named(&mut unpaired, entry.characters());
        let verdict = verdict_for(here, there, &entry, other);
        found.push(Compared { entry, verdict })?;
    }
    push_only_there(&mut found, &unpaired)?;
    Ok(found)
}
