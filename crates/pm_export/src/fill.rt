//! Writes the files of a volume to a folder of the host.
ghost use Rattle.std.specs.Prelude.{◌≡◌, ◌++◌, ◌∷◌, [], IfOk, OnErr, OnOk, codes, map, string_bytes};
ghost use Rattle.pm_export.specs.Exported.{Adds, AddsOne, AddsSome, FillsFolder, IsBrokenOff, names_of};
ghost use Rattle.pm_files.specs.Folders.{IsAt};
ghost use Rattle.pm_folder.specs.Folder.{folder_of, seen};

use pm_files::{DiskFault, Folder};
use pm_folder::{Ends, FolderFile, Wanted, first_line, folder_of};
use pm_volume::Volume;
use std::alloc::Global;

/// The name of the file in the folder that lists the other files.
const LIST: &str = "LIST";

/// A file that could not be written to the folder.
#[derive(Drop)]
pub struct Unwritten {
    /// The name of the file in the folder.
    pub host: String,
    /// The fault for which the file could not be written.
    pub fault: DiskFault,
}

/// Appends the file `host`, which could not be written because of `fault`, to `unwritten`.
fn push_unwritten(
    alloc: Global,
    unwritten: &mut Vec<Unwritten>,
    host: &str,
    fault: DiskFault,
) -> Result<(), DiskFault>
    ensures named { OnOk result (names_of unwritten.new.items ≡ names_of unwritten.old.items ++ host.now ∷ []) }
{
    let host = String::from_str(alloc, host)?;
    match unwritten.push(Unwritten { host, fault }) {
        Ok(()) => Ok(()),
        Err(_) => Err(DiskFault::NoMemory),
    }
}

/// Adds `files` to `folder`. For each file that was added, its line is appended to `list`. Each other file is appended
/// to `unwritten`.
#[tactic(auto, using(crate::proofs::AddedFiles::adds_none))]
fn add_files<F: Folder>(
    alloc: Global,
    folder: &mut F,
    files: &[FolderFile],
    list: &mut String,
    unwritten: &mut Vec<Unwritten>,
) -> Result<(), DiskFault>
    ensures adds { OnOk result (Adds (F.files folder.old) (F.files folder.new) (map seen files.now)
        (string_bytes list.old) (string_bytes list.new) (names_of unwritten.old.items)
        (names_of unwritten.new.items)) }
    ensures at { F.at folder.new ≡ F.at folder.old }
    ensures some { OnErr result (AddsSome (F.files folder.old) (F.files folder.new) (map seen files.now)) }
{
    match files {
        [] => Ok(()),
        [file, more @ ..] => {
            match folder.add(file.host.as_str(), &file.contents) {
                Ok(()) => list.push_str(file.line.as_str())?,
                Err(fault) => push_unwritten(alloc, unwritten, file.host.as_str(), fault)?,
            }
            add_files(alloc, folder, more, list, unwritten)
        }
    }
}

/// Adds the file LIST with the contents `list` to `folder`. If it could not be written, it is appended to `unwritten`.
fn add_list<F: Folder>(
    alloc: Global,
    folder: &mut F,
    list: &str,
    unwritten: &mut Vec<Unwritten>,
) -> Result<(), DiskFault>
    ensures adds { OnOk result (AddsOne (F.files folder.old) (F.files folder.new) (codes "LIST") list.now
        (names_of unwritten.old.items) (names_of unwritten.new.items)) }
    ensures at { F.at folder.new ≡ F.at folder.old }
    ensures unchanged { OnErr result (F.files folder.new ≡ F.files folder.old) }
{
    match folder.add(LIST, list.as_bytes()) {
        Ok(()) => Ok(()),
        Err(fault) => push_unwritten(alloc, unwritten, LIST, fault),
    }
}

/// Creates a folder at `path` and writes the files of `volume` to it. Then writes a list of the files that were
/// written. Returns the files that could not be written, in their order. Each file is either written as a whole or does
/// not exist.
///
/// If `text` is given, files of kind text that have a header are written as plain text with these line ends. The memory
/// for the files is requested before the folder is created.
///
/// # Errors
///
/// - `NoMemory`. If the folder was already created, it has some of the files.
/// - The folder cannot be created: the fault of this call. Then no new folder exists, or it is empty.
#[tactic(auto, using(crate::proofs::AddedFiles::adds_none, crate::proofs::AddedFiles::adds_some))]
pub fn export<F: Folder>(
    alloc: Global,
    folder: &mut F,
    volume: &Volume,
    path: &str,
    text: Option<Ends>,
    wanted: &Wanted,
) -> Result<Vec<Unwritten>, DiskFault>
    ensures filled { IfOk result (λ unwritten. FillsFolder (F.files folder.new) volume.now
        (folder_of text wanted.now volume.now) (names_of unwritten.items)) }
    ensures at { OnOk result (IsAt (F.at folder.new) path.now) }
    ensures broken { OnErr result (IsBrokenOff (F.files folder.old) (F.files folder.new)
        (folder_of text wanted.now volume.now)) }
{
    let files = folder_of(alloc, volume, text, wanted)?;
    let mut list = first_line(alloc, volume)?;
    let mut unwritten = Vec::new(alloc);
    folder.create(path)?;
    add_files(alloc, folder, &files, &mut list, &mut unwritten)?;
    add_list(alloc, folder, list.as_str(), &mut unwritten)?;
    Ok(unwritten)
}
