//! The files of a folder, read and added to a volume.
ghost use Rattle.std.specs.Prelude.{◌≡◌, ◌≤◌, [], IfOk, None, Some, OnErr, OnOk, length, map, option_map};
ghost use Rattle.std.specs.Prelude.{string_bytes, vec_items};
ghost use Rattle.pm_files.specs.Folders.{IsAt};
ghost use Rattle.pm_import.specs.Imported.{Imports, ImportsListed, ImportsPlain, Reads, Takes, TakesFilled, TakesLine};
ghost use Rattle.pm_import.specs.Imported.{TakesLines, TakesList, TakesListed, TakesNamed, TakesNames, TakesPlain};
ghost use Rattle.pm_import.specs.Imported.{from_filled, left_seen, seen, with_date, with_left};
ghost use Rattle.pm_import.specs.Listed as listed;
ghost use Rattle.pm_import.specs.Placed as placed;
ghost use Rattle.pm_volume.specs.Directory.{IsVolume};

use crate::listed::{Listed, last_date_in, lines_of, listed_of};
use crate::placed::place;
use crate::plain::{escaped_name, plain_line, plain_listed};
use pm_filer::FilerFault;
use pm_files::{DiskFault, Folder};
use pm_folder::Ends;
use pm_volume::Volume;
use std::alloc::Global;
use std::io::ErrorKind;

/// The name of the list of the files in a folder.
const LIST: &str = "LIST";

/// The maximal length of `LIST`, in bytes. A volume has at most 77 files, and the list of an export has at most 12,000
/// bytes.
const LONGEST_LIST: usize = 65_536;

/// The maximal number of lines of `LIST` that are not empty. The list of an export has at most 78 lines.
const MOST_LINES: usize = 155;

/// Why the file of a line of `LIST` was not added.
#[derive(Clone, Copy)]
pub enum Why {
    /// The line is not valid.
    Line,
    /// The file could not be read.
    Unread(DiskFault),
    /// The volume or the text format refuses the file.
    Refused(FilerFault),
}

/// A file that was not added to the volume.
#[derive(Drop)]
pub struct Left {
    /// The name of the file in the folder. For a line that is not valid, the whole line.
    pub name: Vec<u8>,
    /// Why the file was not added.
    pub why: Why,
}

/// What an import did.
#[derive(Drop)]
pub struct ImportReport {
    /// The files that were not added, in their order.
    pub left: Vec<Left>,
    /// The lines that `LIST` would have for the files of a folder without `LIST`. Empty if the folder has `LIST`.
    pub list: Vec<u8>,
}

/// Adds a file with these contents to a volume. Returns why it was refused.
fn take_contents(
    alloc: Global,
    volume: &mut Volume,
    line: &Listed<'_>,
    ends: Ends,
    contents: &[u8],
) -> Result<Option<Why>, DiskFault>
    ensures takes { IfOk result (λ why. Takes volume.old volume.new why
        (placed.placed ends volume.old (listed.seen line.now) contents.now)) }
    ensures unchanged { OnErr result (volume.new ≡ volume.old) }
    ensures volume { IsVolume volume.old → IsVolume volume.new }
{
    match place(alloc, volume, line, ends, contents) {
        Ok(()) => Ok(None),
        Err(FilerFault::NoMemory) => Err(DiskFault::NoMemory),
        Err(fault) => Ok(Some(Why::Refused(fault))),
    }
}

/// Reads the file of a line from a folder, and adds it to a volume. Returns why it was not added.
fn take_listed<F: Folder>(
    alloc: Global,
    folder: &mut F,
    volume: &mut Volume,
    line: &Listed<'_>,
    ends: Ends,
) -> Result<Option<Why>, DiskFault>
    ensures takes { IfOk result (λ why. TakesListed (F.files folder.old) ends volume.old
        (Some (listed.seen line.now)) volume.new why) }
    ensures unchanged { OnErr result (volume.new ≡ volume.old) }
    ensures folder { F.files folder.new ≡ F.files folder.old }
    ensures at { F.at folder.new ≡ F.at folder.old }
    ensures volume { IsVolume volume.old → IsVolume volume.new }
{
    match folder.read(alloc, line.host) {
        Ok(contents) => take_contents(alloc, volume, line, ends, &contents),
        Err(DiskFault::NoMemory) => Err(DiskFault::NoMemory),
        Err(fault) => Ok(Some(Why::Unread(fault))),
    }
}

/// Appends a file that was not added, if there is a reason.
fn push_left(
    alloc: Global,
    left: &mut Vec<Left>,
    name: &[u8],
    why: Option<Why>,
) -> Result<(), DiskFault>
    ensures left { OnOk result (map left_seen left.new.items ≡ with_left (map left_seen left.old.items) name.now why) }
{
    if let Some(why) = why {
        let name = Vec::from_slice(alloc, name)?;
        match left.push(Left { name, why }) {
            Ok(()) => {}
            Err(_) => return Err(DiskFault::NoMemory),
        }
    }
    Ok(())
}

/// Adds the file of a line of `LIST` to a volume. If it cannot be added, appends it to `left`. The line is not empty.
#[tactic(auto, using(crate::proofs::Taken::filled_none, crate::proofs::Taken::filled_some))]
fn take_filled<F: Folder>(
    alloc: Global,
    folder: &mut F,
    volume: &mut Volume,
    line: &[u8],
    ends: Ends,
    left: &mut Vec<Left>,
) -> Result<(), DiskFault>
    ensures takes { OnOk result (TakesFilled (F.files folder.old) ends line.now volume.old volume.new
        (map left_seen left.old.items) (map left_seen left.new.items)) }
    ensures folder { F.files folder.new ≡ F.files folder.old }
    ensures at { F.at folder.new ≡ F.at folder.old }
    ensures volume { IsVolume volume.old → IsVolume volume.new }
{
    match listed_of(line) {
        Some(listed) => {
            let why = take_listed(alloc, folder, volume, &listed, ends)?;
            push_left(alloc, left, listed.host.as_bytes(), why)
        }
        None => push_left(alloc, left, line, Some(Why::Line)),
    }
}

/// Adds the file of a line of `LIST` to a volume. If it cannot be added, appends it to `left`. An empty line has no
/// effect.
fn take_line<F: Folder>(
    alloc: Global,
    folder: &mut F,
    volume: &mut Volume,
    line: &[u8],
    ends: Ends,
    left: &mut Vec<Left>,
) -> Result<(), DiskFault>
    ensures takes { OnOk result (TakesLine (F.files folder.old) ends line.now volume.old volume.new
        (map left_seen left.old.items) (map left_seen left.new.items)) }
    ensures folder { F.files folder.new ≡ F.files folder.old }
    ensures at { F.at folder.new ≡ F.at folder.old }
    ensures volume { IsVolume volume.old → IsVolume volume.new }
{
    match line {
        [] => Ok(()),
        [_, ..] => take_filled(alloc, folder, volume, line, ends, left),
    }
}

/// Returns `lines` from the first line that is not empty.
fn from_filled<'s, 'a>(lines: &'s [&'a [u8]]) -> &'s [&'a [u8]]
    ensures filled { map (λ line. line.now) result.now ≡ from_filled (map (λ line. line.now) lines.now) }
    ensures shorter { length result.now ≤ length lines.now }
{
    let mut rest = lines;
    while let [[], more @ ..] = rest {
        rest = more;
    }
    rest
}

/// Adds the files of lines of `LIST` to a volume, and appends those that cannot be added to `left`.
///
/// Empty lines are skipped by a loop: `LIST` may have 65,536 of them, and a call for each could exhaust the stack.
fn take_lines<F: Folder>(
    alloc: Global,
    folder: &mut F,
    volume: &mut Volume,
    lines: &[&[u8]],
    ends: Ends,
    left: &mut Vec<Left>,
) -> Result<(), DiskFault>
    ensures takes { OnOk result (TakesLines (F.files folder.old) ends (map (λ line. line.now) lines.now)
        volume.old volume.new (map left_seen left.old.items) (map left_seen left.new.items)) }
    ensures folder { F.files folder.new ≡ F.files folder.old }
    ensures at { F.at folder.new ≡ F.at folder.old }
    ensures volume { IsVolume volume.old → IsVolume volume.new }
{
    match from_filled(lines) {
        [] => Ok(()),
        [line, more @ ..] => {
            take_line(alloc, folder, volume, line, ends, left)?;
            take_lines(alloc, folder, volume, more, ends, left)
        }
    }
}

/// Sets the last date of a volume. A date that is 0 or absent has no effect.
fn set_date(volume: &mut Volume, date: Option<u16>)
    ensures date { volume.new ≡ with_date volume.old date }
    ensures volume { IsVolume volume.old → IsVolume volume.new }
{
    if let Some(date) = date
        && date != 0
    {
        volume.set_date(date);
    }
}

/// Adds the files of the lines of `LIST` to a volume, and sets its last date. The first line has the date, and each
/// other line a file. Returns the files that were not added.
fn take_list<F: Folder>(
    alloc: Global,
    folder: &mut F,
    volume: &mut Volume,
    lines: &[&[u8]],
    ends: Ends,
) -> Result<Vec<Left>, DiskFault>
    ensures takes { IfOk result (λ left. TakesList (F.files folder.old) ends (map (λ line. line.now) lines.now)
        volume.old volume.new (map left_seen left.items)) }
    ensures folder { F.files folder.new ≡ F.files folder.old }
    ensures at { F.at folder.new ≡ F.at folder.old }
    ensures volume { IsVolume volume.old → IsVolume volume.new }
{
    let mut left = Vec::new(alloc);
    match lines {
        [] => Ok(left),
        [first, files @ ..] => {
            take_lines(alloc, folder, volume, files, ends, &mut left)?;
            set_date(volume, last_date_in(first));
            Ok(left)
        }
    }
}

/// Opens the folder at `path`. A link or another file at the path is a fault of reading.
fn open<F: Folder>(folder: &mut F, path: &str) -> Result<(), DiskFault>
    ensures at { OnOk result (IsAt (F.at folder.new) path.now) }
{
    match folder.open(path) {
        Err(DiskFault::Replaced) => Err(DiskFault::Read(ErrorKind::NotADirectory)),
        done => done,
    }
}

/// Adds the file `host` of a folder without `LIST` to a volume. `contents` is what the file contains. Appends its line to
/// the list. If the file cannot be added, appends it to the files that were not added.
fn take_plain(
    alloc: Global,
    volume: &mut Volume,
    host: &str,
    ends: Ends,
    contents: &[u8],
    taken: &mut ImportReport,
) -> Result<(), DiskFault>
    ensures takes { OnOk result (TakesPlain ends host.now contents.now volume.old volume.new
        (seen taken.old) (seen taken.new)) }
    ensures volume { IsVolume volume.old → IsVolume volume.new }
{
    let name = escaped_name(alloc, host)?;
    let listed = plain_listed(host, name.as_str(), contents);
    let line = plain_line(alloc, host, name.as_str(), &listed)?;
    let why = take_contents(alloc, volume, &listed, ends, contents)?;
    push_left(alloc, &mut taken.left, host.as_bytes(), why)?;
    taken.list.extend_from_slice(line.as_bytes())?;
    Ok(())
}

/// Reads the file `host` of a folder without `LIST`, and adds it to a volume, as `take_plain` states. If the file cannot
/// be read, appends it to the files that were not added.
#[tactic(auto, unfolding(crate::specs::Imported::TakesNamed))]
fn take_named<F: Folder>(
    alloc: Global,
    folder: &mut F,
    volume: &mut Volume,
    host: &str,
    ends: Ends,
    taken: &mut ImportReport,
) -> Result<(), DiskFault>
    ensures takes { OnOk result (TakesNamed (F.files folder.old) ends host.now volume.old volume.new
        (seen taken.old) (seen taken.new)) }
    ensures folder { F.files folder.new ≡ F.files folder.old }
    ensures at { F.at folder.new ≡ F.at folder.old }
    ensures volume { IsVolume volume.old → IsVolume volume.new }
{
    match folder.read(alloc, host) {
        Ok(contents) => take_plain(alloc, volume, host, ends, &contents, taken),
        Err(DiskFault::NoMemory) => Err(DiskFault::NoMemory),
        Err(fault) => {
            push_left(
                alloc,
                &mut taken.left,
                host.as_bytes(),
                Some(Why::Unread(fault)),
            )
        }
    }
}

/// Adds the files `names` of a folder without `LIST` to a volume, in their order, as `take_named` states for each.
#[tactic(auto, using(crate::proofs::Named::names_more))]
fn take_names<F: Folder>(
    alloc: Global,
    folder: &mut F,
    volume: &mut Volume,
    names: &[String],
    ends: Ends,
    taken: &mut ImportReport,
) -> Result<(), DiskFault>
    ensures takes { OnOk result (TakesNames (F.files folder.old) ends (map string_bytes names.now)
        volume.old volume.new (seen taken.old) (seen taken.new)) }
    ensures folder { F.files folder.new ≡ F.files folder.old }
    ensures at { F.at folder.new ≡ F.at folder.old }
    ensures volume { IsVolume volume.old → IsVolume volume.new }
{
    match names {
        [] => Ok(()),
        [name, more @ ..] => {
            take_named(alloc, folder, volume, name.as_str(), ends, taken)?;
            take_names(alloc, folder, volume, more, ends, taken)
        }
    }
}

/// Adds the files of a folder without `LIST` to a volume, in the order of their names.
///
/// # Errors
///
/// - The fault of reading the folder. The volume is unchanged.
/// - The folder has more than 155 files: `Read(FileTooLarge)`. The volume is unchanged.
/// - `NoMemory`. The volume may have some of the files.
fn import_plain<F: Folder>(
    alloc: Global,
    folder: &mut F,
    volume: &mut Volume,
    ends: Ends,
) -> Result<ImportReport, DiskFault>
    ensures imports { IfOk result (λ taken. ImportsPlain (F.files folder.old) ends volume.old volume.new (seen taken)) }
    ensures folder { F.files folder.new ≡ F.files folder.old }
    ensures at { F.at folder.new ≡ F.at folder.old }
    ensures volume { IsVolume volume.old → IsVolume volume.new }
{
    let names = folder.names(alloc)?;
    if names.len() > MOST_LINES {
        return Err(DiskFault::Read(ErrorKind::FileTooLarge));
    }
    let mut taken = ImportReport {
        left: Vec::new(alloc),
        list: Vec::new(alloc),
    };
    take_names(alloc, folder, volume, &names, ends, &mut taken)?;
    Ok(taken)
}

/// Adds the files that `list`, the `LIST` of a folder, names to a volume, and sets its last date.
///
/// # Errors
///
/// - `LIST` has more than 65,536 bytes, or more than 155 lines that are not empty: `Read(FileTooLarge)`. The volume is
///   unchanged.
/// - `NoMemory`. The volume may have some of the files.
fn import_listed<F: Folder>(
    alloc: Global,
    folder: &mut F,
    volume: &mut Volume,
    list: &[u8],
    ends: Ends,
) -> Result<ImportReport, DiskFault>
    ensures imports { IfOk result (λ taken. ImportsListed (F.files folder.old) ends list.now
        volume.old volume.new (seen taken)) }
    ensures folder { F.files folder.new ≡ F.files folder.old }
    ensures at { F.at folder.new ≡ F.at folder.old }
    ensures volume { IsVolume volume.old → IsVolume volume.new }
{
    if list.len() > LONGEST_LIST {
        return Err(DiskFault::Read(ErrorKind::FileTooLarge));
    }
    let lines = lines_of(alloc, list)?;
    if lines.iter().filter(|line| !line.is_empty()).count() > MOST_LINES {
        return Err(DiskFault::Read(ErrorKind::FileTooLarge));
    }
    let left = take_list(alloc, folder, volume, &lines, ends)?;
    let list = Vec::new(alloc);
    Ok(ImportReport { left, list })
}

/// Returns the contents of the `LIST` of a folder, or `None` if the folder has no such file.
fn list_in<F: Folder>(alloc: Global, folder: &mut F) -> Result<Option<Vec<u8>>, DiskFault>
    ensures reads { IfOk result (λ list. Reads (F.files folder.old) (option_map vec_items list)) }
    ensures folder { F.files folder.new ≡ F.files folder.old }
    ensures at { F.at folder.new ≡ F.at folder.old }
{
    match folder.read(alloc, LIST) {
        Ok(list) => Ok(Some(list)),
        Err(DiskFault::Read(ErrorKind::NotFound)) => Ok(None),
        Err(fault) => Err(fault),
    }
}

/// Opens the folder at `path`, and adds its files to a volume. Returns the files that were not added, in their order.
///
/// - If the folder has `LIST`, the files that it names are added, in the order of its lines, each with its name, kind and
///   date. Then the volume's last date is set to that of `LIST`, unless that date is 0 or not valid.
/// - If the folder has no `LIST`, its files are added in the order of their names. `plain_listed` states the name and the
///   kind of each. They have no date. The lines that `LIST` would have for them are returned too.
///
/// A file that the volume has already, with the same name and contents, counts as added. `ends` states how the lines of
/// texts in the folder end.
///
/// # Errors
///
/// - The fault of opening the folder, of reading `LIST`, or of reading the names of the files. The volume is unchanged.
/// - `LIST` has more than 65,536 bytes, or more than 155 lines that are not empty; or a folder without `LIST` has more
///   than 155 files: `Read(FileTooLarge)`. The volume is unchanged.
/// - `NoMemory`. The volume may have some of the files.
pub fn import<F: Folder>(
    alloc: Global,
    folder: &mut F,
    volume: &mut Volume,
    path: &str,
    ends: Ends,
) -> Result<ImportReport, DiskFault>
    ensures imports { IfOk result (λ taken. Imports (F.files folder.new) ends volume.old volume.new (seen taken)) }
    ensures at { OnOk result (IsAt (F.at folder.new) path.now) }
    ensures volume { IsVolume volume.old → IsVolume volume.new }
{
    open(folder, path)?;
    match list_in(alloc, folder)? {
        Some(list) => import_listed(alloc, folder, volume, &list, ends),
        None => import_plain(alloc, folder, volume, ends),
    }
}
