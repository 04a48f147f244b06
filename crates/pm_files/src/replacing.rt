//! Writes a file as a whole.
ghost use Rattle.std.specs.Prelude.{◌≡◌};
ghost use Rattle.pm_files.specs.Nodes.{claim_of, first_mode, is_still};

use crate::fault::DiskFault;
use crate::host::{Host, Node};
use crate::place::{Spot, WritePath};
use std::fs::{OpenFile, OpenOptions, Permissions};
use std::io::{ErrorKind, Seek, SeekFrom, Write};
use std::os::unix::fs::PermissionsExt;
use std::{fs, io};

/// The mode of a new file until it gets the mode of the file that it replaces.
const PRIVATE: u32 = 0o600;

/// The mode of a new file that replaces no file. The system removes the bits of the umask from this mode.
pub(crate) const ORDINARY: u32 = 0o666;

/// The bit in the mode of a directory that prevents users from removing the files of other users.
const STICKY: u32 = 0o1000;

/// The maximum number of attempts to create a temporary file. Each failed attempt removes the file at the temporary
/// path.
const CLEARINGS: u8 = 100;

/// Appends `bytes` to `file`, which has `len` bytes, and writes them to the disk. If the write fails, the file is cut
/// to its old length.
fn append<F: Write + Seek + OpenFile>(file: &mut F, len: u64, bytes: &[u8]) -> io::Result<()> {
    if bytes.is_empty() {
        return Ok(());
    }
    file.seek(SeekFrom::Start(len))?;
    match file.write_all(bytes).and_then(|_| file.sync_all()) {
        Ok(()) => Ok(()),
        Err(error) => {
            let _ = file.set_len(len);
            Err(error)
        }
    }
}

/// Replaces the content of `file`, an open regular file of `len` bytes, with `bytes`.
///
/// The function first appends the bytes that exceed the old length, so that a full disk leaves the file unchanged. It
/// shortens the file only after all bytes are written.
fn overwrite_file<F: Write + Seek + OpenFile>(
    file: &mut F,
    len: u64,
    bytes: &[u8],
) -> io::Result<()> {
    let front = usize::try_from(len).unwrap_or(usize::MAX);
    if let Some((front, rest)) = bytes.split_at_checked(front) {
        append(file, len, rest)?;
        file.seek(SeekFrom::Start(0))?;
        file.write_all(front)?;
    } else {
        file.write_all(bytes)?;
        file.set_len(bytes.len() as u64)?;
    }
    file.sync_all()
}

/// Writes `bytes` over the content of the open file `file`. A file that is not regular does not change its length.
fn overwrite<F: Write + Seek + OpenFile>(file: &mut F, bytes: &[u8]) -> io::Result<()> {
    let old = file.metadata()?;
    if old.is_file() {
        overwrite_file(file, old.len(), bytes)
    } else {
        file.write_all(bytes)
    }
}

/// Returns whether a write error of this kind means that the file cannot be replaced by a new file. The directory does
/// not accept a new name, or the file itself cannot be replaced.
fn is_denied(kind: ErrorKind) -> bool {
    matches!(
        kind,
        ErrorKind::PermissionDenied
            | ErrorKind::ResourceBusy
            | ErrorKind::ReadOnlyFilesystem
            | ErrorKind::CrossesDevices
            | ErrorKind::InvalidFilename
    )
}

/// The result of an attempt to replace the file at a path with a new file, if the attempt returned no error.
#[derive(Clone, Copy)]
enum Came {
    /// The new file is at the path. The old file was replaced.
    Stands,
    /// The directory does not accept the new file, or the new file cannot get the owner and the mode of the old one.
    /// The old file is unchanged.
    Unfit,
}

/// Returns `Unfit` if the file can still be written in place after `fault`. Otherwise returns `fault` as an error.
fn unless_denied(fault: DiskFault) -> Result<Came, DiskFault> {
    match fault {
        DiskFault::Write(kind) if is_denied(kind) => Ok(Came::Unfit),
        fault => Err(fault),
    }
}

/// Returns whether the mode of the directory `folder` prevents users from removing the files of other users.
fn is_sticky<R: Host>(rt: &R, folder: &R::File) -> bool {
    match rt.node(folder) {
        Ok(folder) => folder.mode & STICKY != 0,
        Err(_) => false,
    }
}

/// Removes the file at the temporary path of `spot`, if such a file exists.
///
/// # Errors
///
/// - The directory does not permit the removal, and it has no sticky bit: `Write`.
/// - The file cannot be removed for another reason: `InTheWay`.
fn clear<R: Host>(rt: &R, spot: &Spot<R::File>) -> Result<(), DiskFault> {
    match fs::remove_file(rt, spot.beside.as_str()) {
        Ok(()) => Ok(()),
        Err(error) => match error.kind() {
            ErrorKind::NotFound => Ok(()),
            ErrorKind::PermissionDenied if !is_sticky(rt, &spot.folder) => {
                Err(DiskFault::of_write(error))
            }
            _ => Err(DiskFault::InTheWay),
        },
    }
}

/// Creates and locks the temporary file that will replace another file. Only this program uses the name of a temporary
/// file. So an existing file with this name is removed, and it is never opened or followed.
///
/// # Errors
///
/// - The file cannot be created or locked: `Write`.
/// - A file at the temporary path cannot be removed: an error of `clear`.
/// - A file exists again at the temporary path after each of `CLEARINGS` removals: `InTheWay`.
fn make_beside<R: Host>(rt: &R, spot: &Spot<R::File>, mode: u32) -> Result<R::File, DiskFault> {
    for _ in 0..CLEARINGS {
        match rt.make(spot.beside.as_str(), mode) {
            Ok(file) => {
                if rt.try_lock(&file).map_err(DiskFault::of_write)? {
                    return Ok(file);
                }
                clear(rt, spot)?;
            }
            Err(error) if error.kind() == ErrorKind::AlreadyExists => clear(rt, spot)?,
            Err(error) => return Err(DiskFault::of_write(error)),
        }
    }
    Err(DiskFault::InTheWay)
}

/// Gives the new file `file` the owner, the group and the mode of the file `old`. If `old` is None, nothing is changed.
fn dress<R: Host>(rt: &R, file: &R::File, old: Option<Node>) -> io::Result<()> {
    let Some(old) = old else {
        return Ok(());
    };
    let new = rt.node(file)?;
    if new.owner != old.owner || new.group != old.group {
        rt.set_owner(file, old.owner, old.group)?;
    }
    file.set_permissions(Permissions::from_mode(old.mode))
}

/// Writes `bytes` to the new file `file`, and waits until they are on the disk.
pub(crate) fn fill<F: Write + OpenFile>(file: &mut F, bytes: &[u8]) -> io::Result<()> {
    file.write_all(bytes)?;
    file.sync_all()
}

/// Returns the mode with which the new file is created. `old` is the file that it replaces, if it replaces one.
fn first_mode(old: Option<Node>) -> u32
    ensures mode { result ≡ first_mode old }
{
    match old {
        Some(_) => PRIVATE,
        None => ORDINARY,
    }
}

/// Returns whether a name that named the file `old` and now names the file `now` still names the same file. If both are
/// None, the name still names no file.
fn is_still(old: Option<Node>, now: Option<Node>) -> bool
    ensures still { result ≡ is_still old now }
{
    match old {
        Some(old) => match now {
            Some(now) => old.is(now),
            None => false,
        },
        None => now.is_none(),
    }
}

/// Returns the error `Replaced` if `path` no longer names the file `old`. If `old` is None, `path` must still name no
/// file. Returns the error `Write` if the system cannot read the path.
fn expect<R: Host>(rt: &R, path: &str, follows: bool, old: Option<Node>) -> Result<(), DiskFault> {
    let now = rt.node_at(path, follows).map_err(DiskFault::of_write)?;
    if is_still(old, now) {
        Ok(())
    } else {
        Err(DiskFault::Replaced)
    }
}

/// Returns the error `Replaced` if the given name, or the path after its links, no longer leads to the file `old`.
fn expect_old<R: Host>(
    rt: &R,
    place: &WritePath<R::File>,
    old: Option<Node>,
) -> Result<(), DiskFault> {
    expect(rt, place.name.as_str(), true, old)?;
    match &place.spot {
        Some(spot) => expect(rt, spot.path.as_str(), false, old),
        None => Ok(()),
    }
}

/// Returns whether the file `file` is at `path`. Returns `unseen` if the system cannot read the path.
fn stands<R: Host>(rt: &R, path: &str, file: Node, unseen: bool) -> bool {
    match rt.node_at(path, false) {
        Ok(Some(now)) => now.is(file),
        Ok(None) => false,
        Err(_) => unseen,
    }
}

/// Renames the temporary file `new` to the path of the file `old`, if both paths still name these files.
fn move_over<R: Host>(
    rt: &R,
    place: &WritePath<R::File>,
    spot: &Spot<R::File>,
    new: Node,
    old: Option<Node>,
) -> Result<(), DiskFault> {
    expect(rt, spot.beside.as_str(), false, Some(new))?;
    expect_old(rt, place, old)?;
    fs::rename(rt, spot.beside.as_str(), spot.path.as_str()).map_err(DiskFault::of_write)
}

/// Renames the temporary file `file` to the path of the file `old`, and checks that it is at this path afterwards.
fn take_place<R: Host>(
    rt: &R,
    place: &WritePath<R::File>,
    spot: &Spot<R::File>,
    file: &R::File,
    old: Option<Node>,
) -> Result<(), DiskFault> {
    let new = rt.node(file).map_err(DiskFault::of_write)?;
    let path = spot.path.as_str();
    match move_over(rt, place, spot, new, old) {
        Ok(()) if stands(rt, path, new, true) => Ok(()),
        Ok(()) => Err(DiskFault::Replaced),
        // If another program created the same file, it may have renamed the file to this path.
        Err(_) if stands(rt, path, new, false) => Ok(()),
        Err(fault) => Err(fault),
    }
}

/// Removes the file `file`, which this program created, if `path` still names it.
pub(crate) fn remove_own<R: Host>(rt: &R, path: &str, file: &R::File) {
    if let (Ok(own), Ok(Some(now))) = (rt.node(file), rt.node_at(path, false)) {
        if now.is(own) {
            let _ = fs::remove_file(rt, path);
        }
    }
}

/// Writes `bytes` to the temporary file `file`, and replaces the file `old` with it. Returns `Unfit` if the new file
/// cannot get the owner and the mode of `old`, or if the directory does not permit the renaming.
///
/// If the bytes cannot be written, an error is returned: writing in place would fail too.
fn put_made<R: Host>(
    rt: &R,
    place: &WritePath<R::File>,
    spot: &Spot<R::File>,
    file: &mut R::File,
    old: Option<Node>,
    bytes: &[u8],
) -> Result<Came, DiskFault> {
    if dress(rt, file, old).is_err() {
        return Ok(Came::Unfit);
    }
    fill(file, bytes).map_err(DiskFault::of_write)?;
    match take_place(rt, place, spot, file, old) {
        Ok(()) => Ok(Came::Stands),
        Err(fault) => unless_denied(fault),
    }
}

/// Replaces the file `old` with a new file that contains `bytes`. If the replacement fails, the old file is unchanged.
fn put_beside<R: Host>(
    rt: &R,
    place: &WritePath<R::File>,
    spot: &Spot<R::File>,
    old: Option<Node>,
    bytes: &[u8],
) -> Result<Came, DiskFault> {
    let mut file = match make_beside(rt, spot, first_mode(old)) {
        Ok(file) => file,
        Err(fault) => return unless_denied(fault),
    };
    let came = put_made(rt, place, spot, &mut file, old, bytes);
    match came {
        // This call writes the names in the directory to the disk, if the system can do so.
        Ok(Came::Stands) => {
            let _ = spot.folder.sync_all();
        }
        _ => remove_own(rt, spot.beside.as_str(), &file),
    }
    came
}

/// Creates a file with the contents `bytes` at `path`, without a temporary file.
fn make_there<R: Host>(rt: &R, path: &str, bytes: &[u8]) -> Result<(), DiskFault> {
    let mut file = rt.make(path, ORDINARY).map_err(DiskFault::of_write)?;
    let done = fill(&mut file, bytes);
    if done.is_err() {
        remove_own(rt, path, &file);
    }
    done.map_err(DiskFault::of_write)
}

/// Writes `bytes` to a file that did not exist when `place` was created. If a file exists at the path now, it is never
/// opened.
fn write_new<R: Host>(rt: &R, place: &WritePath<R::File>, bytes: &[u8]) -> Result<(), DiskFault> {
    let Some(spot) = &place.spot else {
        return make_there(rt, place.name.as_str(), bytes);
    };
    match put_beside(rt, place, spot, None, bytes)? {
        Came::Stands => Ok(()),
        Came::Unfit => make_there(rt, spot.path.as_str(), bytes),
    }
}

/// How a file that was opened for writing is related to the file that the program prepared.
#[derive(Clone, Copy)]
enum Claimed {
    /// It is the prepared file, which the program has locked.
    Held,
    /// It is another file than the prepared file.
    Other,
    /// It is the prepared file, which is not locked but can be locked.
    Free,
    /// It is the prepared file, which is a device, a pipe or a socket.
    Shared,
}

fn claim_of(was: Node, holds: bool, opened: Node) -> Claimed
    ensures claim { result ≡ claim_of was holds opened }
{
    if !was.is(opened) {
        Claimed::Other
    } else if holds {
        Claimed::Held
    } else if opened.is_file() {
        Claimed::Free
    } else {
        Claimed::Shared
    }
}

/// Returns `Ok` if this program may write the file `file`: it has locked the file before, or it locks the file now, or
/// the file is not regular. `was` is the prepared file, and `opened` is the data of `file`.
///
/// # Errors
///
/// - The file is not the prepared file: `Replaced`.
/// - The lock fails: `Write`. The kind of the error is `WouldBlock` if another program has locked the file.
fn claim<R: Host>(
    rt: &R,
    place: &WritePath<R::File>,
    file: &R::File,
    was: Node,
    opened: Node,
) -> Result<(), DiskFault> {
    match claim_of(was, place.held.is_some(), opened) {
        Claimed::Held | Claimed::Shared => Ok(()),
        Claimed::Other => Err(DiskFault::Replaced),
        Claimed::Free if rt.try_lock(file).map_err(DiskFault::of_write)? => Ok(()),
        Claimed::Free => Err(DiskFault::Write(ErrorKind::WouldBlock)),
    }
}

/// Writes `bytes` over the content of the file `file`, which cannot be replaced by a new file. Returns the error
/// `Replaced` if the path no longer names this file. Then the file is unchanged.
fn write_over<R: Host>(
    rt: &R,
    place: &WritePath<R::File>,
    mut file: R::File,
    old: Node,
    bytes: &[u8],
) -> Result<(), DiskFault> {
    expect_old(rt, place, Some(old))?;
    overwrite(&mut file, bytes).map_err(DiskFault::of_write)
}

/// Returns the data of the prepared file `was`. If the file is locked, the data are read again: some systems give a
/// file another number when it is opened for writing.
fn known<R: Host>(rt: &R, place: &WritePath<R::File>, was: Node) -> Result<Node, DiskFault> {
    match &place.held {
        Some(held) => rt.node(&held.file).map_err(DiskFault::of_write),
        None => Ok(was),
    }
}

/// Writes `bytes` to a file that existed when `place` was created. The file is opened only if each of its paths still
/// leads to it. Otherwise the error is `Replaced`.
fn write_old<R: Host>(
    rt: &R,
    place: &WritePath<R::File>,
    was: Node,
    bytes: &[u8],
) -> Result<(), DiskFault> {
    expect_old(rt, place, Some(known(rt, place, was)?))?;
    let file = OpenOptions::new()
        .write(true)
        .open(rt, place.opening())
        .map_err(DiskFault::of_write)?;
    let old = rt.node(&file).map_err(DiskFault::of_write)?;
    claim(rt, place, &file, known(rt, place, was)?, old)?;
    let came = match &place.spot {
        Some(spot) if old.is_replaced() => put_beside(rt, place, spot, Some(old), bytes)?,
        _ => Came::Unfit,
    };
    match came {
        Came::Stands => Ok(()),
        Came::Unfit => write_over(rt, place, file, old, bytes),
    }
}

/// Replaces the content of the file of `place` with `bytes`.
///
/// At each moment, the file has either its old bytes or the new bytes. In three cases this is not guaranteed, because
/// the new bytes are written in place, over the old bytes:
///
/// - the file is not regular;
/// - it has several names;
/// - its directory does not accept a new file with the same owner and mode.
///
/// If writing in place fails after some bytes, the file is a mixture of old and new bytes. The call allocates no
/// memory.
///
/// A file that did not exist when `place` was created is created now.
///
/// # Errors
///
/// - The path could not be read when `place` was created: `Write`.
/// - The path now names another file, or no file: `Replaced`. The other file is not opened.
/// - The file cannot be written: `Write` or `InTheWay`.
pub(crate) fn replace<R: Host>(
    rt: &R,
    place: &WritePath<R::File>,
    bytes: &[u8],
) -> Result<(), DiskFault> {
    match place.was {
        Ok(Some(was)) => write_old(rt, place, was, bytes),
        Ok(None) => write_new(rt, place, bytes),
        Err(kind) => Err(DiskFault::Write(kind)),
    }
}
