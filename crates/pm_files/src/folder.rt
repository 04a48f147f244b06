//! A folder that is created or opened once, and the files in it.
ghost use Rattle.std.specs.Prelude.{◌≡◌, ℕ, List, Option, None, IfErr, IfOk, OnErr, OnOk, map, string_bytes};
ghost use Rattle.pm_files.specs.Folders.{AddsFile, HasNames, IsAt, IsEmptyFolder, MayFail};
ghost use Rattle.pm_files.specs.Held.{HoldsFile, HoldsNone};

use crate::fault::DiskFault;
use crate::host::{Host, Kind, Node};
use crate::image::{fault_of_open, read_file};
use crate::place::by_number;
use crate::replacing::{ORDINARY, fill, remove_own};
use std::alloc::{AllocError, Global};
use std::fs;
use std::fs::{File, OpenOptions};
use std::io::ErrorKind;
use std::rt::Files;

/// A folder of the host, whose files are read and written by their names.
///
/// Until `create` or `open` returns `Ok`, the folder has no files, and no file can be added.
pub trait Folder {
    /// The contents of each file of the folder, by its name, if they are known.
    ghost files: { Self → Option (List ℕ → Option (List ℕ)) };

    /// The path at which the folder was created or opened, where that is known.
    ghost at: { Self → Option (List ℕ) };

    /// Creates the folder at `path`. Nothing may exist at `path`. The parent folder must exist.
    fn create(&mut self, path: &str) -> Result<(), DiskFault>
        ensures empty { OnOk result (IsEmptyFolder (files self.new)) }
        ensures at { OnOk result (IsAt (at self.new) path.now) }
        ensures unchanged { OnErr result (files self.new ≡ files self.old) };

    /// Opens the folder at `path`, which must exist.
    fn open(&mut self, path: &str) -> Result<(), DiskFault>
        ensures at { OnOk result (IsAt (at self.new) path.now) };

    /// Creates a file with the name `name` and the contents `bytes` in the folder. The call replaces no file and
    /// follows no link. If it returns an error, no file was created.
    fn add(&mut self, name: &str, bytes: &[u8]) -> Result<(), DiskFault>
        ensures adds { OnOk result (AddsFile (files self.old) (files self.new) name.now bytes.now) }
        ensures at { at self.new ≡ at self.old }
        ensures unchanged { OnErr result (files self.new ≡ files self.old) };

    /// Returns the contents of the regular file `name` of the folder, which has at most `IMAGE_LIMIT` bytes. The call
    /// follows no link. `Read(NotFound)` is returned only if the folder has no file `name`.
    fn read(&mut self, alloc: Global, name: &str) -> Result<Vec<u8>, DiskFault>
        ensures value { IfOk result (λ bytes. HoldsFile (files self.old) name.now bytes.items) }
        ensures fault { IfErr result (λ fault. MayFail (files self.old) name.now fault) }
        ensures missing { IfErr result (λ fault.
            fault ≡ DiskFault.Read ErrorKind.NotFound → HoldsNone (files self.old) name.now) }
        ensures at { at self.new ≡ at self.old }
        ensures unchanged { files self.new ≡ files self.old };

    /// Returns the names of the regular files of the folder, each once, in the order of their bytes. Names that begin
    /// with a full stop are left out.
    fn names(&mut self, alloc: Global) -> Result<Vec<String>, DiskFault>
        ensures names { IfOk result (λ names. HasNames (files self.old) (map string_bytes names.items)) }
        ensures at { at self.new ≡ at self.old }
        ensures unchanged { files self.new ≡ files self.old };
}

/// An open folder, and a path that leads to it by its descriptor.
#[derive(Drop)]
struct Opened<F> {
    /// The open folder. As long as it is open, its descriptor leads to the same folder, even if the folder is moved or
    /// replaced.
    folder: F,
    /// The data of the folder in the file system.
    node: Node,
    /// The path of the folder by its descriptor.
    path: String,
}

/// A folder of the operating system. Its contents are not known to contracts, because other programs can change them.
#[derive(Drop)]
pub struct HostFolder<'a, R: Host> {
    rt: &'a R,
    opened: Option<Opened<R::File>>,
}

/// Returns the path of the file `name` in the folder with the path `folder`.
///
/// # Errors
///
/// - `Read(InvalidInput)`: the name contains a slash, so that the path could lead out of the folder.
/// - `NoMemory`.
fn joined(alloc: Global, folder: &str, name: &str) -> Result<String, DiskFault> {
    if name.contains('/') {
        return Err(DiskFault::Read(ErrorKind::InvalidInput));
    }
    match format!(in alloc; "{folder}/{name}") {
        Ok(path) => Ok(path),
        Err(_) => Err(DiskFault::NoMemory),
    }
}

/// Opens the folder at `path`. Returns the error `Replaced` if a link or another file is at `path` after the opening,
/// or if the system has no paths by descriptor.
fn open_folder<R: Host + AllocGlobal>(rt: &R, path: &str) -> Result<Opened<R::File>, DiskFault> {
    // If the path ended with a slash, the system would follow a link at the path.
    let path = path.trim_end_matches('/');
    // The opening of a pipe would wait for another program. With `/.` after the path, the system refuses a pipe.
    let inside = joined(rt.alloc(), path, ".")?;
    let folder = File::open(rt, inside.as_str()).map_err(DiskFault::of_read)?;
    let node = rt.node(&folder).map_err(DiskFault::of_read)?;
    let there = rt.node_at(path, false).map_err(DiskFault::of_read)?;
    if !there.is_some_and(|there| there.is(node)) {
        return Err(DiskFault::Replaced);
    }
    match by_number(rt, &folder)? {
        Some(path) => Ok(Opened { folder, node, path }),
        None => Err(DiskFault::Replaced),
    }
}

/// Creates the file `path` in `folder`, with the contents `bytes`. Returns the error `Replaced` if the file has another
/// owner than the folder. In this case another user has put a folder in the place of the created folder. If an error is
/// returned, the file is removed.
fn add_file<R: Host>(rt: &R, folder: Node, path: &str, bytes: &[u8]) -> Result<(), DiskFault> {
    let mut file = rt.make(path, ORDINARY).map_err(DiskFault::of_write)?;
    let done = match rt.node(&file) {
        Ok(node) if node.owner == folder.owner => fill(&mut file, bytes).map_err(
            DiskFault::of_write,
        ),
        Ok(_) => Err(DiskFault::Replaced),
        Err(error) => Err(DiskFault::of_write(error)),
    };
    if done.is_err() {
        remove_own(rt, path, &file);
    }
    done
}

/// Opens a regular file for reading. The function first tries to open the file for reading and writing. In this mode,
/// the opening does not wait if a pipe was put at the path.
fn open_file<R: Files>(rt: &R, path: &str) -> Result<R::File, DiskFault> {
    match OpenOptions::new().read(true).write(true).open(rt, path) {
        Ok(file) => Ok(file),
        Err(_) => File::open(rt, path).map_err(DiskFault::of_read),
    }
}

/// Opens the regular file at `path`. Returns the error `Replaced` if another file is at `path` after the opening.
fn regular<R: Host>(rt: &R, path: &str) -> Result<R::File, DiskFault> {
    let there = rt.node_at(path, false).map_err(DiskFault::of_read)?;
    let node: Node = match there {
        None => return Err(DiskFault::Read(ErrorKind::NotFound)),
        Some(node) if node.kind == Kind::File => node,
        Some(_) => return Err(DiskFault::Read(ErrorKind::InvalidInput)),
    };
    let file = open_file(rt, path)?;
    let open = rt.node(&file).map_err(fault_of_open)?;
    if open.is(node) && open.is_file() {
        Ok(file)
    } else {
        Err(DiskFault::Replaced)
    }
}

/// Returns whether the file `name` of the folder at `path` is a regular file whose name does not begin with a full stop.
fn is_listed<R: Host>(rt: &R, alloc: Global, path: &str, name: &str) -> Result<bool, DiskFault> {
    if name.starts_with('.') {
        return Ok(false);
    }
    let path = joined(alloc, path, name)?;
    match rt.node_at(path.as_str(), false) {
        Ok(Some(node)) => Ok(node.is_file()),
        Ok(None) => Ok(false),
        Err(error) => Err(DiskFault::of_read(error)),
    }
}

/// Returns the names of the regular files of the folder at `path` that do not begin with a full stop, in the order of
/// their bytes.
fn names_in<R: Host>(rt: &R, alloc: Global, path: &str) -> Result<Vec<String>, DiskFault> {
    let mut names = Vec::new(alloc);
    for name in rt.names(alloc, path).map_err(DiskFault::of_read)? {
        if is_listed(rt, alloc, path, name.as_str())? {
            push_name(&mut names, name)?;
        }
    }
    match names.sort() {
        Ok(()) => Ok(names),
        Err(_) => Err(DiskFault::NoMemory),
    }
}

/// Appends `name` to `names`.
fn push_name(names: &mut Vec<String>, name: String) -> Result<(), DiskFault> {
    match names.push(name) {
        Ok(()) => Ok(()),
        Err(_) => Err(DiskFault::NoMemory),
    }
}

impl<'a, R: Host + AllocGlobal> HostFolder<'a, R> {
    /// Returns a folder of the system that is not yet created or opened.
    pub fn new(rt: &'a R) -> HostFolder<'a, R> {
        HostFolder { rt, opened: None }
    }
}

impl<R: Host + AllocGlobal> Folder for HostFolder<'_, R> {
    ghost files = { λ _. None };

    ghost at = { λ _. None };

    fn create(&mut self, path: &str) -> Result<(), DiskFault> {
        fs::create_dir(self.rt, path).map_err(DiskFault::of_write)?;
        self.opened = Some(open_folder(self.rt, path)?);
        Ok(())
    }

    fn open(&mut self, path: &str) -> Result<(), DiskFault> {
        self.opened = Some(open_folder(self.rt, path)?);
        Ok(())
    }

    fn add(&mut self, name: &str, bytes: &[u8]) -> Result<(), DiskFault> {
        let Some(opened) = &self.opened else {
            return Err(DiskFault::Write(ErrorKind::NotFound));
        };
        let path = joined(self.rt.alloc(), opened.path.as_str(), name)?;
        add_file(self.rt, opened.node, path.as_str(), bytes)
    }

    fn read(&mut self, alloc: Global, name: &str) -> Result<Vec<u8>, DiskFault> {
        let Some(opened) = &self.opened else {
            return Err(DiskFault::Read(ErrorKind::NotFound));
        };
        let path = joined(self.rt.alloc(), opened.path.as_str(), name)?;
        let mut file = regular(self.rt, path.as_str())?;
        read_file(alloc, &mut file)
    }

    fn names(&mut self, alloc: Global) -> Result<Vec<String>, DiskFault> {
        let Some(opened) = &self.opened else {
            return Err(DiskFault::Read(ErrorKind::NotFound));
        };
        names_in(self.rt, alloc, opened.path.as_str())
    }
}
