//! A file that is prepared for writing: its paths and its lock.
use crate::fault::DiskFault;
use crate::host::{Host, Kind, Node};
use crate::image::{fault_of_open, read_file};
use std::alloc::Global;
use std::fs::{File, OpenOptions};
use std::io::{ErrorKind, Seek, SeekFrom};
use std::rt::Files;
use std::{fs, io};

/// The maximum number of attempts to open and lock a file. An attempt fails if another program replaces the file before
/// it is locked.
const OPENINGS: u8 = 100;

/// The maximum number of paths that are checked while symbolic links are followed.
const LINKS: u8 = 40;

/// An open file that is locked until this value is dropped.
#[derive(Drop)]
pub(crate) struct Held<F> {
    pub(crate) file: F,
    /// Whether the file is open for reading.
    reads: bool,
    /// The path by which this file can be opened again, even if its names have changed. `None` if the system has no
    /// such paths.
    again: Option<String>,
}

/// A location for a new file: a directory, and the paths of two names in it.
///
/// The paths lead through the open directory. So they name files in this directory, even if another program changes a
/// directory or a link above it.
#[derive(Drop)]
pub(crate) struct Spot<F> {
    /// The directory. It is open as long as this value exists.
    pub(crate) folder: F,
    /// The path of the file.
    pub(crate) path: String,
    /// The path of the temporary file.
    pub(crate) beside: String,
    /// The path of the temporary file as error messages show it, without `/proc/self/fd`.
    pub(crate) told: String,
}

/// A path whose file will be written. All memory for writing is allocated when this value is created.
#[derive(Drop)]
pub(crate) struct WritePath<F> {
    /// The path as the user gave it.
    pub(crate) name: String,
    /// The file at the path when this value was created, or `None` if no file existed. An error if the path could not
    /// be read.
    pub(crate) was: Result<Option<Node>, ErrorKind>,
    /// The location of the file after all links are followed. `None` if no temporary file can be created, for example
    /// because the directory cannot be opened. Then the file can only be written in place.
    pub(crate) spot: Option<Spot<F>>,
    /// The open file, if it is locked.
    pub(crate) held: Option<Held<F>>,
}

/// Returns the directory part of `path`: `/` for a file in the root, and `.` if `path` has no slash.
pub(crate) fn folder_of(path: &str) -> &str {
    match path.rsplit_once('/') {
        Some(("", _)) => "/",
        Some((folder, _)) => folder,
        None => ".",
    }
}

/// Returns the path to which the symbolic link at `path` leads. `link` is the text of the link. If `link` is relative,
/// it is appended to the directory part of `path`.
fn led_to(alloc: Global, path: &str, link: &str) -> Result<String, DiskFault> {
    match path.rsplit_once('/') {
        Some((folder, _)) if !link.starts_with('/') => {
            match format!(in alloc; "{folder}/{link}") {
                Ok(whole) => Ok(whole),
                Err(_) => Err(DiskFault::NoMemory),
            }
        }
        _ => Ok(String::from_str(alloc, link)?),
    }
}

/// Returns the path to which the symbolic link at `path` leads, or `None` if the link cannot be read.
fn link_at<R: Host + AllocGlobal>(rt: &R, path: &str) -> Result<Option<String>, DiskFault> {
    match fs::read_link(rt, path) {
        Ok(link) => {
            let link = link.as_path();
            Ok(Some(led_to(rt.alloc(), path, link.to_string_lossy())?))
        }
        Err(error) if error.kind() == ErrorKind::OutOfMemory => Err(DiskFault::NoMemory),
        Err(_) => Ok(None),
    }
}

/// Returns the path after all symbolic links at the end of `name` are followed. The function also works if the
/// directory has no absolute path. Returns `None` if a link cannot be read, or if more than 39 links follow each other.
fn followed<R: Host + AllocGlobal>(rt: &R, name: &str) -> Result<Option<String>, DiskFault> {
    let mut path = String::from_str(rt.alloc(), name)?;
    for _ in 0..LINKS {
        match rt.node_at(path.as_str(), false) {
            Ok(Some(node)) if node.kind == Kind::Link => match link_at(rt, path.as_str())? {
                Some(next) => path = next,
                None => return Ok(None),
            },
            _ => return Ok(Some(path)),
        }
    }
    Ok(None)
}

/// Returns the path of `name` after all symbolic links are followed, or `None` if this path cannot be found.
fn resolved<R: Host + AllocGlobal>(rt: &R, name: &str) -> Result<Option<String>, DiskFault> {
    match fs::canonicalize(rt, name) {
        Ok(path) => {
            let path = path.as_path();
            Ok(Some(String::from_str(rt.alloc(), path.to_string_lossy())?))
        }
        Err(error) if error.kind() == ErrorKind::OutOfMemory => Err(DiskFault::NoMemory),
        Err(_) => followed(rt, name),
    }
}

/// Returns a path of the open file `file` by its descriptor. The path leads to the file even if the names of the file
/// have changed. Returns `None` if the system has no such paths.
pub(crate) fn by_number<R: Host + AllocGlobal>(
    rt: &R,
    file: &R::File,
) -> Result<Option<String>, DiskFault> {
    let number = rt.number(file);
    let Ok(path) = format!(in rt.alloc(); "/proc/self/fd/{number}") else {
        return Err(DiskFault::NoMemory);
    };
    match (rt.node(file), rt.node_at(path.as_str(), true)) {
        (Ok(node), Ok(Some(found))) if node.is(found) => Ok(Some(path)),
        _ => Ok(None),
    }
}

/// Returns the path of the file `path` through its open directory `folder`. Returns `path` itself if the system has no
/// such paths.
fn through<R: Host + AllocGlobal>(
    rt: &R,
    folder: &R::File,
    path: &str,
) -> Result<String, DiskFault> {
    let Some(number) = by_number(rt, folder)? else {
        return Ok(String::from_str(rt.alloc(), path)?);
    };
    let name = match path.rsplit_once('/') {
        Some((_, name)) => name,
        None => path,
    };
    match format!(in rt.alloc(); "{number}/{name}") {
        Ok(path) => Ok(path),
        Err(_) => Err(DiskFault::NoMemory),
    }
}

/// Returns the path of the temporary file for `path`.
fn beside_of(alloc: Global, path: &str) -> Result<String, DiskFault> {
    match format!(in alloc; "{path}.pmach-new") {
        Ok(path) => Ok(path),
        Err(_) => Err(DiskFault::NoMemory),
    }
}

/// Returns the path of the temporary file for `name`, after all links are followed. Returns `None` if the path after
/// the links cannot be found.
pub(crate) fn new_path<R: Host + AllocGlobal>(
    rt: &R,
    name: &str,
) -> Result<Option<String>, DiskFault> {
    match resolved(rt, name)? {
        Some(path) => Ok(Some(beside_of(rt.alloc(), path.as_str())?)),
        None => Ok(None),
    }
}

/// Returns whether the file `was` exists but has no name at `path`, for example a file of `/proc` that was removed.
fn is_nameless<R: Host>(rt: &R, was: Result<Option<Node>, ErrorKind>, path: &str) -> bool {
    match was {
        Ok(Some(_)) => matches!(rt.node_at(path, false), Ok(None)),
        _ => false,
    }
}

/// Opens the directory of `path`, and creates the paths that lead through it. Returns `None` if the directory cannot be
/// opened, or if the file `was` has no name in this directory.
fn spot_of<R: Host + AllocGlobal>(
    rt: &R,
    path: &str,
    was: Result<Option<Node>, ErrorKind>,
) -> Result<Option<Spot<R::File>>, DiskFault> {
    let Ok(folder) = File::open(rt, folder_of(path)) else {
        return Ok(None);
    };
    let told = beside_of(rt.alloc(), path)?;
    let path = through(rt, &folder, path)?;
    if is_nameless(rt, was, path.as_str()) {
        return Ok(None);
    }
    let beside = beside_of(rt.alloc(), path.as_str())?;
    Ok(Some(Spot {
        folder,
        path,
        beside,
        told,
    }))
}

/// Opens the file at `path`, which will be locked: for reading, or for writing if reading is not permitted. Returns the
/// file, and whether it is open for reading.
fn opened<R: Files>(rt: &R, path: &str) -> io::Result<(R::File, bool)> {
    match File::open(rt, path) {
        Ok(file) => Ok((file, true)),
        Err(error) if error.kind() == ErrorKind::PermissionDenied => {
            Ok((OpenOptions::new().write(true).open(rt, path)?, false))
        }
        Err(error) => Err(error),
    }
}

/// Opens and locks the file at `path`. Returns `None` if the program is permitted neither to read nor to write the
/// file.
///
/// # Errors
///
/// - The file cannot be opened for another reason, or the lock fails: `Read`, or `NoMemory`.
/// - Another program has locked the file: `Busy`.
fn locked<R: Host + AllocGlobal>(rt: &R, path: &str) -> Result<Option<Held<R::File>>, DiskFault> {
    let (file, reads) = match opened(rt, path) {
        Ok(opened) => opened,
        Err(error) if error.kind() == ErrorKind::PermissionDenied => return Ok(None),
        Err(error) => return Err(DiskFault::of_read(error)),
    };
    if rt.try_lock(&file).map_err(DiskFault::of_read)? {
        let again = by_number(rt, &file)?;
        Ok(Some(Held { file, reads, again }))
    } else {
        Err(DiskFault::Busy)
    }
}

/// Returns whether `path` names the file `node`. If `follows` is true, a symbolic link at the end of `path` is
/// followed.
fn names<R: Host>(rt: &R, path: &str, follows: bool, node: Node) -> Result<bool, DiskFault> {
    let named = rt.node_at(path, follows).map_err(DiskFault::of_read)?;
    Ok(named.is_some_and(|named| named.is(node)))
}

impl<F: Seek + std::io::Read> Held<F> {
    /// Reads the whole file from its start.
    ///
    /// # Errors
    ///
    /// - The file is not open for reading: `Read(PermissionDenied)`.
    /// - The file cannot be read: an error of `read_file`.
    pub(crate) fn read(&mut self, alloc: Global) -> Result<Vec<u8>, DiskFault> {
        if !self.reads {
            return Err(DiskFault::Read(ErrorKind::PermissionDenied));
        }
        self.file.seek(SeekFrom::Start(0)).map_err(fault_of_open)?;
        read_file(alloc, &mut self.file)
    }
}

impl<F> WritePath<F> {
    /// Prepares writing to the path `name`. The only error is `NoMemory`. Any other fault is reported when the file is
    /// written.
    pub(crate) fn new<R: Host<File = F> + AllocGlobal>(
        rt: &R,
        name: &str,
    ) -> Result<WritePath<F>, DiskFault> {
        let path = resolved(rt, name)?;
        let was = rt.node_at(name, true).map_err(|error| error.kind());
        let spot = match path {
            Some(path) => spot_of(rt, path.as_str(), was)?,
            None => None,
        };
        let name = String::from_str(rt.alloc(), name)?;
        Ok(WritePath {
            name,
            was,
            spot,
            held: None,
        })
    }

    /// Returns the path by which the file is opened. If the directory is open, the path leads through it.
    fn found(&self) -> &str {
        match &self.spot {
            Some(spot) => spot.path.as_str(),
            None => self.name.as_str(),
        }
    }

    /// Returns the path by which the file is opened for writing. If the file is locked and the system has paths by
    /// descriptor, it is opened by such a path and not by its name.
    pub(crate) fn opening(&self) -> &str {
        match &self.held {
            Some(
                Held {
                    again: Some(again),
                    ..
                },
            ) => again.as_str(),
            _ => self.found(),
        }
    }

    /// Returns whether `file` is the prepared file `was`, and the given name and the path after all links still name
    /// this file.
    fn leads_to<R: Host<File = F>>(&self, rt: &R, was: Node, file: &F) -> Result<bool, DiskFault> {
        let node = rt.node(file).map_err(DiskFault::of_read)?;
        if !node.is(was) || !names(rt, self.name.as_str(), true, node)? {
            return Ok(false);
        }
        match &self.spot {
            Some(spot) => names(rt, spot.path.as_str(), false, node),
            None => Ok(true),
        }
    }

    /// Prepares writing to the path `name`, and locks the file until the result is dropped. Only a regular file is
    /// locked. A file that the program is permitted neither to read nor to write is not locked. The fault is then
    /// reported when the file is read or written.
    ///
    /// # Errors
    ///
    /// - Another program has locked the file: `Busy`.
    /// - Another program replaced the file in each of `OPENINGS` attempts: `Busy`.
    /// - The file cannot be opened: an error of `locked`.
    pub(crate) fn holding<R: Host<File = F> + AllocGlobal>(
        rt: &R,
        name: &str,
    ) -> Result<WritePath<F>, DiskFault> {
        for _ in 0..OPENINGS {
            let mut place = WritePath::new(rt, name)?;
            let was = match place.was {
                Ok(Some(was)) if was.is_file() => was,
                _ => return Ok(place),
            };
            let held = match locked(rt, place.found())? {
                Some(held) => held,
                None => return Ok(place),
            };
            if place.leads_to(rt, was, &held.file)? {
                place.held = Some(held);
                return Ok(place);
            }
        }
        Err(DiskFault::Busy)
    }
}
