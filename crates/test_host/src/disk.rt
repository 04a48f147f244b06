//! A disk in memory. At most one of the calls on it fails.
use pm_files::{Kind, Node};
use std::alloc::Global;
use std::io;
use std::io::ErrorKind;

/// A file, a folder or a symbolic link, without its names.
#[derive(Drop)]
pub struct Inode {
    pub bytes: Vec<u8>,
    /// Whether another program has locked the file.
    pub locked: bool,
    /// The number of the open file by which the program has locked this file.
    pub holder: Option<usize>,
    /// Whether the file cannot be opened for reading.
    pub is_private: bool,
    /// Whether the file cannot be opened for writing.
    pub is_read_only: bool,
    /// Whether the inode is a folder.
    pub is_folder: bool,
    /// Whether no file can be renamed to the name of this inode, as if it were a mount point.
    pub is_busy: bool,
    /// Whether another program created the file. That program may still have it open.
    pub is_foreign: bool,
    /// The path that a symbolic link contains. `None` for everything else.
    pub link: Option<String>,
    pub owner: u32,
    pub group: u32,
    pub mode: u32,
}

/// A name, and the number of the inode that it names.
#[derive(Drop)]
pub struct Name {
    pub path: String,
    pub inode: usize,
}

/// What another program does with a file.
#[derive(Clone, Copy)]
pub enum Act {
    /// It overwrites the bytes of the file with its own, or creates the file.
    Put,
    /// It replaces the file by a file of its own, as an editor does.
    Replace,
    /// It removes the name.
    Remove,
    /// It replaces the file by a symbolic link.
    Symlink,
    /// It locks the file, unless the program has locked it.
    Lock,
    /// It releases its lock.
    Unlock,
    /// It moves the folder away and creates another folder at its path. If it has bytes, a file with these bytes is at
    /// the path in the new folder.
    Move,
}

/// What another program does during a command line, and when.
#[derive(Drop)]
pub struct Meanwhile {
    /// The number of the call before which the other program acts.
    pub before: usize,
    pub act: Act,
    pub path: String,
    /// The bytes that the other program writes.
    pub bytes: Vec<u8>,
    /// The path that the other program's link contains.
    pub link: String,
}

/// The files of a disk, the contents of the standard streams, and the calls so far.
#[derive(Drop)]
pub struct Disk {
    alloc: Global,
    pub inodes: Vec<Inode>,
    pub names: Vec<Name>,
    /// Whether names can neither be added to the folder nor removed from it.
    pub is_closed: bool,
    /// Whether names of files of other users cannot be removed from the folder. User 0 can remove them.
    pub is_sticky: bool,
    /// Whether no path can be canonicalized, as if a folder above could not be searched.
    pub is_blind: bool,
    /// The user whose program runs. User 0 can change the owner of a file.
    pub user: u32,
    /// All permission bits that any file made by the program had at any moment.
    pub widest: u32,
    /// The inode of each file that was opened, in the order of opening.
    pub opened: Vec<usize>,
    /// Whether another folder has replaced the folder of the files. A path that does not begin with an open folder then
    /// leads to the new folder. The names in it begin with `ELSEWHERE`.
    pub is_moved: bool,
    /// Whether the system has no paths of open files.
    pub is_plain: bool,
    /// The number of calls so far.
    pub calls: usize,
    /// The number of the call that fails. All other calls succeed.
    pub fails_at: Option<usize>,
    /// The letter whose next call fails, and the kind of the error.
    pub fails_of: Option<(char, ErrorKind)>,
    /// What another program will do.
    pub meanwhile: Option<Meanwhile>,
    /// One letter for each call.
    pub log: String,
    /// The number of bytes of standard input that were read.
    pub read: usize,
    /// What was written to standard output.
    pub out: Vec<u8>,
    /// What was written to standard error.
    pub err: String,
}

/// The inode number of the folder of the files.
pub(crate) const FOLDER: usize = usize::MAX;

/// The inode number of the folder that another program made at its path.
pub(crate) const OTHER_FOLDER: usize = usize::MAX - 1;

/// The prefix of the names in `OTHER_FOLDER`.
const ELSEWHERE: &str = "elsewhere/";

/// The prefix of the path of an open file, before its number.
const OPEN: &str = "/proc/self/fd/";

/// A name in one of the two folders.
#[derive(Clone, Copy)]
struct Spot<'a> {
    is_elsewhere: bool,
    name: &'a str,
}

impl Spot<'_> {
    /// Returns whether the stored name `path` is this name.
    fn is(self, path: &str) -> bool {
        if self.is_elsewhere {
            path.strip_prefix(ELSEWHERE) == Some(self.name)
        } else {
            path.strip_prefix("./").unwrap_or(path) == self.name
        }
    }
}

pub(crate) fn out_of_memory() -> io::Error {
    io::Error::from(ErrorKind::OutOfMemory)
}

pub(crate) fn missing() -> io::Error {
    io::Error::from(ErrorKind::NotFound)
}

pub(crate) fn no_folder() -> io::Error {
    io::Error::from(ErrorKind::NotADirectory)
}

impl Disk {
    /// Returns an empty disk, on which no call fails.
    pub fn new(alloc: Global) -> Disk {
        Disk {
            alloc,
            inodes: Vec::new(alloc),
            names: Vec::new(alloc),
            is_closed: false,
            is_sticky: false,
            is_blind: false,
            user: 0,
            widest: 0,
            opened: Vec::new(alloc),
            is_moved: false,
            is_plain: false,
            calls: 0,
            fails_at: None,
            fails_of: None,
            meanwhile: None,
            log: String::new(alloc),
            read: 0,
            out: Vec::new(alloc),
            err: String::new(alloc),
        }
    }

    /// Creates a file without a name. Returns its inode number.
    fn make(&mut self, bytes: Vec<u8>) -> io::Result<usize> {
        let inode = self.inodes.len();
        let made = self.inodes.push(Inode {
            bytes,
            locked: false,
            holder: None,
            is_private: false,
            is_read_only: false,
            is_folder: false,
            is_busy: false,
            is_foreign: false,
            link: None,
            owner: self.user,
            group: self.user,
            mode: 0o644,
        });
        match made {
            Ok(()) => Ok(inode),
            Err(_) => Err(out_of_memory()),
        }
    }

    /// Returns the inode number of the open file with the path `path`. Returns `None` if `path` is not the path of an
    /// open file.
    fn open_at(&self, path: &str) -> Option<usize> {
        if self.is_plain {
            return None;
        }
        let number: usize = path.strip_prefix(OPEN)?.parse().ok()?;
        self.opened.get(number).copied()
    }

    /// Returns the folder and the name to which a path leads. A symbolic link is not followed.
    fn spot<'a>(&self, path: &'a str) -> Spot<'a> {
        let path = path.strip_suffix('/').unwrap_or(path);
        if let Some((folder, name)) = path.rsplit_once('/') {
            if let Some(folder) = self.open_at(folder) {
                let is_elsewhere = folder == OTHER_FOLDER;
                return Spot { is_elsewhere, name };
            }
        }
        let name = path.strip_prefix("./").unwrap_or(path);
        Spot {
            is_elsewhere: self.is_moved,
            name,
        }
    }

    /// Returns the name of a folder that is a file of the disk.
    fn folder_name(&self, number: usize) -> Option<&str> {
        if !self.inodes.get(number)?.is_folder {
            return None;
        }
        for name in self.names.iter() {
            if name.inode == number {
                return Some(name.path.as_str());
            }
        }
        None
    }

    /// Returns a path without the number of an open folder that is a file of the disk, and without `/.` at its end.
    pub(crate) fn through(&self, path: &str) -> io::Result<String> {
        let path = path.strip_suffix("/.").unwrap_or(path);
        if let Some((folder, name)) = path.rsplit_once('/') {
            if let Some(number) = self.open_at(folder) {
                if let Some(folder) = self.folder_name(number) {
                    return Ok(format!(in self.alloc; "{folder}/{name}")?);
                }
            }
        }
        Ok(String::from_str(self.alloc, path)?)
    }

    /// Returns whether the inode with this number is a folder.
    fn is_folder(&self, number: usize) -> bool {
        number == FOLDER
            || number == OTHER_FOLDER
            || self.inodes.get(number).is_some_and(|inode| inode.is_folder)
    }

    /// Checks that `path` does not lead through a file: what its part before the last `/` names is a folder, or does
    /// not exist.
    ///
    /// # Errors
    ///
    /// - `NotADirectory`: this part names a file.
    /// - `FilesystemLoop`: 40 or more links must be followed.
    pub(crate) fn check_way(&self, path: &str) -> io::Result<()> {
        let Some((folder, _)) = path.rsplit_once('/') else {
            return Ok(());
        };
        match self.find(self.behind(folder)?) {
            Some(number) if !self.is_folder(number) => Err(no_folder()),
            _ => Ok(()),
        }
    }

    /// Checks that a name can be added at `path`: the folder of this name exists. A `/` at the end of `path` has no
    /// effect.
    ///
    /// # Errors
    ///
    /// Those of `check_way`, and `NotFound`: the folder does not exist.
    pub(crate) fn check_folder_of(&self, path: &str) -> io::Result<()> {
        let path = path.trim_end_matches('/');
        self.check_way(path)?;
        match path.rsplit_once('/') {
            Some((folder, _)) if folder != "." && self.led_to(folder)?.is_none() => Err(missing()),
            _ => Ok(()),
        }
    }

    /// Returns the names in the folder at `path`, the latest first. The path can be that of an open folder.
    ///
    /// # Errors
    ///
    /// - `NotFound`: `path` names nothing.
    /// - `NotADirectory`: `path` names a file.
    /// - `Unsupported`: `path` names the folder of the files itself, which no test lists.
    pub(crate) fn names_in(&self, alloc: Global, path: &str) -> io::Result<Vec<String>> {
        let number = self.led_to(path)?.ok_or(missing())?;
        if !self.is_folder(number) {
            return Err(no_folder());
        }
        let Some(folder) = self.folder_name(number) else {
            return Err(io::Error::from(ErrorKind::Unsupported));
        };
        let mut names = Vec::new(alloc);
        for name in self.names.iter().rev() {
            let rest = name.path.strip_prefix(folder);
            if let Some(name) = rest.and_then(|rest| rest.strip_prefix('/')) {
                if !name.contains('/') {
                    names.push(String::from_str(alloc, name)?)?;
                }
            }
        }
        Ok(names)
    }

    /// Adds an empty folder.
    pub(crate) fn add_folder(&mut self, path: &str) -> io::Result<()> {
        let number = self.add(path)?;
        if let Some(inode) = self.inodes.get_mut(number) {
            inode.is_folder = true;
        }
        Ok(())
    }

    /// Adds a name of a file.
    fn call(&mut self, path: &str, inode: usize) -> io::Result<()> {
        let Spot { is_elsewhere, name } = self.spot(path);
        let before = if is_elsewhere { ELSEWHERE } else { "" };
        let path = format!(in self.alloc; "{before}{name}")?;
        match self.names.push(Name { path, inode }) {
            Ok(()) => Ok(()),
            Err(_) => Err(out_of_memory()),
        }
    }

    /// Removes a name.
    fn forget(&mut self, path: &str) {
        let spot = self.spot(path);
        self.names.retain(|name| !spot.is(name.path.as_str()));
    }

    /// Returns the file that a path names. A symbolic link is not followed.
    pub fn named(&mut self, path: &str) -> Option<&mut Inode> {
        let number = self.find(path)?;
        self.inodes.get_mut(number)
    }

    /// Replaces what a path names by a file or symbolic link that another program makes.
    fn set(&mut self, path: &str, bytes: Vec<u8>, link: Option<String>) -> io::Result<()> {
        self.forget(path);
        let number = self.make(bytes)?;
        if let Some(inode) = self.inodes.get_mut(number) {
            inode.is_foreign = true;
            inode.link = link;
        }
        self.call(path, number)
    }

    /// Does what another program does with a file.
    fn act(&mut self, meanwhile: Meanwhile) -> io::Result<()> {
        let Meanwhile {
            act,
            path,
            bytes,
            link,
            ..
        } = meanwhile;
        let path = path.as_str();
        match (act, self.named(path)) {
            (Act::Put, Some(inode)) => {
                inode.bytes = bytes;
                Ok(())
            }
            (Act::Put | Act::Replace, _) => self.set(path, bytes, None),
            (Act::Symlink, _) => self.set(path, bytes, Some(link)),
            (Act::Remove, _) => {
                self.forget(path);
                Ok(())
            }
            (Act::Lock | Act::Unlock, Some(inode)) => {
                inode.locked = act == Act::Lock && inode.holder.is_none();
                Ok(())
            }
            (Act::Lock | Act::Unlock, None) => Ok(()),
            (Act::Move, _) => {
                self.is_moved = true;
                if bytes.is_empty() {
                    Ok(())
                } else {
                    self.set(path, bytes, None)
                }
            }
        }
    }

    /// Lets another program act, if it acts before call number `now`.
    fn let_act(&mut self, now: usize) -> io::Result<()> {
        match self.meanwhile.take() {
            Some(meanwhile) if meanwhile.before == now => self.act(meanwhile),
            later => {
                self.meanwhile = later;
                Ok(())
            }
        }
    }

    /// Counts and logs a call. Another program may act before it.
    ///
    /// # Errors
    ///
    /// - The error of the action of another program.
    /// - `Other`: the number of the call is `fails_at`.
    /// - The kind in `fails_of`, if it has this letter. It is then cleared.
    pub(crate) fn tick(&mut self, letter: char) -> io::Result<()> {
        if self.log.push(letter).is_err() {
            return Err(out_of_memory());
        }
        let now = self.calls;
        self.calls = self.calls.wrapping_add(1);
        self.let_act(now)?;
        if self.fails_at == Some(now) {
            return Err(io::Error::from(ErrorKind::Other));
        }
        match self.fails_of {
            Some((of, kind)) if of == letter => {
                self.fails_of = None;
                Err(io::Error::from(kind))
            }
            _ => Ok(()),
        }
    }

    /// Returns the inode number of what a path names. A symbolic link is not followed.
    pub fn find(&self, path: &str) -> Option<usize> {
        if let Some(number) = self.open_at(path) {
            return Some(number);
        }
        let spot = self.spot(path);
        for name in self.names.iter() {
            if spot.is(name.path.as_str()) {
                return Some(name.inode);
            }
        }
        None
    }

    /// Returns the path to which the symbolic links at `path` lead.
    ///
    /// # Errors
    ///
    /// `FilesystemLoop`: 40 or more links must be followed.
    pub(crate) fn behind<'a>(&'a self, path: &'a str) -> io::Result<&'a str> {
        let mut at = path;
        for _ in 0..40 {
            let Some(number) = self.find(at) else {
                return Ok(at);
            };
            let Some(inode) = self.inodes.get(number) else {
                return Ok(at);
            };
            match &inode.link {
                Some(link) => at = link.as_str(),
                None => return Ok(at),
            }
        }
        Err(io::Error::from(ErrorKind::FilesystemLoop))
    }

    /// Registers an open file. Returns its number.
    pub(crate) fn count_open(&mut self, inode: usize) -> io::Result<usize> {
        let number = self.opened.len();
        match self.opened.push(inode) {
            Ok(()) => Ok(number),
            Err(_) => Err(out_of_memory()),
        }
    }

    /// Returns the inode number of the folder that is at the path of the files now.
    pub(crate) fn folder_now(&self) -> usize {
        if self.is_moved { OTHER_FOLDER } else { FOLDER }
    }

    /// Returns the inode number of what a path names. Symbolic links are followed.
    ///
    /// # Errors
    ///
    /// Those of `check_way`.
    pub(crate) fn led_to(&self, path: &str) -> io::Result<Option<usize>> {
        self.check_way(path)?;
        Ok(self.find(self.behind(path)?))
    }

    /// Returns the attributes of a folder by its inode number.
    pub(crate) fn folder(&self, number: usize) -> Node {
        Node {
            device: 1,
            number: number as u64,
            kind: Kind::Other,
            names: 2,
            owner: 0,
            group: 0,
            mode: if self.is_sticky { 0o1777 } else { 0o755 },
        }
    }

    /// Returns the attributes of a file or folder by its inode number.
    pub fn node_of(&self, number: usize) -> Option<Node> {
        if number == FOLDER || number == OTHER_FOLDER {
            return Some(self.folder(number));
        }
        let inode = self.inodes.get(number)?;
        let kind = match &inode.link {
            Some(_) => Kind::Link,
            None if inode.is_folder => Kind::Other,
            None => Kind::File,
        };
        let names = self
            .names
            .iter()
            .filter(|name| name.inode == number)
            .count();
        Some(Node {
            device: 1,
            number: number as u64,
            kind,
            names: names as u64,
            owner: inode.owner,
            group: inode.group,
            mode: inode.mode,
        })
    }

    /// Returns whether the user cannot remove or replace the name `path`.
    pub(crate) fn keeps(&self, path: &str) -> bool {
        let owner = match self.find(path) {
            Some(number) => self.inodes.get(number).map(|inode| inode.owner),
            None => None,
        };
        self.is_closed || self.is_sticky && self.user != 0 && owner != Some(self.user)
    }

    /// Returns the bytes of the file that a path names.
    pub fn bytes(&self, path: &str) -> Option<&[u8]> {
        let inode = self.inodes.get(self.find(path)?)?;
        Some(inode.bytes.as_slice())
    }

    /// Adds an empty file. Returns its inode number.
    pub(crate) fn add(&mut self, path: &str) -> io::Result<usize> {
        let inode = self.make(Vec::new(self.alloc))?;
        self.call(path, inode)?;
        Ok(inode)
    }

    pub(crate) fn unlink(&mut self, path: &str) -> io::Result<usize> {
        let Some(inode) = self.find(path) else {
            return Err(missing());
        };
        self.forget(path);
        Ok(inode)
    }

    pub(crate) fn rename(&mut self, from: &str, to: &str) -> io::Result<()> {
        let inode = self.unlink(from)?;
        self.forget(to);
        self.call(to, inode)
    }

    /// Sets the bytes of a file. Creates the file if it does not exist.
    pub fn put(&mut self, path: &str, bytes: &[u8]) -> io::Result<()> {
        let inode = match self.find(path) {
            Some(inode) => inode,
            None => self.add(path)?,
        };
        let Some(inode) = self.inodes.get_mut(inode) else {
            return Err(missing());
        };
        inode.bytes.clear();
        match inode.bytes.extend_from_slice(bytes) {
            Ok(()) => Ok(()),
            Err(_) => Err(out_of_memory()),
        }
    }

    /// Overwrites bytes of a file from the offset `place` on. Returns `false` if the file does not exist, or if it ends
    /// before the last byte. In the second case, the bytes before its end are overwritten.
    pub fn write_at(&mut self, path: &str, place: usize, bytes: &[u8]) -> bool {
        let Some(inode) = self.named(path) else {
            return false;
        };
        for (offset, byte) in bytes.iter().enumerate() {
            match inode.bytes.get_mut(place.saturating_add(offset)) {
                Some(old) => *old = *byte,
                None => return false,
            }
        }
        true
    }

    /// Adds a symbolic link.
    pub fn symlink(&mut self, path: &str, link: &str) -> io::Result<()> {
        let link = String::from_str(self.alloc, link)?;
        let made = self.add(path)?;
        if let Some(inode) = self.inodes.get_mut(made) {
            inode.link = Some(link);
        }
        Ok(())
    }

    /// Adds another name of a file.
    pub fn link(&mut self, path: &str, other: &str) -> io::Result<()> {
        let inode = self.find(path).ok_or(missing())?;
        self.call(other, inode)
    }

    /// Resets the calls, the log, `widest` and the standard streams. The files are unchanged.
    pub fn rewind(&mut self) {
        self.calls = 0;
        self.widest = 0;
        self.log.clear();
        self.read = 0;
        self.out.clear();
        self.err.clear();
    }

    /// Ends a program: no file is open or locked, and the original folder is at its path again.
    pub fn release(&mut self) {
        self.opened.clear();
        self.is_moved = false;
        for inode in self.inodes.iter_mut() {
            inode.locked = false;
            inode.holder = None;
        }
    }
}
