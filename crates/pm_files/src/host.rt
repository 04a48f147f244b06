//! The calls of the operating system that the program needs in addition to those of the trait `Files`.
ghost use Rattle.std.specs.Prelude.{◌≡◌};
ghost use Rattle.pm_files.specs.Nodes.{is_file, is_one_file, is_replaced};

use std::alloc::Global;
use std::fs::{File, Metadata, OpenOptions, TryLockError};
use std::io;
use std::io::{ErrorKind, IsTerminal};
use std::os::fd::AsRawFd;
use std::os::unix::fs::{MetadataExt, OpenOptionsExt, fchown};
use std::rt::Files;

/// A standard stream of the process.
#[derive(Clone, Copy)]
pub enum Stream {
    Input,
    Output,
    Error,
}

/// The kind of a file.
#[derive(Clone, Copy, Debug, PartialEq, Eq)]
pub enum Kind {
    /// A regular file.
    File,
    /// A symbolic link.
    Link,
    /// A directory, a device, a pipe or a socket.
    Other,
}

/// The data that the file system has for a file. The data do not depend on the name of the file.
#[derive(Clone, Copy)]
pub struct Node {
    /// The number of the device that contains the file.
    pub device: u64,
    /// The number of the file on its device. No two files have the same device and number.
    pub number: u64,
    /// The kind of the file.
    pub kind: Kind,
    /// The number of names (hard links) of the file.
    pub names: u64,
    /// The number of the user who owns the file.
    pub owner: u32,
    /// The number of the group that owns the file.
    pub group: u32,
    /// The permissions of the file: the twelve low bits of its mode.
    pub mode: u32,
}

impl Node {
    /// Returns whether `self` and `other` are the same file: their device and their number are equal.
    pub fn is(self, other: Node) -> bool
        ensures same { result ≡ is_one_file self other }
    {
        self.device == other.device && self.number == other.number
    }

    /// Returns whether the node is a regular file.
    pub fn is_file(self) -> bool
        ensures file { result ≡ is_file self.kind }
    {
        matches!(self.kind, Kind::File)
    }

    /// Returns whether the program writes this file by replacing it with a new file. This is true for a regular file
    /// with one name.
    pub fn is_replaced(self) -> bool
        ensures replaced { result ≡ is_replaced self }
    {
        self.is_file() && self.names == 1
    }
}

/// The calls that the trait `Files` does not have. Tests use a runtime in memory instead of the operating system.
pub trait Host: Files {
    /// Locks the open file `file` without waiting. Returns `false` if the same file is open elsewhere and locked there.
    /// A system without such locks returns `true`.
    fn try_lock(&self, file: &Self::File) -> io::Result<bool>;

    /// Returns the data of the open file `file`.
    fn node(&self, file: &Self::File) -> io::Result<Node>;

    /// Returns the data of the file at `path`, or `None` if no file exists there. If `follows` is true, a symbolic link
    /// at the end of `path` is followed. Otherwise the data are those of the link.
    fn node_at(&self, path: &str, follows: bool) -> io::Result<Option<Node>>;

    /// Returns the names of the files and folders in the folder at `path`, except `.` and `..`. Their order is not
    /// specified. A name that is not UTF-8 is an error.
    fn names(&self, alloc: Global, path: &str) -> io::Result<Vec<String>>;

    /// Creates a file at `path` and opens it for reading and writing. The call fails if anything exists at `path`, even
    /// a symbolic link. The file never has more permissions than `mode`.
    fn make(&self, path: &str, mode: u32) -> io::Result<Self::File>;

    /// Changes the owner and the group of the open file `file`.
    fn set_owner(&self, file: &Self::File, owner: u32, group: u32) -> io::Result<()>;

    /// Returns the descriptor of the open file `file`.
    fn number(&self, file: &Self::File) -> i32;

    /// Returns whether the paths `one` and `other` name the same file, after symbolic links are followed. Returns
    /// `false` if one of them names no file.
    fn is_same(&self, one: &str, other: &str) -> bool;

    /// Returns whether the standard stream `stream` is a terminal.
    fn is_terminal(&self, stream: Stream) -> bool;
}

fn node_of(file: &Metadata) -> Node {
    let kind = if file.is_file() {
        Kind::File
    } else if file.is_symlink() {
        Kind::Link
    } else {
        Kind::Other
    };
    Node {
        device: file.dev(),
        number: file.ino(),
        kind,
        names: file.nlink(),
        owner: file.uid(),
        group: file.gid(),
        mode: file.mode() & 0o7777,
    }
}

impl Host for HostRuntime {
    fn try_lock(&self, file: &File) -> io::Result<bool> {
        match file.try_lock() {
            Ok(()) => Ok(true),
            Err(TryLockError::WouldBlock) => Ok(false),
            Err(TryLockError::Error(_)) => Ok(true),
        }
    }

    fn node(&self, file: &File) -> io::Result<Node> {
        Ok(node_of(&file.metadata()?))
    }

    fn node_at(&self, path: &str, follows: bool) -> io::Result<Option<Node>> {
        let found = if follows {
            std::fs::metadata(self, path)
        } else {
            std::fs::symlink_metadata(self, path)
        };
        match found {
            Ok(file) => Ok(Some(node_of(&file))),
            Err(error) if error.kind() == ErrorKind::NotFound => Ok(None),
            Err(error) => Err(error),
        }
    }

    fn names(&self, alloc: Global, path: &str) -> io::Result<Vec<String>> {
        let mut names = Vec::new(alloc);
        for entry in std::fs::read_dir(self, path)? {
            let entry = entry?;
            names.push(String::from_str(alloc, entry.file_name())?)?;
        }
        Ok(names)
    }

    fn make(&self, path: &str, mode: u32) -> io::Result<File> {
        OpenOptions::new()
            .read(true)
            .write(true)
            .create_new(true)
            .mode(mode)
            .open(self, path)
    }

    fn set_owner(&self, file: &File, owner: u32, group: u32) -> io::Result<()> {
        fchown(file, Some(owner), Some(group))
    }

    fn number(&self, file: &File) -> i32 {
        file.as_raw_fd()
    }

    fn is_same(&self, one: &str, other: &str) -> bool {
        match (self.node_at(one, true), self.node_at(other, true)) {
            (Ok(Some(one)), Ok(Some(other))) => one.is(other),
            _ => false,
        }
    }

    fn is_terminal(&self, stream: Stream) -> bool {
        match stream {
            Stream::Input => self.stdin().is_terminal(),
            Stream::Output => self.stdout().is_terminal(),
            Stream::Error => self.stderr().is_terminal(),
        }
    }
}
