//! The files, the streams and the last result of a script.
use crate::came::Came;
use crate::disk::{Disk, Inode};
use crate::pieces::add_pieces;
use std::alloc::Global;
use std::io::ErrorKind;
use std::{fmt, io};

/// The files of the disk, the result of the last command line, and what the script states about the next one.
#[derive(Drop)]
pub struct Scene {
    pub alloc: Global,
    /// The result of the last command line. The next one uses its disk.
    pub came: Came,
    /// Standard input of the next command line.
    pub typed: Vec<u8>,
    /// The expected contents of standard output and of standard error.
    pub out: Vec<u8>,
    pub err: Vec<u8>,
    /// Whether the standard streams are a terminal.
    pub on_terminal: bool,
}

/// Appends a text, and a line feed if `ends` is true.
pub fn add(bytes: &mut Vec<u8>, text: &str, ends: bool) -> io::Result<()> {
    bytes.extend_from_slice(text.as_bytes())?;
    if ends {
        bytes.extend_from_slice(b"\n")?;
    }
    Ok(())
}

/// Returns the number that a word spells, or the greatest number if it spells none.
pub(crate) fn number(word: &str) -> usize {
    word.parse().unwrap_or(usize::MAX)
}

/// Returns the number that a word spells in octal digits, or the greatest number if it spells none.
pub(crate) fn mode(word: &str) -> u32 {
    u32::from_str_radix(word, 8).unwrap_or(u32::MAX)
}

/// Returns the number of a user that a word spells, or the greatest number if it spells none.
pub(crate) fn user(word: &str) -> u32 {
    word.parse().unwrap_or(u32::MAX)
}

/// Returns the kind of error that a word names.
fn kind_of(word: &str) -> ErrorKind {
    match word {
        "memory" => ErrorKind::OutOfMemory,
        "denied" => ErrorKind::PermissionDenied,
        "full" => ErrorKind::StorageFull,
        "large" => ErrorKind::FileTooLarge,
        "folder" => ErrorKind::IsADirectory,
        "no-folder" => ErrorKind::NotADirectory,
        "device" => ErrorKind::ReadOnlyFilesystem,
        "mounted" => ErrorKind::CrossesDevices,
        _ => ErrorKind::Other,
    }
}

/// Gives a file the property that a word names.
fn mark(inode: &mut Inode, word: &str) {
    match word {
        "hold" => inode.locked = true,
        "private" => inode.is_private = true,
        "read-only" => inode.is_read_only = true,
        "folder" => inode.is_folder = true,
        "busy" => inode.is_busy = true,
        _ => inode.is_foreign = true,
    }
}

impl Scene {
    /// Returns the state without files and without command lines.
    pub fn new(alloc: Global) -> Scene {
        Scene {
            alloc,
            came: Came {
                status: 0,
                disk: Disk::new(alloc),
            },
            typed: Vec::new(alloc),
            out: Vec::new(alloc),
            err: Vec::new(alloc),
            on_terminal: false,
        }
    }

    /// Stores the result of a command line, and clears standard input and the expected contents.
    pub fn keep(&mut self, came: Came) {
        self.came = came;
        self.typed.clear();
        self.out.clear();
        self.err.clear();
    }

    /// Executes a line that only changes files and streams, or returns whether a statement is true. `Trials::line` in
    /// test_trials describes all lines.
    pub fn line(&mut self, word: &str, rest: &str) -> io::Result<bool> {
        let (first, second) = rest.split_once(' ').unwrap_or((rest, ""));
        match word {
            ">" => add(&mut self.out, rest, true).map(|_| true),
            "]" => add(&mut self.out, rest, false).map(|_| true),
            "!" => add(&mut self.err, rest, true).map(|_| true),
            "?" => add(&mut self.err, rest, false).map(|_| true),
            "disk"
            | "closed"
            | "terminal"
            | "<"
            | "key"
            | "<<"
            | "hold"
            | "private"
            | "read-only"
            | "folder"
            | "busy"
            | "foreign"
            | "sticky"
            | "blind"
            | "plain"
            | "user" => { self.set(word, rest) }
            "copy" | "poke" | "link" | "symlink" | "store" | "zeros" | "mode" | "owner" | "fail" =>
                { self.change(word, first, second) }
            _ => self.more(word, rest),
        }
    }

    /// Executes a line of bytes, or returns whether a statement is true.
    fn more(&mut self, word: &str, rest: &str) -> io::Result<bool> {
        let (first, second) = rest.split_once(' ').unwrap_or((rest, ""));
        match word {
            "[" => add(&mut self.typed, rest, false).map(|_| true),
            "hex" => add_pieces(&mut self.typed, rest),
            "times" => self.repeat(first, second),
            "file" => self.keep_typed(rest),
            "set" => self.overwrite(first, second),
            "cut" => self.cut(first, second),
            "bytes" => self.has_bytes(first, second),
            "ends" => Ok(self.ends(first)),
            "says" => Ok(self.says(first)),
            _ => Ok(self.holds(word, first, second)),
        }
    }

    /// Executes a line that sets the state of the files and streams for the next command line.
    fn set(&mut self, word: &str, rest: &str) -> io::Result<bool> {
        let disk = &mut self.came.disk;
        match word {
            "disk" => *disk = Disk::new(self.alloc),
            "closed" => disk.is_closed = true,
            "sticky" => disk.is_sticky = true,
            "blind" => disk.is_blind = true,
            "plain" => disk.is_plain = true,
            "user" => disk.user = user(rest),
            "terminal" => self.on_terminal = rest == "on",
            "<" => add(&mut self.typed, rest, true)?,
            "key" => self.typed.push(rest.parse().unwrap_or(0))?,
            "<<" => {
                self.typed = std::mem::replace(&mut disk.out, Vec::new(self.alloc));
            }
            "hold" | "private" | "read-only" | "folder" | "busy" | "foreign" if !rest.is_empty() =>
                {
                    match disk.named(rest) {
                        Some(inode) => mark(inode, word),
                        None => return Ok(false),
                    }
                }
            "hold" | "private" | "read-only" | "folder" => {
                for inode in disk.inodes.iter_mut() {
                    inode.locked = word == "hold";
                    inode.is_private = word == "private";
                    inode.is_read_only = word == "read-only";
                    inode.is_folder = word == "folder";
                }
            }
            _ => return Ok(false),
        }
        Ok(true)
    }

    /// Executes a line that creates or changes a file.
    fn change(&mut self, word: &str, path: &str, rest: &str) -> io::Result<bool> {
        match word {
            "copy" => self.copy(path, rest),
            "poke" => Ok(self.poke(path, rest)),
            "store" => {
                let out = std::mem::replace(&mut self.came.disk.out, Vec::new(self.alloc));
                self.came.disk.put(path, out.as_slice())?;
                self.came.disk.out = out;
                Ok(true)
            }
            "link" => {
                self.came.disk.link(path, rest)?;
                Ok(true)
            }
            "symlink" => {
                self.came.disk.symlink(path, rest)?;
                Ok(true)
            }
            "mode" | "owner" => Ok(self.dress(word, path, rest)),
            "fail" => {
                let letter = path.chars().next().unwrap_or(' ');
                self.came.disk.fails_of = Some((letter, kind_of(rest)));
                Ok(true)
            }
            "zeros" => {
                let mut zeros = Vec::new(self.alloc);
                zeros.resize(number(rest), 0)?;
                self.came.disk.put(path, zeros.as_slice())?;
                Ok(true)
            }
            _ => Ok(false),
        }
    }

    /// Sets the mode of a file, or its owner and group.
    fn dress(&mut self, word: &str, path: &str, rest: &str) -> bool {
        let (first, second) = rest.split_once(' ').unwrap_or((rest, rest));
        let Some(inode) = self.came.disk.named(path) else {
            return false;
        };
        if word == "mode" {
            inode.mode = mode(first);
        } else {
            inode.owner = user(first);
            inode.group = user(second);
        }
        true
    }

    /// Copies the bytes of a file to another path.
    fn copy(&mut self, from: &str, to: &str) -> io::Result<bool> {
        let mut bytes = Vec::new(self.alloc);
        let Some(old) = self.came.disk.bytes(from) else {
            return Ok(false);
        };
        bytes.extend_from_slice(old)?;
        self.came.disk.put(to, bytes.as_slice())?;
        Ok(true)
    }

    /// Overwrites bytes of a file with a text, from an offset on.
    fn poke(&mut self, path: &str, rest: &str) -> bool {
        match rest.split_once(' ') {
            Some((place, text)) => {
                self.came
                    .disk
                    .write_at(path, number(place), text.as_bytes())
            }
            None => false,
        }
    }

    /// Appends a line to standard input `count` times.
    fn repeat(&mut self, count: &str, line: &str) -> io::Result<bool> {
        for _ in 0..count.parse().unwrap_or(0_usize) {
            add(&mut self.typed, line, true)?;
        }
        Ok(true)
    }

    /// Moves the collected standard input to a file.
    fn keep_typed(&mut self, path: &str) -> io::Result<bool> {
        self.came.disk.put(path, self.typed.as_slice())?;
        self.typed.clear();
        Ok(true)
    }

    /// Overwrites bytes of a file, from an offset on.
    fn overwrite(&mut self, path: &str, rest: &str) -> io::Result<bool> {
        let (place, pieces) = rest.split_once(' ').unwrap_or((rest, ""));
        let mut bytes = Vec::new(self.alloc);
        let is_spelled = add_pieces(&mut bytes, pieces)?;
        Ok(
            is_spelled
                && self
                    .came
                    .disk
                    .write_at(path, number(place), bytes.as_slice()),
        )
    }

    /// Copies a part of a file to another file.
    fn cut(&mut self, path: &str, rest: &str) -> io::Result<bool> {
        let (place, rest) = rest.split_once(' ').unwrap_or((rest, ""));
        let (count, to) = rest.split_once(' ').unwrap_or((rest, ""));
        let (from, count) = (number(place), number(count));
        let bytes = self.came.disk.bytes(path);
        let Some(part) = bytes.and_then(|bytes| bytes.get(from..from.saturating_add(count))) else {
            return Ok(false);
        };
        let mut copy = Vec::new(self.alloc);
        copy.extend_from_slice(part)?;
        self.came.disk.put(to, copy.as_slice())?;
        Ok(true)
    }
}

/// Prints the result of the last command line, for a test that failed.
impl fmt::Display for Scene {
    fn fmt<W: fmt::Write>(&self, f: &mut fmt::Formatter<W>) -> fmt::Result {
        let disk = &self.came.disk;
        let out = std::str::from_utf8(disk.out.as_slice()).unwrap_or("");
        write!(
            f,
            "status {}, files {}, calls {}\n{out}{}",
            self.came.status,
            disk.names.len(),
            disk.log,
            disk.err
        )
    }
}
