//! Executes the lines of a case. The pieces of a line are separated by `|`. They are by turns a text, which is printed,
//! and a call, whose answer is printed. A line that begins with `|` prints no text of its own and no line feed.
//!
//! - `make FILE BYTES MODE` creates a file again. `link FILE NAME`, `symlink TO LINK`, `remove FILE`, `rename FILE
//!   NAME`, `folder PATH`, `unfolder PATH`, `mode PATH MODE` and `size FILE COUNT` are calls of the system.
//! - `hold FILE`, `prepare FILE`, `put FILE BYTES` and `read FILE` are calls of the store. `new` replaces the store by
//!   a new one, and `swap` exchanges it with a second store.
//! - `write FILE` prepares a path in the store and then writes the new bytes to it. `replace FILE` holds a path in a
//!   new store, writes the new bytes to it, and then does what `tell` does.
//! - `node FILE` records which file a path names. `tell FILE` prints the contents, mode and names of a file, and
//!   whether it is the recorded file. It also prints what is at the path of the temporary file of `a`.
//! - `text FILE`, `kind PATH`, `same FILE FILE` and `none FILE` return what a path names. `open FILE` opens a file, and
//!   `theirs FILE` returns whether a path names that file.
//!
//! BYTES are `old`, `new` or `theirs`. A MODE has octal digits. The path `LONG` is a name of 250 letters.
use pm_files::{DiskFault, Host, HostStore, Kind, Node, Store};
use std::fs::{File, OpenOptions, Permissions};
use std::io::Write;
use std::os::unix::fs as fs_unix;
use std::os::unix::fs::{OpenOptionsExt, PermissionsExt};
use std::{fs, io, mem};

/// The bytes of a file before a case.
const OLD: &[u8] = b"the old image";

/// The bytes that the cases write.
const NEW: &[u8] = b"a new one";

/// The bytes of the file of another program.
const THEIRS: &[u8] = b"the file of another program";

/// The path of the temporary file of `a`.
const BESIDE: &str = "a.pmach-new";

/// A name of 250 letters, to which no suffix can be added.
const LONG: &str = "\
nnnnnnnnnnnnnnnnnnnnnnnnnnnnnnnnnnnnnnnnnnnnnnnnnnnnnnnnnnnnnnnnnnnnnnnnnnnnnnnnnnnnnnnnnnnnnnnnnnnn\
nnnnnnnnnnnnnnnnnnnnnnnnnnnnnnnnnnnnnnnnnnnnnnnnnnnnnnnnnnnnnnnnnnnnnnnnnnnnnnnnnnnnnnnnnnnnnnnnnnnn\
nnnnnnnnnnnnnnnnnnnnnnnnnnnnnnnnnnnnnnnnnnnnnnnnnn";

/// The stores and files that a case uses.
#[derive(Drop)]
pub struct Trial<'a> {
    rt: &'a HostRuntime,
    store: HostStore<'a, HostRuntime>,
    second: HostStore<'a, HostRuntime>,
    /// The file that `node` or `replace` recorded.
    old: Option<Node>,
    /// The file that `open` opened.
    theirs: Option<File>,
}

/// Returns the bytes that a keyword names: `old`, `new` or `theirs`.
fn bytes_of(word: &str) -> &'static [u8] {
    match word {
        "old" => OLD,
        "new" => NEW,
        _ => THEIRS,
    }
}

/// Returns the result of a call of a store as text.
fn said(done: Result<(), DiskFault>) -> &'static str {
    match done {
        Ok(()) => "done",
        Err(fault) => fault.reason(),
    }
}

/// Returns which of the three contents was read, or the reason why none was read.
fn named(read: Result<Vec<u8>, DiskFault>) -> &'static str {
    match read {
        Ok(bytes) => match bytes.as_slice() {
            OLD => "the old bytes",
            NEW => "the new bytes",
            THEIRS => "their bytes",
            _ => "other bytes",
        },
        Err(fault) => fault.reason(),
    }
}

/// Returns which of the three contents a file has.
fn text(rt: &HostRuntime, path: &str) -> &'static str {
    named(HostStore::new(rt).read(rt.alloc(), path))
}

fn truth(holds: bool) -> &'static str {
    if holds { "true" } else { "false" }
}

/// Returns what a path names, without following links.
fn kind_at(rt: &HostRuntime, path: &str) -> &'static str {
    match rt.node_at(path, false) {
        Ok(Some(node)) => match node.kind {
            Kind::File => "a file",
            Kind::Link => "a link",
            Kind::Other => "a folder",
        },
        Ok(None) => "nothing",
        Err(_) => "an error",
    }
}

/// Returns what a path names, following links.
fn node_of(rt: &HostRuntime, path: &str) -> Option<Node> {
    match rt.node_at(path, true) {
        Ok(node) => node,
        Err(_) => None,
    }
}

/// Creates a file again, with this mode.
fn make(rt: &HostRuntime, path: &str, bytes: &[u8], mode: u32) -> io::Result<()> {
    let _ = fs::remove_file(rt, path);
    let mut file = OpenOptions::new()
        .write(true)
        .create_new(true)
        .mode(mode)
        .open(rt, path)?;
    file.write_all(bytes)?;
    file.set_permissions(Permissions::from_mode(mode))
}

/// Sets the size of a file, in bytes.
fn set_size(rt: &HostRuntime, path: &str, count: &str) -> io::Result<()> {
    let file = OpenOptions::new().write(true).create(true).open(rt, path)?;
    file.set_len(count.parse().unwrap_or(0))
}

/// Executes a call of the system on the paths `path`, `second` and `third`.
fn act(rt: &HostRuntime, word: &str, path: &str, second: &str, third: &str) -> io::Result<()> {
    let mode = u32::from_str_radix(third, 8).unwrap_or(0);
    match word {
        "make" => make(rt, path, bytes_of(second), mode),
        "link" => fs::hard_link(rt, path, second),
        "symlink" => fs_unix::symlink(rt, path, second),
        "remove" => fs::remove_file(rt, path),
        "rename" => fs::rename(rt, path, second),
        "folder" => fs::create_dir(rt, path),
        "unfolder" => fs::remove_dir(rt, path),
        "mode" => fs::set_permissions(rt, path, Permissions::from_mode(mode)),
        "size" => set_size(rt, path, second),
        _ => Err(io::Error::from(io::ErrorKind::InvalidInput)),
    }
}

impl<'a> Trial<'a> {
    /// Returns a trial with two new stores and no file.
    pub fn new(rt: &'a HostRuntime) -> Trial<'a> {
        Trial {
            rt,
            store: HostStore::new(rt),
            second: HostStore::new(rt),
            old: None,
            theirs: None,
        }
    }

    /// Prints the contents, mode and names of the file at a path, whether it is the recorded file, and what is at the
    /// path of the temporary file.
    fn tell(&self, path: &str) -> io::Result<()> {
        let rt = self.rt;
        let Some(now) = node_of(rt, path) else {
            return print!(rt; "no file");
        };
        let file = match self.old {
            Some(old) if old.is(now) => "the same file",
            _ => "another file",
        };
        let text = text(rt, path);
        let beside = kind_at(rt, BESIDE);
        print!(rt;
            "{text}, mode {:o}, names {}, {file}; beside it {beside}",
            now.mode, now.names
        )
    }

    /// Returns whether `path` names the open file. Also returns `true` if no file is open or a call of the system
    /// fails.
    fn is_theirs(&self, path: &str) -> bool {
        let Some(file) = &self.theirs else {
            return true;
        };
        match (self.rt.node(file), node_of(self.rt, path)) {
            (Ok(theirs), Some(now)) => theirs.is(now),
            _ => true,
        }
    }

    /// Records which file a path names, holds the path in a new store, and writes the new bytes to it. The store is
    /// then replaced by a new one. Returns the result as text.
    fn replace(&mut self, path: &str) -> &'static str {
        self.old = node_of(self.rt, path);
        self.store = HostStore::new(self.rt);
        let done = match self.store.hold(path) {
            Ok(()) => said(self.store.put(path, NEW)),
            Err(fault) => fault.reason(),
        };
        self.store = HostStore::new(self.rt);
        done
    }

    /// Executes `new`, `swap`, `node` or `open`.
    fn keep(&mut self, word: &str, path: &str) -> io::Result<()> {
        let rt = self.rt;
        match word {
            "new" => self.store = HostStore::new(rt),
            "swap" => mem::swap(&mut self.store, &mut self.second),
            "node" => self.old = node_of(rt, path),
            _ => self.theirs = Some(File::open(rt, path)?),
        }
        Ok(())
    }

    /// Executes a call and returns its answer, or "" if it has none.
    fn answer(
        &mut self,
        word: &str,
        path: &str,
        second: &str,
        third: &str,
    ) -> io::Result<&'static str> {
        let rt = self.rt;
        match word {
            "hold" => Ok(said(self.store.hold(path))),
            "prepare" => Ok(said(self.store.prepare(path))),
            "write" => match self.store.prepare(path) {
                Ok(()) => Ok(said(self.store.put(path, NEW))),
                Err(fault) => Ok(fault.reason()),
            },
            "put" => Ok(said(self.store.put(path, bytes_of(second)))),
            "read" => Ok(named(self.store.read(rt.alloc(), path))),
            "text" => Ok(text(rt, path)),
            "kind" => Ok(kind_at(rt, path)),
            "same" => Ok(truth(rt.is_same(path, second))),
            "none" => Ok(truth(node_of(rt, path).is_none())),
            "theirs" => Ok(truth(self.is_theirs(path))),
            "new" | "swap" | "node" | "open" => {
                self.keep(word, path)?;
                Ok("")
            }
            _ => {
                act(rt, word, path, second, third)?;
                Ok("")
            }
        }
    }

    /// Executes a call and prints its answer.
    fn call(&mut self, call: &str) -> io::Result<()> {
        let mut words = call.split(' ');
        let word = words.next().unwrap_or("");
        let path = match words.next().unwrap_or("") {
            "LONG" => LONG,
            path => path,
        };
        let second = words.next().unwrap_or("");
        let third = words.next().unwrap_or(second);
        if word == "replace" {
            let done = self.replace(path);
            print!(self.rt; "{done}; ")?;
        }
        if word == "replace" || word == "tell" {
            return self.tell(path);
        }
        let answer = self.answer(word, path, second, third)?;
        print!(self.rt; "{answer}")
    }

    /// Executes the lines of a case.
    pub fn case(&mut self, case: &str) -> io::Result<()> {
        for line in case.lines() {
            let mut prints = true;
            for piece in line.split('|') {
                if prints {
                    print!(self.rt; "{piece}")?;
                } else {
                    self.call(piece)?;
                }
                prints = !prints;
            }
            if !line.starts_with('|') {
                println!(self.rt)?;
            }
        }
        Ok(())
    }
}
