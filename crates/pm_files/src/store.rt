//! The files that the program reads and writes: paths, and the bytes of the files at these paths.
ghost use Rattle.std.specs.Prelude.{◌≡◌, ℕ, Bool, List, Option, None, IfErr, IfOk, IfSome, OnOk, OnErr};
ghost use Rattle.pm_files.specs.Held.{HoldsFile, HoldsNone, Puts, held_too};

use crate::fault::DiskFault;
use crate::host::Host;
use crate::image::read_image;
use crate::place::{WritePath, new_path};
use crate::replacing::replace;
use std::alloc::Global;
use std::fs;
use std::io::ErrorKind;

/// The files of the host. Each file is read as a whole and written as a whole.
pub trait Store {
    /// The bytes of the file at each path, if they are known.
    ghost files: { Self → Option (List ℕ → Option (List ℕ)) };

    /// Whether two paths name the same file, if this is known.
    ghost same: { Self → Option (List ℕ → List ℕ → Bool) };

    /// Whether the second path names the file at the temporary path of the first path, if this is known.
    ghost beside: { Self → Option (List ℕ → List ℕ → Bool) };

    /// Whether a path names a directory, if this is known.
    ghost folders: { Self → Option (List ℕ → Bool) };

    /// The paths of the locked files, in the order in which they were locked, if they are known.
    ghost held: { Self → Option (List (List ℕ)) };

    /// Reads the file at `path`, which has at most `IMAGE_LIMIT` bytes. No file changes.
    ///
    /// # Errors
    ///
    /// `Read(NotFound)` is returned only if no file exists at `path`.
    fn read(&mut self, alloc: Global, path: &str) -> Result<Vec<u8>, DiskFault>
        ensures stays { files self.new ≡ files self.old }
        ensures held { held self.new ≡ held self.old }
        ensures value { IfOk result (λ image. HoldsFile (files self.old) path.now image.items) }
        ensures missing { IfErr result (λ fault.
            fault ≡ DiskFault.Read ErrorKind.NotFound → HoldsNone (files self.old) path.now) };

    /// Prepares the file at `path` for writing: allocates all memory that the write will need. No file changes.
    fn prepare(&mut self, path: &str) -> Result<(), DiskFault>
        ensures stays { files self.new ≡ files self.old }
        ensures held { held self.new ≡ held self.old };

    /// Prepares the file at `path` for writing, and locks it as long as the store exists. During this time, other
    /// programs cannot lock it. No file changes.
    ///
    /// # Errors
    ///
    /// `Busy` if another program has locked the file.
    fn hold(&mut self, path: &str) -> Result<(), DiskFault>
        ensures stays { files self.new ≡ files self.old }
        ensures held { OnOk result (held self.new ≡ held_too path.now (held self.old)) };

    /// Replaces the content of the file at `path` with `bytes`. No other file changes.
    ///
    /// If an error is returned, no file in `files` has changed. In the file system, however, a file that is written in
    /// place can then be a mixture of old and new bytes.
    fn put(&mut self, path: &str, bytes: &[u8]) -> Result<(), DiskFault>
        ensures puts { OnOk result (Puts (files self.old) (files self.new) path.now bytes.now) }
        ensures held { held self.new ≡ held self.old }
        ensures unchanged { OnErr result (files self.new ≡ files self.old) };

    /// Returns whether the paths `one` and `other` name the same file.
    fn is_same(&self, one: &str, other: &str) -> bool
        ensures value { IfSome (same self.now) (λ same. result ≡ same one.now other.now) };

    /// Returns whether a write to the file at `path` would remove the file at `other`, because `other` is the path of
    /// the temporary file.
    fn is_beside(&self, path: &str, other: &str) -> bool
        ensures value { IfSome (beside self.now) (λ beside. result ≡ beside path.now other.now) };

    /// Returns whether `path` names a directory.
    fn is_folder(&self, path: &str) -> bool
        ensures value { IfSome (folders self.now) (λ folders. result ≡ folders path.now) };
}

/// The files of the operating system. Their contents are not known to contracts, because other programs can change
/// them. A file is locked only if it is regular and the program is permitted to read or write it.
#[derive(Drop)]
pub struct HostStore<'a, R: Host> {
    rt: &'a R,
    places: Vec<WritePath<R::File>>,
    /// The path of the last call that failed, for error messages.
    refused: Option<String>,
}

impl<'a, R: Host + AllocGlobal> HostStore<'a, R> {
    /// Returns a store with the files of the system. No file is prepared for writing.
    pub fn new(rt: &'a R) -> HostStore<'a, R> {
        HostStore {
            rt,
            places: Vec::new(rt.alloc()),
            refused: None,
        }
    }

    /// Returns the path of the last call that failed. Returns `None` if no call failed, or if memory for the path was
    /// refused.
    pub fn into_refused(self) -> Option<String> {
        self.refused
    }

    /// If `done` is an error, stores `path` as the path of the last call that failed. Returns `done`.
    fn note<T>(&mut self, path: &str, done: Result<T, DiskFault>) -> Result<T, DiskFault> {
        if done.is_err() {
            self.refused = String::from_str(self.rt.alloc(), path).ok();
        }
        done
    }

    fn add(&mut self, path: &str, holds: bool) -> Result<(), DiskFault> {
        let place = if holds {
            WritePath::holding(self.rt, path)?
        } else {
            WritePath::new(self.rt, path)?
        };
        match self.places.push(place) {
            Ok(()) => Ok(()),
            Err(_) => Err(DiskFault::NoMemory),
        }
    }

    /// Reads the locked file of `path`, or the file that `path` names now if no file is locked for it.
    fn read_path(&mut self, alloc: Global, path: &str) -> Result<Vec<u8>, DiskFault> {
        for place in self.places.iter_mut() {
            if place.name.as_str() == path {
                if let Some(held) = &mut place.held {
                    return held.read(alloc);
                }
            }
        }
        read_image(self.rt, alloc, path)
    }

    fn write(&self, path: &str, bytes: &[u8]) -> Result<(), DiskFault> {
        for place in self.places.iter() {
            if place.name.as_str() == path {
                return replace(self.rt, place, bytes);
            }
        }
        let place = WritePath::new(self.rt, path)?;
        replace(self.rt, &place, bytes)
    }

    /// Stores the path of the temporary file for `path` as the path of the last call that failed.
    fn note_beside(&mut self, path: &str) {
        for place in self.places.iter() {
            if place.name.as_str() == path {
                if let Some(spot) = &place.spot {
                    self.refused = String::from_str(self.rt.alloc(), spot.told.as_str()).ok();
                }
            }
        }
    }
}

impl<R: Host + AllocGlobal> Store for HostStore<'_, R> {
    ghost files = { λ _. None };

    ghost same = { λ _. None };

    ghost beside = { λ _. None };

    ghost folders = { λ _. None };

    ghost held = { λ _. None };

    fn read(&mut self, alloc: Global, path: &str) -> Result<Vec<u8>, DiskFault> {
        let done = self.read_path(alloc, path);
        self.note(path, done)
    }

    fn prepare(&mut self, path: &str) -> Result<(), DiskFault> {
        let done = self.add(path, false);
        self.note(path, done)
    }

    fn hold(&mut self, path: &str) -> Result<(), DiskFault> {
        let done = self.add(path, true);
        self.note(path, done)
    }

    fn put(&mut self, path: &str, bytes: &[u8]) -> Result<(), DiskFault> {
        let written = self.write(path, bytes);
        let done = self.note(path, written);
        if let Err(DiskFault::InTheWay) = done {
            self.note_beside(path);
        }
        done
    }

    fn is_same(&self, one: &str, other: &str) -> bool {
        self.rt.is_same(one, other)
    }

    fn is_beside(&self, path: &str, other: &str) -> bool {
        match new_path(self.rt, path) {
            Ok(Some(new)) => self.rt.is_same(new.as_str(), other),
            _ => false,
        }
    }

    fn is_folder(&self, path: &str) -> bool {
        fs::metadata(self.rt, path).is_ok_and(|file| file.is_dir())
    }
}
