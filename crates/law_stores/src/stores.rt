//! File stores in memory with one file and with two files. Contracts can state which bytes their files have.

ghost use Rattle.std.specs.Prelude.{◌≡◌, IfErr, IfOk, None, Some, false, map, option_map, string_bytes, vec_items};
ghost use Rattle.std.specs.Str.{bytes_eq};
ghost use Rattle.law_stores.specs.Told.{told, told_first};

use pm_files::{DiskFault, Store};
use std::alloc::Global;
use std::io::ErrorKind;

/// A store with one path. `bytes` is the contents of the file at this path, or `None` if no file exists.
#[derive(Drop)]
pub struct OneFile {
    pub path: String,
    pub bytes: Option<Vec<u8>>,
    pub alloc: Global,
}

/// Returns a copy of `bytes`, the contents of a file. Returns `Read(NotFound)` only if `bytes` is `None`.
fn copied(alloc: Global, bytes: &Option<Vec<u8>>) -> Result<Vec<u8>, DiskFault>
    ensures value { IfOk result (λ copy. option_map vec_items bytes.now ≡ Some copy.items) }
    ensures missing { IfErr result (λ fault.
        fault ≡ DiskFault.Read ErrorKind.NotFound → option_map vec_items bytes.now ≡ None) }
{
    match bytes {
        Some(bytes) => {
            let mut copy = Vec::new(alloc);
            copy.extend_from_slice(bytes.as_slice())?;
            Ok(copy)
        }
        None => Err(DiskFault::Read(ErrorKind::NotFound)),
    }
}

impl Store for OneFile {
    ghost files = { λ s. Some (told (string_bytes s.path) (option_map vec_items s.bytes)) };

    ghost same = { λ _. Some (λ one other. bytes_eq one other) };

    ghost beside = { λ _. Some (λ _ _. false) };

    ghost folders = { λ _. Some (λ _. false) };

    ghost held = { λ _. None };

    fn read(&mut self, alloc: Global, path: &str) -> Result<Vec<u8>, DiskFault> {
        if self.path.as_str() != path {
            return Err(DiskFault::Read(ErrorKind::NotFound));
        }
        copied(alloc, &self.bytes)
    }

    fn prepare(&mut self, _path: &str) -> Result<(), DiskFault> {
        Ok(())
    }

    fn hold(&mut self, _path: &str) -> Result<(), DiskFault> {
        Ok(())
    }

    fn put(&mut self, path: &str, bytes: &[u8]) -> Result<(), DiskFault> {
        if self.path.as_str() != path {
            return Err(DiskFault::Write(ErrorKind::PermissionDenied));
        }
        let mut copy = Vec::new(self.alloc);
        copy.extend_from_slice(bytes)?;
        self.bytes = Some(copy);
        Ok(())
    }

    fn is_same(&self, one: &str, other: &str) -> bool {
        one == other
    }

    fn is_beside(&self, _path: &str, _other: &str) -> bool {
        false
    }

    fn is_folder(&self, _path: &str) -> bool {
        false
    }
}

/// A store with two paths and the contents of the files at these paths. If both paths are equal, only the first file is
/// used. The store records which paths are locked.
#[derive(Drop)]
pub struct TwoFiles {
    pub first: OneFile,
    pub second: OneFile,
    /// The locked paths, in the order in which they were locked.
    pub held: Vec<String>,
    pub alloc: Global,
}

impl Store for TwoFiles {
    ghost files = { λ s. Some (told_first (string_bytes s.first.path) (option_map vec_items s.first.bytes)
        (string_bytes s.second.path) (option_map vec_items s.second.bytes)) };

    ghost same = { λ _. Some (λ one other. bytes_eq one other) };

    ghost beside = { λ _. Some (λ _ _. false) };

    ghost folders = { λ _. Some (λ _. false) };

    ghost held = { λ s. Some (map string_bytes s.held.items) };

    fn read(&mut self, alloc: Global, path: &str) -> Result<Vec<u8>, DiskFault> {
        if self.first.path.as_str() == path {
            return copied(alloc, &self.first.bytes);
        }
        if self.second.path.as_str() == path {
            return copied(alloc, &self.second.bytes);
        }
        Err(DiskFault::Read(ErrorKind::NotFound))
    }

    fn prepare(&mut self, _path: &str) -> Result<(), DiskFault> {
        Ok(())
    }

    #[tactic(auto, using(std::proofs::lemmas::List::map_push))]
    fn hold(&mut self, path: &str) -> Result<(), DiskFault> {
        let path = String::from_str(self.alloc, path)?;
        match self.held.push(path) {
            Ok(()) => Ok(()),
            Err(_) => Err(DiskFault::NoMemory),
        }
    }

    fn put(&mut self, path: &str, bytes: &[u8]) -> Result<(), DiskFault> {
        let mut copy = Vec::new(self.alloc);
        copy.extend_from_slice(bytes)?;
        if self.first.path.as_str() == path {
            self.first.bytes = Some(copy);
            return Ok(());
        }
        if self.second.path.as_str() == path {
            self.second.bytes = Some(copy);
            return Ok(());
        }
        Err(DiskFault::Write(ErrorKind::PermissionDenied))
    }

    fn is_same(&self, one: &str, other: &str) -> bool {
        self.first.is_same(one, other)
    }

    fn is_beside(&self, path: &str, other: &str) -> bool {
        self.first.is_beside(path, other)
    }

    fn is_folder(&self, path: &str) -> bool {
        self.first.is_folder(path)
    }
}

/// Writes `bytes` to the file at `path` and reads the file. If both succeed, it returns `bytes`.
pub fn round(
    alloc: Global,
    store: &mut OneFile,
    path: &str,
    bytes: &[u8],
) -> Result<Vec<u8>, DiskFault>
    ensures same { IfOk result (λ read. read.items ≡ bytes.now) }
{
    store.put(path, bytes)?;
    store.read(alloc, path)
}
