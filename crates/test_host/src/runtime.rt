//! A runtime whose files are in memory. At most one of its calls fails.
use crate::disk::{Disk, FOLDER, OTHER_FOLDER, missing, out_of_memory};
use pm_files::{Host, Node, Stream};
use std::alloc::Global;
use std::cell::RefCell;
use std::fs::{Metadata, OpenFile, OpenOptions, Permissions};
use std::io;
use std::io::{ErrorKind, PipeReader, Read, Seek, SeekFrom, Write};
use std::os::unix::fs::PermissionsExt;
use std::path::PathBuf;
use std::rt::Files;

/// An open file or folder. Dropping it releases its lock.
pub struct FakeFile<'a> {
    disk: &'a RefCell<Disk>,
    inode: usize,
    at: usize,
    /// Its number in the order of opening, from 0.
    number: usize,
}

impl Drop for FakeFile<'_> {
    fn drop(self) {
        if let Ok(mut disk) = self.disk.try_borrow_mut() {
            if let Some(inode) = disk.inodes.get_mut(self.inode) {
                if inode.holder == Some(self.number) {
                    inode.holder = None;
                }
            }
        }
        let FakeFile {
            disk: _,
            inode: _,
            at: _,
            number: _,
        } = self;
    }
}

/// The length in bytes of the longest name.
const NAME_LIMIT: usize = 255;

/// A runtime over a disk in memory.
#[derive(Clone, Copy)]
pub struct FakeRuntime<'a> {
    pub disk: &'a RefCell<Disk>,
    pub alloc: Global,
    /// The command line: the name of the program and the arguments, separated by single spaces.
    pub line: &'a str,
    /// Standard input.
    pub typed: &'a [u8],
    /// Whether the standard streams are a terminal.
    pub on_terminal: bool,
}

impl<'a> FakeRuntime<'a> {
    /// Opens a file of the disk at offset 0.
    fn opened(&self, disk: &mut Disk, inode: usize) -> io::Result<FakeFile<'a>> {
        let number = disk.count_open(inode)?;
        Ok(FakeFile {
            disk: self.disk,
            inode,
            at: 0,
            number,
        })
    }
}

pub(crate) fn in_use() -> io::Error {
    io::Error::from(ErrorKind::ResourceBusy)
}

fn closed() -> io::Error {
    io::Error::from(ErrorKind::PermissionDenied)
}

impl Read for FakeFile<'_> {
    fn read(&mut self, buf: &mut [u8]) -> io::Result<usize> {
        let Ok(mut disk) = self.disk.try_borrow_mut() else {
            return Err(in_use());
        };
        disk.tick('r')?;
        let Some(inode) = disk.inodes.get(self.inode) else {
            return Err(missing());
        };
        if inode.is_folder {
            return Err(io::Error::from(ErrorKind::IsADirectory));
        }
        let Some(rest) = inode.bytes.as_slice().get(self.at..) else {
            return Ok(0);
        };
        let count = rest.len().min(buf.len());
        buf[..count].copy_from_slice(&rest[..count]);
        self.at = self.at.saturating_add(count);
        Ok(count)
    }
}

impl Write for FakeFile<'_> {
    fn write(&mut self, buf: &[u8]) -> io::Result<usize> {
        let Ok(mut disk) = self.disk.try_borrow_mut() else {
            return Err(in_use());
        };
        disk.tick('w')?;
        let Some(inode) = disk.inodes.get_mut(self.inode) else {
            return Err(missing());
        };
        // A write moves at most 4,000 bytes, so that a file needs several writes.
        let count = buf.len().min(4000);
        for byte in &buf[..count] {
            match inode.bytes.get_mut(self.at) {
                Some(place) => *place = *byte,
                None => {
                    if inode.bytes.push(*byte).is_err() {
                        return Err(out_of_memory());
                    }
                }
            }
            self.at = self.at.saturating_add(1);
        }
        Ok(count)
    }

    fn flush(&mut self) -> io::Result<()> {
        Ok(())
    }
}

impl Seek for FakeFile<'_> {
    fn seek(&mut self, to: SeekFrom) -> io::Result<u64> {
        let SeekFrom::Start(at) = to else {
            return Err(io::Error::from(ErrorKind::Unsupported));
        };
        let Ok(mut disk) = self.disk.try_borrow_mut() else {
            return Err(in_use());
        };
        disk.tick('e')?;
        self.at = at as usize;
        Ok(at)
    }
}

impl OpenFile for FakeFile<'_> {
    fn metadata(&self) -> io::Result<Metadata> {
        let Ok(mut disk) = self.disk.try_borrow_mut() else {
            return Err(in_use());
        };
        disk.tick('m')?;
        match disk.inodes.get(self.inode) {
            Some(inode) => Ok(Metadata::of_file(inode.bytes.len() as u64)),
            None => Err(missing()),
        }
    }

    fn set_len(&self, size: u64) -> io::Result<()> {
        let Ok(mut disk) = self.disk.try_borrow_mut() else {
            return Err(in_use());
        };
        disk.tick('l')?;
        if let Some(inode) = disk.inodes.get_mut(self.inode) {
            inode.bytes.truncate(size as usize);
        }
        Ok(())
    }

    fn sync_all(&self) -> io::Result<()> {
        let letter = match self.inode {
            FOLDER | OTHER_FOLDER => 'f',
            _ => 's',
        };
        match self.disk.try_borrow_mut() {
            Ok(mut disk) => disk.tick(letter),
            Err(_) => Err(in_use()),
        }
    }

    fn sync_data(&self) -> io::Result<()> {
        self.sync_all()
    }

    fn set_permissions(&self, perm: Permissions) -> io::Result<()> {
        let Ok(mut disk) = self.disk.try_borrow_mut() else {
            return Err(in_use());
        };
        disk.tick('p')?;
        if let Some(inode) = disk.inodes.get_mut(self.inode) {
            inode.mode = perm.mode();
        }
        disk.widest |= perm.mode();
        Ok(())
    }
}

impl<'a> Files for FakeRuntime<'a> {
    type File = FakeFile<'a>;

    type Dir = PipeReader;

    fn open_file(&self, how: &OpenOptions, path: &str) -> io::Result<FakeFile<'a>> {
        how.check()?;
        let Ok(mut disk) = self.disk.try_borrow_mut() else {
            return Err(in_use());
        };
        disk.tick(if path == "." { 'd' } else { 'o' })?;
        if how.asks_create() || how.asks_create_new() || how.asks_truncate() {
            return Err(io::Error::from(ErrorKind::Unsupported));
        }
        disk.check_way(path)?;
        let whole = disk.through(path)?;
        let path = whole.as_str();
        let inode = match disk.led_to(path)? {
            Some(inode) => inode,
            None if path == "." => disk.folder_now(),
            None => return Err(missing()),
        };
        if let Some(inode) = disk.inodes.get_mut(inode) {
            if how.asks_read() && inode.is_private || how.asks_write() && inode.is_read_only {
                return Err(closed());
            }
            if how.asks_write() && inode.is_folder {
                return Err(io::Error::from(ErrorKind::IsADirectory));
            }
        }
        self.opened(&mut disk, inode)
    }

    fn open_dir(&self, _path: &str) -> io::Result<PipeReader> {
        Err(io::Error::from(ErrorKind::Unsupported))
    }

    fn metadata(&self, path: &str) -> io::Result<Metadata> {
        let Ok(mut disk) = self.disk.try_borrow_mut() else {
            return Err(in_use());
        };
        disk.tick('M')?;
        let Some(inode) = disk.led_to(path)? else {
            return Err(missing());
        };
        match disk.inodes.get(inode) {
            Some(inode) if inode.is_folder => Ok(Metadata::of_dir()),
            Some(inode) => Ok(Metadata::of_file(inode.bytes.len() as u64)),
            None => Err(missing()),
        }
    }

    fn symlink_metadata(&self, _path: &str) -> io::Result<Metadata> {
        Err(io::Error::from(ErrorKind::Unsupported))
    }

    fn copy(&self, _from: &str, _to: &str) -> io::Result<u64> {
        Err(io::Error::from(ErrorKind::Unsupported))
    }

    fn rename(&self, from: &str, to: &str) -> io::Result<()> {
        let Ok(mut disk) = self.disk.try_borrow_mut() else {
            return Err(in_use());
        };
        disk.tick('n')?;
        if disk.keeps(from) || disk.keeps(to) {
            return Err(closed());
        }
        if disk.named(to).is_some_and(|inode| inode.is_busy) {
            return Err(io::Error::from(ErrorKind::ResourceBusy));
        }
        disk.rename(from, to)
    }

    fn remove_file(&self, path: &str) -> io::Result<()> {
        let Ok(mut disk) = self.disk.try_borrow_mut() else {
            return Err(in_use());
        };
        disk.tick('u')?;
        let whole = disk.through(path)?;
        let path = whole.as_str();
        if disk.keeps(path) {
            return Err(closed());
        }
        if let Some(number) = disk.find(path) {
            if disk.inodes.get(number).is_some_and(|inode| inode.is_folder) {
                return Err(io::Error::from(ErrorKind::IsADirectory));
            }
        }
        disk.unlink(path)?;
        Ok(())
    }

    fn create_dir(&self, path: &str) -> io::Result<()> {
        let Ok(mut disk) = self.disk.try_borrow_mut() else {
            return Err(in_use());
        };
        disk.tick('D')?;
        disk.check_folder_of(path)?;
        if disk.find(path).is_some() {
            return Err(io::Error::from(ErrorKind::AlreadyExists));
        }
        if disk.is_closed {
            return Err(closed());
        }
        disk.add_folder(path)
    }

    fn remove_dir(&self, _path: &str) -> io::Result<()> {
        Err(io::Error::from(ErrorKind::Unsupported))
    }

    fn remove_dir_all<B: std::alloc::Allocator>(&self, _alloc: B, _path: &str) -> io::Result<()> {
        Err(io::Error::from(ErrorKind::Unsupported))
    }

    fn canonicalize<B: std::alloc::Allocator>(
        &self,
        alloc: B,
        path: &str,
    ) -> io::Result<PathBuf<B>> {
        let Ok(mut disk) = self.disk.try_borrow_mut() else {
            return Err(in_use());
        };
        disk.tick('c')?;
        if disk.is_blind {
            return Err(closed());
        }
        let behind = disk.behind(path)?;
        if disk.find(behind).is_none() {
            return Err(missing());
        }
        Ok(PathBuf::from(String::from_str(alloc, behind)?))
    }

    fn read_link<B: std::alloc::Allocator>(&self, alloc: B, path: &str) -> io::Result<PathBuf<B>> {
        let Ok(mut disk) = self.disk.try_borrow_mut() else {
            return Err(in_use());
        };
        disk.tick('L')?;
        let Some(number) = disk.find(path) else {
            return Err(missing());
        };
        match disk
            .inodes
            .get(number)
            .and_then(|inode| inode.link.as_ref())
        {
            Some(link) => Ok(PathBuf::from(String::from_str(alloc, link.as_str())?)),
            None => Err(io::Error::from(ErrorKind::InvalidInput)),
        }
    }
}

impl std::alloc::Alloc for FakeRuntime<'_> {
    type A = Global;

    fn alloc(&self) -> Global {
        self.alloc
    }
}

impl<'a> Host for FakeRuntime<'a> {
    fn try_lock(&self, file: &FakeFile<'a>) -> io::Result<bool> {
        let Ok(mut disk) = self.disk.try_borrow_mut() else {
            return Err(in_use());
        };
        disk.tick('k')?;
        match disk.inodes.get_mut(file.inode) {
            Some(inode) if inode.locked || inode.holder.is_some_and(|by| by != file.number) => {
                Ok(false)
            }
            Some(inode) => {
                inode.holder = Some(file.number);
                Ok(true)
            }
            None => Err(missing()),
        }
    }

    fn node(&self, file: &FakeFile<'a>) -> io::Result<Node> {
        let Ok(mut disk) = self.disk.try_borrow_mut() else {
            return Err(in_use());
        };
        disk.tick('i')?;
        disk.node_of(file.inode).ok_or(missing())
    }

    fn node_at(&self, path: &str, follows: bool) -> io::Result<Option<Node>> {
        let Ok(mut disk) = self.disk.try_borrow_mut() else {
            return Err(in_use());
        };
        disk.tick(if follows { 'M' } else { 'N' })?;
        if path == "." {
            return Ok(Some(disk.folder(disk.folder_now())));
        }
        disk.check_way(path)?;
        let whole = disk.through(path)?;
        let path = whole.as_str();
        let found = if follows {
            disk.led_to(path)?
        } else {
            disk.find(path)
        };
        match found {
            Some(inode) => Ok(disk.node_of(inode)),
            None => Ok(None),
        }
    }

    fn names(&self, alloc: Global, path: &str) -> io::Result<Vec<String>> {
        let Ok(mut disk) = self.disk.try_borrow_mut() else {
            return Err(in_use());
        };
        disk.tick('T')?;
        disk.names_in(alloc, path)
    }

    fn make(&self, path: &str, mode: u32) -> io::Result<FakeFile<'a>> {
        let Ok(mut disk) = self.disk.try_borrow_mut() else {
            return Err(in_use());
        };
        disk.tick('x')?;
        let whole = disk.through(path)?;
        let path = whole.as_str();
        disk.check_folder_of(path)?;
        if disk.find(path).is_some() {
            return Err(io::Error::from(ErrorKind::AlreadyExists));
        }
        if disk.is_closed {
            return Err(closed());
        }
        let name = path.rsplit_once('/').map_or(path, |(_, name)| name);
        if name.len() > NAME_LIMIT {
            return Err(io::Error::from(ErrorKind::InvalidFilename));
        }
        let inode = disk.add(path)?;
        if let Some(made) = disk.inodes.get_mut(inode) {
            made.mode = mode & 0o755;
        }
        disk.widest |= mode & 0o755;
        self.opened(&mut disk, inode)
    }

    fn set_owner(&self, file: &FakeFile<'a>, owner: u32, group: u32) -> io::Result<()> {
        let Ok(mut disk) = self.disk.try_borrow_mut() else {
            return Err(in_use());
        };
        disk.tick('h')?;
        if disk.user != 0 {
            return Err(closed());
        }
        if let Some(inode) = disk.inodes.get_mut(file.inode) {
            inode.owner = owner;
            inode.group = group;
            // Like the system, a change of the owner clears the set-user-ID and set-group-ID bits.
            inode.mode &= 0o1777;
        }
        Ok(())
    }

    fn number(&self, file: &FakeFile<'a>) -> i32 {
        i32::try_from(file.number).unwrap_or(i32::MAX)
    }

    fn is_same(&self, one: &str, other: &str) -> bool {
        let Ok(disk) = self.disk.try_borrow_mut() else {
            return false;
        };
        match (disk.led_to(one), disk.led_to(other)) {
            (Ok(Some(one)), Ok(Some(other))) => one == other,
            // Devices are not files of the disk.
            _ => one == other && one.starts_with("/dev/"),
        }
    }

    fn is_terminal(&self, _stream: Stream) -> bool {
        self.on_terminal
    }
}
