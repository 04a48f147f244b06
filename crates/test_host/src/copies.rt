//! Copies of a disk.
use crate::disk::{Disk, Inode, Name};
use std::alloc::Global;
use std::io;

/// Returns a copy of the bytes of `inode`. Returns no bytes if `is_named` is false, because no name refers to the file.
fn bytes_of(alloc: Global, inode: &Inode, is_named: bool) -> io::Result<Vec<u8>> {
    let mut bytes = Vec::new(alloc);
    if is_named {
        bytes.extend_from_slice(inode.bytes.as_slice())?;
    }
    Ok(bytes)
}

/// Returns a copy of `inode`.
fn copy_of(alloc: Global, inode: &Inode, is_named: bool) -> io::Result<Inode> {
    let link = match &inode.link {
        Some(link) => Some(String::from_str(alloc, link.as_str())?),
        None => None,
    };
    Ok(Inode {
        bytes: bytes_of(alloc, inode, is_named)?,
        locked: inode.locked,
        holder: None,
        is_private: inode.is_private,
        is_read_only: inode.is_read_only,
        is_folder: inode.is_folder,
        is_busy: inode.is_busy,
        is_foreign: inode.is_foreign,
        link,
        owner: inode.owner,
        group: inode.group,
        mode: inode.mode,
    })
}

/// Adds copies of the files and names of `disk` to `copy`, which must be empty.
fn add_files(alloc: Global, copy: &mut Disk, disk: &Disk) -> io::Result<()> {
    for (number, inode) in disk.inodes.iter().enumerate() {
        let is_named = disk.names.iter().any(|name| name.inode == number);
        copy.inodes.push(copy_of(alloc, inode, is_named)?)?;
    }
    for name in disk.names.iter() {
        let path = String::from_str(alloc, name.path.as_str())?;
        copy.names.push(Name {
            path,
            inode: name.inode,
        })?;
    }
    Ok(())
}

/// Returns a disk with the same files as `disk`, and with no recorded calls.
pub fn copy(alloc: Global, disk: &Disk) -> io::Result<Disk> {
    let mut copy = Disk::new(alloc);
    add_files(alloc, &mut copy, disk)?;
    copy.is_closed = disk.is_closed;
    copy.is_sticky = disk.is_sticky;
    copy.is_blind = disk.is_blind;
    copy.is_plain = disk.is_plain;
    copy.user = disk.user;
    Ok(copy)
}
