//! The result of a command line.
use crate::disk::Disk;
use std::alloc::Global;
use std::io;

/// The result of a command line: its status, and the disk with the contents of the standard streams.
#[derive(Drop)]
pub struct Came {
    pub status: u8,
    pub disk: Disk,
}

/// Returns a path that named a file with the same bytes in `old` as `path` names in `now`. Returns `none` if `path`
/// names no file, and `other` if no path in `old` had these bytes.
fn name_of<'a>(old: &'a Disk, now: &Disk, path: &str) -> &'a str {
    let Some(bytes) = now.bytes(path) else {
        return "none";
    };
    for name in old.names.iter() {
        let name = name.path.as_str();
        if name != path && old.bytes(name) == Some(bytes) {
            return name;
        }
    }
    "other"
}

/// Appends a description of what `path` names: the path that a link contains, or the path that had the bytes of the
/// file in `old`. `*` marks a file that another program created. Owner, group and mode follow if they are not 0, 0 and
/// 644.
fn tell_path(
    alloc: Global,
    text: &mut String,
    old: &Disk,
    now: &Disk,
    path: &str,
) -> io::Result<()> {
    let number = now.find(path).unwrap_or(usize::MAX);
    let (Some(inode), Some(node)) = (now.inodes.get(number), now.node_of(number)) else {
        text.push_str("=none")?;
        return Ok(());
    };
    match &inode.link {
        Some(link) => {
            text.push_str("->")?;
            text.push_str(link.as_str())?;
        }
        None => {
            text.push('=')?;
            text.push_str(name_of(old, now, path))?;
        }
    }
    if inode.is_foreign {
        text.push('*')?;
    }
    if (node.owner, node.group, node.mode) != (0, 0, 0o644) {
        let more = format!(in alloc; "({}:{} {:o})", node.owner, node.group, node.mode)?;
        text.push_str(more.as_str())?;
    }
    Ok(())
}

/// Returns the result of a command line as text: its status, what each of `paths` names, and the first line of its
/// output.
pub fn tell(alloc: Global, old: &Disk, came: &Came, paths: &str) -> io::Result<String> {
    let mut text = format!(in alloc; "{}", came.status)?;
    for path in paths.split(',') {
        text.push(' ')?;
        text.push_str(path)?;
        tell_path(alloc, &mut text, old, &came.disk, path)?;
    }
    let out = std::str::from_utf8(came.disk.out.as_slice()).unwrap_or("");
    if let Some(line) = out.lines().next() {
        text.push_str(" > ")?;
        text.push_str(line)?;
    }
    Ok(text)
}
