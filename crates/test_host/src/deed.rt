//! What another program does during a command line, as a line of a script states it.
use crate::disk::{Act, Disk, Meanwhile};
use std::alloc::Global;
use std::io;

/// What another program does with a file.
#[derive(Drop)]
pub struct Deed {
    act: Act,
    path: String,
    /// The bytes that it writes.
    bytes: Vec<u8>,
    /// The path that its link contains.
    link: String,
}

/// Returns the action that a keyword of the script names.
fn act_of(word: &str) -> Option<Act> {
    match word {
        "put" => Some(Act::Put),
        "replace" => Some(Act::Replace),
        "remove" => Some(Act::Remove),
        "symlink" => Some(Act::Symlink),
        "lock" => Some(Act::Lock),
        "unlock" => Some(Act::Unlock),
        "move" => Some(Act::Move),
        _ => None,
    }
}

fn bytes_of(alloc: Global, bytes: &[u8]) -> io::Result<Vec<u8>> {
    let mut copy = Vec::new(alloc);
    copy.extend_from_slice(bytes)?;
    Ok(copy)
}

/// Returns the action of a script line, or `None` if `word` is not a keyword. `rest` has the path and, after a space, a
/// second path. This is the file whose bytes are written, or the path that the link contains.
pub fn deed_of(alloc: Global, disk: &Disk, word: &str, rest: &str) -> io::Result<Option<Deed>> {
    let (path, from) = rest.split_once(' ').unwrap_or((rest, ""));
    let Some(act) = act_of(word) else {
        return Ok(None);
    };
    Ok(Some(Deed {
        act,
        path: String::from_str(alloc, path)?,
        bytes: bytes_of(alloc, disk.bytes(from).unwrap_or(b""))?,
        link: String::from_str(alloc, from)?,
    }))
}

/// Returns the action of another program before call number `before`.
pub fn act_before(alloc: Global, deed: &Deed, before: usize) -> io::Result<Meanwhile> {
    Ok(Meanwhile {
        before,
        act: deed.act,
        path: String::from_str(alloc, deed.path.as_str())?,
        bytes: bytes_of(alloc, deed.bytes.as_slice())?,
        link: String::from_str(alloc, deed.link.as_str())?,
    })
}
