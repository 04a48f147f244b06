//! The statements of a script: facts about the last command line and the files.
use crate::pieces::add_pieces;
use crate::scene::{Scene, mode, number, user};
use std::io;

impl Scene {
    /// Whether the last command line has this status, and its streams have exactly the expected contents.
    fn is(&self, status: &str) -> bool {
        let disk = &self.came.disk;
        usize::from(self.came.status) == number(status)
            && disk.out.as_slice() == self.out.as_slice()
            && disk.err.as_bytes() == self.err.as_slice()
    }

    /// Returns the word with index `place` in line `line` of standard output. Both count from 0.
    fn field(&self, line: &str, place: &str) -> Option<&str> {
        let text = std::str::from_utf8(self.came.disk.out.as_slice()).ok()?;
        text.lines()
            .nth(number(line))?
            .split(' ')
            .nth(number(place))
    }

    /// Whether a statement about one file is true.
    fn is_so(&self, word: &str, path: &str, rest: &str) -> bool {
        let disk = &self.came.disk;
        let number = disk.find(path).unwrap_or(usize::MAX);
        let (Some(inode), Some(node)) = (disk.inodes.get(number), disk.node_of(number)) else {
            return word == "none";
        };
        let (owner, group) = rest.split_once(' ').unwrap_or((rest, rest));
        match word {
            "own" => !inode.is_foreign,
            "has-mode" => node.mode == mode(rest),
            "has-owner" => node.owner == user(owner) && node.group == user(group),
            "leads" => inode
                .link
                .as_ref()
                .is_some_and(|link| link.as_str() == rest),
            _ => false,
        }
    }

    /// Whether a statement about the last command line and the files is true.
    pub(crate) fn holds(&self, word: &str, first: &str, second: &str) -> bool {
        let disk = &self.came.disk;
        match word {
            "=" => self.is(first),
            "status" => usize::from(self.came.status) == number(first),
            "same" => disk.bytes(first).is_some() && disk.bytes(first) == disk.bytes(second),
            "text" => disk.bytes(first) == Some(second.as_bytes()),
            "size" => disk.bytes(first).map(|bytes| bytes.len()) == Some(number(second)),
            "names" => disk.names.len() == number(first),
            "widest" => disk.widest == mode(first),
            "took" => disk.out.len() == number(first),
            "none" | "own" | "has-mode" | "has-owner" | "leads" => self.is_so(word, first, second),
            "field" => match second.split_once(' ') {
                Some((place, text)) => self.field(first, place) == Some(text),
                None => self.field(first, second).is_none(),
            },
            _ => false,
        }
    }

    /// Whether a file has these bytes.
    pub(crate) fn has_bytes(&self, path: &str, pieces: &str) -> io::Result<bool> {
        let mut bytes = Vec::new(self.alloc);
        let is_spelled = add_pieces(&mut bytes, pieces)?;
        Ok(is_spelled && self.came.disk.bytes(path) == Some(bytes.as_slice()))
    }

    /// Whether the last command line has this status, standard output ends with the expected text, and standard error
    /// is the expected text.
    pub(crate) fn ends(&self, status: &str) -> bool {
        let disk = &self.came.disk;
        usize::from(self.came.status) == number(status)
            && disk.out.as_slice().ends_with(self.out.as_slice())
            && disk.err.as_bytes() == self.err.as_slice()
    }

    /// Whether the last command line has this status, standard error ends with the expected text, and standard output
    /// is the expected text.
    pub(crate) fn says(&self, status: &str) -> bool {
        let disk = &self.came.disk;
        usize::from(self.came.status) == number(status)
            && disk.out.as_slice() == self.out.as_slice()
            && disk.err.as_bytes().ends_with(self.err.as_slice())
    }
}
