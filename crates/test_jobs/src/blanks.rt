//! A reader that returns space characters.
use std::io;
use std::io::Read;

/// A reader that returns `left` space characters and then ends.
#[derive(Drop)]
pub struct Blanks {
    /// The number of space characters that are still unread.
    pub left: usize,
}

impl Read for Blanks {
    fn read(&mut self, buf: &mut [u8]) -> io::Result<usize> {
        let count = buf.len().min(self.left);
        buf[..count].fill(b' ');
        self.left -= count;
        Ok(count)
    }
}
