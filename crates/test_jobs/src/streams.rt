//! A reader and a writer that move one byte at a time and fail once.
use pm_tool::{Job, Selection};
use std::io;
use std::io::{ErrorKind, Read, Write};

/// A reader of `bytes` that returns one byte at a time. The read after the first `good` reads fails, and later reads
/// succeed.
#[derive(Drop)]
pub(crate) struct ShortReader<'a> {
    pub(crate) bytes: &'a [u8],
    pub(crate) good: usize,
}

impl Read for ShortReader<'_> {
    fn read(&mut self, buf: &mut [u8]) -> io::Result<usize> {
        if self.good == 0 {
            self.good = usize::MAX;
            return Err(io::Error::from(ErrorKind::Other));
        }
        self.good -= 1;
        let Some((first, rest)) = self.bytes.split_first() else {
            return Ok(0);
        };
        let Some(place) = buf.first_mut() else {
            return Ok(0);
        };
        *place = *first;
        self.bytes = rest;
        Ok(1)
    }
}

/// How the failing write of a writer fails: with an error, or by accepting no byte.
#[derive(Clone, Copy)]
pub(crate) enum Full {
    Errs,
    TakesNothing,
}

/// A writer that accepts one byte at each write. The write after the first `good` writes fails, and later writes
/// succeed.
#[derive(Drop)]
pub(crate) struct ShortWriter {
    pub(crate) bytes: Vec<u8>,
    pub(crate) good: usize,
    pub(crate) full: Full,
}

impl Write for ShortWriter {
    fn write(&mut self, buf: &[u8]) -> io::Result<usize> {
        let Some(first) = buf.first() else {
            return Ok(0);
        };
        if self.good == 0 {
            self.good = usize::MAX;
            return match self.full {
                Full::Errs => Err(io::Error::from(ErrorKind::Other)),
                Full::TakesNothing => Ok(0),
            };
        }
        self.bytes.push(*first)?;
        self.good -= 1;
        Ok(1)
    }

    fn flush(&mut self) -> io::Result<()> {
        Ok(())
    }
}

/// Returns the job that runs raw p-code for at most `limit` steps and traces each step.
pub(crate) fn raw(limit: u32) -> Job {
    let selection = Selection::ALL;
    Job::Raw { limit, selection }
}
