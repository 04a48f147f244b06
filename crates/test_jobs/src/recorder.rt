//! A source and a sink that record their calls. At most one of the calls fails.
ghost use Rattle.std.specs.Io.{ReadsAtMost, WritesAtMost};

use pm_tool::{Job, Outcome, Reader, Sink, Source, Writer, run};
use std::alloc::Global;
use std::cell::RefCell;
use std::io;
use std::io::{ErrorKind, Read, Write};

/// The kind of a call.
#[derive(Clone, Copy, Debug, PartialEq, Eq)]
pub enum Kind {
    /// A read.
    Read,
    /// A write that was passed this number of bytes.
    Write(usize),
}

/// A call, and the number of bytes that were written before it.
#[derive(Clone, Copy, Debug, PartialEq, Eq)]
pub struct Call {
    /// Its kind.
    pub kind: Kind,
    /// The number of bytes that were written before it.
    pub before: usize,
}

/// How the streams respond to calls. A stream *moves* the bytes that one call reads or writes.
#[derive(Clone, Copy)]
pub struct Manner {
    /// The maximum number of bytes that one call moves.
    pub most: usize,
    /// The number of the call that fails, counted from 0 over the calls of source and sink. Calls after it succeed.
    pub fails_at: Option<usize>,
    /// Whether the failing write accepts no byte. Otherwise it returns an error, as a failing read does.
    pub takes_nothing: bool,
}

/// The calls so far, and the bytes that were written.
#[derive(Drop)]
struct Record {
    manner: Manner,
    calls: Vec<Call>,
    written: Vec<u8>,
}

fn failure() -> io::Error {
    io::Error::from(ErrorKind::Other)
}

impl Record {
    /// Records a call. Returns whether this call fails.
    fn fails(&mut self, kind: Kind) -> io::Result<bool> {
        let number = self.calls.len();
        let before = self.written.len();
        self.calls.push(Call { kind, before })?;
        Ok(self.manner.fails_at == Some(number))
    }

    /// Reads: copies bytes from the start of `rest` to the start of `buf`, and returns their number.
    fn give(&mut self, rest: &[u8], buf: &mut [u8]) -> io::Result<usize>
        ensures bound { ReadsAtMost result buf.new }
    {
        if self.fails(Kind::Read)? {
            return Err(failure());
        }
        let count = rest.len().min(buf.len()).min(self.manner.most);
        buf[..count].copy_from_slice(&rest[..count]);
        Ok(count)
    }

    /// Writes bytes from the start of `buf`, and returns their number.
    fn take(&mut self, buf: &[u8]) -> io::Result<usize>
        ensures bound { WritesAtMost result buf.now }
    {
        if self.fails(Kind::Write(buf.len()))? {
            return if self.manner.takes_nothing {
                Ok(0)
            } else {
                Err(failure())
            };
        }
        let count = buf.len().min(self.manner.most);
        self.written.extend_from_slice(&buf[..count])?;
        Ok(count)
    }
}

/// The stream that a job reads.
#[derive(Drop)]
struct Given<'a> {
    kept: &'a RefCell<Record>,
    rest: &'a [u8],
}

impl Read for Given<'_> {
    fn read(&mut self, buf: &mut [u8]) -> io::Result<usize> {
        let Ok(mut kept) = self.kept.try_borrow_mut() else {
            return Err(failure());
        };
        let count = kept.give(self.rest, buf)?;
        self.rest = self.rest.get(count..).unwrap_or(&[]);
        Ok(count)
    }
}

/// The stream that a job writes.
#[derive(Drop)]
struct Taken<'a> {
    kept: &'a RefCell<Record>,
}

impl Write for Taken<'_> {
    fn write(&mut self, buf: &[u8]) -> io::Result<usize> {
        match self.kept.try_borrow_mut() {
            Ok(mut kept) => kept.take(buf),
            Err(_) => Err(failure()),
        }
    }

    fn flush(&mut self) -> io::Result<()> {
        Ok(())
    }
}

/// The outcome of a job, and the calls of its streams.
#[derive(Drop)]
pub struct Recorded {
    /// The status, the message, the saved image and the printer output.
    pub outcome: Outcome,
    /// Whether the source failed, and whether the sink did.
    pub failed: (bool, bool),
    /// The calls of source and sink, in order.
    pub calls: Vec<Call>,
    /// The bytes that the sink accepted.
    pub written: Vec<u8>,
}

/// Runs `job` with the input bytes `input`, and records the calls of its streams.
pub fn recorded_run(alloc: Global, job: Job, input: &[u8], manner: Manner) -> Recorded {
    let kept = RefCell::new(Record {
        manner,
        calls: Vec::new(alloc),
        written: Vec::new(alloc),
    });
    let mut source = Reader::new(Given {
        kept: &kept,
        rest: input,
    });
    let mut sink = Writer::new(Taken { kept: &kept });
    let outcome = run(alloc, &mut source, &mut sink, job);
    let failed = (source.failed(), sink.failed());
    let Record { calls, written, .. } = kept.into_inner();
    Recorded {
        outcome,
        failed,
        calls,
        written,
    }
}
