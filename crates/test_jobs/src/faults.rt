//! Tests of streams that fail at each of their calls in turn.
use crate::streams::{Full, ShortReader, ShortWriter, raw};
use pm_tool::{Outcome, Reader, Sink, Source, Writer, run};
use std::alloc::Global;
use std::process::Abort;
use test_parts::programs::{ADDITION, ADDITION_TRACE};

/// The result of a run of the addition: its outcome, whether its input and its output failed, and the bytes that it
/// wrote.
#[derive(Drop)]
struct Ran {
    outcome: Outcome,
    failed: (bool, bool),
    written: Vec<u8>,
}

impl Ran {
    fn is(&self, rt: &impl Abort, status: u8, message: &str, failed: (bool, bool)) {
        assert_eq!(rt; (self.outcome.exit.number(), self.failed), (status, failed));
        assert_eq!(rt; self.outcome.text(), message);
    }

    fn has_written(&self, rt: &impl Abort, bytes: &[u8]) {
        assert_eq!(rt; self.written.as_slice(), bytes);
    }
}

/// Runs the addition with an input that fails after `good` reads.
fn read_run(alloc: Global, good: usize) -> Ran {
    let mut written = Vec::new(alloc);
    let mut source = Reader::new(ShortReader {
        bytes: ADDITION.as_bytes(),
        good,
    });
    let mut sink = Writer::new(&mut written);
    let outcome = run(alloc, &mut source, &mut sink, raw(100));
    Ran {
        outcome,
        failed: (source.failed(), sink.failed()),
        written,
    }
}

/// Runs the addition with an output that accepts `good` bytes.
fn write_run(alloc: Global, good: usize, full: Full) -> Ran {
    let mut writer = ShortWriter {
        bytes: Vec::new(alloc),
        good,
        full,
    };
    let mut source = Reader::new(ADDITION.as_bytes());
    let mut sink = Writer::new(&mut writer);
    let outcome = run(alloc, &mut source, &mut sink, raw(100));
    Ran {
        outcome,
        failed: (source.failed(), sink.failed()),
        written: writer.bytes,
    }
}

fn fails_to_read(rt: &impl Abort, alloc: Global, good: usize) {
    let ran = read_run(alloc, good);
    ran.is(rt, 4, "read fault", (true, false));
    ran.has_written(rt, b"");
}

/// Tests a failure at each read: one read for each byte of the input, and one read that finds the end.
#[test]
fn each_read_fails(rt: HostRuntime) {
    for good in 0..=ADDITION.len() {
        fails_to_read(&rt, rt.alloc(), good);
    }
}

#[test]
fn no_read_fails(rt: HostRuntime) {
    let ran = read_run(rt.alloc(), ADDITION.len() + 1);
    ran.is(&rt, 0, "", (false, false));
    ran.has_written(&rt, ADDITION_TRACE.as_bytes());
}

fn fails_to_write(rt: &impl Abort, alloc: Global, good: usize, full: Full) {
    let ran = write_run(alloc, good, full);
    ran.is(rt, 4, "write fault", (false, true));
    ran.has_written(rt, ADDITION_TRACE.as_bytes().get(..good).unwrap_or(&[]));
}

/// Tests a failure at each write: one write for each byte of the trace.
#[test]
fn each_write_fails(rt: HostRuntime) {
    for good in 0..ADDITION_TRACE.len() {
        fails_to_write(&rt, rt.alloc(), good, Full::Errs);
        fails_to_write(&rt, rt.alloc(), good, Full::TakesNothing);
    }
}

#[test]
fn no_write_fails(rt: HostRuntime) {
    let ran = write_run(rt.alloc(), ADDITION_TRACE.len(), Full::Errs);
    ran.is(&rt, 0, "", (false, false));
    ran.has_written(&rt, ADDITION_TRACE.as_bytes());
}
