//! Tests of debugger sessions with streams that fail at each of their calls in turn.
use crate::broken::{ANSWERS, COMMANDS, Tried};
use crate::streams::{Full, ShortReader, ShortWriter};
use pm_tool::{Reader, Writer, run};
use std::alloc::Global;
use std::process::Abort;

/// Asserts the result of a session in which the read after `good` reads fails.
fn read_fails(rt: &impl Abort, alloc: Global, good: usize) {
    let job = Tried::Session.job(rt, alloc, &Tried::Session.image(rt, alloc));
    let mut written = Vec::new(alloc);
    let mut source = Reader::new(ShortReader {
        bytes: COMMANDS.as_bytes(),
        good,
    });
    let mut sink = Writer::new(&mut written);
    let outcome = run(alloc, &mut source, &mut sink, job);
    assert_eq!(rt; outcome.exit.number(), 4, "after {good} reads");
    assert_eq!(rt; outcome.text(), "read fault");
    assert!(rt; ANSWERS.as_bytes().starts_with(&written));
}

/// Tests a failure at each read. A session reads one byte at a time, up to the line feed of `quit`.
#[test]
fn each_read_fails(rt: HostRuntime) {
    for good in 0..COMMANDS.len() {
        read_fails(&rt, rt.alloc(), good);
    }
}

/// Asserts the result of a session in which the write after `good` bytes fails.
fn write_fails(rt: &impl Abort, alloc: Global, good: usize, full: Full) {
    let job = Tried::Session.job(rt, alloc, &Tried::Session.image(rt, alloc));
    let mut written = ShortWriter {
        bytes: Vec::new(alloc),
        good,
        full,
    };
    let mut source = Reader::new(COMMANDS.as_bytes());
    let mut sink = Writer::new(&mut written);
    let outcome = run(alloc, &mut source, &mut sink, job);
    assert_eq!(rt; outcome.exit.number(), 4, "after {good} bytes");
    assert_eq!(rt; outcome.text(), "write fault");
    assert_eq!(rt; written.bytes.len(), good);
    assert!(rt; ANSWERS.as_bytes().starts_with(&written.bytes));
}

#[test]
fn each_write_fails(rt: HostRuntime) {
    for good in 0..ANSWERS.len() {
        write_fails(&rt, rt.alloc(), good, Full::Errs);
        write_fails(&rt, rt.alloc(), good, Full::TakesNothing);
    }
}
