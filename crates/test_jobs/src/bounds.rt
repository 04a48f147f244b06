//! Tests of the largest input of a job.
use crate::blanks::Blanks;
use crate::streams::raw;
use pm_tool::{Reader, Writer, run};
use std::alloc::Global;
use std::process::Abort;

/// Asserts the result of a job with raw p-code whose text is `count` space characters, with a limit of 0 steps.
fn reads_blanks(rt: &impl Abort, alloc: Global, count: usize, told: (u8, &str, &str)) {
    let (status, message, text) = told;
    let mut written = Vec::new(alloc);
    let mut source = Reader::new(Blanks { left: count });
    let mut sink = Writer::new(&mut written);
    let outcome = run(alloc, &mut source, &mut sink, raw(0));
    assert_eq!(rt; outcome.exit.number(), status);
    assert_eq!(rt; outcome.text(), message);
    assert_eq!(rt; written.as_slice(), text.as_bytes());
}

/// Tests that an input of 16,777,216 bytes is read, and that one byte more is a read fault.
#[test]
fn input(rt: HostRuntime) {
    reads_blanks(&rt, rt.alloc(), 16_777_216, (6, "", "limit 0\n"));
    reads_blanks(&rt, rt.alloc(), 16_777_217, (4, "read fault", ""));
}
