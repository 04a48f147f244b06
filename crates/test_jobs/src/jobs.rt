//! Functions that run jobs with streams in memory, and assert their results.
use pm_tool::{Job, Outcome, Reader, Writer, run};
use std::alloc::Global;
use std::process::Abort;

/// The outcome of a job, the bytes that it wrote, and the number of input bytes that it left unread.
#[derive(Drop)]
pub(crate) struct Ran {
    pub(crate) outcome: Outcome,
    pub(crate) written: Vec<u8>,
    pub(crate) left: usize,
}

/// Runs `job` with the input bytes `input`.
pub(crate) fn job_run(alloc: Global, job: Job, input: &[u8]) -> Ran {
    let mut written = Vec::new(alloc);
    let mut rest = input;
    let mut source = Reader::new(&mut rest);
    let mut sink = Writer::new(&mut written);
    let outcome = run(alloc, &mut source, &mut sink, job);
    let left = rest.len();
    Ran {
        outcome,
        written,
        left,
    }
}

/// The expected status, message, output, and number of unread input bytes of a job.
pub(crate) type Told<'a> = (u8, &'a str, &'a str, usize);

impl Ran {
    fn has_message(&self, rt: &impl Abort, message: &str) {
        assert_eq!(rt; self.outcome.text(), message);
    }

    fn has_written(&self, rt: &impl Abort, written: &str) {
        assert_eq!(rt; self.written.as_slice(), written.as_bytes());
    }

    /// Asserts that the job saves no image and prints nothing.
    fn keeps_nothing(&self, rt: &impl Abort) {
        assert!(rt; self.outcome.image.is_none());
        assert!(rt; self.outcome.printer.is_empty());
    }

    fn is(&self, rt: &impl Abort, told: Told<'_>) {
        let (status, message, written, left) = told;
        assert_eq!(rt; (self.outcome.exit.number(), self.left), (status, left));
        self.has_message(rt, message);
        self.has_written(rt, written);
        self.keeps_nothing(rt);
    }

    /// Returns the saved image.
    pub(crate) fn into_image(self) -> Option<Vec<u8>> {
        let Ran { outcome, .. } = self;
        let Outcome { image, .. } = outcome;
        image
    }
}

/// Asserts that `job` with the input `input` has the result `told`.
pub(crate) fn tells(rt: &impl Abort, alloc: Global, job: Job, input: &[u8], told: Told<'_>) {
    job_run(alloc, job, input).is(rt, told);
}
