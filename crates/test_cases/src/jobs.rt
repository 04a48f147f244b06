//! Jobs with streams in memory.
use pm_tool::{Exit, Job, Outcome, Reader, Writer, run};
use std::alloc::Global;
use std::io;
use std::io::ErrorKind;

/// The outcome of a job and the bytes that it wrote.
#[derive(Drop)]
pub struct Ran {
    pub outcome: Outcome,
    pub written: Vec<u8>,
}

/// Runs a job.
pub fn do_job(alloc: Global, job: Job, input: &[u8]) -> Ran {
    let mut written = Vec::new(alloc);
    let mut rest = input;
    let mut source = Reader::new(&mut rest);
    let mut sink = Writer::new(&mut written);
    let outcome = run(alloc, &mut source, &mut sink, job);
    Ran { outcome, written }
}

impl Ran {
    /// Whether the job refused its input.
    pub fn is_refused(&self) -> bool {
        self.outcome.exit == Exit::Refused
    }

    /// Returns the output as text.
    pub fn text(&self, alloc: Global) -> io::Result<String> {
        Ok(String::from_utf8_lossy(alloc, &self.written)?)
    }

    /// Returns the image of the outcome. Returns an error if the outcome has no image.
    pub fn into_image(self) -> io::Result<Vec<u8>> {
        let Ran { outcome, .. } = self;
        let Outcome { image, .. } = outcome;
        image.ok_or_else(|| io::Error::from(ErrorKind::InvalidData))
    }
}
