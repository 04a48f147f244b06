//! The input of a job: the trait `Source`, and the functions that read from a source.
ghost use Rattle.std.specs.Prelude.{◌≡◌, ⊤, Bool, Option, false, ◌||◌, List, ℕ, is_err, OnOk, OnErr, IfErr, IfOk};
ghost use Rattle.std.specs.Io.{ReadsAtMost};
ghost use Rattle.std.specs.Io.KnownBytes.{ReadConsumes, Consumes, Keeps};
ghost use Rattle.pm_jobs.specs.Streams.{Incoming, ReadsAll, ReadsByte, IsCause, Counts, CountsByte, IsCounted};
ghost use Rattle.pm_jobs.specs.Streams.{TakesByte, TakesNone};

use crate::fault::Fault;
use std::alloc::Global;
use std::io;

/// The input stream of a job.
pub trait Source {
    /// The state of the source: the remaining bytes, if they are known; whether a read has returned an error; and the
    /// number of bytes that were read.
    ghost seen: { Self → Incoming };

    /// Reads bytes into the start of `buf` and returns their number. The number is 0 only if no bytes remain or `buf`
    /// is empty. If the call returns an error, it read nothing.
    fn read(&mut self, buf: &mut [u8]) -> io::Result<usize>
        ensures bound { ReadsAtMost result buf.new }
        ensures bytes { ReadConsumes (seen self.old).remaining (seen self.new).remaining result buf.new }
        ensures failed { (seen self.new).failed ≡ ((seen self.old).failed || is_err result) }
        ensures counts { Counts (seen self.old).given (seen self.new).given result };

    /// Returns whether a read has returned an error.
    fn failed(&self) -> bool
        ensures value { result ≡ (seen self.now).failed };
}

/// A reader whose contract describes the effect of a single call. Every `io::Read` is an `Input`.
pub trait Input {
    /// The bytes that the reader can still deliver, if they are known.
    ghost coming: { Self → Option (List ℕ) };

    /// The relation between the state of the reader before one call of `read_once` and the state after it.
    ghost one_read: { Self → Self → Type 0 };

    /// Calls the reader once. Returns the number of bytes that were read into the start of `buf`.
    fn read_once(&mut self, buf: &mut [u8]) -> io::Result<usize>
        ensures bound { ReadsAtMost result buf.new }
        ensures bytes { ReadConsumes (coming self.old) (coming self.new) result buf.new }
        ensures once { one_read self.old self.new };
}

impl<R: io::Read> Input for R {
    ghost coming = { R.remaining };

    ghost one_read = { λ _ _. ⊤ };

    fn read_once(&mut self, buf: &mut [u8]) -> io::Result<usize> {
        self.read(buf)
    }
}

/// A source that reads from any `Input`, counts its bytes, and records whether a read has failed.
#[derive(Drop)]
pub struct Reader<R> {
    inner: R,
    failed: bool,
    given: u64,
}

impl<R: Input> Reader<R> {
    /// Creates a source that reads from `inner`. The new source has not failed and has read no bytes.
    pub fn new(inner: R) -> Reader<R>
        ensures remaining { (⟦<Reader<R> as Source>⟧.seen result).remaining ≡ R.coming inner }
        ensures failed { (⟦<Reader<R> as Source>⟧.seen result).failed ≡ false }
        ensures given { (⟦<Reader<R> as Source>⟧.seen result).given ≡ 0 }
    {
        Reader {
            inner,
            failed: false,
            given: 0,
        }
    }
}

impl<R: Input> Source for Reader<R> {
    ghost seen = { λ source.
        record { remaining = R.coming source.inner; failed = source.failed; given = source.given } };

    fn read(&mut self, buf: &mut [u8]) -> io::Result<usize>
        ensures bound { ReadsAtMost result buf.new }
        ensures bytes { ReadConsumes (R.coming self.old.inner) (R.coming self.new.inner) result buf.new }
        ensures failed { self.new.failed ≡ (self.old.failed || is_err result) }
        ensures counts { Counts self.old.given self.new.given result }
        ensures once { R.one_read self.old.inner self.new.inner }
    {
        let outcome = self.inner.read_once(buf);
        match outcome {
            Ok(count) => self.given = self.given.saturating_add(count as u64),
            Err(_) => self.failed = true,
        }
        outcome
    }

    fn failed(&self) -> bool {
        self.failed
    }
}

/// The maximum number of input bytes of a job. A job that reads one more byte ends with a read fault.
pub const INPUT_LIMIT: usize = 16_777_216;

/// Reads and returns all remaining bytes of `source`. The source must not have failed before.
///
/// # Errors
///
/// If an error is returned, the bytes that were already read are lost.
/// - `Read`: a read returned an error, or more than `INPUT_LIMIT` bytes were read.
/// - `NoMemory`: the host has no more memory.
pub fn read_all<R: Source>(alloc: Global, source: &mut R) -> Result<Vec<u8>, Fault>
    requires well { (R.seen source.old).failed ≡ false }
    ensures all { IfOk result (λ input.
        ReadsAll (R.seen source.old).remaining (R.seen source.new).remaining input.items) }
    ensures well { OnOk result ((R.seen source.new).failed ≡ false) }
    ensures cause { IfErr result (λ fault. (read : List ℕ)
        × Consumes (R.seen source.old).remaining (R.seen source.new).remaining read
        × IsCause fault (R.seen source.new).failed false read) }
    ensures counts { IsCounted (R.seen source.old) (R.seen source.new) result }
{
    let mut input = Vec::new(alloc);
    let mut buffer = [0; 4096];
    'reading: loop {
        let Ok(count) = source.read(&mut buffer) else {
            return Err(Fault::Read);
        };
        if count == 0 {
            break 'reading;
        }
        if count > INPUT_LIMIT - input.len() {
            return Err(Fault::Read);
        }
        input.extend_from_slice(&buffer[..count])?;
    }
    Ok(input)
}

// Reads one byte of `source`, or returns None if no bytes remain. The source must not have failed before. If the read
// returns an error, the function fails with `Read` and no byte was read.
fn read_byte<R: Source>(source: &mut R) -> Result<Option<u8>, Fault>
    requires well { (R.seen source.old).failed ≡ false }
    ensures byte { IfOk result (λ byte. ReadsByte (R.seen source.old).remaining (R.seen source.new).remaining byte) }
    ensures failed { (R.seen source.new).failed ≡ is_err result }
    ensures refusal { IfErr result (λ fault. fault ≡ Fault.Read) }
    ensures kept { OnErr result (Keeps (R.seen source.old).remaining (R.seen source.new).remaining) }
    ensures counts { IfOk result (λ byte. CountsByte (R.seen source.old).given (R.seen source.new).given byte) }
{
    let mut buffer = [0; 1];
    match source.read(&mut buffer) {
        Ok(0) => Ok(None),
        Ok(_) => Ok(Some(buffer[0])),
        Err(_) => Err(Fault::Read),
    }
}

/// Reads one byte of `source` and adds 1 to `taken`, the number of bytes that were read before. If no bytes remain, the
/// function returns None and leaves `taken` unchanged. The source must not have failed before.
///
/// # Errors
///
/// `Read`, in one of two cases. `taken` is unchanged in both cases:
/// - The read returned an error. No byte was read.
/// - `taken` was already at least `INPUT_LIMIT`. One more byte was read and is lost.
pub fn next_byte<R: Source>(source: &mut R, taken: &mut usize) -> Result<Option<u8>, Fault>
    requires well { (R.seen source.old).failed ≡ false }
    ensures byte { IfOk result (λ byte.
        TakesByte (R.seen source.old) (R.seen source.new) taken.old taken.new byte) }
    ensures well { OnOk result ((R.seen source.new).failed ≡ false) }
    ensures refusal { IfErr result (λ fault. fault ≡ Fault.Read) }
    ensures none { OnErr result (TakesNone (R.seen source.old) (R.seen source.new) taken.old) }
{
    let byte = read_byte(source)?;
    if byte.is_some() {
        if *taken >= INPUT_LIMIT {
            return Err(Fault::Read);
        }
        *taken += 1;
    }
    Ok(byte)
}
