//! The output of a job: the trait `Sink`, and the function that writes to a sink.
ghost use Rattle.std.specs.Prelude.{◌≡◌, ⊤, Bool, Option, false, ◌||◌, List, ℕ, is_err, OnOk, IfErr};
ghost use Rattle.std.specs.Io.{WritesAtMost};
ghost use Rattle.std.specs.Io.KnownBytes.{WriteAppends, Appends};
ghost use Rattle.pm_jobs.specs.Streams.{Outgoing, took_nothing, AppendsFront};

use crate::fault::Fault;
use std::io;

/// The output stream of a job.
pub trait Sink {
    /// The state of the sink: the bytes that were written, if they are known, and whether a write has failed. A write
    /// fails if it returns an error or writes no byte.
    ghost seen: { Self → Outgoing };

    /// Writes a prefix of `buf` and returns the number of bytes written. If the call returns an error, it wrote
    /// nothing.
    fn write(&mut self, buf: &[u8]) -> io::Result<usize>
        ensures bound { WritesAtMost result buf.now }
        ensures bytes { WriteAppends (seen self.old).contents (seen self.new).contents result buf.now }
        ensures failed { (seen self.new).failed ≡ ((seen self.old).failed || took_nothing result) };

    /// Returns whether a write has returned an error or has written no byte.
    fn failed(&self) -> bool
        ensures value { result ≡ (seen self.now).failed };
}

/// A writer whose contract describes the effect of a single call. Every `io::Write` is an `Output`.
pub trait Output {
    /// The bytes that the writer has accepted, if they are known.
    ghost taken: { Self → Option (List ℕ) };

    /// The relation between the state of the writer before one call of `write_once` and the state after it.
    ghost one_write: { Self → Self → Type 0 };

    /// Calls the writer once with `buf`. Returns the number of bytes of `buf` that were written.
    fn write_once(&mut self, buf: &[u8]) -> io::Result<usize>
        ensures bound { WritesAtMost result buf.now }
        ensures bytes { WriteAppends (taken self.old) (taken self.new) result buf.now }
        ensures once { one_write self.old self.new };
}

impl<W: io::Write> Output for W {
    ghost taken = { W.contents };

    ghost one_write = { λ _ _. ⊤ };

    fn write_once(&mut self, buf: &[u8]) -> io::Result<usize> {
        self.write(buf)
    }
}

/// A sink that writes to any `Output` and records whether a write has failed.
#[derive(Drop)]
pub struct Writer<W> {
    inner: W,
    failed: bool,
}

impl<W: Output> Writer<W> {
    /// Creates a sink that writes to `inner`. The new sink has not failed.
    pub fn new(inner: W) -> Writer<W>
        ensures contents { (⟦<Writer<W> as Sink>⟧.seen result).contents ≡ W.taken inner }
        ensures failed { (⟦<Writer<W> as Sink>⟧.seen result).failed ≡ false }
    {
        Writer {
            inner,
            failed: false,
        }
    }
}

impl<W: Output> Sink for Writer<W> {
    ghost seen = { λ sink. record { contents = W.taken sink.inner; failed = sink.failed } };

    fn write(&mut self, buf: &[u8]) -> io::Result<usize>
        ensures bound { WritesAtMost result buf.now }
        ensures bytes { WriteAppends (W.taken self.old.inner) (W.taken self.new.inner) result buf.now }
        ensures failed { self.new.failed ≡ (self.old.failed || took_nothing result) }
        ensures once { W.one_write self.old.inner self.new.inner }
    {
        let outcome = self.inner.write_once(buf);
        self.failed |= !matches!(outcome, Ok(1..));
        outcome
    }

    fn failed(&self) -> bool {
        self.failed
    }
}

/// Writes all of `bytes` to `sink`, with as many writes as needed. The sink must not have failed before.
///
/// # Errors
///
/// `Write`: a write returned an error or wrote no byte. Then only a prefix of `bytes` was written.
pub fn write_all<W: Sink>(sink: &mut W, bytes: &[u8]) -> Result<(), Fault>
    requires well { (W.seen sink.old).failed ≡ false }
    ensures all { OnOk result (Appends (W.seen sink.old).contents (W.seen sink.new).contents bytes.now) }
    ensures refusal { IfErr result (λ fault. fault ≡ Fault.Write) }
    ensures front { AppendsFront (W.seen sink.old).contents (W.seen sink.new).contents bytes.now }
    ensures failed { (W.seen sink.new).failed ≡ is_err result }
{
    let mut rest = bytes;
    'writing: while !rest.is_empty() {
        match sink.write(rest) {
            Ok(count @ 1..) => rest = rest.split_at(count).1,
            _ => return Err(Fault::Write),
        }
    }
    Ok(())
}
