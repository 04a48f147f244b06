//! Jobs that convert bytes to bytes. The output of such a job is one function of its input. A job reads its whole
//! input, or none of it.
ghost use Rattle.std.specs.Prelude.{◌≡◌, false, [], List, ℕ, IfOk, IfErr, OnOk, OnErr};
ghost use Rattle.std.specs.Io.KnownBytes.{Appends, Consumes};
ghost use Rattle.pm_batch.specs.Batches.{reads_input};
ghost use Rattle.pm_batch.specs.Products.{product_of};
ghost use Rattle.pm_tool.specs.Batches.{IsInput, said_batch};
ghost use Rattle.pm_tool.specs.Outcomes.{IsOutcome, SaysWhy};
ghost use Rattle.pm_tool.specs.Products.{said_product};
ghost use Rattle.pm_tool.specs.Said.{BreaksOff, Finishes};
ghost use Rattle.pm_jobs.specs.Streams.{AppendsFront, AreWell, IsCause, IsCounted, both};

use crate::outcome::{Exit, Outcome, conclude, refuse_line};
use pm_batch::{Batch, Made, make};
use pm_jobs::{Fault, Sink, Source, read_all, write_all};
use std::alloc::Global;

/// Returns the whole input if `job` reads its input. Otherwise it reads nothing and returns an empty list.
fn input_of<R: Source>(alloc: Global, source: &mut R, job: &Batch) -> Result<Vec<u8>, Fault>
    requires well { (R.seen source.old).failed ≡ false }
    ensures input { IfOk result (λ input. IsInput (reads_input job.now) (R.seen source.old).remaining
        (R.seen source.new).remaining input.items) }
    ensures well { OnOk result ((R.seen source.new).failed ≡ false) }
    ensures cause { IfErr result (λ fault. (read : List ℕ)
        × Consumes (R.seen source.old).remaining (R.seen source.new).remaining read
        × IsCause fault (R.seen source.new).failed false read) }
    ensures counts { IsCounted (R.seen source.old) (R.seen source.new) result }
{
    if !job.reads_input() {
        return Ok(Vec::new(alloc));
    }
    let input = read_all(alloc, source)?;
    Ok(input)
}

/// Writes the bytes or the text of `made`, the product of a job, to `sink`. Returns the outcome of the job.
fn deliver<W: Sink>(alloc: Global, sink: &mut W, made: Made) -> Result<Outcome, Fault>
    requires well { (W.seen sink.old).failed ≡ false }
    ensures written { OnOk result (Appends (W.seen sink.old).contents (W.seen sink.new).contents
        (said_product (product_of made) []).written) }
    ensures outcome { IfOk result (λ outcome. (unread : List ℕ)
        → IsOutcome outcome (said_product (product_of made) unread)) }
    ensures well { OnOk result ((W.seen sink.new).failed ≡ false) }
    ensures front { OnErr result (AppendsFront (W.seen sink.old).contents (W.seen sink.new).contents
        (said_product (product_of made) []).written) }
    ensures cause { IfErr result (λ fault. IsCause fault false (W.seen sink.new).failed []) }
    ensures told { IfOk result SaysWhy }
{
    match made {
        Made::Bytes(bytes) => {
            write_all(sink, &bytes)?;
            Ok(Outcome::plain(alloc, Exit::Ended, String::new(alloc)))
        }
        Made::Image(image) => Ok(Outcome::with_image(alloc, image)),
        Made::Refused(refusal, line) => Ok(refuse_line(alloc, refusal, line)?),
        Made::Judged(text, refusal, line) => {
            let outcome = conclude(alloc, refusal, line)?;
            write_all(sink, &text)?;
            Ok(outcome)
        }
        Made::Saved(text, image) => {
            write_all(sink, &text)?;
            Ok(Outcome::with_image(alloc, image))
        }
    }
}

/// Executes `job`: reads its input from `source`, writes its output to `sink`, and returns its outcome.
pub(crate) fn do_batch<R: Source, W: Sink>(
    alloc: Global,
    source: &mut R,
    sink: &mut W,
    job: Batch,
) -> Result<Outcome, Fault>
    requires well { AreWell (both (R.seen source.old) (W.seen sink.old)) }
    ensures done { IfOk result (λ outcome. Finishes (both (R.seen source.old) (W.seen sink.old))
        (both (R.seen source.new) (W.seen sink.new)) outcome (said_batch job)) }
    ensures told { IfOk result SaysWhy }
    ensures well { OnOk result (AreWell (both (R.seen source.new) (W.seen sink.new))) }
    ensures broken { IfErr result (λ fault. BreaksOff (both (R.seen source.old) (W.seen sink.old))
        (both (R.seen source.new) (W.seen sink.new)) fault (said_batch job)) }
    ensures counts { IsCounted (R.seen source.old) (R.seen source.new) result }
{
    let input = input_of(alloc, source, &job)?;
    let made = make(alloc, job, input)?;
    let outcome = deliver(alloc, sink, made)?;
    Ok(outcome)
}
