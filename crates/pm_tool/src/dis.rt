//! The job on a code file (`dis`). It writes the output of a procedure before it creates the output of the next one.
ghost use Rattle.std.specs.Prelude.{◌≡◌, true, false, [], List, ℕ, IfOk, IfErr, OnOk, OnErr};
ghost use Rattle.std.specs.Io.KnownBytes.{Appends};
ghost use Rattle.pm_tool.specs.Batches.{said_making};
ghost use Rattle.pm_tool.specs.Dis.{dis_product};
ghost use Rattle.pm_tool.specs.Outcomes.{IsOutcome, SaysWhy};
ghost use Rattle.pm_tool.specs.Products.{said_product};
ghost use Rattle.pm_tool.specs.Said.{BreaksOff, Finishes};
ghost use Rattle.pm_jobs.specs.Streams.{AppendsFront, AreWell, IsCause, IsCounted, both};

use crate::outcome::{Exit, Outcome, refuse_line};
use pm_batch::Refusal;
use pm_codefile::CodeFile;
use pm_jobs::{DisOutput, Fault, Sink, Source, read_all};
use pm_writing::write_code;
use std::alloc::Global;

/// Writes the requested output for the code file `input`. If `input` is no code file, nothing is written and the
/// outcome is a refusal.
fn show_code<W: Sink>(
    alloc: Global,
    sink: &mut W,
    input: &[u8],
    output: DisOutput,
) -> Result<Outcome, Fault>
    requires well { (W.seen sink.old).failed ≡ false }
    ensures written { OnOk result (Appends (W.seen sink.old).contents (W.seen sink.new).contents
        (said_product (dis_product output input.now) []).written) }
    ensures outcome { IfOk result (λ outcome. (unread : List ℕ)
        → IsOutcome outcome (said_product (dis_product output input.now) unread)) }
    ensures well { OnOk result ((W.seen sink.new).failed ≡ false) }
    ensures front { OnErr result (AppendsFront (W.seen sink.old).contents (W.seen sink.new).contents
        (said_product (dis_product output input.now) []).written) }
    ensures cause { IfErr result (λ fault. IsCause fault false (W.seen sink.new).failed []) }
    ensures told { IfOk result SaysWhy }
{
    let file = match CodeFile::read(input) {
        Ok(file) => file,
        Err(fault) => return Ok(refuse_line(alloc, Refusal::Code(fault), None)?),
    };
    write_code(alloc, sink, &file, output)?;
    Ok(Outcome::plain(alloc, Exit::Ended, String::new(alloc)))
}

/// Executes the job on a code file: reads it from `source`, writes its output to `sink`, and returns the outcome.
pub(crate) fn do_dis<R: Source, W: Sink>(
    alloc: Global,
    source: &mut R,
    sink: &mut W,
    output: DisOutput,
) -> Result<Outcome, Fault>
    requires well { AreWell (both (R.seen source.old) (W.seen sink.old)) }
    ensures done { IfOk result (λ outcome. Finishes (both (R.seen source.old) (W.seen sink.old))
        (both (R.seen source.new) (W.seen sink.new)) outcome (said_making true (dis_product output))) }
    ensures told { IfOk result SaysWhy }
    ensures well { OnOk result (AreWell (both (R.seen source.new) (W.seen sink.new))) }
    ensures broken { IfErr result (λ fault. BreaksOff (both (R.seen source.old) (W.seen sink.old))
        (both (R.seen source.new) (W.seen sink.new)) fault (said_making true (dis_product output))) }
    ensures counts { IsCounted (R.seen source.old) (R.seen source.new) result }
{
    let input = read_all(alloc, source)?;
    let outcome = show_code(alloc, sink, &input, output)?;
    Ok(outcome)
}
