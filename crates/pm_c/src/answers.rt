//! Executes a whole job: it maps the bytes of the input to the bytes of the answer.
ghost use Rattle.std.specs.Prelude.{◌≡◌, ◌≢◌, ◌⊎◌, ◌++◌, IfOk, IfErr, OnOk, string_bytes, option_map, vec_items};
ghost use Rattle.std.specs.Prelude.{if◌then◌else◌, length, nat_lt};
ghost use Rattle.pm_tool.specs.Said.{IsSoundExit, job_said};
ghost use Rattle.pm_tool.specs.Outcomes.{exit_number};
ghost use Rattle.pm_c.specs.Answers.{Answers, HasAnswer, answer_of, or_told};
ghost use Rattle.pm_c.specs.Changes.{filled};
ghost use Rattle.pm_c.specs.declared.status.TheConstants.{REFUSED, TOO_SHORT};

use crate::buffer::give;
use crate::status::{DONE, NO_MEMORY, NO_TEXT, REFUSED, TOO_LONG};
use pm_tool::{Exit, Job, Kept, Outcome, Reader, run};
use std::alloc::{AllocError, Global};

// Returns the exit status of a job, or as an error the status of a call without an answer. A write to the sink fails
// only if memory runs out.
fn exit_code(exit: Exit) -> Result<u32, u32>
    ensures value { IfOk result (λ code. code ≡ exit_number exit) }
    ensures sound { OnOk result (IsSoundExit exit) }
    ensures answer { IfOk result (λ code. HasAnswer code) }
    ensures none { IfErr result (λ code. (code ≡ TOO_LONG) ⊎ (code ≡ NO_MEMORY)) }
{
    match exit {
        Exit::ReadFault => Err(TOO_LONG),
        Exit::WriteFault | Exit::NoMemory => Err(NO_MEMORY),
        _ => Ok(u32::from(exit.number())),
    }
}

// Returns the image to be saved, if `outcome` has one. Otherwise returns the bytes `written`, followed by the message.
fn answer_bytes(written: Vec<u8>, outcome: Outcome) -> Result<Vec<u8>, AllocError>
    ensures bytes { IfOk result (λ bytes. bytes.items ≡ or_told (option_map vec_items outcome.image)
        (written.items ++ string_bytes outcome.message)) }
{
    let Outcome { message, image, .. } = outcome;
    match image {
        Some(image) => Ok(image),
        None => {
            let mut bytes = written;
            bytes.extend_from_slice(message.as_bytes())?;
            Ok(bytes)
        }
    }
}

// Executes `job` with the input `input`. Returns the answer and the exit status, or the status of a call without an
// answer.
fn done(alloc: Global, input: &[u8], job: Job) -> Result<(Vec<u8>, u32), u32>
    ensures code { IfOk result (λ a. a.1 ≡ exit_number (job_said job input.now).exit) }
    ensures answer { IfOk result (λ a. HasAnswer a.1) }
    ensures bytes { IfOk result (λ a. a.0.items ≡ answer_of (job_said job input.now)) }
    ensures none { IfErr result (λ code. (code ≡ TOO_LONG) ⊎ (code ≡ NO_MEMORY)) }
{
    let mut source = Reader::new(input);
    let mut sink = Kept::new(alloc);
    let outcome = run(alloc, &mut source, &mut sink, job);
    let code = exit_code(outcome.exit)?;
    let Kept { bytes, .. } = sink;
    match answer_bytes(bytes, outcome) {
        Ok(bytes) => Ok((bytes, code)),
        Err(_) => Err(NO_MEMORY),
    }
}

/// Copies `message`, the answer of a refused job, to `out`. Returns the status.
pub(crate) fn refuse(message: &[u8], out: &mut [u8], needed: &mut usize) -> u32
    ensures wants { needed.new ≡ length message.now }
    ensures holds { out.new ≡ filled message.now out.old }
    ensures says { result ≡ (if nat_lt (length out.old) (length message.now) then TOO_SHORT else REFUSED) }
{
    match give(message, out, needed) {
        DONE => REFUSED,
        short => short,
    }
}

/// Executes `job` with the input `input` and copies the answer to `out`. Returns the status.
pub(crate) fn answer(
    alloc: Global,
    input: &[u8],
    job: Job,
    out: &mut [u8],
    needed: &mut usize,
) -> u32
    ensures answers { Answers (job_said job input.now) result out.old out.new needed.new }
    ensures text { result ≢ NO_TEXT }
{
    match done(alloc, input, job) {
        Ok((bytes, code)) => match give(&bytes, out, needed) {
            DONE => code,
            short => short,
        },
        Err(code) => {
            *needed = 0;
            code
        }
    }
}
