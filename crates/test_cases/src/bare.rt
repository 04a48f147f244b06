//! Cases of raw p-code: the trace of the job, and the registers and the stack of the machine at its end.
use crate::case::{Came, Case};
use crate::jobs::do_job;
use pm_machine::Machine;
use pm_tool::{Job, Selection};
use std::alloc::Global;
use std::io;
use test_parts::{digest_text, hex_bytes, steps};

/// The maximum number of steps if the case has no limit.
const STEPS: u32 = 100;

/// The end of the stack. Its words are below this address.
const STACK_END: u16 = 65_504;

/// The maximum number of stack words that a case shows.
const WORDS: u16 = 8;

/// Adds the last line of the trace and the digest of the trace as answers to `came`.
pub fn add_trace(alloc: Global, code: &[u8], limit: u32, came: &mut Came) -> io::Result<()> {
    let digits = hex::encode(alloc, code)?;
    let ran = do_job(
        alloc,
        Job::Raw {
            limit,
            selection: Selection::ALL,
        },
        digits.as_bytes(),
    );
    if ran.written.is_empty() {
        came.answer("end", ran.outcome.text())?;
        return Ok(());
    }
    came.shown = ran.text(alloc)?;
    let end = came.shown.as_str().lines().last().unwrap_or("");
    let line = format!(in alloc; "end {end}\n")?;
    came.answers.push_str(line.as_str())?;
    Ok(())
}

/// Runs a machine on `code` directly, and adds its final state as answers to `came`.
fn add_end(alloc: Global, code: &[u8], limit: u32, came: &mut Came) -> io::Result<()> {
    let Ok(mut machine) = Machine::raw(alloc, code) else {
        return Ok(());
    };
    machine.run(u64::from(limit))?;
    add_state(alloc, &machine, came)
}

/// Adds the registers and the words from SP on as answers to `came`.
fn add_state(alloc: Global, machine: &Machine, came: &mut Came) -> io::Result<()> {
    let r = machine.registers();
    let (ipc, sp, mp, base, np, ioresult) = (r.ipc, r.sp, r.mp, r.base, r.np, r.ioresult);
    let registers = format!(in alloc; "{ipc} {sp} {mp} {base} {np} {ioresult}")?;
    came.answer("regs", registers.as_str())?;
    came.answers.push_str("stack")?;
    for place in 0..WORDS {
        let address = sp.saturating_add(2 * place);
        if address < STACK_END
            && let Some(word) = machine.memory().word(address)
        {
            let text = format!(in alloc; " {word}")?;
            came.answers.push_str(text.as_str())?;
        }
    }
    came.answers.push_str("\n")?;
    Ok(())
}

/// Returns the result of a case.
pub fn answers(alloc: Global, case: &Case<'_>) -> io::Result<Came> {
    let mut came = Came::new(alloc);
    let code = hex_bytes(alloc, case.value("code").unwrap_or(""))?;
    let limit = match case.value("limit") {
        Some(limit) => steps(limit)?,
        None => STEPS,
    };
    add_trace(alloc, &code, limit, &mut came)?;
    if case.has("regs") {
        add_end(alloc, &code, limit, &mut came)?;
    }
    if !came.shown.is_empty() {
        let digest = digest_text(alloc, came.shown.as_bytes())?;
        came.answer("trace", digest.as_str())?;
    }
    Ok(came)
}
