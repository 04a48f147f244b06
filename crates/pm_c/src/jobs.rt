//! The jobs on source texts and code files, with one call for each job.
ghost use Rattle.std.specs.Prelude.{if◌then◌else◌};
ghost use Rattle.pm_jobs.specs.declared.selection.TheConstants.Selection.{ALL};
ghost use Rattle.pm_tool.specs.Said.{job_said};
ghost use Rattle.pm_c.specs.Answers.{Answers};

use crate::answers::answer;
use pm_tool::{AsmOutput, DisOutput, Job, Selection};
use std::alloc::Global;

/// Assembles the source text `text`. The answer, which is copied to `out`, is the listing if `list` is true, and
/// otherwise the code file. Returns 0 if the call succeeded. Returns 2 if the text is refused; the answer then states
/// the reason.
///
/// Each call with an answer can also return these statuses:
///
/// - 7: the buffer is too short. Nothing is written to it.
/// - 4: the input is too long. The call has no answer.
/// - 5: out of memory. The call has no answer.
///
/// `needed` is set to the length of the answer in bytes, or to 0 if the call has no answer.
#[unsafe(no_mangle)]
pub extern "C" fn pmach_assemble(
    alloc: Global,
    text: &[u8],
    list: bool,
    out: &mut [u8],
    needed: &mut usize,
) -> u32
    ensures answers { Answers (job_said (Job.Asm (if list then AsmOutput.Listing else AsmOutput.File)) text.now)
        result out.old out.new needed.new }
{
    let what = if list {
        AsmOutput::Listing
    } else {
        AsmOutput::File
    };
    answer(alloc, text, Job::Asm(what), out, needed)
}

/// Copies a line for each fault of the source text `text` to `out`. Returns 2 if the text has a fault, and 0 otherwise.
#[unsafe(no_mangle)]
pub extern "C" fn pmach_assemble_faults(
    alloc: Global,
    text: &[u8],
    out: &mut [u8],
    needed: &mut usize,
) -> u32
    ensures answers { Answers (job_said (Job.Asm AsmOutput.Faults) text.now) result out.old out.new needed.new }
{
    answer(alloc, text, Job::Asm(AsmOutput::Faults), out, needed)
}

/// Copies a line `SSS PPP OOOOO NAME` for each procedure and each label of the source text `text` to `out`. Returns 0
/// if the call succeeded. Returns 2 if the text is refused; the answer then states the reason.
#[unsafe(no_mangle)]
pub extern "C" fn pmach_assemble_symbols(
    alloc: Global,
    text: &[u8],
    out: &mut [u8],
    needed: &mut usize,
) -> u32
    ensures answers { Answers (job_said (Job.Asm AsmOutput.Symbols) text.now) result out.old out.new needed.new }
{
    answer(alloc, text, Job::Asm(AsmOutput::Symbols), out, needed)
}

/// Copies the source text of the code file `file` to `out`. Returns 0 if the call succeeded. Returns 2 if `file` is no
/// code file; the answer then states the reason.
#[unsafe(no_mangle)]
pub extern "C" fn pmach_disassemble(
    alloc: Global,
    file: &[u8],
    out: &mut [u8],
    needed: &mut usize,
) -> u32
    ensures answers { Answers (job_said (Job.Dis DisOutput.Text) file.now) result out.old out.new needed.new }
{
    answer(alloc, file, Job::Dis(DisOutput::Text), out, needed)
}

/// Copies the source text of the code file `file` to `out`, with the names of the standard procedures and of the
/// system's procedures. The statuses are those of `pmach_disassemble`.
#[unsafe(no_mangle)]
pub extern "C" fn pmach_disassemble_names(
    alloc: Global,
    file: &[u8],
    out: &mut [u8],
    needed: &mut usize,
) -> u32
    ensures answers { Answers (job_said (Job.Dis DisOutput.Names) file.now) result out.old out.new needed.new }
{
    answer(alloc, file, Job::Dis(DisOutput::Names), out, needed)
}

/// Copies the listing of the code file `file` to `out`. Each line has an offset and bytes. The statuses are those of
/// `pmach_disassemble`.
#[unsafe(no_mangle)]
pub extern "C" fn pmach_disassemble_list(
    alloc: Global,
    file: &[u8],
    out: &mut [u8],
    needed: &mut usize,
) -> u32
    ensures answers { Answers (job_said (Job.Dis DisOutput.Listing) file.now) result out.old out.new needed.new }
{
    answer(alloc, file, Job::Dis(DisOutput::Listing), out, needed)
}

/// Copies the text of the code file `file` as statements to `out`. The statuses are those of `pmach_disassemble`.
#[unsafe(no_mangle)]
pub extern "C" fn pmach_disassemble_statements(
    alloc: Global,
    file: &[u8],
    out: &mut [u8],
    needed: &mut usize,
) -> u32
    ensures answers { Answers (job_said (Job.Dis DisOutput.Statements) file.now) result out.old out.new needed.new }
{
    answer(alloc, file, Job::Dis(DisOutput::Statements), out, needed)
}

/// Copies the text of the code file `file` as statements to `out`, each indented by its depth. The statuses are those
/// of `pmach_disassemble`.
#[unsafe(no_mangle)]
pub extern "C" fn pmach_disassemble_indented(
    alloc: Global,
    file: &[u8],
    out: &mut [u8],
    needed: &mut usize,
) -> u32
    ensures answers { Answers (job_said (Job.Dis DisOutput.Indented) file.now) result out.old out.new needed.new }
{
    answer(alloc, file, Job::Dis(DisOutput::Indented), out, needed)
}

/// Copies the text of the code file `file` as statements in blocks to `out`. The statuses are those of
/// `pmach_disassemble`.
#[unsafe(no_mangle)]
pub extern "C" fn pmach_disassemble_blocks(
    alloc: Global,
    file: &[u8],
    out: &mut [u8],
    needed: &mut usize,
) -> u32
    ensures answers { Answers (job_said (Job.Dis DisOutput.Blocks) file.now) result out.old out.new needed.new }
{
    answer(alloc, file, Job::Dis(DisOutput::Blocks), out, needed)
}

/// Copies the trace of at most `limit` steps of a program to `out`. The program is bare code, and `text` has its bytes
/// as pairs of hexadecimal digits. Returns one of these statuses:
///
/// - 0: the program has ended.
/// - 2: the text is refused. The answer states the reason.
/// - 3: an execution error stopped the program.
/// - 6: the limit is reached, or the program waits for console bytes.
/// - 4, 5 or 7, as for `pmach_assemble`.
#[unsafe(no_mangle)]
pub extern "C" fn pmach_raw(
    alloc: Global,
    text: &[u8],
    limit: u32,
    out: &mut [u8],
    needed: &mut usize,
) -> u32
    ensures answers { Answers (job_said (Job.Raw limit ALL) text.now) result out.old out.new needed.new }
{
    let selection = Selection::ALL;
    answer(alloc, text, Job::Raw { limit, selection }, out, needed)
}
