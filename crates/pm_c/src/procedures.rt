//! The procedures of a code file, as numbers. They lead from a line of a disassembly to its position in the code.
ghost use Rattle.std.specs.Prelude.{◌≡◌, ◌%◌, ◌≤◌, ◌++◌, IfOk, OnOk, length, string_bytes};
ghost use Rattle.pm_codefile.specs.Dictionary.{file_fault, segment_in};
ghost use Rattle.pm_codefile.specs.Segments.{attributes_in, procedures_in};
ghost use Rattle.pm_c.specs.Answers.{Answers};
ghost use Rattle.pm_c.specs.Procedures.{file_procedures, line_or_none, procedure_line, procedures_from};
ghost use Rattle.pm_c.specs.Procedures.{said_procedures, segment_number, slot_procedures};

use crate::buffer::give;
use crate::images::give_refusal;
use crate::status::NO_MEMORY;
use crate::volumes::none;
use pm_codefile::{Attributes, CodeFile, attributes, procedures};
use pm_tool::Refusal;
use std::alloc::{AllocError, Global};

/// Returns the number of the segment `segment`: its last byte but one. Returns 0 if the segment has no such byte.
fn segment_number(segment: &[u8]) -> u8
    ensures number { result ≡ segment_number segment.now }
{
    if segment.len() < 2 {
        return 0;
    }
    segment[segment.len() - 2]
}

/// Appends the line of the procedure with the attribute table `a` of `segment`, which is in slot `slot`.
fn push_procedure(
    text: &mut String,
    slot: u8,
    segment: &[u8],
    a: &Attributes,
) -> Result<(), AllocError>
    ensures text { OnOk result (string_bytes text.new
        ≡ string_bytes text.old ++ procedure_line slot segment.now a.now) }
{
    let number = segment_number(segment);
    let Attributes {
        procedure,
        enter,
        parameters,
        locals,
        ..
    } = *a;
    writeln!(
        text,
        "{slot} {procedure} {number} {enter} {parameters} {locals}"
    )?;
    Ok(())
}

/// Appends the line of procedure `number` of `segment`. Appends nothing if the procedure has no attribute table.
fn push_numbered(text: &mut String, slot: u8, segment: &[u8], number: u8) -> Result<(), AllocError>
    requires even { length segment.now % 2 ≡ 0 }
    requires size { length segment.now ≤ 65534 }
    ensures text { OnOk result (string_bytes text.new ≡ string_bytes text.old
        ++ line_or_none slot segment.now (attributes_in segment.now number)) }
{
    match attributes(segment, number) {
        Some(a) => push_procedure(text, slot, segment, &a),
        None => Ok(()),
    }
}

/// Appends the lines of all procedures of `segment`.
fn push_procedures(text: &mut String, slot: u8, segment: &[u8]) -> Result<(), AllocError>
    requires even { length segment.now % 2 ≡ 0 }
    requires size { length segment.now ≤ 65534 }
    ensures text { OnOk result (string_bytes text.new ≡ string_bytes text.old
        ++ procedures_from slot segment.now 1 (procedures_in segment.now)) }
{
    for done in 0..procedures(segment) {
        push_numbered(text, slot, segment, done + 1)?;
    }
    Ok(())
}

/// Appends the lines of the segment in slot `n` of `file`. Appends nothing if the slot has no segment.
fn push_slot(text: &mut String, file: &CodeFile<'_>, n: u8) -> Result<(), AllocError>
    ensures text { OnOk result (string_bytes text.new
        ≡ string_bytes text.old ++ slot_procedures n (segment_in file.now n)) }
{
    match file.segment(n) {
        Some(segment) => push_procedures(text, n, segment),
        None => Ok(()),
    }
}

/// Returns the lines of all slots of `file`.
#[tactic(auto, unfolding(crate::specs::Procedures::file_procedures))]
fn lines(alloc: Global, file: &CodeFile<'_>) -> Result<String, AllocError>
    ensures text { IfOk result (λ text. string_bytes text ≡ file_procedures file.now) }
{
    let mut text = String::new(alloc);
    for n in 0..16 {
        push_slot(&mut text, file, n)?;
    }
    Ok(text)
}

/// Copies a line for each procedure of the code file `file` that has an attribute table to `out`. The slots are in
/// ascending order, and the procedures of a segment are in the order of its dictionary. A line has these decimal
/// numbers, with a space between two of them:
///
/// 1. the slot of the segment, and the number in the attribute table: the numbers that a disassembly shows;
/// 2. the number of the segment in the segment itself: the number that `pmach_place` shows and `pmach_break` takes;
/// 3. the offset of the first instruction in the segment, in bytes;
/// 4. the sizes of the parameters and of the local variables, in bytes.
///
/// So a line of a disassembly with an offset is at the position with the number of the segment, the number of the
/// procedure, and this offset less the offset of the first instruction. Returns 0 if the call succeeded.
///
/// Otherwise:
///
/// - 2: `file` is no code file. The answer is the message `refused code N`.
/// - 5: out of memory. The call has no answer.
/// - 7: the buffer is too short. Nothing is written to it.
#[unsafe(no_mangle)]
pub extern "C" fn pmach_procedures(
    alloc: Global,
    file: &[u8],
    out: &mut [u8],
    needed: &mut usize,
) -> u32
    ensures answers { Answers (said_procedures (file_fault file.now) (file_procedures file.now))
        result out.old out.new needed.new }
{
    match CodeFile::read(file) {
        Ok(file) => match lines(alloc, &file) {
            Ok(text) => give(text.as_bytes(), out, needed),
            Err(_) => none(NO_MEMORY, needed),
        },
        Err(fault) => give_refusal(alloc, Refusal::Code(fault), out, needed),
    }
}
