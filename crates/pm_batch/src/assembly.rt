//! Executes the jobs on an assembler source text.
ghost use Rattle.std.specs.Prelude.{◌≡◌, ◌≢◌, ◌++◌, Ok, Err, IfOk, IfErr, OnOk, string_bytes};
ghost use Rattle.pm_asm.specs.Assembled.{assembled, wanted};
ghost use Rattle.pm_source.specs.declared.fault.AsmFault.TheVariants.{NoMemory};
ghost use Rattle.pm_asm.specs.Each.{all_faults};
ghost use Rattle.pm_asm.specs.Symbols.{symbol_text};
ghost use Rattle.pm_batch.specs.Assembly.{character_of, fault_line, fault_lines, first_refusal, made_asm, made_faults};
ghost use Rattle.pm_batch.specs.Assembly.{made_symbols, text_of_input};
ghost use Rattle.pm_batch.specs.declared.refusal.Refusal.TheVariants as refusals;
ghost use Rattle.pm_batch.specs.Products.{Refused, Written, product_of};

use crate::batch::Made;
use crate::refusal::Refusal;
use pm_asm::{
    AsmFault, Hint, all_faults, assemble_file, assemble_listing, assemble_symbols, counts_of,
    ended_hint, hint_of, mark_line, mark_of,
};
use std::alloc::{AllocError, Global};
use std::fmt::Write;

/// Returns the character of `byte`. A byte above 127 is read as character 127.
fn character(byte: u8) -> char
    ensures value { result ≡ character_of byte }
{
    char::from(byte.min(127))
}

/// Copies `input` into a new string, with one character for each byte.
#[tactic(auto, unfolding(crate::specs::Assembly::text_of_input))]
fn text_of(alloc: Global, input: &[u8]) -> Result<String, AllocError>
    ensures text { IfOk result (λ text. string_bytes text ≡ text_of_input input.now) }
{
    let mut text = String::new(alloc);
    for byte in input {
        text.push(character(*byte))?;
    }
    Ok(text)
}

/// Converts `input` to a string with one character for each byte. If all bytes are ASCII, the memory of `input` is
/// reused.
#[tactic(auto, using(crate::proofs::Characters::ascii_stays))]
fn text_in_place(alloc: Global, input: Vec<u8>) -> Result<String, AllocError>
    ensures text { IfOk result (λ text. string_bytes text ≡ text_of_input input.items) }
{
    if !input.is_ascii() {
        return text_of(alloc, &input);
    }
    match String::from_utf8(input) {
        Ok(text) => Ok(text),
        Err(_) => unreachable!(),
    }
}

/// Assembles `text`. Returns the bytes of the listing if `list` is true, and otherwise the bytes of the code file. Only
/// the requested one is created.
fn made(alloc: Global, text: &str, list: bool) -> Result<Vec<u8>, AsmFault>
    ensures bytes { IfOk result (λ bytes. wanted list (assembled text.now) ≡ Ok bytes.items) }
    ensures refusal { IfErr result (λ fault. fault ≢ NoMemory → assembled text.now ≡ Err fault) }
{
    if list {
        let listing = assemble_listing(alloc, text)?;
        return Ok(listing.into_bytes());
    }
    assemble_file(alloc, text)
}

/// Returns the bytes of the listing of `text` if `list` is true, and otherwise the bytes of its code file. The inner
/// error is the fault of `text`; the outer error is out of memory.
fn wanted(alloc: Global, text: &str, list: bool) -> Result<Result<Vec<u8>, AsmFault>, AllocError>
    ensures bytes { IfOk result (λ bytes. IfOk bytes (λ bytes. wanted list (assembled text.now) ≡ Ok bytes.items)) }
    ensures refusal { IfOk result (λ bytes. IfErr bytes (λ fault. wanted list (assembled text.now) ≡ Err fault)) }
{
    match made(alloc, text, list) {
        Ok(bytes) => Ok(Ok(bytes)),
        Err(AsmFault::NoMemory) => Err(AllocError),
        Err(fault) => Ok(Err(fault)),
    }
}

/// Returns the part of `text` before line `number`. Lines are counted from 1. Returns None if `text` has no such line.
fn before_line(text: &str, number: usize) -> Option<&str> {
    let mut line: usize = 1;
    for (place, byte) in text.bytes().enumerate() {
        if line == number {
            return text.get(..place);
        }
        if byte == b'\n' {
            line = line.saturating_add(1);
        }
    }
    None
}

/// Returns the hint for a refused `.END` in line `number` of `text`. Returns None if the bytes and jump entries of the
/// procedure before it cannot be counted.
fn hint_at_end(alloc: Global, text: &str, number: usize) -> Option<Hint> {
    match counts_of(alloc, before_line(text, number)?) {
        Ok(Some(counts)) => Some(ended_hint(counts)),
        _ => None,
    }
}

/// Returns the message for `line`, which is line `number` of `text` and has `fault`. The first line of the message has
/// the line number with a hint, or the fault if no hint exists. The next lines are `line` and a mark below the faulty
/// column. Returns None if memory runs out.
fn told_line(
    alloc: Global,
    text: &str,
    fault: AsmFault,
    number: usize,
    line: &str,
) -> Option<String> {
    let hint = match hint_of(alloc, fault, line).ok()? {
        Some(Hint::Ended) => Some(hint_at_end(alloc, text, number).unwrap_or(Hint::Ended)),
        hint => hint,
    };
    let mark = mark_line(alloc, line, mark_of(hint, line)).ok()?;
    let told = match hint {
        Some(hint) => format!(in alloc; "line {number}: {hint}\n    {line}\n    {mark}"),
        None => format!(in alloc; "{fault}\n    {line}\n    {mark}"),
    };
    told.ok()
}

/// Returns the message for the line of `text` that `fault` names. Returns None if `fault` names no line or memory runs
/// out.
fn line_of(alloc: Global, text: &str, fault: AsmFault) -> Option<String> {
    let number = match fault {
        AsmFault::TooLong(_) => return None,
        fault => fault.place()?,
    };
    let line = text.lines().nth(number.checked_sub(1)?)?;
    told_line(alloc, text, fault, number, line)
}

/// Returns the product with `bytes`. If `bytes` is a fault, returns the refusal, with the message for the line of
/// `text` that the fault names.
fn bytes_made(alloc: Global, text: &str, bytes: Result<Vec<u8>, AsmFault>) -> Made
    ensures bytes { IfOk bytes (λ bytes. product_of result ≡ Written bytes.items) }
    ensures fault { IfErr bytes (λ fault. product_of result ≡ Refused (refusals.Asm fault)) }
{
    match bytes {
        Ok(bytes) => Made::Bytes(bytes),
        Err(fault) => {
            let line = line_of(alloc, text, fault);
            Made::Refused(Refusal::Asm(fault), line)
        }
    }
}

/// Assembles the source text in `input`. The product is the listing if `list` is true, and otherwise the code file.
pub(crate) fn assemble(alloc: Global, input: Vec<u8>, list: bool) -> Result<Made, AllocError>
    ensures made { IfOk result (λ made. product_of made ≡ made_asm list input.items) }
{
    let text = text_in_place(alloc, input)?;
    let bytes = wanted(alloc, &text, list)?;
    Ok(bytes_made(alloc, &text, bytes))
}

/// Returns a line for each procedure and each label of the source text `text`. The inner error is the fault of `text`;
/// the outer error is out of memory.
fn symbols(alloc: Global, text: &str) -> Result<Result<Vec<u8>, AsmFault>, AllocError>
    ensures bytes { IfOk result (λ bytes. IfOk bytes (λ bytes. symbol_text text.now ≡ Ok bytes.items)) }
    ensures refusal { IfOk result (λ bytes. IfErr bytes (λ fault. symbol_text text.now ≡ Err fault)) }
{
    match assemble_symbols(alloc, text) {
        Ok(bytes) => Ok(Ok(bytes)),
        Err(AsmFault::NoMemory) => Err(AllocError),
        Err(fault) => Ok(Err(fault)),
    }
}

/// Returns a line for each procedure and each label of the source text in `input`.
pub(crate) fn list_symbols(alloc: Global, input: Vec<u8>) -> Result<Made, AllocError>
    ensures made { IfOk result (λ made. product_of made ≡ made_symbols input.items) }
{
    let text = text_in_place(alloc, input)?;
    let bytes = symbols(alloc, &text)?;
    Ok(bytes_made(alloc, &text, bytes))
}

/// Appends the line for `fault` to `text`: the same line that a refusal with this fault prints.
#[tactic(auto, unfolding(crate::specs::Assembly::fault_line))]
fn push_fault(text: &mut String, fault: AsmFault) -> Result<(), AllocError>
    ensures text { OnOk result (string_bytes text.new ≡ string_bytes text.old ++ fault_line fault) }
{
    let refusal = Refusal::Asm(fault);
    writeln!(text, "{refusal}")?;
    Ok(())
}

/// Returns the lines for all `faults`, in their order.
fn lines_of(alloc: Global, faults: &[AsmFault]) -> Result<String, AllocError>
    ensures text { IfOk result (λ text. string_bytes text ≡ fault_lines faults.now) }
{
    let mut text = String::new(alloc);
    for fault in faults {
        push_fault(&mut text, *fault)?;
    }
    Ok(text)
}

/// Returns the refusal of a source text with these `faults`: the first of them. Returns None if `faults` is empty.
fn first_refusal(faults: &[AsmFault]) -> Option<Refusal>
    ensures refusal { result ≡ first_refusal faults.now }
{
    match faults {
        [] => None,
        [fault, ..] => Some(Refusal::Asm(*fault)),
    }
}

/// The maximum number of faults for which `lines_told` returns a message.
const TOLD: usize = 20;

/// Returns the messages for the lines of `text` that the first `TOLD` faults name, in ascending order of the lines.
/// Returns None if `faults` is empty, if one of these faults names no line of `text`, or if memory runs out.
fn lines_told(alloc: Global, text: &str, faults: &[AsmFault]) -> Option<String> {
    let mut told = String::new(alloc);
    let mut faults = faults.iter().take(TOLD);
    let mut fault = faults.next()?;
    for (i, line) in text.lines().enumerate() {
        let number = i.saturating_add(1);
        if fault.place() == Some(number) {
            if !told.is_empty() {
                told.push_str("\npmach: ").ok()?;
            }
            let more = told_line(alloc, text, *fault, number, line)?;
            told.push_str(more.as_str()).ok()?;
            let Some(next) = faults.next() else {
                return Some(told);
            };
            fault = next;
        }
    }
    None
}

/// Returns a line for each fault of the source text in `input`, and the refusal if the text has faults.
pub(crate) fn find_faults(alloc: Global, input: Vec<u8>) -> Result<Made, AllocError>
    ensures made { IfOk result (λ made. product_of made ≡ made_faults input.items) }
{
    let text = text_in_place(alloc, input)?;
    let faults = all_faults(alloc, &text).map_err(|_| AllocError)?;
    let lines = lines_of(alloc, &faults)?;
    let line = lines_told(alloc, &text, &faults);
    Ok(Made::Judged(lines.into_bytes(), first_refusal(&faults), line))
}
