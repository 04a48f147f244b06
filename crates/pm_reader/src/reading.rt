//! Reading of all lines of an assembly text, in order.

ghost use Rattle.std.specs.Prelude.{◌≡◌, ℕ, [], nat_lt, drop, IfOk, IfErr, IfSome, OnOk};
ghost use Rattle.std.specs.List.{list_any};
ghost use Rattle.pm_source.specs.Faults.{after_lines, ends, faults_of_lines, lines_of, source_of, start};
ghost use Rattle.pm_reader.specs.Counts.{AreCounts};
ghost use Rattle.pm_reader.specs.Each.{firsts_of_lines};
ghost use Rattle.pm_reader.specs.Firsts.{IsFirstOf};
ghost use Rattle.pm_source.specs.declared.fault.AsmFault.TheVariants.{NoMemory};
ghost use Rattle.pm_reader.specs.Views.{labelled_segments};

use crate::counts::Counts;
use crate::reader::Reader;
use crate::source::LabelledSegment;
use pm_line::line_ends;
use pm_source::AsmFault;
use std::alloc::{AllocError, Global};

/// Returns the number of lines up to the last line that ends a procedure, or 0 if no line ends one.
fn until_last_end(text: &str) -> usize
    ensures until { (at : ℕ) → list_any ends (drop at (lines_of text.now)) ≡ nat_lt at result }
{
    let mut until = 0;
    let mut number = 0;
    for part in text.lines() {
        number += 1;
        if line_ends(part.as_bytes()) {
            until = number;
        }
    }
    until
}

/// Returns the segments of the assembly text `text` with their labels, in the order of the text.
///
/// The call succeeds only if no line has a fault. It does not check whether the labels that are used are defined, nor
/// the lengths of segments.
///
/// # Errors
///
/// - The first fault of the lines (`Syntax`, `Unknown`, `Range` or `Twice`) with the number of its line. Lines are
///   numbered from 1.
/// - `NoMemory`: the host has no memory, or the length of the code does not fit in 64 bits. It can occur at any line.
pub fn source_of<'a>(alloc: Global, text: &'a str) -> Result<Vec<LabelledSegment<'a>>, AsmFault>
    ensures faultless { OnOk result (faults_of_lines text.now ≡ []) }
    ensures read { IfOk result (λ ss. labelled_segments ss.items ≡ source_of text.now) }
    ensures refusal { IfErr result (λ fault. IsFirstOf fault (faults_of_lines text.now)) }
{
    let until = until_last_end(text);
    let mut reader = Reader::new(alloc);
    let mut number = 0;
    for part in text.lines() {
        number += 1;
        reader.read_line(alloc, number, part.as_bytes(), number < until)?;
    }
    Ok(reader.into_segments())
}

/// Returns, for each line of `text` that has a fault, its first fault (`Syntax`, `Unknown`, `Range` or `Twice`), in the
/// order of the lines.
///
/// # Errors
///
/// `NoMemory`: the host has no memory, or the length of the code does not fit in 64 bits.
#[tactic(auto, unfolding(crate::specs::Each::firsts_of_lines))]
pub fn faults_of_lines(alloc: Global, text: &str) -> Result<Vec<AsmFault>, AsmFault>
    ensures faults { IfOk result (λ faults. faults.items ≡ firsts_of_lines text.now) }
    ensures refusal { IfErr result (λ fault. fault ≡ NoMemory) }
{
    let until = until_last_end(text);
    let mut reader = Reader::new(alloc);
    let mut found = Vec::new(alloc);
    let mut number = 0;
    for part in text.lines() {
        number += 1;
        reader.note_line(alloc, number, part.as_bytes(), number < until, &mut found)?;
    }
    Ok(found)
}

/// Returns the counts of the procedure that has begun at the end of `text`, as they would be checked by an `.END` on
/// the next line. The lines of `text` may have faults. Returns `None` if no procedure has begun, or if a count does not
/// fit in 64 bits.
///
/// # Errors
///
/// `AllocError`: the host has no memory.
pub fn counts_of(alloc: Global, text: &str) -> Result<Option<Counts>, AllocError>
    ensures counts { IfOk result (λ counts. IfSome counts (AreCounts (after_lines start (lines_of text.now)))) }
{
    let mut reader = Reader::new(alloc);
    let mut number = 0;
    for part in text.lines() {
        number += 1;
        reader.take_line(alloc, number, part.as_bytes())?;
    }
    Ok(reader.counts())
}
