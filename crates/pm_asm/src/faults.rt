//! The first fault of each line of source text.

ghost use Rattle.std.specs.Prelude.{◌≡◌, ◌≢◌, ◌∷◌, ◌++◌, [], Some, IfErr, IfOk, OnOk, map};
ghost use Rattle.std.specs.Option.{option_to_list};
ghost use Rattle.pm_line.specs.Views.{row_seen};
ghost use Rattle.pm_reader.specs.Reader.{Answers};
ghost use Rattle.pm_reader.specs.Views.{entry_seen, labelled_procedure, labelled_segments};
ghost use Rattle.pm_source.specs.declared.fault.AsmFault.TheVariants.{NoMemory};
ghost use Rattle.pm_source.specs.Faults.{entries_faults};
ghost use Rattle.pm_asm.specs.Each.{all_faults, all_label_firsts, code_firsts, label_firsts, label_firsts_from};
ghost use Rattle.pm_asm.specs.Firsts.{places_in, row_faults};

use crate::assembly::assemble_file;
use crate::code::Code;
use crate::labels::resolve_label;
use crate::resolved::resolve_row;
use crate::table::table_of;
use pm_line::Row;
use pm_reader::{
    Entry, LabelledProcedure, LabelledSegment, faults_of_lines, note, row_end, source_end,
    source_of,
};
use pm_source::AsmFault;
use std::alloc::Global;

/// Returns the first label fault of the line `row`, whose first item begins at offset `at`. A label fault is `NoLabel`
/// or `Far`. Returns `None` if the line has no label fault.
fn row_fault<'a>(alloc: Global, code: &Code<'_, 'a>, at: usize, row: &Row<'a>) -> Option<AsmFault>
    ensures fault { Answers result (row_faults (places_in code.now) at (row_seen row.now)) }
{
    let mut items = Vec::new(alloc);
    match resolve_row(alloc, code, at, row, &mut items) {
        Ok(()) => None,
        Err(fault) => Some(fault),
    }
}

/// Appends the first label fault of each line of `code` to `found`.
#[tactic(auto, unfolding(crate::specs::Each::code_firsts), using(pm_reader::proofs::Eachs::first_noted))]
fn note_code(alloc: Global, code: &Code<'_, '_>, found: &mut Vec<AsmFault>) -> Result<(), AsmFault>
    ensures noted { OnOk result (found.new.items ≡ found.old.items
        ++ code_firsts (places_in code.now) code.now.start (map row_seen code.now.rows.now)) }
    ensures refusal { IfErr result (λ fault. fault ≡ NoMemory) }
{
    let mut at = code.start;
    for row in code.rows {
        note(found, row_fault(alloc, code, at, row))?;
        at = row_end(at, row).ok_or(AsmFault::NoMemory)?;
    }
    Ok(())
}

/// Returns the fault of the jump table entry `entry` if `code` does not define its label.
fn entry_fault<'a>(code: &Code<'_, 'a>, entry: &Entry<'a>) -> Option<AsmFault>
    ensures fault { option_to_list result ≡ entries_faults (places_in code.now) (entry_seen entry.now ∷ []) }
    ensures known { result ≢ Some NoMemory }
{
    match resolve_label(code, entry.line, entry.label) {
        Ok(_) => None,
        Err(fault) => Some(fault),
    }
}

/// Appends the faults of the jump table entries `entries` to `found`.
fn note_entries<'a>(
    code: &Code<'_, 'a>,
    entries: &[Entry<'a>],
    found: &mut Vec<AsmFault>,
) -> Result<(), AsmFault>
    ensures noted { OnOk result (found.new.items ≡ found.old.items
        ++ entries_faults (places_in code.now) (map entry_seen entries.now)) }
    ensures refusal { IfErr result (λ fault. fault ≡ NoMemory) }
{
    for entry in entries {
        note(found, entry_fault(code, entry))?;
    }
    Ok(())
}

/// Appends the first label fault of each line of `procedure`, which begins at offset `at` of its segment.
#[tactic(auto, unfolding(crate::specs::Each::label_firsts))]
fn note_procedure(
    alloc: Global,
    at: usize,
    procedure: &LabelledProcedure<'_>,
    found: &mut Vec<AsmFault>,
) -> Result<(), AsmFault>
    ensures noted { OnOk result (found.new.items ≡ found.old.items
        ++ label_firsts at (labelled_procedure procedure.now)) }
    ensures refusal { IfErr result (λ fault. fault ≡ NoMemory) }
{
    let rows: &[Row<'_>] = &procedure.code;
    let table = table_of(alloc, at, rows).map_err(|_| AsmFault::NoMemory)?;
    let code = Code {
        start: at,
        rows,
        table: &table,
    };
    note_code(alloc, &code, found)?;
    note_entries(&code, &procedure.entries, found)
}

/// Appends the first label fault of each line of `procedures`, which are the procedures of one segment.
#[tactic(auto, unfolding(crate::specs::Each::label_firsts_from))]
fn note_procedures(
    alloc: Global,
    procedures: &[LabelledProcedure<'_>],
    found: &mut Vec<AsmFault>,
) -> Result<(), AsmFault>
    ensures noted { OnOk result (found.new.items ≡ found.old.items
        ++ label_firsts_from 0 (map labelled_procedure procedures.now)) }
    ensures refusal { IfErr result (λ fault. fault ≡ NoMemory) }
{
    let mut at = 0;
    for procedure in procedures {
        note_procedure(alloc, at, procedure, found)?;
        at = source_end(at, procedure).ok_or(AsmFault::NoMemory)?;
    }
    Ok(())
}

/// Returns the first label fault of each line of `segments`, in the order of the text.
#[tactic(auto, unfolding(crate::specs::Each::all_label_firsts))]
fn faults_of_labels(
    alloc: Global,
    segments: &[LabelledSegment<'_>],
) -> Result<Vec<AsmFault>, AsmFault>
    ensures faults { IfOk result (λ faults. faults.items ≡ all_label_firsts (labelled_segments segments.now)) }
    ensures refusal { IfErr result (λ fault. fault ≡ NoMemory) }
{
    let mut found = Vec::new(alloc);
    for segment in segments {
        note_procedures(alloc, &segment.procedures, &mut found)?;
    }
    Ok(found)
}

/// Returns the faults of the source text `text`, at most one for each line:
///
/// - If lines have the faults `Syntax`, `Unknown`, `Range` or `Twice`, the first such fault of each line, in the order
///   of the
/// lines.
/// - Otherwise, the first label fault of each line (`NoLabel`, `Far`), segment by segment in the order of the text.
/// - If no line has a fault, `TooLong` if a segment is too long.
///
/// # Errors
///
/// Only `NoMemory`.
#[tactic(auto, unfolding(crate::specs::Each::all_faults))]
pub fn all_faults(alloc: Global, text: &str) -> Result<Vec<AsmFault>, AsmFault>
    ensures all { IfOk result (λ faults. faults.items ≡ all_faults text.now) }
    ensures refusal { IfErr result (λ fault. fault ≡ NoMemory) }
{
    let lines = faults_of_lines(alloc, text)?;
    if !lines.is_empty() {
        return Ok(lines);
    }
    let segments = source_of(alloc, text).map_err(|_| AsmFault::NoMemory)?;
    let mut found = faults_of_labels(alloc, &segments)?;
    if found.is_empty() {
        if let Err(fault) = assemble_file(alloc, text) {
            note(&mut found, Some(fault))?;
        }
    }
    Ok(found)
}
