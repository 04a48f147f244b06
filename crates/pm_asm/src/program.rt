//! Converts segments with labels to a program, in which the labels are replaced by offsets.

ghost use Rattle.std.specs.Prelude.{◌≡◌, ◌≢◌, [], IfOk, IfErr, OnOk, map};
ghost use Rattle.pm_code.specs.Views.{procedure_seen, program_seen, segment_seen};
ghost use Rattle.pm_source.specs.declared.fault.AsmFault.TheVariants.{NoMemory};
ghost use Rattle.pm_source.specs.Faults.{all_label_faults, label_faults, label_faults_from};
ghost use Rattle.pm_source.specs.Meaning.{found_procedure, found_procedures, found_segment};
ghost use Rattle.pm_reader.specs.Firsts.{IsFirstOf};
ghost use Rattle.pm_reader.specs.Views.{labelled_procedure, labelled_segment, labelled_segments};
ghost use Rattle.pm_asm.specs.Found.{exit_in};

use crate::code::Code;
use crate::resolved::{resolve_code, resolve_entries};
use crate::table::table_of;
use pm_code::{Procedure, Segment};
use pm_line::Row;
use pm_reader::{LabelledProcedure, LabelledSegment, row_end, source_end};
use pm_source::AsmFault;
use std::alloc::Global;

/// Returns the offset of the exit code of `code`. The error is `NoMemory`, only if an offset does not fit in 64 bits.
fn exit_place(code: &Code<'_, '_>) -> Result<usize, AsmFault>
    ensures place { IfOk result (λ place. place ≡ exit_in code.now) }
    ensures refusal { IfErr result (λ fault. fault ≡ NoMemory) }
{
    let mut at = code.start;
    for row in code.rows {
        if let Row::Exit = row {
            return Ok(at);
        }
        at = row_end(at, row).ok_or(AsmFault::NoMemory)?;
    }
    Ok(at)
}

/// Returns `procedure`, which begins at offset `at` of its segment, with its labels converted to offsets. The error is
/// the first of its label faults, or `NoMemory`.
#[tactic(auto, using(pm_reader::proofs::Firsts::first_front))]
fn resolve_procedure(
    alloc: Global,
    at: usize,
    procedure: &LabelledProcedure<'_>,
) -> Result<Procedure, AsmFault>
    ensures faultless { OnOk result (label_faults at (labelled_procedure procedure.now) ≡ []) }
    ensures found { IfOk result (λ found. procedure_seen found
        ≡ found_procedure at (labelled_procedure procedure.now)) }
    ensures refusal { IfErr result (λ fault. IsFirstOf fault (label_faults at (labelled_procedure procedure.now))) }
{
    let rows: &[Row<'_>] = &procedure.code;
    let table = table_of(alloc, at, rows).map_err(|_| AsmFault::NoMemory)?;
    let code = Code {
        start: at,
        rows,
        table: &table,
    };
    let items = resolve_code(alloc, &code)?;
    let entries = resolve_entries(alloc, &code, &procedure.entries)?;
    let exit = exit_place(&code)?;
    Ok(Procedure {
        level: procedure.level,
        parameters: procedure.parameters,
        locals: procedure.locals,
        start: at,
        items,
        exit,
        entries,
    })
}

/// Returns `procedures`, the procedures of one segment, with their labels converted to offsets. The error is the first
/// of their label faults, or `NoMemory`.
#[tactic(auto, using(crate::proofs::Firsts::procedure_first))]
fn resolve_procedures(
    alloc: Global,
    procedures: &[LabelledProcedure<'_>],
) -> Result<Vec<Procedure>, AsmFault>
    ensures faultless { OnOk result (label_faults_from 0 (map labelled_procedure procedures.now) ≡ []) }
    ensures found { IfOk result (λ found. map procedure_seen found.items
        ≡ found_procedures 0 (map labelled_procedure procedures.now)) }
    ensures refusal { IfErr result (λ fault. IsFirstOf fault
        (label_faults_from 0 (map labelled_procedure procedures.now))) }
{
    let mut found = Vec::new(alloc);
    let mut at = 0;
    for procedure in procedures {
        let one = resolve_procedure(alloc, at, procedure)?;
        found.push(one).map_err(|_| AsmFault::NoMemory)?;
        at = source_end(at, procedure).ok_or(AsmFault::NoMemory)?;
    }
    Ok(found)
}

/// Returns `segment` with its labels converted to offsets. The error is the first of its label faults, or `NoMemory`.
fn resolve_segment(alloc: Global, segment: &LabelledSegment<'_>) -> Result<Segment, AsmFault>
    ensures faultless { OnOk result (label_faults_from 0 (labelled_segment segment.now).procedures ≡ []) }
    ensures found { IfOk result (λ found. segment_seen found ≡ found_segment (labelled_segment segment.now)) }
    ensures refusal { IfErr result (λ fault. IsFirstOf fault
        (label_faults_from 0 (labelled_segment segment.now).procedures)) }
{
    let procedures = resolve_procedures(alloc, &segment.procedures)?;
    let mut name = Vec::new(alloc);
    name.extend_from_slice(segment.name)
        .map_err(|_| AsmFault::NoMemory)?;
    Ok(Segment {
        number: segment.number,
        name,
        procedures,
    })
}

/// Returns `segments` in the order of the text, with their labels converted to offsets.
///
/// # Errors
///
/// The first of the label faults, or `NoMemory`:
///
/// - `NoLabel`: the procedure does not define the label that is used in this line.
/// - `Far`: the short jump in this line leads backward, or more than 127 bytes forward.
/// - `NoMemory`: memory runs out, or an offset does not fit in 64 bits.
#[tactic(auto, using(pm_reader::proofs::Firsts::first_front))]
pub(crate) fn resolve_segments(
    alloc: Global,
    segments: &[LabelledSegment<'_>],
) -> Result<Vec<Segment>, AsmFault>
    ensures faultless { OnOk result (all_label_faults (labelled_segments segments.now) ≡ []) }
    ensures found { IfOk result (λ found. program_seen found.items
        ≡ map found_segment (labelled_segments segments.now)) }
    ensures refusal { IfErr result (λ fault. IsFirstOf fault (all_label_faults (labelled_segments segments.now))) }
{
    let mut found = Vec::new(alloc);
    for segment in segments {
        let one = resolve_segment(alloc, segment)?;
        found.push(one).map_err(|_| AsmFault::NoMemory)?;
    }
    Ok(found)
}
