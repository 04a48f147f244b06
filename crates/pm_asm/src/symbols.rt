//! The positions of procedures and labels. Offsets are counted from the entry of the procedure, as in the debugger.

ghost use Rattle.std.specs.Prelude.{◌≡◌, ◌≢◌, ◌∷◌, ◌++◌, [], Err, IfOk, IfErr, OnOk, Ok, Some, map, option_map};
ghost use Rattle.pm_line.specs.Views.{row_seen, text_seen};
ghost use Rattle.pm_reader.specs.Views.{labelled_procedure, labelled_segments};
ghost use Rattle.pm_source.specs.declared.fault.AsmFault.TheVariants.{NoMemory};
ghost use Rattle.pm_source.specs.Source.{labels_of};
ghost use Rattle.pm_asm.specs.Firsts.{places_in};
ghost use Rattle.pm_asm.specs.SymbolViews.{symbol_seen, symbols_seen};
ghost use Rattle.pm_asm.specs.Symbols as symbols;
ghost use Rattle.pm_asm.specs.Symbols.{procedure_symbols, symbol_line, symbol_lines, symbol_name, symbol_text};
ghost use Rattle.pm_asm.specs.Symbols.{symbols_from};

use crate::assembly::program_of;
use crate::code::Code;
use crate::table::{place_of, table_of};
use pm_code::{FiveDigits, ThreeDigits};
use pm_line::Row;
use pm_reader::{LabelledProcedure, LabelledSegment, label_of, source_end, source_of};
use pm_source::AsmFault;
use std::alloc::{AllocError, Global};

/// A symbol: a procedure, or a label of its code.
#[derive(Clone, Copy)]
struct Symbol<'a> {
    /// The number of the segment.
    segment: u8,
    /// The number of the procedure.
    procedure: usize,
    /// The offset in bytes from the entry of the procedure.
    offset: usize,
    /// The label, or `None` for the procedure itself.
    label: Option<&'a [u8]>,
}

/// Code with a table of its labels, and the numbers of its segment and its procedure.
#[derive(Clone, Copy)]
struct Numbered<'r, 'a> {
    segment: u8,
    procedure: usize,
    code: Code<'r, 'a>,
}

/// Returns the symbol of `label`, which the code of `numbered` defines.
fn label_symbol<'a>(numbered: &Numbered<'_, 'a>, label: &'a [u8]) -> Symbol<'a>
    ensures symbol { symbol_seen result ≡ symbols.label_symbol numbered.now.segment numbered.now.procedure
        numbered.now.code.start (map row_seen numbered.now.code.rows.now) label.now }
{
    let place = place_of(&numbered.code, label).unwrap_or(0);
    Symbol {
        segment: numbered.segment,
        procedure: numbered.procedure,
        offset: place.saturating_sub(numbered.code.start),
        label: Some(label),
    }
}

/// Appends a symbol for each label of the code of `numbered` to `found`.
fn push_labels<'a>(
    numbered: &Numbered<'_, 'a>,
    found: &mut Vec<Symbol<'a>>,
) -> Result<(), AllocError>
    ensures labels { OnOk result (symbols_seen found.new.items ≡ symbols_seen found.old.items
        ++ map (symbols.label_symbol numbered.now.segment numbered.now.procedure numbered.now.code.start
        (map row_seen numbered.now.code.rows.now)) (labels_of (map row_seen numbered.now.code.rows.now))) }
{
    for row in numbered.code.rows {
        if let Some(label) = label_of(row) {
            found.push(label_symbol(numbered, label))?;
        }
    }
    Ok(())
}

/// Appends the symbol of `procedure`, which begins at offset `at` of its segment, and then the symbols of its labels.
/// `numbers` are the numbers of the segment and of the procedure.
fn push_procedure<'a>(
    alloc: Global,
    numbers: (u8, usize),
    at: usize,
    procedure: &LabelledProcedure<'a>,
    found: &mut Vec<Symbol<'a>>,
) -> Result<(), AllocError>
    ensures symbols { OnOk result (symbols_seen found.new.items ≡ symbols_seen found.old.items
        ++ procedure_symbols numbers.0 numbers.1 at (labelled_procedure procedure.now)) }
{
    let rows: &[Row<'a>] = &procedure.code;
    let table = table_of(alloc, at, rows)?;
    let code = Code {
        start: at,
        rows,
        table: &table,
    };
    found.push(Symbol {
        segment: numbers.0,
        procedure: numbers.1,
        offset: 0,
        label: None,
    })?;
    let numbered = Numbered {
        segment: numbers.0,
        procedure: numbers.1,
        code,
    };
    push_labels(&numbered, found)
}

/// Appends the symbols of `procedures`, which are those of the segment with the number `segment`, and of their labels.
#[tactic(auto, unfolding(crate::specs::Symbols::symbols_from))]
fn push_procedures<'a>(
    alloc: Global,
    segment: u8,
    procedures: &[LabelledProcedure<'a>],
    found: &mut Vec<Symbol<'a>>,
) -> Result<(), AllocError>
    ensures symbols { OnOk result (symbols_seen found.new.items ≡ symbols_seen found.old.items
        ++ symbols_from segment 1 0 (map labelled_procedure procedures.now)) }
{
    let mut number = 1;
    let mut at = 0;
    for procedure in procedures {
        push_procedure(alloc, (segment, number), at, procedure, found)?;
        number += 1;
        at = source_end(at, procedure).ok_or(AllocError)?;
    }
    Ok(())
}

/// Returns the symbols of the procedures and labels of `segments`, in the order of the text.
#[tactic(auto, unfolding(crate::specs::Symbols::symbols))]
fn symbols_of<'a>(
    alloc: Global,
    segments: &[LabelledSegment<'a>],
) -> Result<Vec<Symbol<'a>>, AllocError>
    ensures symbols { IfOk result (λ found. symbols_seen found.items
        ≡ symbols.symbols (labelled_segments segments.now)) }
{
    let mut found = Vec::new(alloc);
    for segment in segments {
        push_procedures(alloc, segment.number, &segment.procedures, &mut found)?;
    }
    Ok(found)
}

/// Returns the name in the line of a symbol: its label, or `.PROC` for a procedure.
fn symbol_name<'a>(label: Option<&'a [u8]>) -> &'a [u8]
    ensures name { result.now ≡ symbol_name (option_map text_seen label.entry) }
{
    match label {
        Some(label) => label,
        None => b".PROC",
    }
}

/// Appends the line of `symbol` to `lines`.
#[tactic(auto, unfolding(crate::specs::Symbols::symbol_line))]
fn push_line(alloc: Global, lines: &mut Vec<u8>, symbol: &Symbol<'_>) -> Result<(), AllocError>
    ensures line { OnOk result (lines.new.items ≡ lines.old.items ++ symbol_line (symbol_seen symbol.now)) }
{
    let segment = ThreeDigits(usize::from(symbol.segment));
    let procedure = ThreeDigits(symbol.procedure);
    let offset = FiveDigits(symbol.offset);
    let numbers = format!(in alloc; "{segment} {procedure} {offset} ")?;
    lines.extend_from_slice(numbers.as_bytes())?;
    lines.extend_from_slice(symbol_name(symbol.label))?;
    lines.push(b'\n')?;
    Ok(())
}

/// Returns the lines of `symbols`.
fn lines_of(alloc: Global, symbols: &[Symbol<'_>]) -> Result<Vec<u8>, AllocError>
    ensures lines { IfOk result (λ lines. lines.items ≡ symbol_lines (symbols_seen symbols.now)) }
{
    let mut lines = Vec::new(alloc);
    for symbol in symbols {
        push_line(alloc, &mut lines, symbol)?;
    }
    Ok(lines)
}

/// Returns a line for each procedure and each label of the source text `text`, in the order of the text.
///
/// The form of a line is `SSS PPP OOOOO NAME`: the segment, the procedure, the offset, and the label. The line of a
/// procedure itself has the name `.PROC`. The offset is in bytes from the entry of the procedure, as the debugger
/// counts it. The errors are those of `assemble`.
#[tactic(auto, using(crate::proofs::SymbolPlaces::symbols_refused))]
pub fn assemble_symbols(alloc: Global, text: &str) -> Result<Vec<u8>, AsmFault>
    ensures symbols { IfOk result (λ lines. symbol_text text.now ≡ Ok lines.items) }
    ensures refusal { IfErr result (λ fault. fault ≢ NoMemory → symbol_text text.now ≡ Err fault) }
{
    program_of(alloc, text)?;
    let segments = source_of(alloc, text).map_err(|_| AsmFault::NoMemory)?;
    let found = symbols_of(alloc, &segments).map_err(|_| AsmFault::NoMemory)?;
    let lines = lines_of(alloc, &found).map_err(|_| AsmFault::NoMemory)?;
    Ok(lines)
}
