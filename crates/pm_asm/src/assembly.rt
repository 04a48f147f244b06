//! Converts source text to a program, and converts the program to a code file and a listing.

ghost use Rattle.std.specs.Prelude.{◌≡◌, ◌≢◌, [], string_bytes, false, true, Ok, Err, IfOk, IfErr, OnOk};
ghost use Rattle.pm_code.specs.Views.{program_seen};
ghost use Rattle.pm_source.specs.declared.fault.AsmFault.TheVariants.{NoMemory};
ghost use Rattle.pm_source.specs.Faults.{faults};
ghost use Rattle.pm_source.specs.Meaning.{program_of};
ghost use Rattle.pm_asm.specs.Assembled.{Assembles, SpellsNothing, assembled, wanted};
ghost use Rattle.pm_asm.specs.Lengths.{AreShort};

use crate::lengths::check_lengths;
use crate::order::ascending;
use crate::program::resolve_segments;
use pm_code::{Segment, code_file, listing_of};
use pm_reader::source_of;
use pm_source::AsmFault;
use std::alloc::Global;

/// Returns the program of the source text `text`.
///
/// # Errors
///
/// - The first of the faults of the text, with its line.
/// - `TooLong(n)`: the text has no fault, and n is the first segment with more than 60,000 bytes.
/// - `NoMemory`: memory runs out. It can occur at any stage.
pub(crate) fn program_of(alloc: Global, text: &str) -> Result<Vec<Segment>, AsmFault>
    ensures program { IfOk result (λ program. program_seen program.items ≡ program_of text.now) }
    ensures faultless { OnOk result (faults text.now ≡ []) }
    ensures short { OnOk result (AreShort (program_of text.now)) }
    ensures refusal { IfErr result (λ fault. fault ≢ NoMemory → assembled text.now ≡ Err fault) }
{
    let segments = source_of(alloc, text)?;
    let found = resolve_segments(alloc, &segments)?;
    let program = ascending(alloc, found).map_err(|_| AsmFault::NoMemory)?;
    check_lengths(&program)?;
    Ok(program)
}

/// A code file and its listing.
#[derive(Drop)]
pub struct Assembly {
    /// The bytes of the code file.
    pub file: Vec<u8>,
    /// The listing: a line for each item, jump entry, attribute table and dictionary of each segment.
    pub listing: String,
}

/// Assembles the source text `text`, and returns the code file and the listing.
///
/// If memory suffices, the call succeeds if and only if the text is a program whose segments have at most 60,000 bytes
/// each.
///
/// # Errors
///
/// - The first of the faults of the text (`Syntax`, `Unknown`, `Range`, `NoLabel`, `Twice`, `Far`), with its line.
/// - `TooLong(n)`: the text has no fault, and n is the first segment with more than 60,000 bytes.
/// - `NoMemory`: memory runs out. It can occur at any stage.
pub fn assemble(alloc: Global, text: &str) -> Result<Assembly, AsmFault>
    ensures assembled { IfOk result (λ a. assembled text.now ≡ Ok (a.file.items, string_bytes a.listing)) }
    ensures refusal { IfErr result (λ fault. fault ≢ NoMemory → assembled text.now ≡ Err fault) }
    ensures spelled { IfOk result (λ a. Assembles text.now a.file.items (string_bytes a.listing)) }
    ensures unspelled { IfErr result (λ fault. fault ≢ NoMemory → SpellsNothing text.now) }
{
    let program = program_of(alloc, text)?;
    let file = code_file(alloc, &program).map_err(|_| AsmFault::NoMemory)?;
    let listing = listing_of(alloc, &program).map_err(|_| AsmFault::NoMemory)?;
    Ok(Assembly { file, listing })
}

/// Assembles the source text `text`, and returns only the code file. The errors are those of `assemble`.
pub fn assemble_file(alloc: Global, text: &str) -> Result<Vec<u8>, AsmFault>
    ensures file { IfOk result (λ file. wanted false (assembled text.now) ≡ Ok file.items) }
    ensures refusal { IfErr result (λ fault. fault ≢ NoMemory → assembled text.now ≡ Err fault) }
{
    let program = program_of(alloc, text)?;
    let file = code_file(alloc, &program).map_err(|_| AsmFault::NoMemory)?;
    Ok(file)
}

/// Assembles the source text `text`, and returns only the listing. The errors are those of `assemble`.
pub fn assemble_listing(alloc: Global, text: &str) -> Result<String, AsmFault>
    ensures listing { IfOk result (λ listing. wanted true (assembled text.now) ≡ Ok (string_bytes listing)) }
    ensures refusal { IfErr result (λ fault. fault ≢ NoMemory → assembled text.now ≡ Err fault) }
{
    let program = program_of(alloc, text)?;
    let listing = listing_of(alloc, &program).map_err(|_| AsmFault::NoMemory)?;
    Ok(listing)
}
