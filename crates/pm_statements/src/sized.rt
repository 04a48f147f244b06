//! The sizes of all procedures of a code file. A procedure that was read is cached, because it is needed again for the
//! text.

ghost use Rattle.std.specs.Prelude.{◌≡◌, ◌%◌, ◌+◌, ◌∷◌, ◌++◌, ◌≤◌, ℕ, List, Option, None, Some, length, IfOk, IfSome};
ghost use Rattle.std.specs.Prelude.{OnOk, is_some, true};
ghost use Rattle.std.specs.List.{AllByRecursion};
ghost use Rattle.pm_code.specs.Views.{procedure_seen};
ghost use Rattle.pm_codefile.specs.Dictionary.{segment_in};
ghost use Rattle.pm_codefile.specs.Segments.{attributes_in};
ghost use Rattle.pm_codefile.specs.declared.table.Attributes.{Attributes};
ghost use Rattle.pm_disasm.specs.Offsets.{IsDecoded};
ghost use Rattle.pm_statements.specs.Files as files;
ghost use Rattle.pm_trees.specs.declared.part.Callee.{Callee};

use crate::callees::{Returns, callee_by, returns_of, system_callee};
use pm_code::Procedure;
use pm_codefile::{Attributes, CodeFile, attributes};
use pm_disasm::{Decoded, code, decode_segment};
use pm_trees::Callee;
use std::alloc::{AllocError, Global};

/// The maximum number of cached items for each byte of a code file.
const ITEMS_FOR_A_BYTE: usize = 4;

/// An attribute table, the sizes of its procedure, and how many words its returns leave. The procedure is included only
/// if the limit of cached items allowed it.
#[derive(Drop)]
pub struct SizedTable {
    /// The attribute table.
    pub table: Attributes,
    /// The sizes of the procedure, if they are known.
    pub callee: Option<Callee>,
    /// How many words the returns of the procedure leave.
    pub returns: Returns,
    /// The procedure, if it is cached.
    pub procedure: Option<Procedure>,
}

/// A segment, the sizes of its procedures, and the attribute tables that were read.
#[derive(Drop)]
pub struct SizedSegment<'a> {
    /// The bytes of the segment.
    pub segment: &'a [u8],
    /// The attribute tables of the segment that were read.
    pub tables: Vec<SizedTable>,
    /// The sizes for each of the 256 procedure numbers of the segment, if they are known.
    pub callees: Vec<Option<Callee>>,
}

/// Returns the sizes that `sized` has for the attribute table `a`. Returns None if `a` was not read before.
fn sized_before(sized: &[SizedTable], a: &Attributes) -> Option<Option<Callee>>
    ensures callee { (segment : List ℕ) → AllByRecursion (files.IsSizedTable segment) sized.now
        → IfSome result (λ callee. callee ≡ files.table_callee segment a.now) }
{
    for known in sized {
        if known.table == *a {
            return Some(known.callee);
        }
    }
    None
}

/// Reads the procedure of the attribute table `a` from the decoded segment, and computes its sizes. If the exit code is
/// before the code, the procedure is None and the sizes are unknown.
#[tactic(auto, unfolding(crate::specs::Files::table_callee))]
fn table_callee<'a>(
    alloc: Global,
    segment: &'a [u8],
    decoded: &Decoded<'a>,
    a: Attributes,
) -> Result<SizedTable, AllocError>
    requires short { length segment.now ≤ 65534 }
    requires of_segment { (p : ℕ) × (attributes_in segment.now p ≡ Some a) }
    requires decoded { IsDecoded decoded.now segment.now }
    ensures sized { IfOk result (λ s. files.IsSizedTable segment.now s) }
    ensures table { IfOk result (λ s. s.table ≡ a) }
{
    if a.exit < a.enter {
        return Ok(SizedTable {
            table: a,
            callee: None,
            returns: Returns::NoReturn,
            procedure: None,
        });
    }
    let procedure = code(alloc, segment, decoded, &a)?;
    let returns = returns_of(&procedure.items);
    Ok(SizedTable {
        table: a,
        callee: callee_by(procedure.parameters / 2, returns),
        returns,
        procedure: Some(procedure),
    })
}

/// Returns the number of items of the procedure that `sized` caches, or 0 if no procedure is cached.
fn items_kept(sized: &SizedTable) -> usize
    ensures items { result ≡ files.items_kept sized.now }
{
    match &sized.procedure {
        Some(procedure) => procedure.items.len(),
        None => 0,
    }
}

/// Returns `sized` with its procedure if the procedure has at most `room` items. Then `room` is reduced by this number.
/// Otherwise the procedure is removed from `sized`.
fn within(sized: SizedTable, room: &mut usize) -> SizedTable
    ensures sized { (segment : List ℕ) → files.IsSizedTable segment sized → files.IsSizedTable segment result }
    ensures table { result.table ≡ sized.table }
    ensures callee { result.callee ≡ sized.callee }
    ensures kept { files.items_kept sized ≤ room.old → result ≡ sized }
    ensures room { room.new + files.items_kept result ≡ room.old }
{
    let items = items_kept(&sized);
    if items <= *room {
        *room -= items;
        return sized;
    }
    SizedTable {
        table: sized.table,
        callee: sized.callee,
        returns: sized.returns,
        procedure: None,
    }
}

/// Returns the sizes for the attribute table `a` and adds the table to `sized`. A table that `sized` already contains
/// is not read again, because several words of a dictionary may refer to it. The procedure is cached if `room` allows
/// its items.
fn table_callee_once<'a>(
    alloc: Global,
    segment: &'a [u8],
    decoded: &Decoded<'a>,
    sized: &mut Vec<SizedTable>,
    room: &mut usize,
    a: Attributes,
) -> Result<Option<Callee>, AllocError>
    requires short { length segment.now ≤ 65534 }
    requires of_segment { (p : ℕ) × (attributes_in segment.now p ≡ Some a) }
    requires decoded { IsDecoded decoded.now segment.now }
    requires sized { AllByRecursion (files.IsSizedTable segment.now) sized.old.items }
    ensures callee { IfOk result (λ callee. callee ≡ files.table_callee segment.now a) }
    ensures sized { OnOk result (AllByRecursion (files.IsSizedTable segment.now) sized.new.items) }
{
    if let Some(callee) = sized_before(sized, &a) {
        return Ok(callee);
    }
    let new = within(table_callee(alloc, segment, decoded, a)?, room);
    let callee = new.callee;
    sized.push(new)?;
    Ok(callee)
}

/// Reads the sizes for the 256 procedure numbers of `segment`, and its attribute tables. Procedures are cached as long
/// as they have at most `room` items together, and `room` is reduced by their items. The segment may have at most
/// 65,534 bytes.
///
/// # Errors
///
/// `AllocError` if memory runs out.
pub fn size_segment<'a>(
    alloc: Global,
    segment: &'a [u8],
    room: &mut usize,
) -> Result<SizedSegment<'a>, AllocError>
    requires even { length segment.now % 2 ≡ 0 }
    requires short { length segment.now ≤ 65534 }
    ensures sized { IfOk result (λ s. files.IsSizedSegment s) }
    ensures segment { IfOk result (λ s. s.segment.now ≡ segment.now) }
{
    let decoded = decode_segment(alloc, segment)?;
    let mut tables = Vec::new(alloc);
    let mut callees = Vec::new(alloc);
    callees.push(None)?;
    for done in 0..255 {
        let callee = match attributes(segment, done + 1) {
            Some(a) => table_callee_once(alloc, segment, &decoded, &mut tables, room, a)?,
            None => None,
        };
        callees.push(callee)?;
    }
    Ok(SizedSegment {
        segment,
        tables,
        callees,
    })
}

/// Returns the first of `segments` that has the same bytes as `segment`. Returns None if no segment has these bytes.
pub fn sized_as<'s, 'a>(
    segments: &'s [SizedSegment<'a>],
    segment: &[u8],
) -> Option<&'s SizedSegment<'a>>
    ensures found { is_some result ≡ files.is_sized segments.now segment.now }
    ensures segment { IfSome result (λ s. s.now.segment.now ≡ segment.now) }
    ensures sized { AllByRecursion files.IsSizedSegment segments.now → IfSome result (λ s. files.IsSizedSegment s.now) }
{
    for sized in segments {
        if sized.segment == segment {
            return Some(sized);
        }
    }
    None
}

/// Appends the sizes for the 256 procedure numbers of `segment` to `callees`. The segment is read only if `segments`
/// has no segment with the same bytes: several slots may have the same segment.
fn add_segment<'a>(
    alloc: Global,
    callees: &mut Vec<Option<Callee>>,
    segments: &mut Vec<SizedSegment<'a>>,
    room: &mut usize,
    segment: &'a [u8],
) -> Result<(), AllocError>
    requires even { length segment.now % 2 ≡ 0 }
    requires short { length segment.now ≤ 65534 }
    requires sized { AllByRecursion files.IsSizedSegment segments.old.items }
    ensures callees { OnOk result (callees.new.items
        ≡ callees.old.items ++ files.segment_callees segment.now) }
    ensures sized { OnOk result (AllByRecursion files.IsSizedSegment segments.new.items) }
    ensures read { OnOk result (files.is_sized segments.new.items segment.now ≡ true) }
    ensures once { files.is_sized segments.old.items segment.now ≡ true → segments.new.items ≡ segments.old.items }
{
    if let Some(sized) = sized_as(segments, segment) {
        callees.extend_from_slice(&sized.callees)?;
        return Ok(());
    }
    let sized = size_segment(alloc, segment, room)?;
    callees.extend_from_slice(&sized.callees)?;
    segments.push(sized)?;
    Ok(())
}

/// Appends the sizes of the procedures of the operating system to `callees`.
fn add_system(callees: &mut Vec<Option<Callee>>) -> Result<(), AllocError>
    ensures callees { OnOk result (callees.new.items ≡ callees.old.items ++ (None ∷ files.system_from 1 255)) }
{
    callees.push(None)?;
    for done in 0..255 {
        callees.push(system_callee(done + 1))?;
    }
    Ok(())
}

/// Appends the sizes for slot `n` of `file` to `callees`. The segment of the slot is added to `segments` if `segments`
/// does not contain it.
fn add_slot<'a>(
    alloc: Global,
    callees: &mut Vec<Option<Callee>>,
    segments: &mut Vec<SizedSegment<'a>>,
    room: &mut usize,
    file: &CodeFile<'a>,
    n: u8,
) -> Result<(), AllocError>
    requires sized { AllByRecursion files.IsSizedSegment segments.old.items }
    ensures callees { OnOk result (callees.new.items
        ≡ callees.old.items ++ files.slot_callees n (segment_in file.now n)) }
    ensures sized { OnOk result (AllByRecursion files.IsSizedSegment segments.new.items) }
{
    match file.segment(n) {
        Some(segment) => add_segment(alloc, callees, segments, room, segment),
        None if n == 0 => add_system(callees),
        None => add_segment(alloc, callees, segments, room, &[]),
    }
}

/// The sizes of the procedures of a code file, and its segments with their attribute tables.
#[derive(Drop)]
pub struct Sized<'a> {
    /// The sizes: 256 elements for each slot, by procedure number. If slot 0 has no segment, its elements are the sizes
    /// of the procedures of the operating system.
    pub callees: Vec<Option<Callee>>,
    /// The segments of the code file. Slots with the same bytes share one element.
    pub segments: Vec<SizedSegment<'a>>,
}

/// Reads the sizes of all procedures of `file`. [`file`](crate::file) needs all sizes before it writes the first
/// statement, because each procedure may call any other procedure.
///
/// At most four items are cached for each byte of the file. The limit is needed because several tables, and several
/// segments, may refer to the same code.
///
/// # Errors
///
/// `AllocError` if memory runs out.
#[tactic(auto, unfolding(crate::specs::Files::file_callees))]
pub fn file_sizes<'a>(alloc: Global, file: &CodeFile<'a>) -> Result<Sized<'a>, AllocError>
    ensures callees { IfOk result (λ sized. sized.callees.items ≡ files.file_callees file.now) }
    ensures segments { IfOk result (λ sized. AllByRecursion files.IsSizedSegment sized.segments.items) }
{
    let mut callees = Vec::new(alloc);
    let mut segments = Vec::new(alloc);
    let mut room = file.len().saturating_mul(ITEMS_FOR_A_BYTE);
    for n in 0..16 {
        add_slot(alloc, &mut callees, &mut segments, &mut room, file, n)?;
    }
    Ok(Sized { callees, segments })
}
