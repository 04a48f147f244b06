//! The text of a code file as statements.

ghost use Rattle.std.specs.Prelude.{◌≡◌, ◌%◌, ◌≤◌, ◌++◌, List, [], ℕ, Some, length, nat_le, string_bytes, IfOk};
ghost use Rattle.std.specs.Prelude.{IfSome, OnOk};
ghost use Rattle.std.specs.List.{AllByRecursion};
ghost use Rattle.pm_codefile.specs.Dictionary.{segment_in};
ghost use Rattle.pm_codefile.specs.Segments.{attributes_in, procedures_in};
ghost use Rattle.pm_codefile.specs.declared.table.Attributes.{Attributes};
ghost use Rattle.pm_code.specs.Views.{procedure_seen};
ghost use Rattle.pm_disasm.specs.Offsets.{IsDecoded};
ghost use Rattle.pm_disasm.specs.Split.{procedure_of};
ghost use Rattle.pm_statements.specs.Files as files;

use crate::callees::{Returns, returns_of};
use crate::procedure::push_procedure;
use crate::sized::{Sized, SizedSegment, SizedTable, file_sizes, size_segment, sized_as};
use pm_code::{Label, Procedure};
use pm_codefile::{Attributes, CodeFile, attributes, procedures};
use pm_disasm::{Decoded, code, decode_segment};
use pm_trees::{Known, Layout};
use std::alloc::{AllocError, Global};
use std::fmt;
use std::fmt::Write;

/// The beginning of the first line of a procedure. The fields are the number of the procedure and the slot of its
/// segment.
#[derive(Clone, Copy)]
struct Named(u8, u8);

impl fmt::Display for Named {
    ghost output = { λ n. Some (files.named n.0 n.1) };

    fn fmt<W: fmt::Write>(&self, f: &mut fmt::Formatter<W>) -> fmt::Result {
        let (number, slot) = (self.0, self.1);
        write!(f, "PROCEDURE {number} OF SEGMENT {slot}")
    }
}

/// The size of the result of a procedure in bytes. The text is empty unless all returns leave the same number of words.
#[derive(Clone, Copy)]
struct ResultText(Returns);

impl fmt::Display for ResultText {
    ghost output = { λ r. Some (files.result_text r.0) };

    fn fmt<W: fmt::Write>(&self, f: &mut fmt::Formatter<W>) -> fmt::Result {
        match self.0 {
            Returns::Of(words) => {
                let bytes = 2 * u16::from(words);
                write!(f, ", {bytes} of result")
            }
            Returns::NoReturn | Returns::Different => Ok(()),
        }
    }
}

/// The first line of a procedure: its number and slot, its level, and the sizes of its parameters, locals and result in
/// bytes. The first field is the slot.
#[derive(Clone, Copy)]
struct Header(u8, Attributes, Returns);

impl fmt::Display for Header {
    ghost output = { λ h. Some (files.header h.0 h.1 h.2) };

    fn fmt<W: fmt::Write>(&self, f: &mut fmt::Formatter<W>) -> fmt::Result {
        let a = self.1;
        let (named, result) = (Named(a.procedure, self.0), ResultText(self.2));
        let (level, parameters, locals) = (a.level, a.parameters, a.locals);
        write!(
            f,
            "{named}: level {level}, {parameters} bytes of parameters, {locals} of locals{result}"
        )
    }
}

/// Returns the slot of the segment whose code is shown.
fn slot_of(known: &Known<'_>) -> u8
    ensures slot { result ≡ known.now.segment }
{
    known.segment
}

/// Appends a line for each entry of a jump table to `out`: the number of the entry and its target. A line feed precedes
/// each line.
#[tactic(auto, using(crate::proofs::Filed::entries_done))]
fn push_entries(out: &mut String, entries: &[usize]) -> Result<(), AllocError>
    ensures text { OnOk result (string_bytes out.new ≡ string_bytes out.old ++ files.entry_lines 0 entries.now) }
{
    for k in 0..entries.len() {
        let label = Label(entries[k]);
        write!(out, "\n^{k} {label}")?;
    }
    Ok(())
}

/// Appends the text of `procedure`, which has code, to `text`. `a` is its attribute table, and `returns` states how
/// many words its returns leave.
fn push_code(
    alloc: Global,
    text: &mut String,
    known: &Known<'_>,
    a: &Attributes,
    procedure: &Procedure,
    returns: Returns,
) -> Result<(), AllocError>
    requires returns { returns ≡ files.returns_in (procedure_seen procedure.now) }
    ensures text { OnOk result (string_bytes text.new ≡ string_bytes text.old
        ++ files.code_text known.now a.now (procedure_seen procedure.now)) }
{
    let header = Header(slot_of(known), *a, returns);
    write!(text, "{header}")?;
    push_entries(text, &procedure.entries)?;
    push_procedure(alloc, text, known, procedure)?;
    text.push_str("\n")?;
    Ok(())
}

/// Returns the procedure that `tables` has cached for the attribute table `a`, and how many words its returns leave.
/// Returns None if the procedure is not cached.
fn kept<'a>(tables: &'a [SizedTable], a: &Attributes) -> Option<(&'a Procedure, Returns)>
    ensures procedure { (segment : List ℕ) → AllByRecursion (files.IsSizedTable segment) tables.now
        → IfSome result (λ p. procedure_seen p.0.now ≡ procedure_of segment a.now) }
    ensures returns { (segment : List ℕ) → AllByRecursion (files.IsSizedTable segment) tables.now
        → IfSome result (λ p. p.1 ≡ files.returns_in (procedure_seen p.0.now)) }
{
    for known in tables {
        if known.table == *a {
            let procedure = known.procedure.as_ref()?;
            return Some((procedure, known.returns));
        }
    }
    None
}

/// Reads the procedure of the attribute table `a` from `segment`. The segment is decoded only if `decoded` is None.
fn read_anew<'a>(
    alloc: Global,
    segment: &'a [u8],
    decoded: &mut Option<Decoded<'a>>,
    a: &Attributes,
) -> Result<Procedure, AllocError>
    requires short { length segment.now ≤ 65534 }
    requires of_segment { (p : ℕ) × (attributes_in segment.now p ≡ Some a.now) }
    requires order { a.now.enter ≤ a.now.exit }
    requires decoded { IfSome decoded.old (λ d. IsDecoded d segment.now) }
    ensures procedure { IfOk result (λ p. procedure_seen p ≡ procedure_of segment.now a.now) }
    ensures decoded { OnOk result (IfSome decoded.new (λ d. IsDecoded d segment.now)) }
{
    if let Some(known) = decoded {
        return code(alloc, segment, known, a);
    }
    let new = decode_segment(alloc, segment)?;
    let procedure = code(alloc, segment, &new, a)?;
    *decoded = Some(new);
    Ok(procedure)
}

/// Appends the text of the procedure with the attribute table `a` to `text`.
#[tactic(auto, unfolding(crate::specs::Files::table_text))]
fn push_table<'a>(
    alloc: Global,
    text: &mut String,
    known: &Known<'_>,
    sized: &SizedSegment<'a>,
    decoded: &mut Option<Decoded<'a>>,
    a: &Attributes,
) -> Result<(), AllocError>
    requires short { length sized.now.segment.now ≤ 65534 }
    requires of_segment { (p : ℕ) × (attributes_in sized.now.segment.now p ≡ Some a.now) }
    requires sized { files.IsSizedSegment sized.now }
    requires decoded { IfSome decoded.old (λ d. IsDecoded d sized.now.segment.now) }
    ensures text { OnOk result (string_bytes text.new
        ≡ string_bytes text.old ++ files.table_text known.now sized.now.segment.now a.now) }
    ensures decoded { OnOk result (IfSome decoded.new (λ d. IsDecoded d sized.now.segment.now)) }
{
    if a.exit < a.enter {
        let named = Named(a.procedure, slot_of(known));
        writeln!(text, "{named}: no code")?;
        return Ok(());
    }
    match kept(&sized.tables, a) {
        Some((procedure, returns)) => push_code(alloc, text, known, a, procedure, returns),
        None => {
            let procedure = read_anew(alloc, sized.segment, decoded, a)?;
            let returns = returns_of(&procedure.items);
            push_code(alloc, text, known, a, &procedure, returns)
        }
    }
}

/// Appends a line for a number whose attribute table `a` was already shown. The line names the number that is in that
/// table.
fn push_repeated(text: &mut String, named: Named, a: &Attributes) -> Result<(), AllocError>
    ensures text { OnOk result (string_bytes text.new
        ≡ string_bytes text.old ++ files.repeated_text named.0 named.1 a.now) }
{
    let above = a.procedure;
    writeln!(text, "{named}: shown above as PROCEDURE {above}")?;
    Ok(())
}

/// Appends the text of the procedure with the attribute table `a`, and adds the offset of `a` to `shown`. If `shown`
/// already contains this offset, only one line is appended: several words of a dictionary may refer to the same table.
fn push_table_once<'a>(
    alloc: Global,
    text: &mut String,
    known: &Known<'_>,
    sized: &SizedSegment<'a>,
    decoded: &mut Option<Decoded<'a>>,
    shown: &mut Vec<u16>,
    number: u8,
    a: Attributes,
) -> Result<(), AllocError>
    requires short { length sized.now.segment.now ≤ 65534 }
    requires of_segment { (p : ℕ) × (attributes_in sized.now.segment.now p ≡ Some a) }
    requires sized { files.IsSizedSegment sized.now }
    requires decoded { IfSome decoded.old (λ d. IsDecoded d sized.now.segment.now) }
    ensures text { OnOk result (string_bytes text.new ≡ string_bytes text.old
        ++ files.numbered_text known.now sized.now.segment.now shown.old.items number (Some a)) }
    ensures shown { OnOk result (shown.new.items ≡ files.with_table shown.old.items (Some a)) }
    ensures decoded { OnOk result (IfSome decoded.new (λ d. IsDecoded d sized.now.segment.now)) }
{
    if shown.contains(&a.jtab) {
        return push_repeated(text, Named(number, slot_of(known)), &a);
    }
    shown.push(a.jtab)?;
    push_table(alloc, text, known, sized, decoded, &a)
}

/// Appends the text for one procedure number of a segment: the statements of its procedure. The text is one line if the
/// number has no attribute table, or if an earlier number has the same table.
///
/// `shown` contains the offsets of the attribute tables that were shown. `decoded` is the decoded segment, if it was
/// decoded. Before the first number of a segment, `shown` must be empty and `decoded` must be None.
///
/// # Errors
///
/// `AllocError` if memory runs out. A part of the text may have been appended.
pub fn push_numbered<'a>(
    alloc: Global,
    text: &mut String,
    known: &Known<'_>,
    sized: &SizedSegment<'a>,
    decoded: &mut Option<Decoded<'a>>,
    shown: &mut Vec<u16>,
    number: u8,
) -> Result<(), AllocError>
    requires even { length sized.now.segment.now % 2 ≡ 0 }
    requires short { length sized.now.segment.now ≤ 65534 }
    requires sized { files.IsSizedSegment sized.now }
    requires decoded { IfSome decoded.old (λ d. IsDecoded d sized.now.segment.now) }
    ensures text { OnOk result (string_bytes text.new ≡ string_bytes text.old ++ files.numbered_text known.now
        sized.now.segment.now shown.old.items number (attributes_in sized.now.segment.now number)) }
    ensures shown { OnOk result (shown.new.items
        ≡ files.with_table shown.old.items (attributes_in sized.now.segment.now number)) }
    ensures decoded { OnOk result (IfSome decoded.new (λ d. IsDecoded d sized.now.segment.now)) }
{
    let named = Named(number, slot_of(known));
    match attributes(sized.segment, number) {
        Some(a) => push_table_once(alloc, text, known, sized, decoded, shown, number, a)?,
        None => writeln!(text, "{named}: no table")?,
    }
    Ok(())
}

/// Appends the text of all procedures of the segment `sized` to `text`.
fn push_segment(
    alloc: Global,
    text: &mut String,
    known: &Known<'_>,
    sized: &SizedSegment<'_>,
) -> Result<(), AllocError>
    requires even { length sized.now.segment.now % 2 ≡ 0 }
    requires short { length sized.now.segment.now ≤ 65534 }
    requires sized { files.IsSizedSegment sized.now }
    ensures text { OnOk result (string_bytes text.new ≡ string_bytes text.old
        ++ files.tables_text known.now sized.now.segment.now [] 1 (procedures_in sized.now.segment.now)) }
{
    let segment = sized.segment;
    let mut decoded = None;
    let mut shown = Vec::new(alloc);
    for done in 0..procedures(segment) {
        let number = done + 1;
        push_numbered(alloc, text, known, sized, &mut decoded, &mut shown, number)?;
    }
    Ok(())
}

/// Appends the text of the segment in slot `n` of `file`. If the slot has no segment, nothing is appended.
fn push_slot(
    alloc: Global,
    text: &mut String,
    file: &CodeFile<'_>,
    sizes: &Sized<'_>,
    layout: Layout,
    n: u8,
) -> Result<(), AllocError>
    requires sized { AllByRecursion files.IsSizedSegment sizes.now.segments.items }
    ensures text { OnOk result (string_bytes text.new
        ≡ string_bytes text.old ++ files.slot_text sizes.now.callees.items layout n (segment_in file.now n)) }
{
    let Some(segment) = file.segment(n) else {
        return Ok(());
    };
    let known = Known {
        segment: n,
        callees: &sizes.callees,
        layout,
    };
    match sized_as(&sizes.segments, segment) {
        Some(sized) => push_segment(alloc, text, &known, sized),
        None => {
            let sized = size_segment(alloc, segment, &mut 0)?;
            push_segment(alloc, text, &known, &sized)
        }
    }
}

/// Returns the text of the code file `file` as statements, in the layout `layout`. The segments are in ascending order
/// of their slots, and the procedures are in the order of their numbers.
///
/// Each procedure has a first line, then a line for each entry of its jump table, and then its statements.
#[tactic(auto, unfolding(crate::specs::Files::file_text))]
pub fn file(alloc: Global, file: &CodeFile<'_>, layout: Layout) -> Result<String, AllocError>
    ensures text { IfOk result (λ text. string_bytes text ≡ files.file_text layout file.now) }
{
    let sizes = file_sizes(alloc, file)?;
    let mut text = String::new(alloc);
    for n in 0..16 {
        push_slot(alloc, &mut text, file, &sizes, layout, n)?;
    }
    Ok(text)
}
