//! Procedures as text.

ghost use Rattle.std.specs.Prelude.{◌≡◌, ◌<◌, ◌≤◌, ◌+◌, ◌++◌, ◌∷◌, codes, ℕ, [], Some};
ghost use Rattle.std.specs.Prelude.{None, drop, length, map, string_bytes, IfOk, OnOk};
ghost use Rattle.std.specs.Fmt.{decimal};
ghost use Rattle.pm_codefile.specs.Segments.{attributes_in};
ghost use Rattle.pm_disasm.specs.Chosen.{IsReading, IsTable};
ghost use Rattle.pm_disasm.specs.Offsets.{IsDecoded};
ghost use Rattle.pm_code.specs.Program.{is_among};
ghost use Rattle.pm_code.specs.Shown.{entry_line, joined, level_text, named_places};
ghost use Rattle.pm_disasm.specs.Shown.{missing_line};
ghost use Rattle.pm_code.specs.Shown.{procedure_lines, words_text};
ghost use Rattle.pm_disasm.specs.Shown.{table_lines};
ghost use Rattle.pm_disasm.specs.Split.{entry_places, procedure_of, procedure_with};
ghost use Rattle.pm_disasm.specs.Views.{IsSetOf};

use crate::counts::{Shown, shown_code};
use crate::decoded::Decoded;
use crate::lines::{Marks, push_code};
use crate::named::{add_entries, places_named};
use crate::places::PlaceSet;
use pm_code::Label;
use pm_codefile::Attributes;
use std::alloc::{AllocError, Global};
use std::fmt;
use std::fmt::Write;

/// A level, stored as a byte and shown as a signed number.
#[derive(Clone, Copy)]
struct Level(u8);

impl fmt::Display for Level {
    ghost output = { λ l. Some (level_text l.0) };

    fn fmt<W: fmt::Write>(&self, f: &mut fmt::Formatter<W>) -> fmt::Result {
        let level = self.0;
        if level < 128 {
            write!(f, "{level}")
        } else {
            let size = 256 - u16::from(level);
            write!(f, "-{size}")
        }
    }
}

/// The values of a `.PROC` line.
#[derive(Clone, Copy)]
struct Header {
    number: u8,
    level: Level,
    parameters: u16,
    locals: u16,
}

impl fmt::Display for Header {
    ghost output = { λ h. Some (codes ".PROC" ++ words_text
        (decimal h.number ∷ level_text h.level.0 ∷ decimal h.parameters ∷ decimal h.locals ∷ [])) };

    fn fmt<W: fmt::Write>(&self, f: &mut fmt::Formatter<W>) -> fmt::Result {
        let number = self.number;
        let level = self.level;
        let parameters = self.parameters;
        let locals = self.locals;
        write!(f, ".PROC {number} {level} {parameters} {locals}")
    }
}

/// Returns the targets of the jump table entries: all offsets of `forced` except the first one, which is that of the
/// exit code.
pub(crate) fn entries_of(forced: &[u16]) -> &[u16]
    ensures entries { result.now ≡ drop 1 forced.now }
{
    match forced {
        [] => &[],
        [_, entries @ ..] => entries,
    }
}

/// Appends the lines of the jump table entries that lead to the offsets `entries`.
fn push_entries(text: &mut String, entries: &[u16]) -> Result<(), AllocError>
    ensures text { OnOk result (string_bytes text.new ≡ string_bytes text.old ++ joined (map entry_line entries.now)) }
{
    for entry in entries {
        let place = Label(usize::from(*entry));
        writeln!(text, ".JUMP {place}")?;
    }
    Ok(())
}

/// Returns the set of the offsets to which the items and the jump table entries of a procedure lead.
fn places_shown(
    alloc: Global,
    segment: &[u8],
    a: &Attributes,
    shown: &Shown<'_>,
) -> Result<PlaceSet, AllocError>
    requires table { IsTable segment.now a.now }
    requires reading { (t : ℕ) × IsReading segment.now a.now t shown.now.reading }
    ensures places { IfOk result (λ named. (t : ℕ) → IsReading segment.now a.now t shown.now.reading
        → IsSetOf named (named_places (procedure_with segment.now a.now shown.now.allowed t).items
        ++ (procedure_with segment.now a.now shown.now.allowed t).entries)) }
{
    let code = &shown.reading.code;
    let end = shown.reading.end;
    let mut named = places_named(alloc, &code.parts, &code.boundaries, end, shown.allowed)?;
    add_entries(&mut named, entries_of(&shown.reading.forced));
    Ok(named)
}

/// Appends the lines of a procedure whose exit code is not before its code.
fn push_shown<'a>(
    alloc: Global,
    text: &mut String,
    segment: &'a [u8],
    decoded: &Decoded<'a>,
    a: Attributes,
) -> Result<(), AllocError>
    requires table { IsTable segment.now a }
    requires decoded { IsDecoded decoded.now segment.now }
    requires short { length segment.now ≤ 65534 }
    requires order { a.enter ≤ a.exit }
    ensures text { OnOk result (string_bytes text.new
        ≡ string_bytes text.old ++ joined (procedure_lines a.procedure (procedure_of segment.now a))) }
{
    let header = Header {
        number: a.procedure,
        level: Level(segment[usize::from(a.jtab) + 1]),
        parameters: a.parameters,
        locals: a.locals,
    };
    writeln!(text, "{header}")?;
    let shown = shown_code(alloc, segment, decoded, &a)?;
    let named = places_shown(alloc, segment, &a, &shown)?;
    let exit = usize::from(a.exit);
    let named = &named;
    let marks = Marks { named, exit };
    let (code, end) = (&shown.reading.code, shown.reading.end);
    push_code(
        alloc,
        text,
        &code.parts,
        &code.boundaries,
        shown.allowed,
        end,
        marks,
    )?;
    push_entries(text, entries_of(&shown.reading.forced))?;
    writeln!(text, ".END")?;
    Ok(())
}

/// Appends the lines of the procedure that has the given attribute table. If its exit code is before its code, it is
/// shown as a comment with its number.
pub(crate) fn push_table<'a>(
    alloc: Global,
    text: &mut String,
    segment: &'a [u8],
    decoded: &Decoded<'a>,
    a: &Attributes,
) -> Result<(), AllocError>
    requires table { IsTable segment.now a.now }
    requires decoded { IsDecoded decoded.now segment.now }
    requires short { length segment.now ≤ 65534 }
    ensures text { OnOk result (string_bytes text.new
        ≡ string_bytes text.old ++ joined (table_lines segment.now a.now)) }
{
    if a.exit < a.enter {
        let number = a.procedure;
        writeln!(text, "; procedure {number}")?;
        return Ok(());
    }
    push_shown(alloc, text, segment, decoded, *a)?;
    Ok(())
}
