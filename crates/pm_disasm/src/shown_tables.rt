//! The texts of procedures of a segment that were already shown, by their attribute tables.

ghost use Rattle.std.specs.Prelude.{◌≡◌, ◌≤◌, ◌++◌, List, ℕ, length, string_bytes, IfSome, OnOk};
ghost use Rattle.std.specs.List.{AllByRecursion};
ghost use Rattle.pm_codefile.specs.declared.table.Attributes.{Attributes};
ghost use Rattle.pm_disasm.specs.Chosen.{IsTable};
ghost use Rattle.pm_disasm.specs.Offsets.{IsDecoded};
ghost use Rattle.pm_code.specs.Shown.{joined};
ghost use Rattle.pm_disasm.specs.Shown.{table_lines};
ghost use Rattle.pm_disasm.specs.ShownTables.{IsShownTable};

use crate::decoded::Decoded;
use crate::procedures::push_table;
use pm_codefile::Attributes;
use std::alloc::{AllocError, Global};

/// The attribute table of a procedure that was already shown, and the text of this procedure.
#[derive(Drop)]
pub(crate) struct ShownTable {
    /// The attribute table.
    pub table: Attributes,
    /// The text of the procedure that has this attribute table.
    pub text: String,
}

/// Returns the text that is stored in `shown` for the attribute table `a`, or `None` if no text is stored for it.
pub(crate) fn text_of<'a>(shown: &'a [ShownTable], a: &Attributes) -> Option<&'a str>
    ensures text { (shows : Attributes → List ℕ) → AllByRecursion (λ s. string_bytes s.text ≡ shows s.table) shown.now
        → IfSome result (λ text. text.now ≡ shows a.now) }
{
    for known in shown {
        if known.table == *a {
            return Some(known.text.as_str());
        }
    }
    None
}

/// Appends the text of the procedure that has the given attribute table, and stores this text. If the same table was
/// shown before, the stored text is copied. Several words of a dictionary may refer to one table.
pub(crate) fn push_table_once<'a>(
    alloc: Global,
    text: &mut String,
    segment: &'a [u8],
    decoded: &Decoded<'a>,
    shown: &mut Vec<ShownTable>,
    a: Attributes,
) -> Result<(), AllocError>
    requires table { IsTable segment.now a }
    requires decoded { IsDecoded decoded.now segment.now }
    requires short { length segment.now ≤ 65534 }
    requires shown { AllByRecursion (IsShownTable segment.now) shown.old.items }
    ensures text { OnOk result (string_bytes text.new
        ≡ string_bytes text.old ++ joined (table_lines segment.now a)) }
    ensures shown { OnOk result (AllByRecursion (IsShownTable segment.now) shown.new.items) }
{
    if let Some(known) = text_of(shown, &a) {
        text.push_str(known)?;
        return Ok(());
    }
    let mut own = String::new(alloc);
    push_table(alloc, &mut own, segment, decoded, &a)?;
    text.push_str(own.as_str())?;
    shown.push(ShownTable {
        table: a,
        text: own,
    })?;
    Ok(())
}
