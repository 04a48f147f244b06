//! The table of a procedure's labels. The table is created once for the code, so labels are not searched line by line.

ghost use Rattle.std.specs.Prelude.{◌≡◌, IfOk};
ghost use Rattle.pm_asm.specs.Firsts.{places_in};
ghost use Rattle.pm_asm.specs.Table.{IsTable};

use crate::code::Code;
use pm_line::Row;
use pm_reader::{label_of, row_end};
use std::alloc::{AllocError, Global};
use std::collections::BTreeMap;

/// Returns the offset of each label in the lines `rows` of code that begins at offset `start`. Of several labels with
/// one name, the first is included.
pub(crate) fn table_of<'a>(
    alloc: Global,
    start: usize,
    rows: &[Row<'a>],
) -> Result<BTreeMap<&'a [u8], usize>, AllocError>
    ensures table { IfOk result (λ table. IsTable table start rows.now) }
{
    let mut table = BTreeMap::new(alloc);
    let mut at = start;
    for row in rows {
        if let Some(label) = label_of(row) {
            if !table.contains_key(&label) {
                table.insert(label, at)?;
            }
        }
        at = row_end(at, row).ok_or(AllocError)?;
    }
    Ok(table)
}

/// Returns the offset of the label `name`, or `None` if `code` does not define it.
pub(crate) fn place_of<'a>(code: &Code<'_, 'a>, name: &'a [u8]) -> Option<usize>
    ensures place { result ≡ places_in code.now name.now }
{
    code.table.get(&name).copied()
}
