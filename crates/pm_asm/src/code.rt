//! Code with a table of its labels.

ghost use Rattle.pm_asm.specs.Table.{IsTable};

use pm_line::Row;
use std::collections::BTreeMap;

/// The code of a procedure, with a table of its labels.
#[derive(Clone, Copy)]
pub(crate) struct Code<'r, 'a> {
    /// The offset in the segment at which the code begins.
    pub start: usize,
    /// The lines of the code.
    pub rows: &'r [Row<'a>],
    /// The offset of each label of the code, by the name of the label.
    pub table: &'r BTreeMap<&'a [u8], usize>,
    ghost placed: { IsTable table.now start rows.now },
}
