//! The number of jump table entries that the jumps of code use.

ghost use Rattle.std.specs.Prelude.{◌≡◌, map};
ghost use Rattle.pm_code.specs.Program.{entries_needed};
ghost use Rattle.pm_line.specs.Views.{row_seen};
ghost use Rattle.pm_source.specs.Source.{entries_used, row_items};

use pm_code::entries_needed;
use pm_line::Row;

/// Returns the number of jump table entries that the jumps of `row` use.
fn row_entries(row: &Row<'_>) -> usize
    ensures entries { result ≡ entries_needed (row_items (row_seen row.now)) }
{
    entries_needed(row.items())
}

/// Returns the number of jump table entries that the jumps of `rows` use.
pub(crate) fn entries_taken(rows: &[Row<'_>]) -> usize
    ensures entries { result ≡ entries_used (map row_seen rows.now) }
{
    let mut most = 0;
    for row in rows {
        most = most.max(row_entries(row));
    }
    most
}
