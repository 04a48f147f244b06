//! The sizes of code in bytes. Each function returns `None` only if its result exceeds `usize::MAX`.

ghost use Rattle.std.specs.Prelude.{◌≡◌, ◌<◌, None, IfSome, map};
ghost use Rattle.pm_code.specs.Program.{end_of};
ghost use Rattle.pm_line.specs.Views.{row_seen};
ghost use Rattle.pm_source.specs.Faults.{source_end};
ghost use Rattle.pm_source.specs.Source.{code_end, row_items};
ghost use Rattle.pm_reader.specs.Views.{labelled_procedure};

use crate::source::LabelledProcedure;
use pm_code::items_end;
use pm_line::Row;

/// Returns the offset in bytes after the row `row`, which begins at offset `at` of its segment. Returns `None` only if
/// the result exceeds `usize::MAX`.
pub fn row_end(at: usize, row: &Row<'_>) -> Option<usize>
    ensures end { IfSome result (λ n. n ≡ end_of at (row_items (row_seen row.now))) }
    ensures too_long { result ≡ None → 18446744073709551615 < end_of at (row_items (row_seen row.now)) }
{
    items_end(at, row.items())
}

/// Returns the offset after the rows `rows`, which begin at offset `at`. Returns `None` only if the result exceeds
/// `usize::MAX`.
pub(crate) fn code_end(at: usize, rows: &[Row<'_>]) -> Option<usize>
    ensures end { IfSome result (λ n. n ≡ code_end at (map row_seen rows.now)) }
    ensures too_long { result ≡ None → 18446744073709551615 < code_end at (map row_seen rows.now) }
{
    let mut end = at;
    for row in rows {
        end = row_end(end, row)?;
    }
    Some(end)
}

/// Returns the offset in bytes after `procedure`, which begins at offset `at` of its segment. The procedure consists of
/// its code, two bytes for each entry of its jump table, and ten more bytes of its attribute table. Returns `None` only
/// if the result exceeds `usize::MAX`.
pub fn source_end(at: usize, procedure: &LabelledProcedure<'_>) -> Option<usize>
    ensures end { IfSome result (λ n. n ≡ source_end at (labelled_procedure procedure.now)) }
    ensures too_long { result ≡ None → 18446744073709551615 < source_end at (labelled_procedure procedure.now) }
{
    let code = code_end(at, &procedure.code)?;
    let entries = procedure.entries.len().checked_mul(2)?;
    code.checked_add(entries)?.checked_add(10)
}
