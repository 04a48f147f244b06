//! The labels of rows of code.

ghost use Rattle.std.specs.Prelude.{◌≡◌, ℕ, List, option_map};
ghost use Rattle.pm_line.specs.Views.{row_seen, text_seen};
ghost use Rattle.pm_source.specs.Source.{has_label};
ghost use Rattle.pm_reader.specs.Named.{is_name, label_in};

use pm_line::Row;

/// Returns the label of a row of code, or `None` if the row has no label. The row of the exit code has no label.
pub fn label_of<'a>(row: &Row<'a>) -> Option<&'a [u8]>
    ensures label { (name : List ℕ) → has_label name (row_seen row.now) ≡ is_name name result }
    ensures told { option_map text_seen result ≡ label_in (row_seen row.now) }
{
    match row {
        Row::One { label, .. } | Row::Items { label, .. } => *label,
        Row::Exit => None,
    }
}
