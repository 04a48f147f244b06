//! Tests of a procedure that has not ended, and the addition of its next row.

ghost use Rattle.std.specs.Prelude.{◌≡◌, [], None, IfOk, IfSome, map};
ghost use Rattle.std.specs.List.{list_any};
ghost use Rattle.pm_line.specs.Views.{row_seen};
ghost use Rattle.pm_source.specs.Source.{code_end, has_exit, has_label_in, is_exit};
ghost use Rattle.pm_source.specs.Faults.{after_code, is_uneven, new_procedure};
ghost use Rattle.pm_reader.specs.Views.{labelled_procedure};
ghost use Rattle.pm_reader.specs.Reader.{IsCountless, current_seen};

use crate::current::Current;
use crate::entries::entries_taken;
use crate::labels::label_of;
use crate::sizes::code_end;
use crate::source::LabelledProcedure;
use pm_line::Row;
use std::alloc::{AllocError, Global};
use std::collections::BTreeMap;

/// Returns whether `row` is the position of the exit code.
fn row_is_exit(row: &Row<'_>) -> bool
    ensures exit { result ≡ is_exit (row_seen row.now) }
{
    matches!(row, Row::Exit)
}

/// Returns whether one of `rows` is the position of the exit code.
fn any_exit(rows: &[Row<'_>]) -> bool
    ensures exit { result ≡ list_any (λ row. is_exit (row_seen row)) rows.now }
{
    rows.iter().any(|row| row_is_exit(row))
}

impl LabelledProcedure<'_> {
    /// Returns whether the procedure has a position of the exit code.
    #[tactic(auto, using(crate::proofs::Seen::any_of_views))]
    pub(crate) fn has_exit(&self) -> bool
        ensures exit { result ≡ has_exit (labelled_procedure self.now) }
    {
        any_exit(&self.code)
    }

    /// Returns whether the code has an odd length, or uses another number of entries than the jump table has. Returns
    /// `None` only if the length does not fit in 64 bits.
    pub(crate) fn is_uneven(&self) -> Option<bool>
        ensures uneven { IfSome result (λ uneven. uneven ≡ is_uneven (labelled_procedure self.now)) }
        ensures too_long { result ≡ None → IsCountless (code_end 0 (labelled_procedure self.now).code) }
    {
        let end = code_end(0, &self.code)?;
        Some(end % 2 != 0 || self.entries.len() != entries_taken(&self.code))
    }
}

impl<'a> Current<'a> {
    /// Creates a procedure without code and jump entries, from the values of its first line.
    pub(crate) fn new(alloc: Global, level: u8, parameters: u16, locals: u16) -> Current<'a>
        ensures new { current_seen result ≡ new_procedure level parameters locals }
    {
        Current {
            procedure: LabelledProcedure {
                level,
                parameters,
                locals,
                code: Vec::new(alloc),
                entries: Vec::new(alloc),
            },
            labels: BTreeMap::new(alloc),
        }
    }

    /// Returns whether the procedure defines the label `name`.
    pub(crate) fn has_label(&self, name: &'a [u8]) -> bool
        ensures label { result ≡ has_label_in name.now (current_seen self.now) }
    {
        self.labels.contains_key(&name)
    }

    /// Returns the procedure after `row` is appended to its code.
    pub(crate) fn with_row(self, row: Row<'a>) -> Result<Current<'a>, AllocError>
        ensures row { IfOk result (λ current. current_seen current
            ≡ after_code (row_seen row.entry) (current_seen self.entry)) }
    {
        let Current {
            mut procedure,
            mut labels,
        } = self;
        if let Some(label) = label_of(&row) {
            labels.insert(label, procedure.code.len())?;
        }
        procedure.code.push(row)?;
        Ok(Current { procedure, labels })
    }
}
