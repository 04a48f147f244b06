//! Writes the output of `dis` for a code file.

ghost use Rattle.std.specs.Prelude.{◌≡◌, false};
ghost use Rattle.pm_writing.specs.Written.{Writes, code_text};

use crate::form::Form;
use crate::slots::write_slots;
use crate::statements::write_statements;
use pm_codefile::CodeFile;
use pm_jobs::{DisOutput, Fault, Sink};
use pm_statements::Layout;
use std::alloc::Global;

/// Writes the output of `dis` for the code file `file` to `sink`, one procedure after the other. The call needs memory
/// for one decoded segment and the text of one procedure. For statements it also needs memory for the sizes and the
/// cached procedures of the whole file. No write to `sink` may have failed before.
///
/// # Errors
///
/// After an error, a prefix of the output has been written.
///
/// - `NoMemory` if memory runs out.
/// - `Write` if a write fails or accepts no byte.
pub fn write_code<W: Sink>(
    alloc: Global,
    sink: &mut W,
    file: &CodeFile<'_>,
    output: DisOutput,
) -> Result<(), Fault>
    requires well { (W.seen sink.old).failed ≡ false }
    ensures writes { Writes (W.seen sink.old) (W.seen sink.new) (code_text output file.now) result }
{
    match output {
        DisOutput::Text => write_slots(alloc, sink, file, Form::Text),
        DisOutput::Names => write_slots(alloc, sink, file, Form::Names),
        DisOutput::Listing => write_slots(alloc, sink, file, Form::Listing),
        DisOutput::Statements => write_statements(alloc, sink, file, Layout::Flat),
        DisOutput::Indented => write_statements(alloc, sink, file, Layout::Indented),
        DisOutput::Blocks => write_statements(alloc, sink, file, Layout::Blocks),
    }
}
