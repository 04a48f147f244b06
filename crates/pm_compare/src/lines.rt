//! The lines of a comparison.
ghost use Rattle.std.specs.Prelude.{◌≡◌, ◌++◌, IfOk, OnOk};
ghost use Rattle.pm_compare.specs.Lines as lines;

use crate::verdicts::{Compared, Verdict};
use pm_filer::push_shown;
use std::alloc::{AllocError, Global};

/// Returns the words before the name of a file with this result.
fn begin_of(verdict: Verdict) -> &'static str
    ensures begin { result.now ≡ lines.begin_of verdict }
{
    match verdict {
        Verdict::OnlyHere => "only here: ",
        Verdict::OnlyThere => "only there: ",
        Verdict::Same => "same: ",
        Verdict::Byte(_) | Verdict::Kind => "differ: ",
    }
}

/// Appends the end of the line of a file with this result: what differs, and a line feed.
fn push_end(alloc: Global, text: &mut Vec<u8>, verdict: Verdict) -> Result<(), AllocError>
    ensures text { OnOk result (text.new.items ≡ text.old.items ++ lines.end_of verdict) }
{
    match verdict {
        Verdict::Byte(place) => {
            let end = format!(in alloc; ": byte {place}\n")?;
            text.extend_from_slice(end.as_bytes())?;
        }
        Verdict::Kind => text.extend_from_slice(b": kind\n")?,
        Verdict::OnlyHere | Verdict::OnlyThere | Verdict::Same => text.push(b'\n')?,
    }
    Ok(())
}

/// Appends the line of a file.
fn push_line(alloc: Global, text: &mut Vec<u8>, file: &Compared) -> Result<(), AllocError>
    ensures text { OnOk result (text.new.items ≡ text.old.items ++ lines.line_of file.now) }
{
    text.extend_from_slice(begin_of(file.verdict).as_bytes())?;
    push_shown(text, file.entry.characters())?;
    push_end(alloc, text, file.verdict)
}

/// Appends the lines of `files`.
fn push_lines(alloc: Global, text: &mut Vec<u8>, files: &[Compared]) -> Result<(), AllocError>
    ensures text { OnOk result (text.new.items ≡ text.old.items ++ lines.lines_of files.now) }
{
    match files {
        [] => Ok(()),
        [file, more @ ..] => {
            push_line(alloc, text, file)?;
            push_lines(alloc, text, more)
        }
    }
}

/// Returns a line for each of `files`. Each line ends with byte 10. The names are printed as `files list` prints them.
///
/// - `OnlyHere`: the line `only here: NAME`.
/// - `OnlyThere`: the line `only there: NAME`.
/// - `Same`: the line `same: NAME`.
/// - `Byte`: the line `differ: NAME: byte N`, with the offset N.
/// - `Kind`: the line `differ: NAME: kind`.
///
/// # Errors
///
/// `AllocError`: memory was refused.
pub fn lines_of(alloc: Global, files: &[Compared]) -> Result<Vec<u8>, AllocError>
    ensures text { IfOk result (λ text. text.items ≡ lines.lines_of files.now) }
{
    let mut text = Vec::new(alloc);
    push_lines(alloc, &mut text, files)?;
    Ok(text)
}
