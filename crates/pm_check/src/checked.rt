//! The text of a check of an image: a line for each broken rule, a line for each note, and a last line.
ghost use Rattle.std.specs.Prelude.{◌≡◌, ◌++◌, IfOk, OnOk, string_bytes};
ghost use Rattle.std.specs.List.{flat_map};
ghost use Rattle.pm_check.specs.Checked.{check_text, finding_line, last_line, note_line};

use crate::finding::Finding;
use crate::note::Note;
use crate::notes::image_notes;
use crate::rules::image_findings;
use std::alloc::{AllocError, Global};

// Appends the line of `finding` to `text`.
#[tactic(auto, unfolding(crate::specs::Checked::finding_line))]
fn push_finding(text: &mut String, finding: Finding) -> Result<(), AllocError>
    ensures text { OnOk result (string_bytes text.new ≡ string_bytes text.old ++ finding_line finding) }
{
    writeln!(text, "{finding}")?;
    Ok(())
}

// Appends a line for each of `findings` to `text`.
fn push_findings(text: &mut String, findings: &[Finding]) -> Result<(), AllocError>
    ensures text { OnOk result
        (string_bytes text.new ≡ string_bytes text.old ++ flat_map finding_line findings.now) }
{
    for finding in findings {
        push_finding(text, *finding)?;
    }
    Ok(())
}

// Appends the line of `note` to `text`.
#[tactic(auto, unfolding(crate::specs::Checked::note_line))]
fn push_note(text: &mut String, note: Note) -> Result<(), AllocError>
    ensures text { OnOk result (string_bytes text.new ≡ string_bytes text.old ++ note_line note) }
{
    writeln!(text, "{note}")?;
    Ok(())
}

// Appends a line for each of `notes` to `text`.
fn push_notes(text: &mut String, notes: &[Note]) -> Result<(), AllocError>
    ensures text { OnOk result (string_bytes text.new ≡ string_bytes text.old ++ flat_map note_line notes.now) }
{
    for note in notes {
        push_note(text, *note)?;
    }
    Ok(())
}

// Appends the last line to `text`: `good` if `count` is 0, and otherwise `faults` and `count`.
fn push_last(text: &mut String, count: usize) -> Result<(), AllocError>
    ensures text { OnOk result (string_bytes text.new ≡ string_bytes text.old ++ last_line count) }
{
    if count == 0 {
        writeln!(text, "good")?;
    } else {
        writeln!(text, "faults {count}")?;
    }
    Ok(())
}

/// Returns the text of a check of `image`, which may have any bytes.
///
/// The text has a line for each rule that the image breaks, a line for each note, and a last line. The last line is
/// `good` if no rule is broken and `faults N` otherwise.
///
/// # Errors
///
/// `AllocError`: the host has no memory for the text.
#[tactic(auto, unfolding(crate::specs::Checked::check_text))]
pub fn check(alloc: Global, image: &[u8]) -> Result<String, AllocError>
    ensures text { IfOk result (λ text. string_bytes text ≡ check_text image.now) }
{
    let findings = image_findings(alloc, image)?;
    let notes = image_notes(alloc, image)?;
    let mut text = String::new(alloc);
    push_findings(&mut text, &findings)?;
    push_notes(&mut text, &notes)?;
    push_last(&mut text, findings.len())?;
    Ok(text)
}
