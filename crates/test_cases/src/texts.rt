//! Cases of texts: the code file that the assembler returns for a text, and the text that the disassembler returns for
//! a code file.
use crate::case::{Came, Case, Line};
use crate::code_file::code_file;
use crate::jobs::do_job;
use pm_tool::{AsmOutput, DisOutput, Job};
use std::alloc::Global;
use std::io;
use test_parts::{add_escaped, measured, number};

/// Returns whether `word` begins a line of a text: `|`, `N*|` or `/`.
pub fn is_text(word: &str) -> bool {
    word == "/" || word == "|" || word.ends_with("*|")
}

/// Returns whether the case contains a text.
pub fn has_text(case: &Case<'_>) -> bool {
    case.lines.first().is_some_and(|line| is_text(line.word))
}

/// The maximum number of bytes of a segment that a case shows.
const LONGEST: usize = 300;

/// Adds a line of a text.
fn add_line(text: &mut Vec<u8>, line: Line<'_>) -> io::Result<()> {
    let count = match line.word.split_once('*') {
        Some((count, _)) => number(count)?,
        None => 1,
    };
    for _ in 0..count {
        add_escaped(text, line.rest)?;
        if line.word != "/" {
            text.push(b'\n')?;
        }
    }
    Ok(())
}

/// Returns the text of a case.
pub fn text(alloc: Global, case: &Case<'_>) -> io::Result<Vec<u8>> {
    let mut text = Vec::new(alloc);
    for line in case.lines.iter() {
        if is_text(line.word) {
            add_line(&mut text, *line)?;
        }
    }
    Ok(text)
}

/// Returns the word at the offset `place` in bytes, or 0 after the end.
fn word_at(bytes: &[u8], place: usize) -> u16 {
    match bytes.get(place..) {
        Some([low, high, ..]) => u16::from(*low) + 256 * u16::from(*high),
        _ => 0,
    }
}

/// Adds the segments of a code file that are short enough to be shown, as answers to `came`.
fn add_segments(alloc: Global, file: &[u8], came: &mut Came) -> io::Result<()> {
    for slot in 0..16 {
        let first = 512 * usize::from(word_at(file, 4 * slot));
        let count = usize::from(word_at(file, 4 * slot + 2));
        if 0 < count
            && count <= LONGEST
            && let Some(bytes) = file.get(first..first + count)
        {
            let digits = hex::encode(alloc, bytes)?;
            let line = format!(in alloc; "{slot} {digits}")?;
            came.answer("segment", line.as_str())?;
        }
    }
    Ok(())
}

/// Adds the length and the digest of bytes.
fn add_measured(alloc: Global, word: &str, bytes: &[u8], came: &mut Came) -> io::Result<()> {
    let text = measured(alloc, bytes)?;
    came.answer(word, text.as_str())?;
    Ok(())
}

/// Adds the output of the disassembler for a code file. The lines are added if the case contains lines.
fn add_shown(alloc: Global, case: &Case<'_>, file: &[u8], came: &mut Came) -> io::Result<()> {
    let ran = do_job(alloc, Job::Dis(DisOutput::Text), file);
    if ran.is_refused() {
        came.answer(ran.outcome.text(), "")?;
        return Ok(());
    }
    add_measured(alloc, "shown", &ran.written, came)?;
    came.shown = ran.text(alloc)?;
    if case.has("<") {
        for line in ran.text(alloc)?.as_str().lines() {
            came.answer("<", line)?;
        }
    }
    Ok(())
}

/// Adds the output of the assembler for a text, and of the disassembler for its code file.
fn add_assembled(alloc: Global, case: &Case<'_>, came: &mut Came) -> io::Result<()> {
    let text = text(alloc, case)?;
    let made = do_job(alloc, Job::Asm(AsmOutput::File), &text);
    if made.is_refused() {
        came.answer(made.outcome.text(), "")?;
        return Ok(());
    }
    add_segments(alloc, &made.written, came)?;
    add_measured(alloc, "code", &made.written, came)?;
    let listing = do_job(alloc, Job::Asm(AsmOutput::Listing), &text);
    add_measured(alloc, "listing", &listing.written, came)?;
    add_shown(alloc, case, &made.written, came)
}

/// Returns the result of a case.
pub fn answers(alloc: Global, case: &Case<'_>) -> io::Result<Came> {
    let mut came = Came::new(alloc);
    if has_text(case) {
        add_assembled(alloc, case, &mut came)?;
    } else {
        add_shown(alloc, case, &code_file(alloc, case, true)?, &mut came)?;
    }
    Ok(came)
}
