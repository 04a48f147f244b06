//! Cases of jobs that print: traces and their selected lines, texts and listings of code files and of source texts, and
//! sessions of the debugger.
use crate::case::{Came, Case, Line};
use crate::code_file::code_file;
use crate::jobs::{Ran, do_job};
use crate::program::{Program, work};
use crate::texts::text;
use pm_tool::{AsmOutput, Code, DisOutput, Job, Selection};
use std::alloc::Global;
use std::io;
use test_parts::{byte, hex_bytes, measured, steps, unreadable};

/// The maximum number of lines that a case shows, and the maximum number of bytes of each.
const LINES: usize = 24;

const LONGEST: usize = 400;

/// An option that has a value after it.
#[derive(Clone, Copy)]
enum Valued {
    Limit,
    From,
    Segment,
    Procedure,
}

impl Valued {
    /// Returns the option with this name.
    fn of(word: &str) -> io::Result<Valued> {
        match word {
            "--limit" => Ok(Valued::Limit),
            "--from" => Ok(Valued::From),
            "--segment" => Ok(Valued::Segment),
            "--procedure" => Ok(Valued::Procedure),
            _ => Err(unreadable()),
        }
    }
}

/// The options of `raw` and `trace`.
#[derive(Clone, Copy)]
struct Words {
    limit: u64,
    selection: Selection,
}

impl Words {
    /// Reads the option `word` if it has no value. Returns `false` if it has a value.
    fn takes(&mut self, word: &str) -> bool {
        match word {
            "--calls" => self.selection.calls = true,
            "--places" => self.selection.places = true,
            "--unlimited" => self.limit = u64::MAX,
            _ => return false,
        }
        true
    }

    /// Reads an option with its value.
    fn takes_value(&mut self, word: Valued, value: &str) -> io::Result<()> {
        match (word, self.selection.code) {
            (Valued::Limit, _) => self.limit = u64::from(steps(value)?),
            (Valued::From, _) => self.selection.from = steps(value)?,
            (Valued::Segment, _) => {
                let segment = byte(value)?;
                self.selection.code = Code::Segment { segment };
            }
            (Valued::Procedure, Code::Segment { segment }) => {
                let procedure = byte(value)?;
                self.selection.code = Code::Procedure { segment, procedure };
            }
            _ => return Err(unreadable()),
        }
        Ok(())
    }

    /// Reads the options of a text, separated by spaces.
    fn of(text: &str) -> io::Result<Words> {
        let mut words = Words {
            limit: 0,
            selection: Selection::ALL,
        };
        let mut before = None;
        for word in text.split(' ') {
            if let Some(option) = before {
                words.takes_value(option, word)?;
                before = None;
            } else if !words.takes(word) {
                before = Some(Valued::of(word)?);
            }
        }
        match before {
            Some(_) => Err(unreadable()),
            None => Ok(words),
        }
    }
}

/// Returns the program of a case, with its own volume and this maximum number of steps.
fn program(alloc: Global, case: &Case<'_>, limit: u64) -> io::Result<Program> {
    Ok(Program {
        work: work(alloc, case, true)?,
        limit,
        system: None,
    })
}

/// Returns the trace of raw p-code.
fn raw(alloc: Global, case: &Case<'_>, rest: &str) -> io::Result<Ran> {
    let words = Words::of(rest)?;
    let limit = u32::try_from(words.limit).map_err(|_| unreadable())?;
    let selection = words.selection;
    let code = hex_bytes(alloc, case.value("code").unwrap_or(""))?;
    let digits = hex::encode(alloc, &code)?;
    Ok(do_job(alloc, Job::Raw { limit, selection }, digits.as_bytes()))
}

/// Returns the job of a line without values.
fn plain_job(words: &str) -> io::Result<Job> {
    match words {
        "asm --list" => Ok(Job::Asm(AsmOutput::Listing)),
        "asm --all" => Ok(Job::Asm(AsmOutput::Faults)),
        "asm --symbols" => Ok(Job::Asm(AsmOutput::Symbols)),
        "dis" => Ok(Job::Dis(DisOutput::Text)),
        "dis --names" => Ok(Job::Dis(DisOutput::Names)),
        "dis --list" => Ok(Job::Dis(DisOutput::Listing)),
        "dis --statements" => Ok(Job::Dis(DisOutput::Statements)),
        _ => Err(unreadable()),
    }
}

/// Returns the trace of a program.
fn trace(alloc: Global, case: &Case<'_>, rest: &str) -> io::Result<Ran> {
    let words = Words::of(rest)?;
    program(alloc, case, words.limit)?.trace(alloc, case, words.selection)
}

/// Runs the job of a line.
fn ran_of(alloc: Global, case: &Case<'_>, line: Line<'_>) -> io::Result<Ran> {
    let input = match line.word {
        "raw" => return raw(alloc, case, line.rest),
        "trace" => return trace(alloc, case, line.rest),
        "asm" => text(alloc, case)?,
        _ => code_file(alloc, case, true)?,
    };
    Ok(do_job(alloc, plain_job(line.text)?, &input))
}

/// Adds the output of a job, and its message if there is one.
fn add_ran(alloc: Global, ran: &Ran, came: &mut Came) -> io::Result<()> {
    let text = ran.text(alloc)?;
    if text.as_str().lines().count() > LINES
        || text.as_str().lines().any(|line| line.len() > LONGEST)
    {
        let measured = measured(alloc, &ran.written)?;
        came.answer("=", measured.as_str())?;
        came.shown = text;
        return add_message(ran, came);
    }
    for line in text.as_str().lines() {
        came.answer("<", line)?;
    }
    add_message(ran, came)
}

/// Adds the message of a job, if there is one.
fn add_message(ran: &Ran, came: &mut Came) -> io::Result<()> {
    if !ran.outcome.text().is_empty() {
        came.answer("!", ran.outcome.text())?;
    }
    Ok(())
}

/// Adds the session of the debugger. A long line is replaced by its length and digest.
fn add_session(alloc: Global, case: &Case<'_>, came: &mut Came) -> io::Result<()> {
    let ran = program(alloc, case, 0)?.debug(alloc, case)?;
    let text = ran.text(alloc)?;
    for line in text.as_str().lines() {
        if line.len() > LONGEST {
            let measured = measured(alloc, line.as_bytes())?;
            came.answer("=", measured.as_str())?;
        } else {
            came.answer("<", line)?;
        }
    }
    add_message(&ran, came)
}

/// Returns the result of a case.
pub fn answers(alloc: Global, case: &Case<'_>) -> io::Result<Came> {
    let mut came = Came::new(alloc);
    for line in case.lines.iter() {
        if matches!(line.word, "raw" | "trace" | "asm" | "dis") {
            add_ran(alloc, &ran_of(alloc, case, *line)?, &mut came)?;
        }
    }
    if case.has(">") {
        add_session(alloc, case, &mut came)?;
    }
    Ok(came)
}
