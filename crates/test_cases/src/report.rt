//! The execution of the cases of a file, and the report on a case that differs.
use crate::case::{Came, Case, Line};
use crate::texts::{has_text, is_text};
use crate::{bare, boots, conformance, session, shows, systems, texts};
use std::alloc::{AllocError, Global};
use std::io;
use std::io::ErrorKind;
use test_parts::Report;

/// The kind of the cases of a file.
#[derive(Clone, Copy)]
pub enum Kind {
    Bare,
    Boots,
    Files,
    Texts,
    Shows,
    Images,
    Systems,
    Conformance,
}

impl Kind {
    /// Returns the prefix of the line that names a case.
    fn head(self) -> &'static str {
        match self {
            Kind::Conformance => "; ",
            _ => "case ",
        }
    }

    /// Returns whether a line of a case is input. Any other line is an answer. Segments are answers for a text, and
    /// input for a code file.
    fn is_given(self, case: &Case<'_>, word: &str) -> bool {
        match self {
            Kind::Bare => matches!(word, "code" | "limit"),
            Kind::Boots => matches!(
                word,
                "segment"
                    | "byte"
                    | "cut"
                    | "kind"
                    | "blocks"
                    | "disk"
                    | "name"
                    | "keys"
                    | "limit"
                    | ">"
            ),
            Kind::Files | Kind::Images => !matches!(word, "<" | "@"),
            Kind::Texts if has_text(case) => is_text(word),
            Kind::Texts => matches!(word, "segment" | "name" | "byte" | "cut"),
            Kind::Shows => !matches!(word, "<" | "!" | "="),
            Kind::Systems => matches!(
                word,
                "program" | "system" | "on" | "disk" | "name" | "keys" | "limit" | "saves" | ">"
            ),
            Kind::Conformance => word.len() == 2,
        }
    }

    /// Returns the result of a case.
    fn answers(self, alloc: Global, case: &Case<'_>) -> io::Result<Came> {
        match self {
            Kind::Bare => bare::answers(alloc, case),
            Kind::Boots => boots::answers(alloc, case),
            Kind::Files => session::answers(alloc, case, usize::MAX),
            Kind::Texts => texts::answers(alloc, case),
            Kind::Shows => shows::answers(alloc, case),
            Kind::Images => session::answers(alloc, case, LINES_OF_IMAGE),
            Kind::Systems => systems::answers(alloc, case),
            Kind::Conformance => conformance::answers(alloc, case),
        }
    }
}

/// The maximum number of lines of a text that an image case contains unabridged.
const LINES_OF_IMAGE: usize = 16;

/// The maximum number of lines that are printed of the expected answers, of the actual ones and of a trace.
const LINES: usize = 8;

const TRACE: usize = 40;

/// Returns the expected answers, each with its line feed.
fn expected(alloc: Global, kind: Kind, case: &Case<'_>) -> Result<String, AllocError> {
    let mut text = String::new(alloc);
    for line in case.lines.iter() {
        if !kind.is_given(case, line.word) {
            text.push_str(line.text)?;
            text.push_str("\n")?;
        }
    }
    Ok(text)
}

/// Returns the number of lines at the beginning of both texts that are equal.
fn alike(one: &str, other: &str) -> usize {
    let mut count: usize = 0;
    for (line, beside) in one.lines().zip(other.lines()) {
        if line != beside {
            return count;
        }
        count = count.saturating_add(1);
    }
    count
}

/// Returns the last input line before answer number `answer`.
fn given_before<'a>(kind: Kind, case: &Case<'a>, answer: usize) -> &'a str {
    let mut given = "";
    let mut answers: usize = 0;
    for line in case.lines.iter() {
        if kind.is_given(case, line.word) {
            given = line.text;
        } else {
            if answers == answer {
                return given;
            }
            answers = answers.saturating_add(1);
        }
    }
    given
}

/// Appends up to `most` lines of `lines` to `text`, each after the label `what`.
fn add_lines(
    text: &mut String,
    what: &str,
    lines: &str,
    from: usize,
    most: usize,
) -> Result<(), AllocError> {
    for line in lines.lines().skip(from).take(most) {
        text.push_str(what)?;
        text.push_str(line)?;
        text.push_str("\n")?;
    }
    Ok(())
}

/// Returns the report on a case that does not agree with its expected answers.
fn told(
    alloc: Global,
    kind: Kind,
    case: &Case<'_>,
    wanted: &str,
    came: &Came,
) -> Result<String, AllocError> {
    let (number, name) = (case.number, case.name);
    let equal = alike(wanted, came.answers.as_str());
    let given = given_before(kind, case, equal);
    let mut text = format!(in alloc; "  line {number}, {name}\n  behind {given}\n")?;
    let rows = [
        ("  expected: ", wanted, equal, LINES),
        ("  came:     ", came.answers.as_str(), equal, LINES),
        ("  shown:    ", came.shown.as_str(), 0, TRACE),
    ];
    for (what, lines, from, most) in rows {
        add_lines(&mut text, what, lines, from, most)?;
    }
    Ok(text)
}

/// Executes a case, and counts whether it agrees.
fn add(report: &mut Report, alloc: Global, kind: Kind, case: &Case<'_>) -> io::Result<()> {
    let wanted = expected(alloc, kind, case)?;
    let came = match kind.answers(alloc, case) {
        Err(error) if error.kind() == ErrorKind::InvalidData => {
            let mut none = Came::new(alloc);
            none.answer(
                "none: a line cannot be read, or there is no volume for the program",
                "",
            )?;
            none
        }
        came => came?,
    };
    if wanted.as_str() == came.answers.as_str() {
        report.agrees();
    } else {
        report.differs(told(alloc, kind, case, wanted.as_str(), &came)?);
    }
    Ok(())
}

/// Executes the cases of a file.
pub fn replay(alloc: Global, text: &str, kind: Kind) -> io::Result<Report> {
    let mut report = Report::new(alloc);
    let mut case = Case::new(alloc, "", 0);
    for (number, line) in text.lines().enumerate() {
        if let Some(name) = line.strip_prefix(kind.head()) {
            case = Case::new(alloc, name, number.saturating_add(1));
        } else if line.is_empty() {
            if !case.lines.is_empty() {
                add(&mut report, alloc, kind, &case)?;
            }
            case = Case::new(alloc, "", 0);
        } else if !case.name.is_empty() {
            case.lines.push(Line::of(line))?;
        }
    }
    if !case.lines.is_empty() {
        add(&mut report, alloc, kind, &case)?;
    }
    Ok(report)
}
