//! The messages that the program prints on standard error at its end.
ghost use Rattle.std.specs.Prelude.{◌≡◌, true, []};

use crate::end::{End, first_unread};
use pm_convert::ConvertFault;
use pm_filer::FilerFault;
use pm_forms::Form;
use pm_import::Why;
use pm_textfile::TextFault;
use pm_tool::{Ending, Outcome, Reason, Refusal, RunReason, Whereabouts};
use std::fmt;

/// A text for one line of a terminal. A question mark replaces each character that would move the cursor or change
/// colours.
#[derive(Clone, Copy)]
pub struct Plain<'a>(pub &'a str);

impl fmt::Display for Plain<'_> {
    fn fmt<W: fmt::Write>(&self, f: &mut fmt::Formatter<W>) -> fmt::Result {
        for letter in self.0.chars() {
            let acts = letter.is_control() && letter != '\t';
            f.write_char(if acts { '?' } else { letter })?;
        }
        Ok(())
    }
}

/// A text of several lines for a terminal, with their line feeds. Other characters are replaced as by `Plain`.
#[derive(Clone, Copy)]
pub struct PlainLines<'a>(pub &'a str);

impl fmt::Display for PlainLines<'_> {
    fn fmt<W: fmt::Write>(&self, f: &mut fmt::Formatter<W>) -> fmt::Result {
        for letter in self.0.chars() {
            let acts = letter.is_control() && letter != '\t' && letter != '\n';
            f.write_char(if acts { '?' } else { letter })?;
        }
        Ok(())
    }
}

/// The maximum number of characters of a quoted line in a message.
const MOST: usize = 120;

/// At most the first 120 characters of a text on one line of a terminal. If there are more, two full stops follow.
#[derive(Clone, Copy)]
struct Front<'a>(&'a str);

impl fmt::Display for Front<'_> {
    fn fmt<W: fmt::Write>(&self, f: &mut fmt::Formatter<W>) -> fmt::Result {
        for (place, letter) in self.0.chars().enumerate() {
            if place == MOST {
                return f.write_str("..");
            }
            let acts = letter.is_control() && letter != '\t';
            f.write_char(if acts { '?' } else { letter })?;
        }
        Ok(())
    }
}

/// The indentation of a quoted line and of its mark.
const INDENT: &str = "    ";

/// A prefix of at most 120 characters of `line` after the first `from` characters.
#[derive(Clone, Copy)]
struct Part<'a> {
    line: &'a str,
    from: usize,
}

impl fmt::Display for Part<'_> {
    fn fmt<W: fmt::Write>(&self, f: &mut fmt::Formatter<W>) -> fmt::Result {
        f.write_str(INDENT)?;
        for (place, letter) in self.line.chars().enumerate() {
            if place >= self.from && place - self.from < MOST {
                let acts = letter.is_control() && letter != '\t';
                f.write_char(if acts { '?' } else { letter })?;
            }
        }
        Ok(())
    }
}

/// Returns the position of the first printed character of a quoted line. `mark` is the line with the mark below the
/// quoted line. The position is 0, or 60 characters before the mark if the mark is far to the right.
fn start_of(mark: &str) -> usize {
    let count = mark.len();
    if count > MOST { count - MOST / 2 } else { 0 }
}

/// The message for a refused assembler text. Each quoted line, and the mark below it, is cut to the characters around
/// the mark.
#[derive(Clone, Copy)]
struct Excerpt<'a>(&'a str);

impl fmt::Display for Excerpt<'_> {
    fn fmt<W: fmt::Write>(&self, f: &mut fmt::Formatter<W>) -> fmt::Result {
        let mut quoted: Option<&str> = None;
        let mut is_first = true;
        for line in self.0.split('\n') {
            match (line.strip_prefix(INDENT), quoted) {
                (Some(mark), Some(text)) => {
                    let from = start_of(mark);
                    write!(f, "\n{}\n", Part { line: text, from })?;
                    write!(f, "{}", Part { line: mark, from })?;
                    quoted = None;
                }
                (Some(text), None) => quoted = Some(text),
                (None, _) => {
                    if !is_first {
                        f.write_char('\n')?;
                    }
                    write!(f, "{}", Plain(line))?;
                }
            }
            is_first = false;
        }
        Ok(())
    }
}

/// The explanation of a refusal: the file that it is about, the reason, and what helps. For an assembler text, it
/// quotes the invalid lines.
#[derive(Clone, Copy)]
struct Refused<'a> {
    refusal: Refusal,
    about: &'a Option<String>,
    outcome: &'a Outcome,
}

impl fmt::Display for Refused<'_> {
    fn fmt<W: fmt::Write>(&self, f: &mut fmt::Formatter<W>) -> fmt::Result {
        if let Some(about) = self.about {
            write!(f, "{}: ", Plain(about.as_str()))?;
        }
        let reason = Reason(self.refusal);
        match (&self.outcome.hint, &self.outcome.line) {
            (Some(hint), _) => write!(f, "{reason}; {hint}"),
            (None, Some(line)) if matches!(self.refusal, Refusal::Asm(_)) => {
                write!(f, "{}", Excerpt(line.as_str()))
            }
            (None, Some(line)) => write!(f, "{}", PlainLines(line.as_str())),
            (None, None) => match self.refusal {
                Refusal::Filer(FilerFault::Text(fault @ TextFault::BadByte(_))) => write!(
                    f,
                    "{fault}; if lines end with CR LF, use --ends crlf; if they end with CR only, use --ends cr; 'files put NAME data' accepts any bytes"
                ),
                _ => write!(f, "{reason}"),
            },
        }
    }
}

/// Returns the message of `end`, which can be empty. Returns an empty message if `is_silent`.
fn message(end: &End, is_silent: bool) -> &str
    ensures silent { is_silent ≡ true → result.now ≡ [] }
{
    match end {
        _ if is_silent => "",
        End::Outcome(outcome, _) => outcome.text(),
        End::File(fault, _) => fault.fault().text(),
        End::Folder(_, unwritten) => match unwritten.first() {
            Some(first) => first.fault.fault().text(),
            None => "",
        },
        End::Convert(_, _, line) | End::Search(_, line) => line.as_str(),
        End::Form(_) => "refused form 1",
        End::NotFree(..) => "refused undelete 1",
        End::Import(_, left, _) if left.is_empty() => "",
        End::Import(_, left, line) => match first_unread(left) {
            Some(fault) => fault.fault().text(),
            None => line.as_str(),
        },
        End::Lines(_) => "",
        End::Words(conflict) => conflict.text(),
    }
}

/// Prints why a run ended before the end of the program, and the position at which an error stopped it.
fn explain_run<R: Eprint>(rt: &R, outcome: &Outcome, has_system: bool) {
    let Some(ending) = outcome.ending else {
        return;
    };
    if ending == Ending::Ended {
        return;
    }
    let reason = RunReason {
        ending,
        stopped: outcome.stopped.as_ref(),
        has_system,
    };
    let _ = eprintln!(rt; "pmach: {reason}");
    if let Some(stopped) = &outcome.stopped {
        let _ = eprintln!(rt; "pmach: {}", Whereabouts(stopped));
    }
}

/// Prints why an input was refused.
fn explain_refusal<R: Eprint>(rt: &R, outcome: &Outcome, about: &Option<String>) {
    let Some(refusal) = outcome.refusal else {
        return;
    };
    let refused = Refused {
        refusal,
        about,
        outcome,
    };
    let _ = eprintln!(rt; "pmach: {refused}");
}

/// Prints the explanation of `end`: the file and the reason, why the input was refused, or why a run ended.
fn explain<R: Eprint>(rt: &R, end: &End, has_system: bool) {
    let _ = match end {
        End::File(fault, Some(path)) => eprintln!(rt;
            "pmach: {}: {}",
            Plain(path.as_str()),
            fault.reason()
        ),
        End::File(fault, None) => eprintln!(rt; "pmach: {}", fault.reason()),
        End::Outcome(outcome, about) => {
            explain_run(rt, outcome, has_system);
            explain_refusal(rt, outcome, about);
            Ok(())
        }
        End::Folder(..)
        | End::Import(..)
        | End::Convert(..)
        | End::Form(_)
        | End::NotFree(..)
        | End::Search(..)
        | End::Lines(_)
        | End::Words(_) => Ok(()),
    };
}

/// Prints a line for each file of a folder that could not be written, if `end` has such files.
fn name_unwritten<R: Eprint>(rt: &R, end: &End) {
    if let End::Folder(folder, unwritten) = end {
        let folder = folder.trim_end_matches('/');
        for file in unwritten {
            let _ = eprintln!(rt;
                "pmach: {}/{}: {}",
                Plain(folder),
                file.host,
                file.fault.reason()
            );
        }
    }
}

/// Why the file of a line of `LIST` was not added.
#[derive(Clone, Copy)]
struct NotAdded(Why);

impl fmt::Display for NotAdded {
    fn fmt<W: fmt::Write>(&self, f: &mut fmt::Formatter<W>) -> fmt::Result {
        match self.0 {
            Why::Line => f.write_str("this line of LIST is not valid"),
            Why::Unread(fault) => f.write_str(fault.reason()),
            Why::Refused(FilerFault::Text(fault @ TextFault::BadByte(_))) => {
                write!(
                    f,
                    "{fault}; if lines end with CR LF, use --ends crlf; if they end with CR only, use --ends cr"
                )
            }
            Why::Refused(fault) => write!(f, "{}", Reason(Refusal::Filer(fault))),
        }
    }
}

/// Prints a line for each file of a folder that was not added to a volume.
fn name_left<R: Eprint + AllocGlobal>(rt: &R, end: &End) {
    if let End::Import(folder, left, _) = end {
        let folder = folder.trim_end_matches('/');
        for file in left {
            let why = NotAdded(file.why);
            let _ = match String::from_utf8_lossy(rt.alloc(), &file.name) {
                Ok(name) => eprintln!(rt;
                    "pmach: {}/{}: {why}",
                    Plain(folder),
                    Front(name.as_str())
                ),
                Err(_) => eprintln!(rt; "pmach: {}: {why}", Plain(folder)),
            };
        }
    }
}

/// Prints what is notable about an image that was converted: damage, and why it was refused.
fn note_conversion<R: Eprint>(rt: &R, end: &End) {
    let End::Convert(path, converted, _) = end else {
        return;
    };
    let path = Plain(path.as_str());
    if converted.is_damaged {
        let _ = eprintln!(rt;
            "pmach: {path}: the checksum in the DiskCopy header does not match; bytes are damaged, or a program changed them and left the old checksum"
        );
    }
    let _ = match (converted.fault, converted.foreign) {
        (Some(ConvertFault::NoFormat), Some(foreign)) => {
            let reason = ConvertFault::NoFormat.text();
            eprintln!(rt; "pmach: {path}: {reason}: {}", foreign.text())
        }
        (Some(fault), _) => eprintln!(rt; "pmach: {path}: {}", fault.text()),
        (None, _) if converted.is_no_volume => eprintln!(rt;
            "pmach: {path}: the image opens as no volume in this format; its blocks are written, for 'files check' and 'files salvage'"
        ),
        (None, _) => Ok(()),
    };
}

/// The names of forms, with a comma and a space between them.
#[derive(Clone, Copy)]
struct FormNames<'a>(&'a [Form]);

impl fmt::Display for FormNames<'_> {
    fn fmt<W: fmt::Write>(&self, f: &mut fmt::Formatter<W>) -> fmt::Result {
        for (place, form) in self.0.iter().enumerate() {
            if place > 0 {
                f.write_str(", ")?;
            }
            f.write_str(form.name())?;
        }
        Ok(())
    }
}

/// Prints in which forms an image opens, if `end` is that it opens in several.
fn name_forms<R: Eprint>(rt: &R, end: &End) {
    if let End::Form(several) = end {
        let path = Plain(several.path.as_str());
        let forms = FormNames(several.forms.as_slice());
        let _ = eprintln!(rt;
            "pmach: {path}: the image opens in several formats: {forms}; choose one of them with --form"
        );
    }
}

/// Prints which blocks are not all free, if `end` is that they are not.
fn name_blocks<R: Eprint>(rt: &R, end: &End) {
    let End::NotFree(path, range) = end else {
        return;
    };
    let path = Plain(path.as_str());
    let _ = match range.count {
        0 => eprintln!(rt; "pmach: {path}: no block; --blocks must be at least 1"),
        count => {
            let first = range.first;
            let last = u32::from(first) + u32::from(count) - 1;
            eprintln!(rt;
                "pmach: {path}: blocks {first} to {last} are not all free; 'files list --all' shows the free areas"
            )
        }
    };
}

/// How messages are written to standard error.
#[derive(Clone, Copy)]
pub struct Manner {
    /// Whether standard error is a terminal. If so, a second line explains the message.
    pub explains: bool,
    /// Whether the last line on the same terminal is unfinished. If so, a line feed is printed before the message.
    pub begun: bool,
    /// Whether the system's segment was put into the program.
    pub has_system: bool,
    /// Whether nothing is written.
    pub is_silent: bool,
}

/// Prints the message of `end` on standard error, as `manner` states. Prints nothing if the message is empty.
pub fn say<R: Eprint + AllocGlobal>(rt: &R, end: &End, manner: Manner) {
    let message = message(end, manner.is_silent);
    if message.is_empty() {
        if !manner.is_silent {
            note_conversion(rt, end);
        }
        return;
    }
    if manner.begun {
        let _ = eprintln!(rt; "");
    }
    let _ = eprintln!(rt; "{message}");
    name_unwritten(rt, end);
    name_left(rt, end);
    note_conversion(rt, end);
    name_forms(rt, end);
    if manner.explains {
        name_blocks(rt, end);
    }
    if manner.explains {
        explain(rt, end, manner.has_system);
    }
}
