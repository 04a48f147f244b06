//! Help texts for a terminal of 80 columns.
use std::fmt;

/// The number of columns of a line of help.
const WIDTH: usize = 80;

/// A help text, of which each line is folded at spaces to at most 80 characters. A line that continues an explanation
/// begins in the column of the explanation. A word that is longer than its column allows is not folded.
#[derive(Clone, Copy)]
pub struct Folded<'a>(pub &'a str);

impl fmt::Display for Folded<'_> {
    fn fmt<W: fmt::Write>(&self, f: &mut fmt::Formatter<W>) -> fmt::Result {
        for (place, line) in self.0.split('\n').enumerate() {
            if place > 0 {
                f.write_char('\n')?;
            }
            if line.len() > WIDTH {
                write!(f, "{}", Row::of(line))?;
            } else {
                f.write_str(line)?;
            }
        }
        Ok(())
    }
}

/// Spaces.
#[derive(Clone, Copy)]
struct Spaces(usize);

impl fmt::Display for Spaces {
    fn fmt<W: fmt::Write>(&self, f: &mut fmt::Formatter<W>) -> fmt::Result {
        for _ in 0..self.0 {
            f.write_char(' ')?;
        }
        Ok(())
    }
}

/// A long line of help.
#[derive(Clone, Copy)]
struct Row<'a> {
    /// The number of spaces before the line.
    lead: usize,
    /// The option that the line explains. It is empty if the line has no two spaces after its first word.
    option: &'a str,
    /// The number of spaces after the option.
    gap: usize,
    /// The explanation.
    text: &'a str,
}

/// Returns the number of spaces before the first other character of `text`.
fn spaces_before(text: &str) -> usize {
    text.len().saturating_sub(text.trim_start().len())
}

impl<'a> Row<'a> {
    /// Returns the parts of the line `line`.
    fn of(line: &'a str) -> Row<'a> {
        let lead = spaces_before(line);
        let line = line.trim_start();
        match line.split_once("  ") {
            Some((option, text)) => Row {
                lead,
                option,
                gap: spaces_before(text).saturating_add(2),
                text: text.trim_start(),
            },
            None => Row {
                lead,
                option: "",
                gap: 0,
                text: line,
            },
        }
    }

    /// Returns the column of the explanation, from 0.
    fn column(&self) -> usize {
        self.lead
            .saturating_add(self.option.len())
            .saturating_add(self.gap)
    }
}

impl fmt::Display for Row<'_> {
    fn fmt<W: fmt::Write>(&self, f: &mut fmt::Formatter<W>) -> fmt::Result {
        write!(
            f,
            "{}{}{}",
            Spaces(self.lead),
            self.option,
            Spaces(self.gap)
        )?;
        let begin = self.column();
        let mut column = begin;
        for word in self.text.split(' ') {
            let end = column.saturating_add(word.len());
            if column == begin {
                f.write_str(word)?;
                column = end;
            } else if end < WIDTH {
                write!(f, " {word}")?;
                column = end.saturating_add(1);
            } else {
                write!(f, "\n{}{word}", Spaces(begin))?;
                column = begin.saturating_add(word.len());
            }
        }
        Ok(())
    }
}
