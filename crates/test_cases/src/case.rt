//! One case. Each of its lines is `WORD REST`. Some lines are input, and the other lines are the expected answers.
use std::alloc::{AllocError, Global};

/// The maximum number of bytes that a case shows unabridged.
pub const MOST_SHOWN: usize = 64;

/// A line of a case.
#[derive(Clone, Copy)]
pub struct Line<'a> {
    /// The whole line.
    pub text: &'a str,
    /// The first word of the line.
    pub word: &'a str,
    /// The text after the space that follows the first word.
    pub rest: &'a str,
}

impl<'a> Line<'a> {
    /// Splits a line into its parts.
    pub fn of(text: &'a str) -> Line<'a> {
        let (word, rest) = text.split_once(' ').unwrap_or((text, ""));
        Line { text, word, rest }
    }
}

/// A case.
#[derive(Drop)]
pub struct Case<'a> {
    pub name: &'a str,
    /// The line of the file in which the case begins, counted from 1.
    pub number: usize,
    pub lines: Vec<Line<'a>>,
}

impl<'a> Case<'a> {
    /// Returns a case without lines.
    pub fn new(alloc: Global, name: &'a str, number: usize) -> Case<'a> {
        Case {
            name,
            number,
            lines: Vec::new(alloc),
        }
    }

    /// Returns the rest of the first line of the case that begins with `word`, or `None`.
    pub fn value(&self, word: &str) -> Option<&'a str> {
        for line in self.lines.iter() {
            if line.word == word {
                return Some(line.rest);
            }
        }
        None
    }

    /// Returns whether a line of the case begins with `word`.
    pub fn has(&self, word: &str) -> bool {
        self.value(word).is_some()
    }
}

/// The result of a case.
#[derive(Drop)]
pub struct Came {
    /// The lines of the answers, each with its line feed.
    pub answers: String,
    /// The trace, the session or the text of which an answer has the digest.
    pub shown: String,
}

impl Came {
    /// Returns a result without answers.
    pub fn new(alloc: Global) -> Came {
        Came {
            answers: String::new(alloc),
            shown: String::new(alloc),
        }
    }

    /// Adds an answer line.
    pub fn answer(&mut self, word: &str, rest: &str) -> Result<(), AllocError> {
        self.answers.push_str(word)?;
        if !rest.is_empty() {
            self.answers.push_str(" ")?;
            self.answers.push_str(rest)?;
        }
        self.answers.push_str("\n")
    }
}
