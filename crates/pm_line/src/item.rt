//! The results of parsing a line: statements, rows and flaws.

ghost use Rattle.std.specs.Prelude.{◌≡◌, map};
ghost use Rattle.pm_line.specs.Views.{labelled_item, row_seen};
ghost use Rattle.pm_source.specs.Source.{row_items};

use pm_code::Item;
use std::slice::from_ref;

/// A row of a procedure's code: a line with a label, items or both, or the position of the exit code.
#[derive(Drop)]
pub enum Row<'a> {
    /// One item, with or without a label. This variant allocates no memory for a list.
    One {
        /// The number of the line.
        line: usize,
        /// The label before the item, or `None`.
        label: Option<&'a [u8]>,
        /// The item of the line.
        item: Item<&'a [u8]>,
    },
    /// A label, a list of items, or both.
    Items {
        /// The number of the line.
        line: usize,
        /// The label before the items, or `None`.
        label: Option<&'a [u8]>,
        /// The items of the line, in order.
        items: Vec<Item<&'a [u8]>>,
    },
    /// The directive `.EXIT`. The exit code begins at this position.
    Exit,
}

impl<'a> Row<'a> {
    /// Returns the items of the row, in order. `Exit` has no items.
    pub fn items(&self) -> &[Item<&'a [u8]>]
        ensures items { map labelled_item result.now ≡ row_items (row_seen self.now) }
    {
        match self {
            Row::One { item, .. } => from_ref(item),
            Row::Items { items, .. } => items,
            Row::Exit => &[],
        }
    }
}

/// The statement of a line that is well-formed and not empty.
#[derive(Drop)]
pub enum Statement<'a> {
    /// The beginning of a segment (`.SEG`).
    Segment {
        /// The number of the segment, or 16 if the number in the text is out of range.
        number: u8,
        /// The name of the segment, 1 to 8 bytes.
        name: &'a [u8],
    },
    /// The beginning of a procedure (`.PROC`).
    Begin {
        /// The number of the procedure.
        number: u8,
        /// The level of the procedure, as a byte in two's complement.
        level: u8,
        /// The size of the parameters, in bytes.
        parameters: u16,
        /// The size of the locals, in bytes.
        locals: u16,
    },
    /// A row of a procedure's code.
    Code(Row<'a>),
    /// An entry of a procedure's jump table (`.JUMP`).
    Entry {
        /// The number of the line.
        line: usize,
        /// The label to which the entry leads.
        label: &'a [u8],
    },
    /// The end of a procedure (`.END`).
    End,
}

/// What is wrong with a line that is well-formed.
#[derive(Clone, Copy)]
pub enum Flaw {
    /// Nothing is wrong.
    NoFlaw,
    /// A number, a length or a count is out of range.
    OutOfRange,
    /// The type keyword of a comparison is unknown.
    UnknownType,
}

/// The result of parsing a line.
#[derive(Drop)]
pub enum Line<'a> {
    /// The line is empty, or has only a comment.
    Blank,
    /// The line is malformed.
    Wrong {
        /// Whether the first word is `.END`. If it is, the line ends its procedure.
        ends: bool,
    },
    /// The mnemonic or directive is unknown.
    Strange,
    /// The line is well-formed. The fields are its statement and what is wrong with it.
    Says(Statement<'a>, Flaw),
}
