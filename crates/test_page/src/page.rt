//! The table of a page.

ghost use Rattle.std.specs.Prelude.{◌≤◌, ℕ};

use crate::row::{Row, Table};
use std::alloc::{AllocError, Global};
use std::marker::Model;

/// The state of reading a page with a table.
#[derive(Drop)]
pub struct Page {
    table: Table,
    // Whether the lines are those of the page, and of its section with the table.
    on_page: bool,
    in_section: bool,
    // The next number.
    next: u16,
}

impl Model for Page {
    ghost Value = { ℕ };

    ghost view = { λ p. p.next };

    // A number is a byte, so that the next one is at most 256.
    ghost invariant = { λ p. record {
      numbers : p.next ≤ 256;
    } };
}

impl Page {
    /// Returns the state before the first line.
    pub fn new(table: Table) -> Page {
        Page {
            table,
            on_page: false,
            in_section: false,
            next: u16::from(table.first()),
        }
    }

    /// Returns the number after the last one that had its table row, in order from the first number on.
    pub fn next(&self) -> u16
        ensures next { result ≤ 256 }
    {
        self.next
    }

    // Updates the state if a line begins the page or the section with the table, begins another one, or ends the table.
    fn look(&mut self, line: &str) {
        if line.starts_with("# ") {
            self.on_page = line == self.table.page();
            self.in_section = false;
        } else if line.starts_with("## ") {
            self.in_section = self.on_page && line == self.table.section();
        } else if line.is_empty() && self.next > u16::from(self.table.first()) {
            self.in_section = false;
        }
    }

    /// Reads a line of any page. Returns false for a table row that is out of order or differs from the program.
    pub fn line(&mut self, alloc: Global, line: &str) -> Result<bool, AllocError> {
        self.look(line);
        if !self.in_section {
            return Ok(true);
        }
        let Some(row) = Row::of(line) else {
            return Ok(true);
        };
        if u16::from(row.first) != self.next || row.last < row.first {
            return Ok(false);
        }
        self.next = u16::from(row.last) + 1;
        row.is_so(alloc, self.table)
    }
}
