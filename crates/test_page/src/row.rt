//! The rows of a page's table, compared with the program.

use pm_notes::{standard_name, system_name};
use pm_opcode::row_at;
use std::alloc::{AllocError, Global};

/// A table of a page.
#[derive(Clone, Copy, Drop)]
pub enum Table {
    /// The opcodes.
    Opcodes,
    /// The standard procedures, by their numbers.
    Standard,
    /// The procedures of the system, by their numbers.
    System,
}

impl Table {
    /// Returns the line that begins the page.
    pub fn page(self) -> &'static str {
        match self {
            Table::Opcodes => "# Instructions",
            Table::Standard => "# Standard procedures",
            Table::System => "# A system segment",
        }
    }

    /// Returns the line that begins the section with the table.
    pub fn section(self) -> &'static str {
        match self {
            Table::Opcodes | Table::Standard => "## The table",
            Table::System => "## The procedures",
        }
    }

    /// Returns the first number. No procedure of the system has the number 0.
    pub fn first(self) -> u8 {
        match self {
            Table::Opcodes | Table::Standard => 0,
            Table::System => 1,
        }
    }
}

/// A table row: its first and last number, and the cells after them.
#[derive(Clone, Copy)]
pub struct Row<'a> {
    pub first: u8,
    pub last: u8,
    second: &'a str,
    third: &'a str,
    fourth: &'a str,
}

// The numbers of a cell: one, two, a range, or all from one on.
fn numbers(cell: &str) -> Option<(u8, u8)> {
    if let Some(first) = cell.strip_suffix(" on") {
        return Some((first.parse().ok()?, 255));
    }
    let run = cell
        .split_once("..")
        .or(cell.split_once(" to "))
        .or(cell.split_once(", "));
    let (first, last) = run.unwrap_or((cell, cell));
    Some((first.parse().ok()?, last.parse().ok()?))
}

impl<'a> Row<'a> {
    /// Returns the table row of a line, if the first cell has numbers.
    pub fn of(line: &'a str) -> Option<Row<'a>> {
        let mut cells = line.strip_prefix("| ")?.split('|');
        let (first, last) = numbers(cells.next()?.trim())?;
        let second = cells.next()?.trim();
        let third = cells.next()?.trim();
        let fourth = cells.next()?.trim();
        Some(Row {
            first,
            last,
            second,
            third,
            fourth,
        })
    }

    // Whether the name and the form are those of an opcode.
    fn is_opcode(&self, alloc: Global, op: u8) -> Result<bool, AllocError> {
        let row = row_at(op);
        let name = self.third.split(' ').next().unwrap_or("");
        let form = format!(in alloc; "{:?}", row.form)?;
        Ok(name == row.mnemonic && form.as_str() == self.fourth)
    }

    // Whether the second cell has the opcodes in hexadecimal.
    fn has_hex(&self, alloc: Global) -> Result<bool, AllocError> {
        let (first, last) = (self.first, self.last);
        let hex = if first == last {
            format!(in alloc; "{first:02X}")?
        } else {
            format!(in alloc; "{first:02X}..{last:02X}")?
        };
        Ok(hex.as_str() == self.second)
    }

    // Whether each opcode has this name and form.
    fn are_opcodes(&self, alloc: Global) -> Result<bool, AllocError> {
        for op in self.first..=self.last {
            if !self.is_opcode(alloc, op)? {
                return Ok(false);
            }
        }
        self.has_hex(alloc)
    }

    // Whether each standard procedure has its name, and exactly those without a name have error 11.
    fn are_standard(&self) -> bool {
        let mut names = self.second.split(", ");
        for number in self.first..=self.last {
            let name = names.next().unwrap_or("");
            let is_so = match standard_name(number) {
                Some(known) => known == name && self.fourth != "error 11",
                None => self.fourth == "error 11",
            };
            if !is_so {
                return false;
            }
        }
        true
    }

    // Whether each procedure of the system from 2 to 29 has its name, and no other number has one.
    fn are_of_system(&self) -> bool {
        let mut names = self.second.split(", ");
        for number in self.first..=self.last {
            let name = names.next().unwrap_or("");
            let is_so = match system_name(number) {
                Some(known) => known == name && (2..=29).contains(&number),
                None => !(2..=29).contains(&number),
            };
            if !is_so {
                return false;
            }
        }
        true
    }

    /// Whether the table row agrees with the program.
    pub fn is_so(&self, alloc: Global, table: Table) -> Result<bool, AllocError> {
        match table {
            Table::Opcodes => self.are_opcodes(alloc),
            Table::Standard => Ok(self.are_standard()),
            Table::System => Ok(self.are_of_system()),
        }
    }
}
