//! Segments and procedures as an assembly text contains them, with labels instead of offsets.

use pm_line::Row;

/// An entry of a jump table.
#[derive(Clone, Copy, Drop)]
pub struct Entry<'a> {
    /// The number of the line.
    pub line: usize,
    /// The label to which the entry leads.
    pub label: &'a [u8],
}

/// A procedure with labels instead of offsets.
#[derive(Drop)]
pub struct LabelledProcedure<'a> {
    /// The level of the procedure, as a byte in two's complement.
    pub level: u8,
    /// The size of the parameters, in bytes.
    pub parameters: u16,
    /// The size of the locals, in bytes.
    pub locals: u16,
    /// The rows of the code, in order.
    pub code: Vec<Row<'a>>,
    /// The entries of the jump table, from entry 0 on.
    pub entries: Vec<Entry<'a>>,
}

/// A segment with its procedures, which are numbered from 1.
#[derive(Drop)]
pub struct LabelledSegment<'a> {
    /// The number of the segment.
    pub number: u8,
    /// The name of the segment, 1 to 8 bytes.
    pub name: &'a [u8],
    /// The procedures of the segment, in order.
    pub procedures: Vec<LabelledProcedure<'a>>,
}
