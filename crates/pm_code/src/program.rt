//! Programs: the contents of a code file. Positions are offsets in a segment. A program is a list of segments in
//! ascending order of their numbers.

use crate::item::Item;

/// A procedure of a program.
#[derive(Drop)]
pub struct Procedure {
    /// The level at which the procedure is nested: a byte in two's complement.
    pub level: u8,
    /// The size of the parameters in bytes.
    pub parameters: u16,
    /// The size of the locals in bytes.
    pub locals: u16,
    /// The offset in the segment at which the code begins.
    pub start: usize,
    /// The items of the code, in the order of their offsets.
    pub items: Vec<Item<usize>>,
    /// The offset in the segment at which the exit code begins.
    pub exit: usize,
    /// The offsets to which the entries of the jump table lead. Entry 0 comes first.
    pub entries: Vec<usize>,
}

/// A segment. Its procedures are numbered from 1.
#[derive(Drop)]
pub struct Segment {
    /// The number of the segment, below 16.
    pub number: u8,
    /// The name of the segment, 1 to 8 bytes.
    pub name: Vec<u8>,
    /// The procedures. The first one has number 1.
    pub procedures: Vec<Procedure>,
}
