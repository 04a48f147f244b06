//! Statements as ranges of code, with their jumps.

/// Where a statement leads, other than to the next statement.
#[derive(Clone, Copy, Drop)]
pub enum Leads {
    /// The statement does not jump.
    Nowhere,
    /// The statement jumps to the given offset if a condition holds.
    ByCondition(usize),
    /// The statement always jumps to the given offset.
    Always(usize),
    /// The statement is a case jump: a value selects one of several offsets.
    ByValue,
}

/// A statement: its range of bytes, and its jump.
#[derive(Clone, Copy, Drop)]
pub struct Statement {
    /// The offset of the first byte of the statement.
    pub at: usize,
    /// The offset after the last byte of the statement.
    pub behind: usize,
    /// Where the statement jumps.
    pub leads: Leads,
}
