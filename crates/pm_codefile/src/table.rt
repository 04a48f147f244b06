//! The attribute table of a procedure.

/// The contents of the attribute table of a procedure. Offsets are in bytes from the start of the segment. Sizes are in
/// bytes.
#[derive(Clone, Copy, Debug, PartialEq, Eq)]
pub struct Attributes {
    /// The number of the procedure, as the table states it.
    pub procedure: u8,
    /// The level of the procedure: the depth at which it is nested.
    pub level: i8,
    /// The offset of the first instruction of the procedure.
    pub enter: u16,
    /// The offset of the exit code of the procedure.
    pub exit: u16,
    /// The size of the parameters, in bytes.
    pub parameters: u16,
    /// The size of the local variables, in bytes.
    pub locals: u16,
    /// The offset of the table: of the word with the number and the level. The other words of the table are at lower
    /// offsets.
    pub jtab: u16,
}
