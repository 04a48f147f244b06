//! The counts that are checked at the end of a procedure.

/// The counts that are checked at the end of a procedure. An `.END` is rejected if the number of bytes is odd, or if
/// `entries` and `taken` differ.
#[derive(Clone, Copy)]
pub struct Counts {
    /// The number of the procedure, which its position in the segment determines.
    pub procedure: usize,
    /// The size of the code of the procedure, in bytes.
    pub bytes: usize,
    /// The number of entries of the jump table of the procedure.
    pub entries: usize,
    /// The number of entries that the code uses: one more than the highest entry number in a jump, or 0.
    pub taken: usize,
}
