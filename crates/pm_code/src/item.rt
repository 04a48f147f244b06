//! Items of code.

use pm_opcode::Instr;

/// The target of a jump. `P` is an offset in the segment, or a label of a source text.
#[derive(Clone, Copy, Drop)]
pub enum Target<P> {
    /// The position `P` itself.
    To(P),
    /// The position to which the jump table entry with this number leads.
    Through(u8),
}

/// An item of the code of a procedure: an instruction, or a byte that is not part of an instruction. In an
/// `Item<usize>`, positions are offsets in the segment. In an item of a source text, positions are labels.
#[derive(Drop)]
pub enum Item<P> {
    /// An instruction that does not jump, and the bytes that belong to it (the characters of LSA and LPA, the words of
    /// LDC).
    Plain(Instr, Vec<u8>),
    /// A short jump: its opcode and its target.
    Jump(u8, Target<P>),
    /// A case jump (XJP).
    Case {
        /// The lowest value in the table, as a word.
        low: u16,
        /// The highest value in the table, as a word.
        high: u16,
        /// The target of the jump for a value out of bounds.
        otherwise: Target<P>,
        /// The targets in the table, from the lowest value up.
        places: Vec<P>,
    },
    /// A byte that is not part of an instruction.
    OneByte(u8),
}
