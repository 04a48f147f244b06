//! Stack effects: what an operation pops from the stack and what it pushes. A *share* is an amount of the stack: a
//! number of words, or one set.

/// An amount of the stack that an operation pops or pushes.
#[derive(Clone, Copy)]
pub enum Share {
    /// The given number of words.
    Words(u16),
    /// A set: the count of its words on top, and the words below the count.
    Set,
}

/// The stack effect of an operation: what it pops from the stack and what it pushes.
#[derive(Clone, Copy)]
pub struct Effect {
    /// What the operation pops first, from the top of the stack.
    pub top: Share,
    /// What the operation pops after `top`.
    pub below: Share,
    /// What the operation pushes.
    pub leaves: Share,
}
