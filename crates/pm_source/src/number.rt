//! Numbers in an assembly text.

/// A number in an assembly text. A magnitude above 1,000,000 is stored as 1,000,000, which is outside every range.
#[derive(Clone, Copy)]
pub struct Numeral {
    /// Whether a `-` is written before the number.
    pub negative: bool,
    /// The absolute value of the number.
    pub magnitude: u32,
}
