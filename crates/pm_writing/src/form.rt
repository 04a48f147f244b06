//! The three forms of text that show the bytes of a code file in order.

/// The form in which procedures are written.
#[derive(Clone, Copy)]
pub(crate) enum Form {
    /// The text of a procedure in the form that the assembler accepts.
    Text,
    /// The same text with notes: the names of procedures and the kinds of segments.
    Names,
    /// The listing: the bytes with their offsets.
    Listing,
}
