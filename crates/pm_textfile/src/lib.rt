//! Text files: a header of 1,024 bytes, which only an editor uses, and then pages of 1,024 bytes that contain whole
//! lines.
//!
//! `decode` returns the text of a file, and `encode` returns the file of a text. If a text is encoded and then decoded,
//! the result is the text. Only if the text is not empty and has no line feed at its end, a line feed is added.
#![tactic(auto)]

mod copies;
mod decoding;
mod encoding;
mod fault;
pub mod worked;

pub use decoding::decode;
pub use encoding::encode;
pub use fault::TextFault;

// The size in bytes of the header and of each page.
const PAGE: usize = 1024;
