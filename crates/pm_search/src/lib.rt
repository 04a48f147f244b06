//! Searches in images: files by their names, lines of text files, and one line about an image, as functions from bytes to
//! bytes.
#![tactic(auto)]

mod info;
mod lines;
mod names;
mod query;
mod searching;
mod texts;
pub mod worked;

pub use query::{Query, SearchEnding, Searched};
pub use searching::search;
