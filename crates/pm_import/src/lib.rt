//! The files of a folder, added to a volume.
#![tactic(auto)]

mod feeds;
mod imported;
mod listed;
mod placed;
mod plain;
pub mod worked;

pub use feeds::with_feeds;
pub use imported::{ImportReport, Left, Why, import};
