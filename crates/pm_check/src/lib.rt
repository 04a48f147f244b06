//! Checks of images of volumes.
//!
//! `check` reports which rules an image breaks, and in which other format it may be a volume. `salvage` copies files of
//! a damaged image to a new volume: each file whose entry is valid without regard to the other entries.
#![tactic(auto)]

mod believing;
mod checked;
mod finding;
mod forms;
mod headed;
mod naming;
mod note;
mod notes;
mod order;
mod report;
mod rules;
mod saving;
pub mod worked;

pub use checked::check;
pub use forms::{form_seen, front_size, has_front, long};
pub use headed::{Span, filed, volume_in};
pub use note::Form;
pub use order::Order;
pub use saving::{Salvaged, salvage};
