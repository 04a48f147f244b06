//! Images that are opened as volumes, and the refusal of other images.
#![tactic(auto)]

mod opened;

pub use opened::open_at;
