//! The list of the files of a volume in forms that other programs read: lines with tabs, and JSON.
#![tactic(auto)]

mod json;
mod kinds;
mod rows;
mod tabs;
pub mod worked;

pub use json::json_of;
pub use tabs::tabs_of;
