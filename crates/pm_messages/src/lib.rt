//! How the program ends: its exit status and its messages on standard error.
#![tactic(auto)]

mod about;
mod end;
mod ends;
mod notes;
mod saying;

pub use about::{Named, named_in};
pub use end::End;
pub use ends::{end_of_conversion, end_of_import, end_of_job, end_of_search, folder_path};
pub use notes::{has_system, lacks_second, note_of, note_of_forms};
pub use saying::{Manner, PlainLines, say};
