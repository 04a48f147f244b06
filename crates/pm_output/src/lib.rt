//! Jobs whose output is written to standard output, collected in memory, or saved as a file.
#![tactic(auto)]

mod images;
mod texts;

pub use images::save_image;
pub use texts::{do_text, into_file, into_memory, keep};
