//! A volume as a folder of files: the names of the files in the folder, their contents, and the lines of the file
//! `LIST`.
#![tactic(auto)]

mod contents;
mod folder;
mod names;
mod worked;

pub use contents::{Ends, How, with_ends};
pub use folder::{FolderFile, Wanted, first_line, folder_of, how_text};
pub use names::{HOSTED, LISTED};
pub use worked::worked_folders;
