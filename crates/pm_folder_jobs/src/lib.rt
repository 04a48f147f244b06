//! Jobs on a volume and a folder: `export`, `import`, and `salvage` to a folder.
#![tactic(auto)]

mod exported;
mod imported;

pub use exported::{Exported, SavedFolder, do_export, do_salvage_folder};
pub use imported::{Imported, do_import};
