//! Volumes: images of disks with a directory of files.
#![tactic(auto)]

mod changes;
mod copies;
mod date;
mod directory;
mod disk;
mod entry;
mod fault;
pub mod fields;
mod gap;
pub mod kinds;
mod packing;
mod slots;
mod space;
mod volume;

pub use copies::Copies;
pub use date::Date;
pub use directory::{Entries, entry_at};
pub use disk::Disk;
pub use entry::{Entry, is_same_name};
pub use fault::VolumeFault;
pub use space::Space;
pub use volume::Volume;
