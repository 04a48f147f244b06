//! Files of images. Each file is read as a whole, locked while it is used, and replaced as a whole.
#![tactic(auto)]

mod closed;
mod fault;
mod folder;
mod host;
mod image;
mod place;
mod replacing;
mod store;

pub use closed::hold_closed;
pub use fault::DiskFault;
pub use folder::{Folder, HostFolder};
pub use host::{Host, Kind, Node, Stream};
pub use image::IMAGE_LIMIT;
pub use store::{HostStore, Store};
