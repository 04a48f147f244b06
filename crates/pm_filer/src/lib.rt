//! Commands on the files of a volume. The system segment can also be added to the code file of a program on a volume.
#![tactic(auto)]

mod command;
mod fault;
mod fitting;
mod listing;
mod printed;
mod system_disk;
mod system_fault;
mod system_segment;

pub use command::{FileCommand, Reply, apply};
pub use fault::FilerFault;
pub use fitting::fits;
pub use listing::{DateWord, kind_word, push_space};
pub use printed::{push_name, push_shown};
pub use system_disk::put_system;
pub use system_fault::SystemFault;
pub use system_segment::with_system;
