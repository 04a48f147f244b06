//! A computer in memory, on which tests execute whole command lines: its files and folders, its links, the standard
//! streams, and calls that fail. The crate also executes the lines of a script that set up files and check results. It
//! contains nothing of the program.
#![tactic(auto)]

mod came;
mod copies;
mod deed;
mod disk;
mod facts;
mod pieces;
mod runtime;
mod scene;
mod streams;

pub use came::{Came, tell};
pub use copies::copy;
pub use deed::{Deed, act_before, deed_of};
pub use disk::{Act, Disk, Inode, Meanwhile, Name};
pub use runtime::{FakeFile, FakeRuntime};
pub use scene::{Scene, add};
pub use streams::Typed;
