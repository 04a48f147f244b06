//! Jobs that run a program of images: `run`, `trace` and `debug`, with the files that they read and save.
#![tactic(auto)]

mod saved;

pub use saved::{Printing, SavedOfRun, do_debug, do_run, do_trace, saved_of};
