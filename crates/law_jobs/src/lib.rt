//! Laws about whole jobs. `round_trip` is about a text, its code file, and the text of this file. `loaded` is about a
//! text and the memory of a machine. `sessions` and `debug` are about the lines of a debugger session. `trace` is about
//! the lines of a trace. `tool` and `streams` are about a run, its images and its input. Each function has an empty
//! body.
#![tactic(auto)]

pub mod debug;
pub mod loaded;
pub mod round_trip;
pub mod sessions;
pub mod streams;
pub mod tool;
pub mod trace;
