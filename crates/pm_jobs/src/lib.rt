//! The options of jobs and their streams.
//!
//! The options select the lines of a trace, the images that a run saves, and the output of `asm` and `dis`. A job reads
//! its input from a `Source` and writes its output to a `Sink`. `Fault` is the reason why a job is aborted.
#![tactic(auto)]

mod fault;
mod nothing;
mod output;
mod saving;
mod selection;
mod sink;
mod source;

pub use fault::Fault;
pub use nothing::Nothing;
pub use output::{AsmOutput, DisOutput};
pub use saving::Saving;
pub use selection::{Code, Selection};
pub use sink::{Output, Sink, Writer, write_all};
pub use source::{INPUT_LIMIT, Input, Reader, Source, next_byte, read_all};
