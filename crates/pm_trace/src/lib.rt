//! The line of a trace for the next step of a machine, the selection of lines, and the columns before a line.
#![tactic(auto)]

mod cached_digits;
mod depth;
mod digits;
mod lines;
mod number_text;
mod place;
mod selected;
mod state_line;
mod text;
mod tracer;

pub use lines::Lines;
pub use state_line::TraceLine;
pub use text::trace_line;
pub use tracer::Tracer;
