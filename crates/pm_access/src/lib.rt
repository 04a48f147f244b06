//! Which bytes of memory the next step of a machine reads and writes, according to the rule of its instruction.
#![tactic(auto)]

mod loaded;
mod loaded_words;
mod reached;
mod read;
mod read_calls;
mod read_exits;
mod read_jumps;
mod read_links;
mod read_procedures;
mod read_values;
mod stretches;
mod written;
mod written_calls;
mod written_exits;
mod written_procedures;
mod written_values;

pub use read::reads;
pub use stretches::word_at;
pub use written::writes;
