//! The engine of the program. It executes one job: it reads input bytes and writes output bytes.
#![tactic(auto)]

mod batch;
mod debug;
mod dis;
mod engine;
mod hex;
mod hint;
mod kept;
mod outcome;
mod pace;
mod programs;
mod reason;
mod steps;
mod stopped;
mod talk;
mod work;

pub use engine::run;
pub use hint::Hint;
pub use kept::Kept;
pub use outcome::{About, Exit, Job, OtherImages, Outcome};
pub use pace::{Pace, Quick};
pub use pm_batch::{Reason, Refusal};
pub use pm_jobs::{AsmOutput, Code, DisOutput, Reader, Saving, Selection, Sink, Source, Writer};
pub use pm_session::Ending;
pub use reason::{RunReason, Whereabouts};
pub use steps::{Show, drive};
pub use stopped::Stopped;
