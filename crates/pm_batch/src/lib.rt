//! Jobs that convert bytes to bytes: each job is a function that maps its input to its product. Also the refusals of an
//! input and their messages.
#![tactic(auto)]

mod assembly;
mod batch;
mod files;
mod reason;
mod refusal;

pub use batch::{Batch, Made, make};
pub use files::{form_told, open};
pub use reason::Reason;
pub use refusal::Refusal;
