//! The forms of the images of a command: in which format each image is opened and saved.
#![tactic(auto)]

mod formed;

pub use formed::{Formed, Forms, Several, forms_for};
