//! The form in which an image is stored in its file, the form in which an image opens, and a file store that converts
//! images from and to their forms.
#![tactic(auto)]

mod auto_form;
mod form;
mod in_form;
pub mod worked;

pub use auto_form::{Detected, detect};
pub use form::{Form, FormChoice};
pub use in_form::{InForm, PathForm};
