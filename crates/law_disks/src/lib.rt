//! Laws of volumes, of the commands that change volumes, of `check`, and of code files with a system segment. A law
//! states a fact about definitions. Each function has an empty body.
#![tactic(auto)]

pub mod check;
pub mod filer;
pub mod refusals;
pub mod slots;
pub mod system;
pub mod volumes;
