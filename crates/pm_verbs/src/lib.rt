//! The verbs of `files`, and `salvage`, with the files that they read and save.
#![tactic(auto)]

mod compared;
mod ended;
mod got;
mod plans;
mod replaced;
mod tabled;
mod undeleted;
mod verbs;

pub use compared::{Comparison, do_compare};
pub use ended::{do_gettext, do_puttext};
pub use got::do_get;
pub use plans::act_on_files;
pub use replaced::do_replace;
pub use tabled::do_table;
pub use undeleted::{Undeletion, do_undelete};
pub use verbs::{do_files, do_salvage};
