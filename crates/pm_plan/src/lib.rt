//! The arguments of the command line, and the job that they specify.
#![tactic(auto)]

mod commands;
mod compare_words;
mod convert_words;
mod file_words;
mod folder_words;
mod form_words;
mod run_words;
mod search_words;
mod shorthand;
mod table_words;
mod text_words;
mod tips;
mod trace_words;
mod undelete_words;
mod words;
pub mod worked;

pub use compare_words::ComparePlan;
pub use convert_words::{ConvertPlan, Target};
pub use file_words::{FilesPlan, SalvagePlan, Verb};
pub use folder_words::{ExportPlan, ImportPlan};
pub use pm_check::Order;
pub use run_words::{Others, Program, RunChoices};
pub use search_words::{SearchPlan, Sought};
pub use table_words::{TableForm, TablePlan};
pub use text_words::{TextFiles, TextInput};
pub use undelete_words::{BlockRange, UndeletePlan};
pub use words::{Asked, Plan, WordsError, plan_of};
