//! The arguments of `files list` with `--json` or `--tabs`.
ghost use Rattle.std.specs.Prelude.{◌≡◌, ◌↔◌, IfErr, IfOk, IsOk, IsOkUnless, codes, option_map, string_bytes};
ghost use Rattle.clap.specs.Words.{subcommand_rows_of};
ghost use Rattle.pm_plan.specs.Asked.{AsksTable, IsTableForm, is_set, is_table, word_found, words_of};
ghost use Rattle.pm_plan.specs.Needed.{IsGoodTable, IsNotBoth, IsWrong};
ghost use Rattle.pm_plan.specs.declared.words.WordsError.TheVariants.{NoMemory};

use crate::file_words::path_of;
use crate::words::{WordsError, found, given, is_set};
use clap::ArgMatches;
use std::alloc::Global;

/// The form of a list that other programs read.
#[derive(Clone, Copy)]
pub enum TableForm {
    /// One line for each file, with fields that are separated by tabs.
    Tabs,
    /// One JSON object.
    Json,
}

/// The arguments of `files list` with `--json` or `--tabs`.
#[derive(Drop)]
pub struct TablePlan {
    /// The path of the image.
    pub path: String,
    /// The form of the list.
    pub form: TableForm,
    /// The pattern that the names of the listed files match. `None` if all files are listed.
    pub pattern: Option<String>,
}

/// Returns whether `--json` or `--tabs` is given after the verb `list`.
pub fn is_table(matches: &ArgMatches<'_>) -> bool
    ensures value { result ≡ is_table (subcommand_rows_of matches.now) }
{
    match matches.subcommand() {
        Some((verb, words)) => verb == "list" && (is_set(words, "json") || is_set(words, "tabs")),
        None => false,
    }
}

/// Returns the form of the list: JSON with `--json`, and otherwise lines with tabs. Returns `Wrong` if `--json` and
/// `--tabs` are both given.
fn form_of(matches: &ArgMatches<'_>) -> Result<TableForm, WordsError>
    ensures value { IfOk result (IsTableForm (is_set (word_found (words_of matches.now) (codes "json")))
        (is_set (word_found (words_of matches.now) (codes "tabs")))) }
    ensures good { IsOk result ↔ IsNotBoth (is_set (word_found (words_of matches.now) (codes "json")))
        (is_set (word_found (words_of matches.now) (codes "tabs"))) }
    ensures refusal { IfErr result IsWrong }
{
    match (is_set(matches, "json"), is_set(matches, "tabs")) {
        (false, _) => Ok(TableForm::Tabs),
        (true, false) => Ok(TableForm::Json),
        (true, true) => Err(WordsError::Wrong("--json and --tabs cannot be used together")),
    }
}

/// Returns a copy of the value of `--matching`, or `None` if the option is not given. Returns `NoMemory` if memory is
/// exhausted.
fn pattern_of(alloc: Global, matches: &ArgMatches<'_>) -> Result<Option<String>, WordsError>
    ensures value { IfOk result (λ pattern.
        word_found (words_of matches.now) (codes "matching") ≡ option_map string_bytes pattern) }
    ensures taken { IsOkUnless result NoMemory }
{
    match found(matches, "matching") {
        Some(pattern) => Ok(Some(String::from_str(alloc, pattern)?)),
        None => Ok(None),
    }
}

/// Returns the job that the arguments of `files` with the verb `list` and `--json` or `--tabs` specify.
///
/// # Errors
///
/// - The verb is another one, or is missing: `NoCommand`.
/// - The path after `--image` is empty: `NoValue`.
/// - The image is given twice, or not at all: `Wrong`.
/// - `--json` and `--tabs` are both given, or `--all` is given: `Wrong`.
/// - Out of memory at any of these steps: `NoMemory`.
pub fn table_plan(alloc: Global, matches: &ArgMatches<'_>) -> Result<TablePlan, WordsError>
    ensures asked { IfOk result (AsksTable matches.now) }
    ensures good { IsOk result → IsGoodTable (words_of matches.now) (subcommand_rows_of matches.now) }
    ensures taken { IsGoodTable (words_of matches.now) (subcommand_rows_of matches.now)
        → IsOkUnless result NoMemory }
{
    let Some((verb, words)) = matches.subcommand() else {
        return Err(WordsError::NoCommand);
    };
    if verb != "list" {
        return Err(WordsError::NoCommand);
    }
    let before = given(alloc, matches, "image")?;
    let behind = given(alloc, words, "image")?;
    let path = path_of(before, behind)?;
    let form = form_of(words)?;
    if is_set(words, "all") {
        return Err(WordsError::Wrong("--all cannot be used with --json or --tabs"));
    }
    let pattern = pattern_of(alloc, words)?;
    Ok(TablePlan {
        path,
        form,
        pattern,
    })
}
