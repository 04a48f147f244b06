//! The job that the command line specifies, and the reasons for which a command line is invalid.
ghost use Rattle.std.specs.Prelude.{◌≡◌, ◌↔◌, Err, IfErr, IfOk, IsOk, IsOkUnless, None, Some, SomeIff, [], false};
ghost use Rattle.std.specs.Prelude.{option_map, string_bytes, codes};
ghost use Rattle.std.specs.Str.Parse.{digits_value};
ghost use Rattle.clap.specs.Words.{one_of, subcommand_rows_of};
ghost use Rattle.pm_plan.specs.Asked.{Asks, IsAsked, IsAsm, IsDis, IsFlag, IsLimit, IsLimitWord, IsNumberUpTo};
ghost use Rattle.pm_plan.specs.Asked.{is_quiet, is_quiet_below, is_set, word_found, words_of};
ghost use Rattle.pm_plan.specs.Needed.{AreAllGood, AreGood, IsOptional, IsWrong, MeetEach, asm_needs, dis_needs};
ghost use Rattle.pm_plan.specs.declared.words.WordsError.TheVariants.{NoCommand, NoMemory, NoValue};

use crate::commands::all_commands;
use crate::compare_words::{ComparePlan, compare_plan};
use crate::convert_words::{ConvertPlan, convert_plan};
use crate::file_words::{FilesPlan, SalvagePlan, files_plan, is_verb, salvage_plan};
use crate::folder_words::{ExportPlan, ImportPlan, export_plan, import_plan};
use crate::form_words::form_asked;
use crate::run_words::{Program, RunChoices, choices_of, program_of};
use crate::search_words::{SearchPlan, search_plan};
use crate::shorthand::name_image;
use crate::table_words::{TablePlan, is_table, table_plan};
use crate::text_words::{TextFiles, text_files};
use crate::tips::{Told, tip_for_option, tip_for_verb, with_tip};
use crate::trace_words::selection_of;
use crate::undelete_words::{UndeletePlan, undelete_plan};
use clap::ArgMatches;
use clap::error::ErrorKind;
use pm_check::Order;
use pm_forms::{Form, FormChoice};
use pm_jobs::{AsmOutput, DisOutput, Fault, Selection};
use std::alloc::{AllocError, Global};
use std::env::Args;
use std::{fmt, io};

/// The maximum number of steps of a run without `--limit`.
const LIMIT: u32 = 10_000_000;

/// The message for an invalid date.
pub(crate) const DATE: &str = "invalid date: Y, M and D must be decimal numbers, at most 255";

/// A job that the arguments specify.
#[derive(Drop)]
pub enum Plan {
    /// Runs and traces the program in standard input for at most `limit` steps. Writes the lines that `selection`
    /// selects.
    Raw { limit: u32, selection: Selection },
    /// Assembles a text. The fields are the requested output and the files.
    Asm(AsmOutput, TextFiles),
    /// Disassembles a code file. The fields are the requested output and the files.
    Dis(DisOutput, TextFiles),
    /// Executes a verb of `files`.
    Files(FilesPlan),
    /// Runs a program.
    Run(Program, RunChoices),
    /// Traces a program, and writes the lines that the selection states. The path names the file that gets the trace;
    /// `None` for standard output.
    Trace(Program, Selection, Option<String>),
    /// Debugs a program. The path names a file whose bytes are appended to the console input queue at the start. `None`
    /// for an empty queue.
    Debug(Program, Option<String>),
    /// Copies the files of an image to a new volume.
    Salvage(SalvagePlan),
    /// Writes the files of a volume to a new folder.
    Export(ExportPlan),
    /// Adds the files of a folder to a volume.
    Import(ImportPlan),
    /// Compares the files of two volumes.
    Compare(ComparePlan),
    /// Lists the files of a volume in a form that other programs read.
    Table(TablePlan),
    /// Lists the free blocks in which a removed file seems to begin, or writes the bytes of free blocks.
    Undelete(UndeletePlan),
    /// Converts an image to another format, or prints its formats.
    Convert(ConvertPlan),
    /// Searches in images.
    Search(SearchPlan),
}

/// The job that the command line specifies, with the options that each command accepts.
#[derive(Drop)]
pub struct Asked {
    pub plan: Plan,
    /// The forms of the images.
    pub form: FormChoice,
    /// Whether nothing is printed on standard error.
    pub is_quiet: bool,
}

/// Why the command line specifies no job.
#[derive(Drop)]
pub enum WordsError {
    /// The arguments do not match a command. clap's message says why.
    Usage(clap::Error),
    /// The arguments do not match a command. The string is clap's message, in which a tip of this program replaces
    /// the tips of clap.
    Tipped(String),
    /// There are options, but no command.
    NoCommand,
    /// An option has no value, as in `--image=`.
    NoValue,
    /// An argument is invalid, or an option is missing or given twice. The string is the message.
    Wrong(&'static str),
    /// The arguments ask for help or for the version. The text is for standard output.
    Shown(clap::Error),
    /// An argument is not UTF-8, or the arguments cannot be read.
    NotText,
    NoMemory,
}

/// Writes the message for standard error, including its line feeds.
impl fmt::Display for WordsError {
    fn fmt<W: fmt::Write>(&self, f: &mut fmt::Formatter<W>) -> fmt::Result {
        match self {
            WordsError::Usage(error) | WordsError::Shown(error) => write!(f, "{error}"),
            WordsError::Tipped(text) => f.write_str(text.as_str()),
            WordsError::NoCommand => f.write_str(
                "error: missing command; 'pmach --help' lists the commands\n",
            ),
            WordsError::Wrong(text) => write!(f, "error: {text}\n"),
            WordsError::NoValue => f.write_str(
                "error: the value of an option is empty, as in --image=; --help shows which values it takes\n",
            ),
            WordsError::NotText => f.write_str("error: an argument is not valid UTF-8\n"),
            WordsError::NoMemory => writeln!(f, "{}", Fault::NoMemory.text()),
        }
    }
}

impl WordsError {
    /// Returns the hint that is shown after the message only on a terminal, or `None`.
    pub fn hint(&self) -> Option<&'static str> {
        match self {
            WordsError::Wrong(text) if *text == DATE => Some(
                "Y is 0 to 127 (84 for 1984), M 1 to 12, D 1 to 31",
            ),
            _ => None,
        }
    }
}

impl From<clap::Error> for WordsError {
    fn from(error: clap::Error) -> WordsError {
        match error.kind() {
            ErrorKind::OutOfMemory => WordsError::NoMemory,
            ErrorKind::DisplayHelp | ErrorKind::DisplayVersion => WordsError::Shown(error),
            _ => WordsError::Usage(error),
        }
    }
}

impl From<io::Error> for WordsError {
    fn from(error: io::Error) -> WordsError {
        match error.kind() {
            io::ErrorKind::OutOfMemory => WordsError::NoMemory,
            _ => WordsError::NotText,
        }
    }
}

impl From<AllocError> for WordsError {
    ghost from_gives = { λ _ error. error ≡ NoMemory };

    fn from(_: AllocError) -> WordsError {
        WordsError::NoMemory
    }
}

/// Returns the number that `text` spells with decimal digits only. Leading zeros are allowed. Returns `None` for any
/// other text, for example with a sign or without a digit, and for a number above 4,294,967,295.
pub fn number(text: &str) -> Option<u32>
    ensures exact { SomeIff result (IsNumberUpTo 4294967295 text.now) (digits_value 10 text.now) }
{
    if text.as_bytes().first() == Some(&b'+') {
        return None;
    }
    text.parse().ok()
}

/// Returns the argument under `id`, or `None` if it is missing.
pub fn found<'a>(matches: &ArgMatches<'a>, id: &str) -> Option<&'a str>
    ensures word { option_map (λ word. word.now) result ≡ word_found (words_of matches.now) id.now }
{
    matches.get_str(id)
}

/// Returns whether the option `id`, which takes no value, is given. The argument under `id` is then the text `true`.
pub fn is_set(matches: &ArgMatches<'_>, id: &str) -> bool
    ensures value { result ≡ is_set (word_found (words_of matches.now) id.now) }
{
    found(matches, id) == Some("true")
}

/// Returns whether the option `id`, which takes no value, is given.
pub fn flag(matches: &ArgMatches<'_>, id: &str) -> bool
    ensures flag { IsFlag (one_of id.now (words_of matches.now)) result }
{
    matches.get_flag(id)
}

/// Returns the argument under `id`. Returns `NoCommand` if it is missing.
pub fn needed<'a>(matches: &ArgMatches<'a>, id: &str) -> Result<&'a str, WordsError>
    ensures word { IfOk result (λ word. word_found (words_of matches.now) id.now ≡ Some word.now) }
    ensures refusal { IfErr result (λ error. (error ≡ NoCommand) × (word_found (words_of matches.now) id.now ≡ None)) }
{
    found(matches, id).ok_or(WordsError::NoCommand)
}

/// Returns a copy of the value of the option `id`, or `None` if the option is not given.
///
/// # Errors
///
/// - The value is empty: `NoValue`.
/// - Out of memory: `NoMemory`.
pub fn given(
    alloc: Global,
    matches: &ArgMatches<'_>,
    id: &str,
) -> Result<Option<String>, WordsError>
    ensures value { IfOk result (λ text. word_found (words_of matches.now) id.now ≡ option_map string_bytes text) }
    ensures good { IsOk result → IsOptional (word_found (words_of matches.now) id.now) }
    ensures taken { IsOptional (word_found (words_of matches.now) id.now) → IsOkUnless result NoMemory }
    ensures empty { (word_found (words_of matches.now) id.now ≡ Some []) → (result ≡ Err NoValue) }
{
    match found(matches, id) {
        Some("") => Err(WordsError::NoValue),
        Some(text) => Ok(Some(String::from_str(alloc, text)?)),
        None => Ok(None),
    }
}

/// Returns the value of `--limit`. The default is 10,000,000. Returns `Wrong` if the value is no decimal number up to
/// 4,294,967,295.
pub fn limit_of(matches: &ArgMatches<'_>) -> Result<u32, WordsError>
    ensures value { IfOk result (λ limit. IsLimit (word_found (words_of matches.now) (codes "limit")) limit) }
    ensures accepted { IsOk result ↔ IsLimitWord (word_found (words_of matches.now) (codes "limit")) }
    ensures refusal { IfErr result IsWrong }
{
    match found(matches, "limit") {
        Some(text) => number(text).ok_or(WordsError::Wrong(
            "invalid --limit: it must be a decimal number, at most 4294967295",
        )),
        None => Ok(LIMIT),
    }
}

/// Returns the job that the arguments of `files` specify.
fn files_asked(alloc: Global, matches: &ArgMatches<'_>) -> Result<Plan, WordsError>
    ensures asked { IfOk result (λ plan. Asks (codes "files") matches.now plan) }
    ensures good { IsOk result → AreGood (codes "files") matches.now }
    ensures taken { AreGood (codes "files") matches.now → IsOkUnless result NoMemory }
{
    if is_verb(matches, "salvage") {
        Ok(Plan::Salvage(salvage_plan(alloc, matches)?))
    } else if is_verb(matches, "export") {
        Ok(Plan::Export(export_plan(alloc, matches)?))
    } else if is_verb(matches, "import") {
        Ok(Plan::Import(import_plan(alloc, matches)?))
    } else if is_verb(matches, "diff") {
        Ok(Plan::Compare(compare_plan(alloc, matches)?))
    } else if is_verb(matches, "undelete") {
        Ok(Plan::Undelete(undelete_plan(alloc, matches)?))
    } else if is_table(matches) {
        Ok(Plan::Table(table_plan(alloc, matches)?))
    } else {
        Ok(Plan::Files(files_plan(alloc, matches)?))
    }
}

/// Returns the output that the options of `asm` request. Returns `Wrong` if more than one of `--all`, `--list` and
/// `--symbols` is given.
fn asm_output(matches: &ArgMatches<'_>) -> Result<AsmOutput, WordsError>
    ensures asked { IfOk result (IsAsm (is_set (word_found (words_of matches.now) (codes "all")))
        (is_set (word_found (words_of matches.now) (codes "list")))
        (is_set (word_found (words_of matches.now) (codes "symbols")))) }
    ensures good { IsOk result ↔ MeetEach (words_of matches.now) asm_needs }
    ensures refusal { IfErr result IsWrong }
{
    let symbols = is_set(matches, "symbols");
    match (is_set(matches, "all"), is_set(matches, "list"), symbols) {
        (false, false, false) => Ok(AsmOutput::File),
        (false, true, false) => Ok(AsmOutput::Listing),
        (true, false, false) => Ok(AsmOutput::Faults),
        (false, false, true) => Ok(AsmOutput::Symbols),
        _ => Err(WordsError::Wrong("--list, --all and --symbols cannot be used together")),
    }
}

/// Returns the output that the options of `dis` request.
///
/// # Errors
///
/// `Wrong` in each of these cases, which are checked in this order:
///
/// - `--blocks` is given together with `--names`, `--list` or `--indent`;
/// - `--indent` is given together with `--names` or `--list`;
/// - `--blocks` and `--indent` are not given, and more than one of `--names`, `--list` and `--statements` is given.
fn dis_output(matches: &ArgMatches<'_>) -> Result<DisOutput, WordsError>
    ensures asked { IfOk result (IsDis (is_set (word_found (words_of matches.now) (codes "names")))
        (is_set (word_found (words_of matches.now) (codes "list")))
        (is_set (word_found (words_of matches.now) (codes "statements")))
        (is_set (word_found (words_of matches.now) (codes "indent")))
        (is_set (word_found (words_of matches.now) (codes "blocks")))) }
    ensures good { IsOk result ↔ MeetEach (words_of matches.now) dis_needs }
    ensures refusal { IfErr result IsWrong }
{
    if is_set(matches, "blocks") {
        if is_set(matches, "names") || is_set(matches, "list") || is_set(matches, "indent") {
            return Err(WordsError::Wrong(
                "--blocks cannot be used with --names, --list or --indent",
            ));
        }
        return Ok(DisOutput::Blocks);
    }
    if is_set(matches, "indent") {
        if is_set(matches, "names") || is_set(matches, "list") {
            return Err(WordsError::Wrong("--indent cannot be used with --names or --list"));
        }
        return Ok(DisOutput::Indented);
    }
    let statements = is_set(matches, "statements");
    match (
        is_set(matches, "names"),
        is_set(matches, "list"),
        statements,
    ) {
        (false, false, false) => Ok(DisOutput::Text),
        (true, false, false) => Ok(DisOutput::Names),
        (false, true, false) => Ok(DisOutput::Listing),
        (false, false, true) => Ok(DisOutput::Statements),
        (true, true, false) => Err(WordsError::Wrong("--names and --list cannot be used together")),
        _ => Err(WordsError::Wrong("--names, --list and --statements cannot be used together")),
    }
}

/// Returns the job that `command` and its arguments `matches` specify.
///
/// # Errors
///
/// - The command is unknown: `NoCommand`.
/// - The arguments are invalid: the errors of the function that reads the arguments of this command.
fn plan_by(alloc: Global, command: &str, matches: &ArgMatches<'_>) -> Result<Plan, WordsError>
    ensures asked { IfOk result (λ plan. Asks command.now matches.now plan) }
    ensures good { IsOk result → AreGood command.now matches.now }
    ensures taken { AreGood command.now matches.now → IsOkUnless result NoMemory }
{
    match command {
        "raw" => Ok(Plan::Raw {
            limit: limit_of(matches)?,
            selection: selection_of(matches)?,
        }),
        "run" => Ok(Plan::Run(program_of(alloc, matches)?, choices_of(alloc, matches)?)),
        "trace" => Ok(Plan::Trace(
            program_of(alloc, matches)?,
            selection_of(matches)?,
            given(alloc, matches, "output")?,
        )),
        "debug" => Ok(Plan::Debug(program_of(alloc, matches)?, given(alloc, matches, "input")?)),
        "asm" => Ok(Plan::Asm(asm_output(matches)?, text_files(alloc, matches)?)),
        "dis" => Ok(Plan::Dis(dis_output(matches)?, text_files(alloc, matches)?)),
        "files" => files_asked(alloc, matches),
        "convert" => Ok(Plan::Convert(convert_plan(alloc, matches)?)),
        "find" | "grep" | "info" => Ok(Plan::Search(search_plan(alloc, command, matches)?)),
        _ => Err(WordsError::NoCommand),
    }
}

/// Whether `--quiet` is given after a verb.
fn is_quiet_below(matches: &ArgMatches<'_>) -> bool
    ensures value { result ≡ is_quiet_below (subcommand_rows_of matches.now) }
{
    match matches.subcommand() {
        Some((_, words)) => is_set(words, "quiet"),
        None => false,
    }
}

/// Whether `--quiet` is given before or after a verb.
#[tactic(auto, unfolding(crate::specs::Asked::is_quiet))]
fn is_quiet(matches: &ArgMatches<'_>) -> bool
    ensures value { result ≡ is_quiet matches.now }
{
    is_set(matches, "quiet") || is_quiet_below(matches)
}

/// Returns the job that the arguments in `matches` specify. Returns `NoCommand` if no command is given.
fn plan_asked(alloc: Global, matches: &ArgMatches<'_>) -> Result<Asked, WordsError>
    ensures asked { IfOk result (λ asked. IsAsked matches.now asked) }
    ensures taken { AreAllGood matches.now → IsOkUnless result NoMemory }
{
    let Some((command, words)) = matches.subcommand() else {
        return Err(WordsError::NoCommand);
    };
    let plan = plan_by(alloc, command, words)?;
    let form = form_asked(words)?;
    let is_quiet = is_quiet(words);
    Ok(Asked {
        plan,
        form,
        is_quiet,
    })
}

/// Returns the error for the arguments `words`, which clap rejects. The message has a tip of this program if one
/// applies.
fn refused(alloc: Global, error: clap::Error, words: &[String]) -> WordsError {
    let told = match error.kind() {
        ErrorKind::UnknownArgument => tip_for_option(words),
        ErrorKind::InvalidSubcommand => tip_for_verb(words),
        _ => Told::Unchanged,
    };
    if let Told::Unchanged = told {
        return WordsError::from(error);
    }
    match with_tip(alloc, &error, told) {
        Ok(text) => WordsError::Tipped(text),
        Err(_) => WordsError::NoMemory,
    }
}

fn parsed<'a>(alloc: Global, words: &'a [String]) -> Result<Asked, WordsError> {
    let matches = match all_commands(alloc)?.try_get_matches_from(words) {
        Ok(matches) => matches,
        Err(error) => return Err(refused(alloc, error, words)),
    };
    plan_asked(alloc, &matches)
}

/// Returns the job that the arguments `args` specify. The first argument is the program's name.
///
/// If it is the only one, the job is `raw`. On a terminal, the result is then the help of the program: `is_terminal`
/// states whether standard input is a terminal.
///
/// # Errors
///
/// - The arguments cannot be read, or one is not UTF-8: `NotText`.
/// - clap rejects the arguments: `Usage` or `Tipped`. They ask for help or the version: `Shown`.
/// - The arguments of the command are invalid: `NoCommand`, `NoValue` or `Wrong`.
/// - Out of memory: `NoMemory`.
pub fn plan_of(
    alloc: Global,
    args: io::Result<Args>,
    is_terminal: bool,
) -> Result<Asked, WordsError> {
    let typed: Vec<String> = args?.collect(alloc)?;
    let words = if typed.len() > 1 {
        name_image(alloc, typed)?
    } else if is_terminal {
        helped(alloc)?
    } else {
        return Ok(Asked {
            plan: Plan::Raw {
                limit: LIMIT,
                selection: Selection::ALL,
            },
            form: FormChoice::Named(Form::In(Order::Blocks)),
            is_quiet: false,
        });
    };
    parsed(alloc, words.as_slice())
}

/// Returns the arguments that ask for the help of the program.
fn helped(alloc: Global) -> Result<Vec<String>, AllocError> {
    let mut words = Vec::new(alloc);
    words.push(String::from_str(alloc, "pmach")?)?;
    words.push(String::from_str(alloc, "--help")?)?;
    Ok(words)
}
