//! The arguments of `files export` and `files import`.
ghost use Rattle.std.specs.Prelude.{◌≡◌, ◌↔◌, IfErr, IfOk, IsOk, IsOkUnless, codes};
ghost use Rattle.clap.specs.Words.{subcommand_rows_of};
ghost use Rattle.pm_plan.specs.Asked.{AsksExport, AsksImport, AsksWanted, is_set, word_found, words_of};
ghost use Rattle.pm_plan.specs.FolderWords.{AreEnds, AreEndsGiven, AreGoodEnds, IsGoodText, IsText, ends_named};
ghost use Rattle.pm_plan.specs.Needed.{IsGoodExport, IsGoodImport, IsGoodWanted, IsWrong};
ghost use Rattle.pm_plan.specs.declared.words.WordsError.TheVariants.{NoMemory};

use crate::file_words::{path_of, slot_of, word};
use crate::words::{WordsError, flag, found, given, is_set};
use clap::ArgMatches;
use pm_folder::{Ends, Wanted};
use std::alloc::Global;

/// The message for an invalid value of `--ends`.
const ENDS: &str = "invalid --ends: it must be lf, crlf or cr";

/// The arguments of `files export`, which writes the files of a volume to a new folder.
#[derive(Drop)]
pub struct ExportPlan {
    /// The path of the image file.
    pub path: String,
    /// The path of the folder.
    pub folder: String,
    /// The line ends with which text files are written as plain text. `None` if all files are written byte for byte.
    pub text: Option<Ends>,
    /// Which files are written.
    pub wanted: Wanted,
}

/// The files of a folder that are added to a volume.
#[derive(Drop)]
pub struct ImportPlan {
    /// The path of the image.
    pub path: String,
    /// The path of the folder.
    pub folder: String,
    /// The line ends of the texts in the folder.
    pub ends: Ends,
    /// Whether the image is not written.
    pub is_trial: bool,
}

/// Returns the line ends that `word` names: `lf`, `crlf` or `cr`. Returns `None` for any other `word`.
fn ends_named(word: &str) -> Option<Ends>
    ensures value { result ≡ ends_named word.now }
{
    match word {
        "lf" => Some(Ends::Lf),
        "crlf" => Some(Ends::CrLf),
        "cr" => Some(Ends::Cr),
        _ => None,
    }
}

/// Returns the line ends that the value of `--ends` of `gettext` or `puttext` names. Returns `None` if the option is
/// not given, and `Wrong` if its value names no line ends.
pub(crate) fn ends_given(matches: &ArgMatches<'_>) -> Result<Option<Ends>, WordsError>
    ensures value { IfOk result (AreEndsGiven (word_found (words_of matches.now) (codes "ends"))) }
    ensures good { IsOk result ↔ AreGoodEnds (word_found (words_of matches.now) (codes "ends")) }
    ensures refusal { IfErr result IsWrong }
{
    let Some(word) = found(matches, "ends") else {
        return Ok(None);
    };
    match ends_named(word) {
        Some(ends) => Ok(Some(ends)),
        None => Err(WordsError::Wrong(ENDS)),
    }
}

/// Returns the line ends of exported text files, or `None` if `--text` is not given.
///
/// # Errors
///
/// - `--ends` is given without `--text`: `Wrong`.
/// - The value of `--ends` names no line ends: `Wrong`.
fn text_of(matches: &ArgMatches<'_>) -> Result<Option<Ends>, WordsError>
    ensures value { IfOk result (IsText (is_set (word_found (words_of matches.now) (codes "text")))
        (word_found (words_of matches.now) (codes "ends"))) }
    ensures good { IsOk result ↔ IsGoodText (is_set (word_found (words_of matches.now) (codes "text")))
        (word_found (words_of matches.now) (codes "ends")) }
    ensures refusal { IfErr result IsWrong }
{
    match (is_set(matches, "text"), found(matches, "ends")) {
        (false, None) => Ok(None),
        (false, Some(_)) => Err(WordsError::Wrong("--ends requires --text")),
        (true, None) => Ok(Some(Ends::Lf)),
        (true, Some(word)) => match ends_named(word) {
            Some(ends) => Ok(Some(ends)),
            None => Err(WordsError::Wrong(ENDS)),
        },
    }
}

/// Returns which files are exported.
///
/// # Errors
///
/// - The value of `--slot` is no decimal number up to 65,535: `Wrong`.
/// - `--only` and `--slot` are both given: `Wrong`.
/// - Out of memory: `NoMemory`.
fn wanted(alloc: Global, matches: &ArgMatches<'_>) -> Result<Wanted, WordsError>
    ensures asked { IfOk result (AsksWanted (words_of matches.now)) }
    ensures good { IsOk result → IsGoodWanted (word_found (words_of matches.now) (codes "only"))
        (word_found (words_of matches.now) (codes "slot")) }
    ensures taken { IsGoodWanted (word_found (words_of matches.now) (codes "only"))
        (word_found (words_of matches.now) (codes "slot")) → IsOkUnless result NoMemory }
{
    match (found(matches, "only"), slot_of(matches)?) {
        (None, None) => Ok(Wanted::All),
        (None, Some(slot)) => Ok(Wanted::Slot(slot)),
        (Some(pattern), None) => Ok(Wanted::Matching(String::from_str(alloc, pattern)?)),
        (Some(_), Some(_)) => Err(WordsError::Wrong("--only cannot be used with --slot")),
    }
}

/// Returns the job that the arguments of `files` with the verb `export` specify.
pub fn export_plan(alloc: Global, matches: &ArgMatches<'_>) -> Result<ExportPlan, WordsError>
    ensures asked { IfOk result (AsksExport matches.now) }
    ensures good { IsOk result → IsGoodExport (words_of matches.now) (subcommand_rows_of matches.now) }
    ensures taken { IsGoodExport (words_of matches.now) (subcommand_rows_of matches.now)
        → IsOkUnless result NoMemory }
{
    let Some((verb, words)) = matches.subcommand() else {
        return Err(WordsError::NoCommand);
    };
    if verb != "export" {
        return Err(WordsError::NoCommand);
    }
    let before = given(alloc, matches, "image")?;
    let behind = given(alloc, words, "image")?;
    let path = path_of(before, behind)?;
    let folder = word(alloc, words, "FOLDER")?;
    let text = text_of(words)?;
    let wanted = wanted(alloc, words)?;
    Ok(ExportPlan {
        path,
        folder,
        text,
        wanted,
    })
}

/// Returns the line ends of imported texts: those that `--ends` names, or byte 10 without it.
///
/// # Errors
///
/// `Wrong` for a word that names no line ends.
fn ends_of(matches: &ArgMatches<'_>) -> Result<Ends, WordsError>
    ensures value { IfOk result (AreEnds (word_found (words_of matches.now) (codes "ends"))) }
    ensures good { IsOk result ↔ AreGoodEnds (word_found (words_of matches.now) (codes "ends")) }
    ensures refusal { IfErr result IsWrong }
{
    match found(matches, "ends") {
        None => Ok(Ends::Lf),
        Some(word) => match ends_named(word) {
            Some(ends) => Ok(ends),
            None => Err(WordsError::Wrong(ENDS)),
        },
    }
}

/// Returns the job that the arguments of `files` with the verb `import` specify.
///
/// # Errors
///
/// - The verb is another one, or is missing: `NoCommand`.
/// - The path after `--image` is empty: `NoValue`.
/// - The image is given twice, or not at all: `Wrong`.
/// - The path of the folder is missing: `NoCommand`.
/// - The line ends are invalid: `Wrong`.
/// - Out of memory at any of these steps: `NoMemory`.
pub fn import_plan(alloc: Global, matches: &ArgMatches<'_>) -> Result<ImportPlan, WordsError>
    ensures asked { IfOk result (AsksImport matches.now) }
    ensures good { IsOk result → IsGoodImport (words_of matches.now) (subcommand_rows_of matches.now) }
    ensures taken { IsGoodImport (words_of matches.now) (subcommand_rows_of matches.now)
        → IsOkUnless result NoMemory }
{
    let Some((verb, words)) = matches.subcommand() else {
        return Err(WordsError::NoCommand);
    };
    if verb != "import" {
        return Err(WordsError::NoCommand);
    }
    let before = given(alloc, matches, "image")?;
    let behind = given(alloc, words, "image")?;
    let path = path_of(before, behind)?;
    let folder = word(alloc, words, "FOLDER")?;
    let ends = ends_of(words)?;
    let is_trial = flag(words, "dry-run");
    Ok(ImportPlan {
        path,
        folder,
        ends,
        is_trial,
    })
}
