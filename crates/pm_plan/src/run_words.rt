//! The arguments of `run`, `trace` and `debug`.
ghost use Rattle.std.specs.Prelude.{◌≡◌, ◌↔◌, IfErr, IfOk, IsOk, IsOkUnless, Some, codes, string_bytes};
ghost use Rattle.pm_plan.specs.Asked.{AsksChoices, AsksProgram, IsRunLimit, IsRunLimitWord, IsSaving};
ghost use Rattle.pm_plan.specs.Asked.{all_own, is_set, other_words, paths_in, word_found, words_of};
ghost use Rattle.pm_plan.specs.Needed.{IsAlone, IsGiven, IsNotBoth, IsWrong, MeetEach, choices_needs, others_needs};
ghost use Rattle.pm_plan.specs.Needed.{program_needs};
ghost use Rattle.pm_plan.specs.declared.words.WordsError.TheVariants.{NoMemory};

use crate::file_words::word;
use crate::words::{WordsError, flag, found, given, is_set, limit_of};
use clap::ArgMatches;
use pm_jobs::Saving;
use std::alloc::Global;

/// The paths of the image files for the units 5, 9, 10, 11 and 12, in this order. `None` for a unit without a disk.
pub type Others = [Option<String>; 5];

/// A program to be run.
#[derive(Drop)]
pub struct Program {
    /// The path of the image file for unit 4.
    pub disk: String,
    /// The paths of the image files for the other units.
    pub others: Others,
    /// The name of the code file on unit 4.
    pub name: String,
    /// The maximum number of steps. It is 18,446,744,073,709,551,615 with `--unlimited`.
    pub limit: u64,
    /// The path of the code file whose segment in slot 0 replaces the program's empty slot 0.
    pub system: Option<String>,
    /// Whether `--text` is given: a line feed in the input is the key Return (byte 13).
    pub is_text: bool,
}

/// The options of `run` that do not specify the program.
#[derive(Drop)]
pub struct RunChoices {
    /// Which images are saved.
    pub saving: Saving,
    /// The path of the file for the printer's output.
    pub printer: Option<String>,
    /// Whether Ctrl-C and Ctrl-D on a terminal are passed to the program as bytes 3 and 4.
    pub escape: bool,
}

/// Returns the maximum number of steps of a run.
///
/// # Errors
///
/// - `--unlimited` and `--limit` are both given: `Wrong`.
/// - The value of `--limit` is no decimal number up to 4,294,967,295: `Wrong`.
fn run_limit_of(matches: &ArgMatches<'_>) -> Result<u64, WordsError>
    ensures value { IfOk result (λ limit. IsRunLimit (is_set (word_found (words_of matches.now) (codes "unlimited")))
        (word_found (words_of matches.now) (codes "limit")) limit) }
    ensures accepted { IsOk result ↔ IsRunLimitWord (is_set (word_found (words_of matches.now) (codes "unlimited")))
        (word_found (words_of matches.now) (codes "limit")) }
    ensures refusal { IfErr result IsWrong }
{
    if !is_set(matches, "unlimited") {
        return Ok(u64::from(limit_of(matches)?));
    }
    match found(matches, "limit") {
        None => Ok(u64::MAX),
        Some(_) => Err(WordsError::Wrong("--limit and --unlimited cannot be used together")),
    }
}

/// Returns the path of the image file for unit 4.
///
/// # Errors
///
/// - The path is empty: `NoValue`.
/// - Memory is exhausted: `NoMemory`.
/// - The path is missing: `NoCommand`.
fn disk_of(alloc: Global, matches: &ArgMatches<'_>) -> Result<String, WordsError>
    ensures disk { IfOk result (λ disk. word_found (words_of matches.now) (codes "d4") ≡ Some (string_bytes disk)) }
    ensures good { IsOk result → IsGiven (word_found (words_of matches.now) (codes "d4")) }
    ensures taken { IsGiven (word_found (words_of matches.now) (codes "d4")) → IsOkUnless result NoMemory }
{
    given(alloc, matches, "d4")?.ok_or(WordsError::NoCommand)
}

/// Returns the paths of the image files for the units 5, 9, 10, 11 and 12. Returns `NoValue` if a path is empty, and
/// `NoMemory` if memory is exhausted.
fn others_of(alloc: Global, matches: &ArgMatches<'_>) -> Result<Others, WordsError>
    ensures asked { IfOk result (λ others. paths_in others ≡ other_words (words_of matches.now)) }
    ensures good { IsOk result → MeetEach (words_of matches.now) others_needs }
    ensures taken { MeetEach (words_of matches.now) others_needs → IsOkUnless result NoMemory }
{
    Ok([
        given(alloc, matches, "d5")?,
        given(alloc, matches, "d9")?,
        given(alloc, matches, "d10")?,
        given(alloc, matches, "d11")?,
        given(alloc, matches, "d12")?,
    ])
}

/// Returns the program that the arguments specify.
///
/// # Errors
///
/// In this order: as `disk_of`, `others_of`, `word` (for `NAME`), `run_limit_of`, and `given` (for `--system`) state.
pub fn program_of(alloc: Global, matches: &ArgMatches<'_>) -> Result<Program, WordsError>
    ensures asked { IfOk result (λ program. AsksProgram (words_of matches.now) program) }
    ensures good { IsOk result → MeetEach (words_of matches.now) program_needs }
    ensures taken { MeetEach (words_of matches.now) program_needs → IsOkUnless result NoMemory }
{
    let disk = disk_of(alloc, matches)?;
    let others = others_of(alloc, matches)?;
    let name = word(alloc, matches, "NAME")?;
    let limit = run_limit_of(matches)?;
    let system = given(alloc, matches, "system")?;
    let is_text = is_set(matches, "text");
    Ok(Program {
        disk,
        others,
        name,
        limit,
        system,
        is_text,
    })
}

/// Returns which images `--save-all` saves. With `--system`, the image of unit 4 is not saved, because it contains the
/// system's segment.
fn all_own(matches: &ArgMatches<'_>) -> Saving
    ensures value { result ≡ all_own (word_found (words_of matches.now) (codes "system")) }
{
    match found(matches, "system") {
        None => Saving::All,
        Some(_) => Saving::Others,
    }
}

/// Returns which images are saved. `Wrong` if both `--save` and `--save-all` are given.
fn saving_of(matches: &ArgMatches<'_>) -> Result<Saving, WordsError>
    ensures asked { IfOk result (λ saving. IsSaving (is_set (word_found (words_of matches.now) (codes "save")))
        (is_set (word_found (words_of matches.now) (codes "save-all")))
        (word_found (words_of matches.now) (codes "system")) saving) }
    ensures good { IsOk result ↔ IsNotBoth (is_set (word_found (words_of matches.now) (codes "save-all")))
        (is_set (word_found (words_of matches.now) (codes "save"))) }
    ensures refusal { IfErr result IsWrong }
{
    match (is_set(matches, "save"), is_set(matches, "save-all")) {
        (false, false) => Ok(Saving::Nothing),
        (true, false) => Ok(Saving::First),
        (false, true) => Ok(all_own(matches)),
        (true, true) => Err(WordsError::Wrong("--save and --save-all cannot be used together")),
    }
}

/// Returns `Wrong` if both `--save` and `--system` are given, because the saved image would contain the system's
/// segment.
fn unsaved(matches: &ArgMatches<'_>) -> Result<(), WordsError>
    ensures good { IsOk result ↔ IsAlone (is_set (word_found (words_of matches.now) (codes "save")))
        (word_found (words_of matches.now) (codes "system")) }
    ensures refusal { IfErr result IsWrong }
{
    if is_set(matches, "save") && found(matches, "system").is_some() {
        return Err(WordsError::Wrong(
            "--save would save the segment of --system too; examples/with-system.sh adds it to the image permanently",
        ));
    }
    Ok(())
}

/// Returns the options of `run` that do not specify the program.
///
/// # Errors
///
/// - `--save` and `--system` are both given: `Wrong`.
/// - `--save` and `--save-all` are both given: `Wrong`.
/// - The path of `--printer` is empty: `NoValue`.
/// - Out of memory: `NoMemory`.
pub fn choices_of(alloc: Global, matches: &ArgMatches<'_>) -> Result<RunChoices, WordsError>
    ensures asked { IfOk result (λ choices. AsksChoices (words_of matches.now) choices) }
    ensures good { IsOk result → MeetEach (words_of matches.now) choices_needs }
    ensures taken { MeetEach (words_of matches.now) choices_needs → IsOkUnless result NoMemory }
{
    unsaved(matches)?;
    Ok(RunChoices {
        saving: saving_of(matches)?,
        printer: given(alloc, matches, "printer")?,
        escape: flag(matches, "escape"),
    })
}
