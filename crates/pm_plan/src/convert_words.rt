//! The arguments of `convert`.
ghost use Rattle.std.specs.Prelude.{◌≡◌, ◌↔◌, IfErr, IfOk, IsOk, IsOkUnless, OnOk, Some, codes, option_map};
ghost use Rattle.std.specs.Prelude.{string_bytes};
ghost use Rattle.pm_plan.specs.Asked.{AsksConvert, word_found, words_of};
ghost use Rattle.pm_plan.specs.ConvertWords.{HasNew, IsFormat, IsGoodFormat, IsGoodTarget, IsTarget};
ghost use Rattle.pm_plan.specs.Needed.{IsGoodConvert, IsOptional, IsWrong, has_options};
ghost use Rattle.pm_plan.specs.declared.words.WordsError.TheVariants.{NoMemory};

use crate::file_words::word;
use crate::words::{WordsError, found, given};
use clap::ArgMatches;
use pm_convert::{ByteOrder, Cover, Format};
use std::alloc::Global;

/// The message for an invalid format.
const FORMAT: &str =
    "invalid format: it must be blocks, dos, swapped or big, with the prefix 2mg- or dc42- if the image has a header";

/// The format of the new image.
#[derive(Drop)]
pub enum Target {
    /// A new image of this format.
    As(Format),
    /// The image at this path, with other blocks.
    Back(String),
}

/// The conversion of an image.
#[derive(Drop)]
pub struct ConvertPlan {
    /// The path of the image.
    pub old: String,
    /// The path of the new image. `None`: the formats of the image are printed.
    pub new: Option<String>,
    /// The format of the image, or of the image of `--back`. `None`: the only format that fits.
    pub format: Option<Format>,
    /// The format of the new image.
    pub target: Target,
}

/// Returns the format that `word` names. `Wrong` if it names none.
fn named(word: &str) -> Result<Format, WordsError>
    ensures value { IfOk result (λ format. IsFormat (Some word.now) (Some format)) }
    ensures good { IsOk result ↔ IsGoodFormat (Some word.now) }
    ensures refusal { IfErr result IsWrong }
{
    match Format::named(word) {
        Some(format) => Ok(format),
        None => Err(WordsError::Wrong(FORMAT)),
    }
}

/// Returns the format that `--form` names, if it is given. `Wrong` if it names none.
fn format_of(matches: &ArgMatches<'_>) -> Result<Option<Format>, WordsError>
    ensures value { IfOk result (IsFormat (word_found (words_of matches.now) (codes "format"))) }
    ensures good { IsOk result ↔ IsGoodFormat (word_found (words_of matches.now) (codes "format")) }
    ensures refusal { IfErr result IsWrong }
{
    match found(matches, "format") {
        Some(word) => Ok(Some(named(word)?)),
        None => Ok(None),
    }
}

/// Returns the format of the new image.
///
/// # Errors
///
/// - `--as` and `--back` are both given, or `--as` names no format: `Wrong`.
/// - The path of `--back` is empty: `NoValue`. `NoMemory`.
fn target_of(alloc: Global, matches: &ArgMatches<'_>) -> Result<Target, WordsError>
    ensures value { IfOk result (IsTarget (word_found (words_of matches.now) (codes "as"))
        (word_found (words_of matches.now) (codes "back"))) }
    ensures good { IsOk result → IsGoodTarget (word_found (words_of matches.now) (codes "as"))
        (word_found (words_of matches.now) (codes "back")) }
    ensures taken { IsGoodTarget (word_found (words_of matches.now) (codes "as"))
        (word_found (words_of matches.now) (codes "back")) → IsOkUnless result NoMemory }
{
    match (found(matches, "as"), given(alloc, matches, "back")?) {
        (None, None) => Ok(Target::As(Format {
            cover: Cover::Bare,
            order: ByteOrder::Blocks,
        })),
        (Some(word), None) => Ok(Target::As(named(word)?)),
        (None, Some(image)) => Ok(Target::Back(image)),
        (Some(_), Some(_)) => Err(WordsError::Wrong("--as cannot be used with --back")),
    }
}

/// Whether an option is given that requires a new image: `--form`, `--as` or `--back`.
fn has_options(matches: &ArgMatches<'_>) -> bool
    ensures value { result ≡ has_options (words_of matches.now) }
{
    found(matches, "format").is_some()
        || found(matches, "as").is_some()
        || found(matches, "back").is_some()
}

/// Returns the path of the new image, if it is given.
///
/// # Errors
///
/// - The path is empty: `NoValue`. `NoMemory`.
/// - No path is given, but `--form`, `--as` or `--back`: `Wrong`.
fn new_of(alloc: Global, matches: &ArgMatches<'_>) -> Result<Option<String>, WordsError>
    ensures value { IfOk result (λ new. word_found (words_of matches.now) (codes "NEW") ≡ option_map string_bytes new) }
    ensures good { IsOk result → IsOptional (word_found (words_of matches.now) (codes "NEW")) }
    ensures new { OnOk result (HasNew (word_found (words_of matches.now) (codes "NEW"))
        (has_options (words_of matches.now))) }
    ensures taken { IsOptional (word_found (words_of matches.now) (codes "NEW"))
        → HasNew (word_found (words_of matches.now) (codes "NEW")) (has_options (words_of matches.now))
        → IsOkUnless result NoMemory }
{
    match (given(alloc, matches, "NEW")?, has_options(matches)) {
        (Some(new), _) => Ok(Some(new)),
        (None, false) => Ok(None),
        (None, true) => Err(WordsError::Wrong("--form, --as and --back require NEW")),
    }
}

/// Returns the job that the arguments of `convert` specify.
///
/// # Errors
///
/// - The path of the image is missing: `NoCommand`.
/// - The path of the new image is empty: `NoValue`. It is missing, but `--form`, `--as` or `--back` is given: `Wrong`.
/// - The format of the image is invalid: `Wrong`.
/// - The format of the new image is invalid, as `target_of` states.
/// - Out of memory at any of these steps: `NoMemory`.
pub fn convert_plan(alloc: Global, matches: &ArgMatches<'_>) -> Result<ConvertPlan, WordsError>
    ensures asked { IfOk result (AsksConvert matches.now) }
    ensures good { IsOk result → IsGoodConvert (words_of matches.now) }
    ensures taken { IsGoodConvert (words_of matches.now) → IsOkUnless result NoMemory }
{
    let old = word(alloc, matches, "OLD")?;
    let new = new_of(alloc, matches)?;
    let format = format_of(matches)?;
    let target = target_of(alloc, matches)?;
    Ok(ConvertPlan {
        old,
        new,
        format,
        target,
    })
}
