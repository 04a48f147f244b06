//! The arguments of `files diff`.
ghost use Rattle.std.specs.Prelude.{IfOk, IsOk, IsOkUnless};
ghost use Rattle.clap.specs.Words.{subcommand_rows_of};
ghost use Rattle.pm_plan.specs.Asked.{AsksCompare, words_of};
ghost use Rattle.pm_plan.specs.Needed.{IsGoodCompare};
ghost use Rattle.pm_plan.specs.declared.words.WordsError.TheVariants.{NoMemory};

use crate::file_words::{path_of, word};
use crate::words::{WordsError, given};
use clap::ArgMatches;
use std::alloc::Global;

/// The arguments of `files diff`, which compares the files of two volumes.
#[derive(Drop)]
pub struct ComparePlan {
    /// The path of the image of the first volume.
    pub path: String,
    /// The path of the image of the second volume.
    pub other: String,
}

/// Returns the job that the arguments of `files` with the verb `diff` specify.
///
/// # Errors
///
/// - The verb is another one, or is missing: `NoCommand`.
/// - The path after `--image` is empty: `NoValue`.
/// - The image is given twice, or not at all: `Wrong`.
/// - The path of the other image is missing: `NoCommand`.
/// - Out of memory at any of these steps: `NoMemory`.
pub fn compare_plan(alloc: Global, matches: &ArgMatches<'_>) -> Result<ComparePlan, WordsError>
    ensures asked { IfOk result (AsksCompare matches.now) }
    ensures good { IsOk result → IsGoodCompare (words_of matches.now) (subcommand_rows_of matches.now) }
    ensures taken { IsGoodCompare (words_of matches.now) (subcommand_rows_of matches.now)
        → IsOkUnless result NoMemory }
{
    let Some((verb, words)) = matches.subcommand() else {
        return Err(WordsError::NoCommand);
    };
    if verb != "diff" {
        return Err(WordsError::NoCommand);
    }
    let before = given(alloc, matches, "image")?;
    let behind = given(alloc, words, "image")?;
    let path = path_of(before, behind)?;
    let other = word(alloc, words, "OTHER")?;
    Ok(ComparePlan { path, other })
}
