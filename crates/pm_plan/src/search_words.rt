//! The arguments of `find`, `grep` and `info`.
ghost use Rattle.std.specs.Prelude.{◌≡◌, ◌++◌, IfOk, IsOk, IsOkUnless, OnOk, codes, map, option_map, string_bytes};
ghost use Rattle.clap.specs.Words.{all_of};
ghost use Rattle.pm_plan.specs.Asked.{words_of};
ghost use Rattle.pm_plan.specs.SearchWords.{AreGiven, AsksImages, AsksSearch, IsGoodImages};
ghost use Rattle.pm_plan.specs.SearchWords.{IsGoodSearch, IsGoodSought, IsSought};
ghost use Rattle.pm_plan.specs.declared.words.WordsError.TheVariants.{NoMemory};

use crate::file_words::word;
use crate::words::WordsError;
use clap::ArgMatches;
use std::alloc::{AllocError, Global};

/// What is searched in images.
#[derive(Drop)]
pub enum Sought {
    /// The files whose names match this pattern.
    Names(String),
    /// The lines of text files that contain this text.
    Text(String),
    /// A line that describes the image.
    Info,
}

/// The arguments of `find`, `grep` or `info`.
#[derive(Drop)]
pub struct SearchPlan {
    pub sought: Sought,
    /// The paths of the images, in the order in which they are given.
    pub images: Vec<String>,
}

/// Appends copies of `paths` to `copies`.
///
/// # Errors
///
/// - One of the paths is empty: `NoValue`. The paths before it were appended.
/// - Out of memory: `NoMemory`.
fn push_copies(alloc: Global, copies: &mut Vec<String>, paths: &[&str]) -> Result<(), WordsError>
    ensures paths { OnOk result (map string_bytes copies.new.items
        ≡ map string_bytes copies.old.items ++ map (λ path. path.now) paths.now) }
    ensures good { IsOk result → AreGiven (map (λ path. path.now) paths.now) }
    ensures taken { AreGiven (map (λ path. path.now) paths.now) → IsOkUnless result NoMemory }
{
    match paths {
        [] => Ok(()),
        [path, more @ ..] => {
            if path.is_empty() {
                return Err(WordsError::NoValue);
            }
            if let Err(error) = copies.push(String::from_str(alloc, path)?) {
                return Err(AllocError::from(error).into());
            }
            push_copies(alloc, copies, more)
        }
    }
}

/// Returns copies of `paths`. Errors: as `push_copies` states.
fn copies(alloc: Global, paths: &[&str]) -> Result<Vec<String>, WordsError>
    ensures paths { IfOk result (λ copies. map string_bytes copies.items ≡ map (λ path. path.now) paths.now) }
    ensures good { IsOk result → AreGiven (map (λ path. path.now) paths.now) }
    ensures taken { AreGiven (map (λ path. path.now) paths.now) → IsOkUnless result NoMemory }
{
    let mut copies = Vec::new(alloc);
    push_copies(alloc, &mut copies, paths)?;
    Ok(copies)
}

/// Returns the values of the argument `id`, or `None` if it is missing.
fn values<'m, 'a>(matches: &'m ArgMatches<'a>, id: &str) -> Option<&'m [&'a str]>
    ensures values { option_map (λ values. map (λ value. value.now) values.now) result
        ≡ all_of id.now (words_of matches.now) }
{
    matches.get_strs(id)
}

/// Returns the paths of the images.
///
/// # Errors
///
/// - There is no image: `NoCommand`.
/// - One of the paths is empty: `NoValue`.
/// - Out of memory: `NoMemory`.
fn images_of(alloc: Global, matches: &ArgMatches<'_>) -> Result<Vec<String>, WordsError>
    ensures asked { IfOk result (λ images. AsksImages (words_of matches.now) images) }
    ensures good { IsOk result → IsGoodImages (all_of (codes "IMAGE") (words_of matches.now)) }
    ensures taken { IsGoodImages (all_of (codes "IMAGE") (words_of matches.now)) → IsOkUnless result NoMemory }
{
    match values(matches, "IMAGE") {
        Some(paths) => copies(alloc, paths),
        None => Err(WordsError::NoCommand),
    }
}

/// Returns what the command `command` searches.
///
/// # Errors
///
/// - The command is none of `find`, `grep` and `info`, or has no argument for what is searched: `NoCommand`.
/// - Out of memory: `NoMemory`.
fn sought_of(alloc: Global, command: &str, matches: &ArgMatches<'_>) -> Result<Sought, WordsError>
    ensures asked { IfOk result (IsSought command.now (words_of matches.now)) }
    ensures good { IsOk result → IsGoodSought command.now (words_of matches.now) }
    ensures taken { IsGoodSought command.now (words_of matches.now) → IsOkUnless result NoMemory }
{
    match command {
        "find" => Ok(Sought::Names(word(alloc, matches, "PATTERN")?)),
        "grep" => Ok(Sought::Text(word(alloc, matches, "TEXT")?)),
        "info" => Ok(Sought::Info),
        _ => Err(WordsError::NoCommand),
    }
}

/// Returns the search that the arguments of the command `command` specify.
///
/// # Errors
///
/// As `sought_of` states, then as `images_of` states.
pub fn search_plan(
    alloc: Global,
    command: &str,
    matches: &ArgMatches<'_>,
) -> Result<SearchPlan, WordsError>
    ensures asked { IfOk result (AsksSearch command.now matches.now) }
    ensures good { IsOk result → IsGoodSearch command.now (words_of matches.now) }
    ensures taken { IsGoodSearch command.now (words_of matches.now) → IsOkUnless result NoMemory }
{
    let sought = sought_of(alloc, command, matches)?;
    let images = images_of(alloc, matches)?;
    Ok(SearchPlan { sought, images })
}
