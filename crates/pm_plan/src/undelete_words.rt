//! The arguments of `files undelete`.
ghost use Rattle.std.specs.Prelude.{◌↔◌, IfErr, IfOk, IsOk, IsOkUnless, codes, option_map, string_bytes, ◌≡◌};
ghost use Rattle.clap.specs.Words.{subcommand_rows_of};
ghost use Rattle.pm_plan.specs.Asked.{AreBlocks, AsksUndelete, word_found, words_of};
ghost use Rattle.pm_plan.specs.Needed.{AreGoodBlocks, IsGoodUndelete, IsOutputBeside, IsWrong};
ghost use Rattle.pm_plan.specs.declared.words.WordsError.TheVariants.{NoMemory};

use crate::file_words::{path_of, short_number};
use crate::words::{WordsError, found, given};
use clap::ArgMatches;
use std::alloc::Global;

/// Blocks of a volume.
#[derive(Clone, Copy)]
pub struct BlockRange {
    /// The first block.
    pub first: u16,
    /// The number of blocks.
    pub count: u16,
}

/// The arguments of `files undelete`, which lists the free blocks in which a removed file seems to begin, or writes the
/// bytes of free blocks.
#[derive(Drop)]
pub struct UndeletePlan {
    /// The path of the image.
    pub path: String,
    /// The free blocks whose bytes are written. `None` for the list.
    pub blocks: Option<BlockRange>,
    /// The path of the file that gets the bytes instead of standard output. `None` for standard output, and for the
    /// list.
    pub output: Option<String>,
}

/// Returns the blocks that `--block` and `--blocks` specify, or `None` if both are missing. Returns `Wrong` if only one
/// of them is given, or if one is no decimal number up to 65,535.
fn blocks_of(matches: &ArgMatches<'_>) -> Result<Option<BlockRange>, WordsError>
    ensures value { IfOk result (AreBlocks (word_found (words_of matches.now) (codes "block"))
        (word_found (words_of matches.now) (codes "blocks"))) }
    ensures good { IsOk result ↔ AreGoodBlocks (word_found (words_of matches.now) (codes "block"))
        (word_found (words_of matches.now) (codes "blocks")) }
    ensures refusal { IfErr result IsWrong }
{
    match (found(matches, "block"), found(matches, "blocks")) {
        (None, None) => Ok(None),
        (Some(first), Some(count)) => match (short_number(first), short_number(count)) {
            (Some(first), Some(count)) => Ok(Some(BlockRange { first, count })),
            _ => Err(WordsError::Wrong(
                "invalid --block or --blocks: each must be a decimal number, at most 65535",
            )),
        },
        _ => Err(WordsError::Wrong("--block and --blocks must be used together")),
    }
}

/// Returns the value of `--output`, or `None` if it is missing.
///
/// # Errors
///
/// - The value is empty: `NoValue`.
/// - `--block` is missing: `Wrong`.
/// - Out of memory: `NoMemory`.
fn output_of(alloc: Global, matches: &ArgMatches<'_>) -> Result<Option<String>, WordsError>
    ensures value { IfOk result (λ output.
        word_found (words_of matches.now) (codes "output") ≡ option_map string_bytes output) }
    ensures good { IsOk result → IsOutputBeside (word_found (words_of matches.now) (codes "block"))
        (word_found (words_of matches.now) (codes "output")) }
    ensures taken { IsOutputBeside (word_found (words_of matches.now) (codes "block"))
        (word_found (words_of matches.now) (codes "output")) → IsOkUnless result NoMemory }
{
    match (given(alloc, matches, "output")?, found(matches, "block")) {
        (Some(_), None) => Err(WordsError::Wrong("-o requires --block and --blocks")),
        (output, _) => Ok(output),
    }
}

/// Returns the job that the arguments of `files` with the verb `undelete` specify.
///
/// # Errors
///
/// - The verb is another one, or is missing: `NoCommand`.
/// - The path after `--image` is empty: `NoValue`.
/// - The image is given twice, or not at all: `Wrong`.
/// - Only one of `--block` and `--blocks` is given, or one is no decimal number up to 65,535: `Wrong`.
/// - The path after `-o` is empty: `NoValue`.
/// - `-o` is given without `--block`: `Wrong`.
/// - Out of memory at any of these steps: `NoMemory`.
pub fn undelete_plan(alloc: Global, matches: &ArgMatches<'_>) -> Result<UndeletePlan, WordsError>
    ensures asked { IfOk result (AsksUndelete matches.now) }
    ensures good { IsOk result → IsGoodUndelete (words_of matches.now) (subcommand_rows_of matches.now) }
    ensures taken { IsGoodUndelete (words_of matches.now) (subcommand_rows_of matches.now)
        → IsOkUnless result NoMemory }
{
    let Some((verb, words)) = matches.subcommand() else {
        return Err(WordsError::NoCommand);
    };
    if verb != "undelete" {
        return Err(WordsError::NoCommand);
    }
    let before = given(alloc, matches, "image")?;
    let behind = given(alloc, words, "image")?;
    let path = path_of(before, behind)?;
    let blocks = blocks_of(words)?;
    let output = output_of(alloc, words)?;
    Ok(UndeletePlan {
        path,
        blocks,
        output,
    })
}
