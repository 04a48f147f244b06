//! The arguments of `raw` and `trace` that select the lines of a trace.
ghost use Rattle.std.specs.Prelude.{◌↔◌, IfErr, IfOk, IfSome, IsOk, IsSome, SomeIff, codes, option_map};
ghost use Rattle.std.specs.Str.Parse.{digits_value};
ghost use Rattle.pm_plan.specs.Asked.{AsksSelection, IsCode, IsFirst, IsLimitWord, IsNumberUpTo, word_found, words_of};
ghost use Rattle.pm_plan.specs.Needed.{IsCodeWords, IsWrong, MeetEach, selection_needs};

use crate::words::{WordsError, flag, found, number};
use clap::ArgMatches;
use pm_jobs::{Code, Selection};

/// Returns the number of a segment or procedure that `text` spells. Returns `None` if `text` is no decimal number up to
/// 255.
fn small(text: &str) -> Option<u8>
    ensures exact { SomeIff result (IsNumberUpTo 255 text.now) (digits_value 10 text.now) }
{
    u8::try_from(number(text)?).ok()
}

/// Returns the value of `--from`, the number of the first step whose line is shown. The default is 0. Returns `Wrong`
/// if the value is no decimal number up to 4,294,967,295.
fn first_of(matches: &ArgMatches<'_>) -> Result<u32, WordsError>
    ensures value { IfOk result (λ first. IsFirst (word_found (words_of matches.now) (codes "from")) first) }
    ensures accepted { IsOk result ↔ IsLimitWord (word_found (words_of matches.now) (codes "from")) }
    ensures refusal { IfErr result IsWrong }
{
    match found(matches, "from") {
        Some(text) => number(text).ok_or(WordsError::Wrong(
            "invalid --from: it must be a decimal number, at most 4294967295",
        )),
        None => Ok(0),
    }
}

/// Returns the code that the values of `--segment` and `--procedure` select. Returns `None` if one of them is no
/// decimal number up to 255, or if `procedure` is given without `segment`.
fn code_by(segment: Option<&str>, procedure: Option<&str>) -> Option<Code>
    ensures value { IfSome result (λ code. IsCode (option_map (λ word. word.now) segment.entry)
        (option_map (λ word. word.now) procedure.entry) code) }
    ensures accepted { IsSome result ↔ IsCodeWords (option_map (λ word. word.now) segment.entry)
        (option_map (λ word. word.now) procedure.entry) }
{
    match (segment, procedure) {
        (None, None) => Some(Code::Anywhere),
        (None, Some(_)) => None,
        (Some(segment), None) => Some(Code::Segment {
            segment: small(segment)?,
        }),
        (Some(segment), Some(procedure)) => Some(Code::Procedure {
            segment: small(segment)?,
            procedure: small(procedure)?,
        }),
    }
}

/// Returns the code whose steps are shown. Returns `Wrong` if `--segment` or `--procedure` is invalid, or if
/// `--procedure` is given without `--segment`.
fn code_of(matches: &ArgMatches<'_>) -> Result<Code, WordsError>
    ensures value { IfOk result (λ code. IsCode (word_found (words_of matches.now) (codes "segment"))
        (word_found (words_of matches.now) (codes "procedure")) code) }
    ensures accepted { IsOk result ↔ IsCodeWords (word_found (words_of matches.now) (codes "segment"))
        (word_found (words_of matches.now) (codes "procedure")) }
    ensures refusal { IfErr result IsWrong }
{
    let code = code_by(found(matches, "segment"), found(matches, "procedure"));
    code.ok_or(WordsError::Wrong(
        "--segment and --procedure must be decimal numbers, at most 255, and --procedure requires --segment",
    ))
}

/// Returns which lines of a trace the arguments select.
///
/// # Errors
///
/// - `--from` is invalid: `Wrong`.
/// - `--segment` or `--procedure` is invalid: `Wrong`.
pub fn selection_of(matches: &ArgMatches<'_>) -> Result<Selection, WordsError>
    ensures asked { IfOk result (λ selection. AsksSelection (words_of matches.now) selection) }
    ensures accepted { IsOk result ↔ MeetEach (words_of matches.now) selection_needs }
    ensures refusal { IfErr result IsWrong }
{
    Ok(Selection {
        from: first_of(matches)?,
        code: code_of(matches)?,
        calls: flag(matches, "calls"),
        places: flag(matches, "places"),
    })
}
