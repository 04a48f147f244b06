//! The value of `--form`.
ghost use Rattle.std.specs.Prelude.{◌≡◌, IfErr, IfOk, IsOk, IsOkUnless, codes, option_map};
ghost use Rattle.pm_plan.specs.Asked.{IsForm, word_below, word_found, words_of};
ghost use Rattle.pm_plan.specs.Needed.{IsGoodForm, IsWrong};
ghost use Rattle.pm_plan.specs.declared.words.WordsError.TheVariants.{NoMemory};
ghost use Rattle.clap.specs.Words.{subcommand_rows_of};

use crate::words::{WordsError, found};
use clap::ArgMatches;
use pm_check::Order;
use pm_forms::{Form, FormChoice};

/// The message for an invalid form.
const FORM: &str =
    "invalid --form: it must be auto, blocks, dos, swapped or 2mg; 'pmach convert' converts images in other formats";

/// Returns the value of `--form` after a verb. Returns `None` if it is not given after a verb.
fn word_below<'a>(matches: &ArgMatches<'a>) -> Option<&'a str>
    ensures word { option_map (λ word. word.now) result ≡ word_below (subcommand_rows_of matches.now) }
{
    match matches.subcommand() {
        Some((_, words)) => found(words, "form"),
        None => None,
    }
}

/// Returns the forms of the images that the arguments of a command specify. The default is `In(Blocks)`: only the
/// image, with its blocks in order.
///
/// # Errors
///
/// - The word is neither `auto` nor the name of a form: `Wrong`.
/// - The form is given both before and after a verb: `Wrong`.
#[tactic(auto, unfolding(crate::specs::Asked::IsForm, crate::specs::Needed::IsGoodForm))]
pub fn form_asked(matches: &ArgMatches<'_>) -> Result<FormChoice, WordsError>
    ensures asked { IfOk result (λ choice. IsForm matches.now choice) }
    ensures good { IsOk result → IsGoodForm matches.now }
    ensures taken { IsGoodForm matches.now → IsOkUnless result NoMemory }
    ensures refusal { IfErr result IsWrong }
{
    match (found(matches, "form"), word_below(matches)) {
        (None, None) => Ok(FormChoice::Named(Form::In(Order::Blocks))),
        (Some(word), None) | (None, Some(word)) => {
            FormChoice::named(word).ok_or(WordsError::Wrong(FORM))
        }
        (Some(_), Some(_)) => Err(WordsError::Wrong("--form is given twice")),
    }
}
