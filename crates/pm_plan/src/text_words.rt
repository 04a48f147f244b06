//! The input and output files of `asm` and `dis`.
ghost use Rattle.std.specs.Prelude.{IfOk, IsOk, IsOkUnless};
ghost use Rattle.pm_plan.specs.Asked.{AsksTextFiles, AsksTextInput, words_of};
ghost use Rattle.pm_plan.specs.Needed.{MeetEach, input_needs, text_files_needs};
ghost use Rattle.pm_plan.specs.declared.words.WordsError.TheVariants.{NoMemory};

use crate::words::{WordsError, given};
use clap::ArgMatches;
use std::alloc::Global;

/// The input of `asm` and `dis`.
#[derive(Drop)]
pub enum TextInput {
    /// Standard input.
    Standard,
    /// The file at a path.
    File(String),
    /// The file `name` on the volume whose image is at the path `image`.
    OnImage { image: String, name: String },
}

/// The input and the output of `asm` and `dis`.
#[derive(Drop)]
pub struct TextFiles {
    /// The input.
    pub input: TextInput,
    /// The path of the file that gets the output instead of standard output. `None` for standard output.
    pub output: Option<String>,
}

/// Returns the input that the arguments of `asm` or `dis` specify.
///
/// # Errors
///
/// - A path or the file name is empty: `NoValue`.
/// - `--image` is given without a file name: `Wrong`.
/// - Out of memory: `NoMemory`.
fn text_input(alloc: Global, matches: &ArgMatches<'_>) -> Result<TextInput, WordsError>
    ensures asked { IfOk result (AsksTextInput (words_of matches.now)) }
    ensures good { IsOk result → MeetEach (words_of matches.now) input_needs }
    ensures taken { MeetEach (words_of matches.now) input_needs → IsOkUnless result NoMemory }
{
    let image = given(alloc, matches, "image")?;
    let file = given(alloc, matches, "FILE")?;
    match (image, file) {
        (None, None) => Ok(TextInput::Standard),
        (None, Some(path)) => Ok(TextInput::File(path)),
        (Some(image), Some(name)) => Ok(TextInput::OnImage { image, name }),
        (Some(_), None) => Err(WordsError::Wrong(
            "--image requires FILE, the name of a file on that volume",
        )),
    }
}

/// Returns the input and the output that the arguments of `asm` or `dis` specify.
///
/// # Errors
///
/// - The path of the image, or of the file, is empty: `NoValue`.
/// - `--image` is given without a file name: `Wrong`.
/// - The path after `--output` is empty: `NoValue`.
/// - Out of memory at any of these steps: `NoMemory`.
pub fn text_files(alloc: Global, matches: &ArgMatches<'_>) -> Result<TextFiles, WordsError>
    ensures asked { IfOk result (λ files. AsksTextFiles (words_of matches.now) files) }
    ensures good { IsOk result → MeetEach (words_of matches.now) text_files_needs }
    ensures taken { MeetEach (words_of matches.now) text_files_needs → IsOkUnless result NoMemory }
{
    let input = text_input(alloc, matches)?;
    let output = given(alloc, matches, "output")?;
    Ok(TextFiles { input, output })
}
