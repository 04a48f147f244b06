//! What each command does with its standard streams if they are terminals.
ghost use Rattle.std.specs.Prelude.{◌≡◌, ◌&&◌, [], true, false, if◌then◌else◌};
ghost use Rattle.pm_streams.specs.Streams.{end_key, gets_text, is_debug, is_for_each_line, is_text, lines_of};
ghost use Rattle.pm_streams.specs.Streams.{prompt_text, surprise_of, text_of};

use pm_filer::FileCommand;
use pm_files::{Host, Stream};
use pm_jobs::AsmOutput;
use pm_plan::{FilesPlan, Plan, TextFiles, TextInput, Verb};
use pm_terminal::{END, ESCAPE, Lines, Prompted};
use std::io::Read;

/// States which standard streams are terminals.
#[derive(Clone, Copy)]
pub struct Terminals {
    /// Whether standard input is a terminal.
    pub input: bool,
    /// Whether standard output is a terminal.
    pub output: bool,
    /// Whether standard error is a terminal. With `--quiet`, it does not count as a terminal.
    pub error: bool,
}

impl Terminals {
    /// Returns which standard streams are terminals. If `is_quiet`, standard error does not count as a terminal.
    pub fn of<R: Host>(rt: &R, is_quiet: bool) -> Terminals
        ensures quiet { is_quiet ≡ true → result.error ≡ false }
    {
        Terminals {
            input: rt.is_terminal(Stream::Input),
            output: rt.is_terminal(Stream::Output),
            error: !is_quiet && rt.is_terminal(Stream::Error),
        }
    }

    /// Returns how a writer changes the output of the job of `plan`.
    pub fn lines_of(self, plan: &Plan) -> Lines
        ensures lines { result ≡ lines_of self.output plan.now }
    {
        match plan {
            Plan::Run(_, _) if self.output => Lines::Added,
            Plan::Run(program, _) if program.is_text => Lines::Feeds,
            Plan::Asm(AsmOutput::File, _) if self.output => Lines::TextAlone,
            Plan::Files(plan) if self.output && plan.verb.gets() => Lines::TextAlone,
            Plan::Undelete(plan) if self.output && plan.blocks.is_some() => Lines::TextAlone,
            Plan::Files(plan) if self.output && gets_text(&plan.verb) => Lines::Shown,
            Plan::Search(_) if self.output => Lines::Shown,
            Plan::Dis(..) if !self.output => Lines::Paged,
            _ => Lines::Plain,
        }
    }

    /// Returns the prompt for the input of `plan`. The prompt is empty unless standard input and standard error are
    /// terminals.
    pub fn prompt(self, plan: &Plan) -> Prompt
        ensures text { text_of result ≡ (if self.input && self.error then prompt_text plan.now else []) }
        ensures each_line { is_for_each_line result ≡ (self.input && self.error && is_debug plan.now) }
    {
        if self.input && self.error {
            prompt_of(plan)
        } else {
            Prompt::Once("")
        }
    }
}

/// Returns whether `verb` writes the text of a text file.
fn gets_text(verb: &Verb) -> bool
    ensures value { result ≡ gets_text verb.now }
{
    matches!(
        verb,
        Verb::Command(FileCommand::GetText(..) | FileCommand::GetTextSlot(..))
    )
}

/// A prompt that is printed on standard error before input is read from a terminal: once, or before each line.
#[derive(Clone, Copy)]
pub enum Prompt {
    /// The prompt is printed once. An empty prompt is not printed.
    Once(&'static str),
    /// The prompt is printed before each line.
    EachLine(&'static str),
}

/// Returns the prompt for the input of `plan` from a terminal. It is empty if `plan` reads no input, or if its input is
/// the console of a program.
fn prompt_of(plan: &Plan) -> Prompt
    ensures text { text_of result ≡ prompt_text plan.now }
    ensures each_line { is_for_each_line result ≡ is_debug plan.now }
{
    match plan {
        Plan::Raw { .. } => Prompt::Once(
            "pmach: reading hexadecimal digits from the terminal; end with Ctrl-D\n",
        ),
        Plan::Asm(
            _,
            TextFiles {
                input: TextInput::Standard,
                ..
            },
        ) => Prompt::Once("pmach: reading assembler text from the terminal; end with Ctrl-D\n"),
        Plan::Dis(
            _,
            TextFiles {
                input: TextInput::Standard,
                ..
            },
        ) => { Prompt::Once("pmach: reading a code file from the terminal; end with Ctrl-D\n") }
        Plan::Files(
            FilesPlan {
                verb: Verb::Command(FileCommand::Copy(..) | FileCommand::CopySlot(..)),
                ..
            },
        ) => Prompt::Once(
            "pmach: reading the other volume's image from the terminal; end with Ctrl-D\n",
        ),
        Plan::Files(plan) if plan.verb.reads() => Prompt::Once(
            "pmach: reading the file's contents from the terminal; end with Ctrl-D\n",
        ),
        Plan::Debug(..) => Prompt::EachLine("> "),
        _ => Prompt::Once(""),
    }
}

/// Returns a reader of `keys` that prints `prompt` on standard error.
pub fn prompted<'a, E: Eprint, R: Read>(rt: &'a E, keys: R, prompt: Prompt) -> Prompted<'a, E, R> {
    match prompt {
        Prompt::Once(text) => Prompted::once(rt, keys, text),
        Prompt::EachLine(text) => Prompted::each_line(rt, keys, text),
    }
}

/// A plan whose output can surprise a user, so that a terminal explains it.
#[derive(Clone, Copy)]
pub enum Surprise {
    /// `dis` without `-o`, which prints nothing of a file that is no code file.
    NoCode,
    /// `gettext` without `-o`, which prints nothing, or `?` for bytes, of a file that is no text file.
    NoText,
    /// `run` without `--text`, which waits for the key Return in an input whose lines end with line feeds.
    NoReturn,
    /// `salvage --second`, which reads blocks of files if the volume has no second copy of its directory.
    NoSecond,
    /// `undelete` without `--block`, which prints nothing if it finds no removed file.
    NoRemoved,
    /// Any other plan.
    None,
}

/// Returns how the output of `plan` can surprise a user.
pub fn surprise_of(plan: &Plan) -> Surprise
    ensures surprise { result ≡ surprise_of plan.now }
{
    match plan {
        Plan::Dis(_, files) if files.output.is_none() => Surprise::NoCode,
        Plan::Files(plan) if plan.output.is_none() && gets_text(&plan.verb) => Surprise::NoText,
        Plan::Run(program, _) if !program.is_text => Surprise::NoReturn,
        Plan::Salvage(plan) if plan.second => Surprise::NoSecond,
        Plan::Undelete(plan) if plan.blocks.is_none() => Surprise::NoRemoved,
        _ => Surprise::None,
    }
}

/// Returns the byte that ends the input of `plan` on a terminal.
pub fn end_key(plan: &Plan) -> u8
    ensures key { result ≡ end_key plan.now }
{
    match plan {
        Plan::Run(_, choices) if choices.escape => ESCAPE,
        _ => END,
    }
}

/// Returns whether `plan` converts line feeds of its input to the key Return.
pub fn is_text(plan: &Plan) -> bool
    ensures value { result ≡ is_text plan.now }
{
    match plan {
        Plan::Run(program, _) | Plan::Trace(program, ..) => program.is_text,
        _ => false,
    }
}
