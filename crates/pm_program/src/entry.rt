//! The whole program, which runs on any host system.
ghost use Rattle.std.specs.Prelude.{◌≡◌};

use crate::follow::follow;
use pm_files::{DiskFault, Host, Stream};
use pm_messages::{End, Manner, PlainLines, say};
use pm_plan::{WordsError, plan_of};
use pm_terminal::Folded;
use pm_tool::Exit;
use std::env::Env;
use std::io::{ErrorKind, Input};

/// Returns the exit of a command line that specifies no job. Out of memory has a different exit from an invalid command
/// line.
fn exit_of(error: &WordsError) -> Exit
    ensures memory { error.now ≡ WordsError.NoMemory → result ≡ Exit.NoMemory }
{
    match error {
        WordsError::NoMemory => Exit::NoMemory,
        WordsError::Shown(_) => Exit::Ended,
        _ => Exit::Usage,
    }
}

/// Prints on standard error why the command line is invalid. It quotes the arguments unchanged, except on a terminal.
/// On a terminal, it replaces control characters, and adds a hint if one exists.
fn tell<R: Host + Eprint + AllocGlobal>(rt: &R, error: &WordsError) {
    if !rt.is_terminal(Stream::Error) {
        let _ = eprint!(rt; "{error}");
        return;
    }
    let _ = match format!(in rt.alloc(); "{error}") {
        Ok(text) => eprint!(rt; "{}", PlainLines(text.as_str())),
        _ => eprint!(rt; "{error}"),
    };
    if let Some(hint) = error.hint() {
        let _ = eprintln!(rt; "pmach: {hint}");
    }
}

/// Prints `text`, a help or a version, on standard output, in lines of at most 80 characters. Returns the exit status.
fn show<R: Host + Print + Eprint + AllocGlobal>(rt: &R, text: &WordsError) -> u8 {
    let printed = match format!(in rt.alloc(); "{text}") {
        Ok(text) => print!(rt; "{}", Folded(text.as_str())),
        Err(_) => print!(rt; "{text}"),
    };
    if printed.is_ok() {
        return Exit::Ended.number();
    }
    let end = End::File(DiskFault::Write(ErrorKind::Other), None);
    let manner = Manner {
        explains: false,
        begun: false,
        has_system: false,
        is_silent: false,
    };
    say(rt, &end, manner);
    end.status()
}

/// Prints why the command line specifies no job, or the help or the version that it asks for. Returns the exit status.
fn refuse<R: Host + Print + Eprint + AllocGlobal>(rt: &R, error: &WordsError) -> u8 {
    if let WordsError::Shown(_) = error {
        return show(rt, error);
    }
    tell(rt, error);
    exit_of(error).number()
}

/// Executes the job that the command line specifies, and returns the exit status.
///
/// If the command line is invalid, the program reads and writes no file. It prints the reason, and returns 1. If it
/// asks for help or the version, the program prints this on standard output, and returns 0.
pub fn program<R: Host + Env + Input + Print + Eprint + AllocGlobal>(rt: &R) -> u8 {
    let is_terminal = rt.is_terminal(Stream::Input);
    let asked = match plan_of(rt.alloc(), std::env::args(rt), is_terminal) {
        Ok(asked) => asked,
        Err(error) => return refuse(rt, &error),
    };
    let done = follow(rt, asked);
    let manner = Manner {
        explains: rt.is_terminal(Stream::Error),
        begun: done.begun,
        has_system: done.has_system,
        is_silent: done.is_silent,
    };
    say(rt, &done.end, manner);
    if let (Some(note), true, false) = (done.note, manner.explains, manner.is_silent) {
        // a message begins on a new line; without a message, this line does
        if done.begun && done.end.status() == 0 {
            let _ = eprintln!(rt; "");
        }
        let _ = eprintln!(rt; "pmach: {note}");
    }
    done.end.status()
}
