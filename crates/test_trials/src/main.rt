//! Tests of whole command lines with a computer in memory. Standard input is a script with the command lines and their
//! expected results. Its lines `script FILE` execute other scripts, which are files in the current folder.
#![tactic(auto)]

mod command;
mod meanwhile;
mod script;
mod sweep;

use script::Trials;
use std::{fs, io};

/// Returns the text of the file that `line` names.
///
/// # Errors
///
/// The error of reading the file. It ends the program, after `line` was printed with the reason.
fn text_of(rt: &HostRuntime, line: &str, path: &str) -> io::Result<String> {
    let text = fs::read_to_string(rt, path);
    if text.is_err() {
        println!(rt; "not so: {line}\nthe file cannot be read in the current folder")?;
    }
    text
}

/// Appends the lines of the text file at `path` to the standard input of the next command line.
fn include(rt: &HostRuntime, trials: &mut Trials, line: &str, path: &str) -> io::Result<()> {
    let text = text_of(rt, line, path)?;
    for line in text.lines() {
        let line = format!(in rt.alloc(); "< {line}")?;
        trials.line(line.as_str())?;
    }
    Ok(())
}

/// Executes a line of a script. Prints the line if it is a false statement, and prints the output that the line
/// produced.
fn take(rt: &HostRuntime, trials: &mut Trials, line: &str) -> io::Result<()> {
    if let Some(path) = line.strip_prefix("include ") {
        return include(rt, trials, line, path);
    }
    if !trials.line(line)? {
        println!(rt; "not so: {line}\n{trials}")?;
    }
    print!(rt; "{}", trials.take_told())
}

/// Executes the lines of the script at `path`, which `line` names.
fn take_script(rt: &HostRuntime, trials: &mut Trials, line: &str, path: &str) -> io::Result<()> {
    let text = text_of(rt, line, path)?;
    for line in text.lines() {
        take(rt, trials, line)?;
    }
    Ok(())
}

fn main(rt: HostRuntime) -> io::Result<()> {
    let mut trials = Trials::new(rt.alloc());
    for line in rt.lines(rt.alloc()) {
        let line = line?;
        match line.strip_prefix("script ") {
            Some(path) => take_script(&rt, &mut trials, line.as_str(), path)?,
            None => take(&rt, &mut trials, line.as_str())?,
        }
    }
    println!(rt; "command lines: {}", trials.count())
}
