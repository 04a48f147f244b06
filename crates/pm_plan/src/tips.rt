//! Tips for command lines that clap rejects. No tip names a verb that deletes files, unless the user typed one.
use crate::commands::is_verb_of_files;
use std::alloc::{AllocError, Global};

/// What happens to the tips in a message of clap.
#[derive(Clone, Copy)]
pub enum Told {
    /// They stay.
    Unchanged,
    /// They stay, unless one of them names a verb that deletes files.
    Harmless,
    /// This tip replaces them.
    Instead(&'static str),
}

/// The verbs of `files` that delete files or replace contents, in quotes as clap's tips have them.
const DELETING: [&str; 5] = ["'remove'", "'zero'", "'new'", "'single'", "'repair'"];

/// Returns whether `message` names a verb that deletes files.
fn names_deleting(message: &str) -> bool {
    DELETING.iter().any(|verb| message.contains(*verb))
}

/// Returns `message`, a message of clap, with `tip` instead of its tips. The tip is a paragraph before the usage.
fn replaced(alloc: Global, message: &str, tip: Option<&str>) -> Result<String, AllocError> {
    let mut text = String::new(alloc);
    let mut is_after_tip = false;
    for line in message.trim_end().split('\n') {
        let is_tip = line.starts_with("  tip:");
        let is_gap = is_after_tip && line.is_empty();
        is_after_tip = is_tip;
        if !is_tip && !is_gap {
            if let (true, Some(tip)) = (line.starts_with("Usage:"), tip) {
                text.push_str("  tip: ")?;
                text.push_str(tip)?;
                text.push_str("\n\n")?;
            }
            text.push_str(line)?;
            text.push('\n')?;
        }
    }
    Ok(text)
}

/// Returns the message of `error` with its tips as `told` states.
pub fn with_tip(alloc: Global, error: &clap::Error, told: Told) -> Result<String, AllocError> {
    let message = match format!(in alloc; "{error}") {
        Ok(message) => message,
        Err(_) => return Err(AllocError),
    };
    match told {
        Told::Instead(tip) => replaced(alloc, message.as_str(), Some(tip)),
        Told::Harmless if names_deleting(message.as_str()) => {
            replaced(alloc, message.as_str(), None)
        }
        Told::Unchanged | Told::Harmless => Ok(message),
    }
}

/// Returns whether `word` is an option for a disk on a unit, such as `--d6`.
fn is_disk(word: &str) -> bool {
    match word.strip_prefix("--d") {
        Some(unit) => unit.starts_with(|letter: char| letter.is_ascii_digit()),
        None => false,
    }
}

/// Returns whether `word` is an option for a disk on a unit that has no disk. The option may have a value, as in
/// `--d6=IMAGE`.
fn is_other_disk(word: &str) -> bool {
    let option = match word.split_once('=') {
        Some((option, _)) => option,
        None => word,
    };
    is_disk(option)
        && !matches!(
            option,
            "--d4" | "--d5" | "--d9" | "--d10" | "--d11" | "--d12"
        )
}

/// Returns whether `word` is a number with the sign `-`.
fn is_negative(word: &str) -> bool {
    match word.strip_prefix('-') {
        Some(number) => number.starts_with(|letter: char| letter.is_ascii_digit()),
        None => false,
    }
}

/// The tip for an option of a disk that is none of the six.
const UNITS: &str =
    "the units of disks are 4, 5, 9, 10, 11 and 12: --d4, --d5, --d9, --d10, --d11, --d12";

/// Returns the tip about an argument that the command in `words` does not accept.
pub fn tip_for_option(words: &[String]) -> Told {
    let has = |option| words.iter().any(|word| word.as_str().starts_with(option));
    let Some(command) = words.get(1) else {
        return Told::Unchanged;
    };
    let is_run = matches!(command.as_str(), "run" | "trace" | "debug");
    if is_run && words.iter().any(|word| is_other_disk(word.as_str())) {
        return Told::Instead(UNITS);
    }
    let is_counted = is_run || command.as_str() == "raw";
    if is_counted && words.iter().any(|word| is_negative(word.as_str())) {
        return Told::Instead("a number has only decimal digits, without a sign");
    }
    match command.as_str() {
        "asm" => Told::Instead(
            "pmach asm reads one file; name the file to write with -o: pmach asm TEXT -o CODE",
        ),
        "dis" => Told::Instead("pmach dis reads one file: pmach dis CODE"),
        "files" if !has("--image") => {
            Told::Instead("name the image with --image: pmach files --image IMAGE list")
        }
        "run" if !has("--d4") => {
            Told::Instead("name the image of unit 4 with --d4: pmach run --d4 IMAGE NAME")
        }
        "trace" if !has("--d4") => {
            Told::Instead("name the image of unit 4 with --d4: pmach trace --d4 IMAGE NAME")
        }
        "debug" if !has("--d4") => {
            Told::Instead("name the image of unit 4 with --d4: pmach debug --d4 IMAGE NAME")
        }
        _ => Told::Unchanged,
    }
}

/// Returns the tip for `word`, a common name of what a verb of `files` does that changes no volume. Returns `None` for
/// any other word.
fn tip_for_reading(word: &str) -> Option<&'static str> {
    match word {
        "cat" | "type" | "print" | "show" | "view" | "more" | "less" => Some(
            "to print a text file: pmach files --image IMAGE gettext NAME",
        ),
        "ls" | "dir" | "catalog" | "directory" => Some(
            "to list the files: pmach files --image IMAGE list",
        ),
        "cp" | "extract" | "read" | "fetch" => Some(
            "to copy a file out of the image: pmach files --image IMAGE get NAME -o FILE",
        ),
        "unpack" | "unzip" | "extract-all" | "dump" => Some(
            "to copy all files out of the image: pmach files --image IMAGE export FOLDER",
        ),
        "compare" | "cmp" => Some(
            "to compare the files of two volumes: pmach files --image IMAGE diff OTHERIMAGE",
        ),
        "undel" | "unremove" | "unrm" | "unerase" | "restore" => Some(
            "to find removed files: pmach files --image IMAGE undelete",
        ),
        "recover" => Some(
            "to find removed files: pmach files --image IMAGE undelete; to save the files of a damaged volume: \
             pmach files --image IMAGE salvage NEWIMAGE",
        ),
        "rescue" => Some(
            "to save the files of a damaged volume: pmach files --image IMAGE salvage NEWIMAGE",
        ),
        "fsck" | "verify" | "test" => Some("to check a volume: pmach files --image IMAGE check"),
        _ => None,
    }
}

/// Returns the tip for `word`, a common name of what a verb of `files` does. Returns `None` for any other word.
fn tip_for_name(word: &str) -> Option<&'static str> {
    match word {
        "rename" | "ren" | "mv" | "move" => Some(
            "to rename a file: pmach files --image IMAGE change OLD NEW",
        ),
        "rm" | "del" | "delete" | "erase" | "unlink" => Some(
            "to remove a file: pmach files --image IMAGE remove NAME",
        ),
        "add" | "write" | "insert" | "store" => Some(
            "to add a file: pmach files --image IMAGE put NAME KIND <FILE; a text: puttext NAME <FILE",
        ),
        "resize" | "grow" | "enlarge" | "expand" => Some(
            "to enlarge a volume, make a longer copy of the image with truncate, and then: pmach files --image COPY \
             salvage LARGER",
        ),
        "crunch" | "defrag" | "pack" | "squeeze" => Some(
            "to move the files together: pmach files --image IMAGE krunch",
        ),
        "format" | "mkfs" | "init" => Some(
            "to make an empty volume in a new file: pmach files --image NEWIMAGE new NAME BLOCKS",
        ),
        _ => tip_for_reading(word),
    }
}

/// Returns the tip for the unknown command `word`. Returns `None` if no tip applies.
fn tip_for_command(word: &str) -> Option<&'static str> {
    match word {
        "assemble" | "as" => Some("to assemble: pmach asm TEXT -o CODE"),
        "disassemble" | "disasm" => Some("to disassemble: pmach dis CODE"),
        "exec" | "execute" | "start" | "boot" => Some(
            "to run a program: pmach run --d4 IMAGE NAME",
        ),
        "compile" | "pascal" => Some("there is no compiler; to assemble: pmach asm TEXT -o CODE"),
        _ if is_verb_of_files(word) => Some(
            "this is a verb of 'pmach files', which is used as in: pmach files --image IMAGE list",
        ),
        _ if word.contains('.') || word.contains('/') => Some(
            "to list the files of a disk image: pmach files --image IMAGE list",
        ),
        _ => tip_for_name(word),
    }
}

/// Returns the first word in `words` that is neither an option nor the value of `--image` or `--form`.
fn verb_in(words: &[String]) -> Option<&str> {
    let mut is_value = false;
    for word in words {
        let word = word.as_str();
        if !is_value && !word.starts_with('-') {
            return Some(word);
        }
        is_value = !is_value && matches!(word, "--image" | "--form");
    }
    None
}

/// Returns the tip about the unknown command or the unknown verb of `files` in `words`.
pub fn tip_for_verb(words: &[String]) -> Told {
    let tip = match words {
        [_, files, rest @ ..] if files.as_str() == "files" => match verb_in(rest) {
            Some(word) if word.contains('.') || word.contains('/') => Some(
                "name a verb after the image, as in: pmach files --image IMAGE list",
            ),
            Some(word) => tip_for_name(word),
            None => None,
        },
        [_, command, ..] => tip_for_command(command.as_str()),
        _ => None,
    };
    match tip {
        Some(tip) => Told::Instead(tip),
        None => Told::Harmless,
    }
}
