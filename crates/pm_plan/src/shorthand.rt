//! Command lines with the path of an image in front of a verb or a name, as in `files IMAGE list` and `run IMAGE NAME`.
use crate::commands::{is_verb_of_files, takes_value};
use std::alloc::{AllocError, Global};

/// Returns the position of the path of an image in `words` if it is the first argument of `files`, and a verb follows.
fn image_before_verb(words: &[String]) -> Option<usize> {
    let first = words.get(2)?.as_str();
    if first.starts_with('-') || first == "help" || is_verb_of_files(first) {
        return None;
    }
    let is_verb = |word: &String| is_verb_of_files(word.as_str());
    if words.iter().skip(3).any(is_verb) {
        Some(2)
    } else {
        None
    }
}

/// Returns the position of the first of exactly two arguments that are neither options nor values of options. The
/// arguments `words` are those of `run`, `trace` or `debug`. Returns `None` if the option `--d4` or `--` is given.
fn image_before_name(words: &[String]) -> Option<usize> {
    let mut first = None;
    let mut count = 0_u8;
    let mut is_value = false;
    for (place, word) in words.iter().enumerate() {
        let word = word.as_str();
        if word == "--" || word.starts_with("--d4") {
            return None;
        }
        let is_option = word.starts_with('-');
        if place > 1 && !is_option && !is_value {
            first = first.or(Some(place));
            count = count.saturating_add(1);
        }
        is_value = is_option && !is_value && takes_value(word);
    }
    if count == 2 { first } else { None }
}

/// Inserts the option that the path of an image lacks: `--image` in `files IMAGE VERB`, and `--d4` in `run IMAGE NAME`,
/// `trace IMAGE NAME` and `debug IMAGE NAME`. Other command lines stay as they are. Returns `AllocError` if memory is
/// exhausted.
pub fn name_image(alloc: Global, words: Vec<String>) -> Result<Vec<String>, AllocError> {
    let found = match words.get(1) {
        Some(command) if command.as_str() == "files" => (image_before_verb(&words), "--image"),
        Some(command) if matches!(command.as_str(), "run" | "trace" | "debug") => {
            (image_before_name(&words), "--d4")
        }
        _ => (None, ""),
    };
    let (Some(at), option) = found else {
        return Ok(words);
    };
    let mut named = Vec::new(alloc);
    for (place, word) in words.into_iter().enumerate() {
        if place == at {
            named.push(String::from_str(alloc, option)?)?;
        }
        named.push(word)?;
    }
    Ok(named)
}
