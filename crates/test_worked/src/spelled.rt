//! The spelling of words in a test row.
use std::alloc::Global;
use std::io;
use test_parts::{number, unreadable, word};

/// Returns words that are separated by spaces. `N*W` is N times the word W.
pub fn words(alloc: Global, text: &str) -> io::Result<Vec<u16>> {
    let mut words = Vec::new(alloc);
    for piece in text.split(' ') {
        let (count, last) = piece.split_once('*').unwrap_or(("1", piece));
        if !last.is_empty() {
            add_times(&mut words, number(count)?, word(last)?)?;
        }
    }
    Ok(words)
}

/// Adds a word `count` times. The count is at most 32,768, the number of words of memory.
fn add_times(words: &mut Vec<u16>, count: usize, word: u16) -> io::Result<()> {
    if count > 32768 {
        return Err(unreadable());
    }
    for _ in 0..count {
        words.push(word)?;
    }
    Ok(())
}
