//! Encoding of texts to text files.

ghost use Rattle.std.specs.Prelude.{◌≡◌, ◌==◌, ◌+◌, ◌-◌, [], ◌∷◌, ◌++◌, ◌<◌, ◌≤◌, ◌^◌, ◌≢◌, ℕ, List, length};
ghost use Rattle.std.specs.Prelude.{replicate, None, Some, IfErr, IfOk, OnOk};
ghost use Rattle.std.specs.List.{prefix_len};
ghost use Rattle.pm_textfile.specs.Reading.{text_of_file};
ghost use Rattle.pm_textfile.specs.Writing.{IsFirstTextFault, TextLine, Writes, coded, completed, indentation};
ghost use Rattle.pm_textfile.specs.Writing.{stands_for_itself, line_fault, line_length, text_fault};
ghost use Rattle.pm_textfile.specs.Laying.{laid, text_file};

use crate::PAGE;
use crate::copies::push_copies;
use crate::fault::TextFault;
use std::alloc::{AllocError, Global};

const MOST_SPACES: usize = 223;

/// Returns the text file of `text`. A line of the text ends with a line feed or with the end of the text.
///
/// The file has 1,024 zeros and then pages of 1,024 bytes, padded with zeros. A line is encoded in three parts:
///
/// - If the line begins with spaces: byte 16, and the number of these spaces plus 32. At most 223 spaces are encoded in
///   this way.
/// - The other characters of the line, unchanged.
/// - Byte 13.
///
/// If a line does not fit into the rest of a page, it begins the next page. The file of an empty text has no page.
///
/// # Errors
///
/// These errors are checked in this order, line by line:
/// - `BadByte`: the line contains a byte 0, 13 or 16. The field is the position of the first such byte.
/// - `LineTooLong`: the encoded line has more than 1,024 bytes.
///
/// `NoMemory`: the host has no memory for the file.
pub fn encode(alloc: Global, text: &[u8]) -> Result<Vec<u8>, TextFault>
    ensures file { IfOk result (λ bytes. Writes text.now bytes.items) }
    ensures exact { IfOk result (λ bytes. bytes.items ≡ text_file text.now) }
    ensures reads_back { IfOk result (λ bytes. text_of_file bytes.items ≡ completed text.now) }
    ensures sound { OnOk result (text_fault text.now ≡ None) }
    ensures refusal { IfErr result (λ e. e ≢ TextFault.NoMemory → text_fault text.now ≡ Some e) }
    ensures first { IfErr result (λ e. e ≢ TextFault.NoMemory → IsFirstTextFault text.now e) }
{
    let mut pages = Pages::new(alloc)?;
    let mut start = 0;
    let mut number = 1;
    while start < text.len() {
        let end = start + line_length(&text[start..]);
        let line = &text[start..end];
        check_line(line, start, number)?;
        pages.add_line(line)?;
        start = end + 1;
        number += 1;
    }
    pages.fill()?;
    let Pages { bytes, .. } = pages;
    Ok(bytes)
}

// Returns the length of the first line of `text`, without its line feed.
fn line_length(text: &[u8]) -> usize
    ensures length { result ≡ line_length text.now }
    ensures within { result ≤ length text.now }
{
    text.iter().take_while(|c| **c != b'\n').count()
}

// Returns the number of bytes of `line` before the first byte that a text file cannot contain.
fn plain_length(line: &[u8]) -> usize
    ensures length { result ≡ prefix_len stands_for_itself line.now }
    ensures within { result ≤ length line.now }
{
    line.iter().take_while(|c| is_plain(**c)).count()
}

// Returns an error if a text file cannot contain `line`. The line begins at position `start` of the text, and its
// number is `number`.
#[tactic(auto, unfolding(crate::specs::Writing::line_fault))]
fn check_line(line: &[u8], start: usize, number: usize) -> Result<(), TextFault>
    requires within { start + length line.now < 2 ^ 64 }
    ensures sound { OnOk result (line_fault start number line.now ≡ None) }
    ensures refusal { IfErr result (λ e. line_fault start number line.now ≡ Some e) }
{
    let plain = plain_length(line);
    if plain < line.len() {
        return Err(TextFault::BadByte(start + plain));
    }
    if coded_length(line) > PAGE {
        return Err(TextFault::LineTooLong(number));
    }
    Ok(())
}

// Returns whether `byte` is stored unchanged in a text file.
fn is_plain(byte: u8) -> bool
    ensures value { result ≡ stands_for_itself byte }
{
    !matches!(byte, 0 | 13 | 16)
}

// Returns the number of leading spaces of `line` that are encoded as an indentation, at most 223.
#[tactic(auto, unfolding(crate::specs::Writing::indentation))]
fn indentation(line: &[u8]) -> usize
    ensures count { result ≡ indentation line.now }
    ensures most { result ≤ 223 }
    ensures within { result ≤ length line.now }
{
    line.iter()
        .take(MOST_SPACES)
        .take_while(|c| **c == b' ')
        .count()
}

// Returns the number of bytes of the encoded line.
#[tactic(auto, unfolding(crate::specs::Writing::coded))]
fn coded_length(line: &[u8]) -> usize
    requires size { length line.now < 2 ^ 63 }
    ensures length { result ≡ length (coded line.now) }
{
    match indentation(line) {
        0 => line.len() + 1,
        spaces => line.len() - spaces + 3,
    }
}

// The bytes of a file during writing, and the number of free bytes on its last page.
#[derive(Drop)]
struct Pages {
    bytes: Vec<u8>,
    room: usize,
    ghost within: { room ≤ 1024 },
}

impl Pages {
    // Creates a file that has only its header of 1,024 zeros.
    fn new(alloc: Global) -> Result<Pages, AllocError>
        ensures header { IfOk result (λ pages. pages.bytes.items ≡ replicate 1024 0) }
        ensures full { IfOk result (λ pages. pages.room ≡ 0) }
    {
        let bytes = vec![in alloc; 0; PAGE]?;
        Ok(Pages { bytes, room: 0 })
    }

    // Appends the encoded line. If it does not fit into the rest of the page, it begins the next page.
    #[tactic(auto, unfolding(crate::specs::Laying::laid))]
    fn add_line(&mut self, line: &[u8]) -> Result<(), AllocError>
        requires fits { length (coded line.now) ≤ 1024 }
        ensures laid { OnOk result ((lines : List TextLine) →
            self.new.bytes.items ++ laid self.new.room lines ≡ self.old.bytes.items
            ++ laid self.old.room (line.now ∷ lines)) }
    {
        let length = coded_length(line);
        if length > self.room {
            self.fill()?;
            self.room = PAGE;
        }
        push_coded(&mut self.bytes, line)?;
        self.room -= length;
        Ok(())
    }

    // Pads the last page with zeros.
    fn fill(&mut self) -> Result<(), AllocError>
        ensures filled { OnOk result (self.new.bytes.items ≡ self.old.bytes.items ++ replicate self.old.room 0) }
    {
        push_copies(&mut self.bytes, 0, self.room)?;
        self.room = 0;
        Ok(())
    }
}

// Appends `line` in its encoded form.
#[tactic(auto, unfolding(crate::specs::Writing::coded))]
fn push_coded(bytes: &mut Vec<u8>, line: &[u8]) -> Result<(), AllocError>
    ensures added { OnOk result (bytes.new.items ≡ bytes.old.items ++ coded line.now) }
{
    let spaces = indentation(line);
    if spaces > 0 {
        bytes.push(16)?;
        bytes.push(32 + spaces as u8)?;
    }
    bytes.extend_from_slice(&line[spaces..])?;
    bytes.push(13)?;
    Ok(())
}
