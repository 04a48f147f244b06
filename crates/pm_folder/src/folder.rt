//! The files that a folder gets for a volume, and the lines of its file `LIST`.
ghost use Rattle.std.specs.Prelude.{◌≡◌, ◌++◌, ◌<◌, ◌≤◌, IfOk, OnOk, map, string_bytes};
ghost use Rattle.pm_folder.specs.Folder.{counted, file_line, first_line, folder_of, has_name, host_file, host_of};
ghost use Rattle.pm_folder.specs.Folder.{how_text, if_wanted, is_wanted, kind_text, same_before, seen};

use crate::contents::{Ends, How, content_of, how_of, stored};
use crate::names::{push_host, push_listed};
use pm_filer::{DateWord, fits, kind_word};
use pm_volume::{Entry, Volume};
use std::alloc::{AllocError, Global};

/// The files of a volume that the folder gets.
#[derive(Drop)]
pub enum Wanted {
    /// All files.
    All,
    /// The files whose names match this pattern, in which `=` matches any characters.
    Matching(String),
    /// The file in this slot.
    Slot(u16),
}

/// A file of the folder.
#[derive(Drop)]
pub struct FolderFile {
    /// The name of the file in the folder.
    pub host: String,
    /// The contents of the file.
    pub contents: Vec<u8>,
    /// The line of the file in `LIST`.
    pub line: String,
}

/// Returns the first line of `LIST`: the word `volume`, then the name of the volume, its number of blocks and its last
/// date.
#[tactic(auto, unfolding(crate::specs::Folder::first_line))]
pub fn first_line(alloc: Global, volume: &Volume) -> Result<String, AllocError>
    ensures line { IfOk result (λ line. string_bytes line ≡ first_line volume.now) }
{
    let mut line = String::new(alloc);
    line.push_str("volume ")?;
    push_listed(&mut line, volume.name())?;
    let blocks = volume.blocks();
    let date = DateWord(volume.last_date());
    writeln!(line, " {blocks} {date}")?;
    Ok(line)
}

/// Appends the word for the kind `kind` to `text`, or its number if it has no word.
fn push_kind(text: &mut String, kind: u8) -> Result<(), AllocError>
    ensures text { OnOk result (string_bytes text.new ≡ string_bytes text.old ++ kind_text kind) }
{
    match kind_word(kind) {
        Some(word) => text.push_str(word)?,
        None => write!(text, "{kind}")?,
    }
    Ok(())
}

/// Returns the word of `LIST` for the form in which a file is written.
pub fn how_text(how: How) -> &'static str
    ensures text { result.now ≡ how_text how }
{
    match how {
        How::Text => "text",
        How::Bytes => "bytes",
    }
}

/// Returns the line in `LIST` of the file in slot `slot`, whose name in the folder is `host`.
#[tactic(auto, unfolding(crate::specs::Folder::file_line))]
fn file_line(
    alloc: Global,
    host: &str,
    slot: u16,
    entry: &Entry,
    how: How,
) -> Result<String, AllocError>
    ensures line { IfOk result (λ line. string_bytes line ≡ file_line host.now slot entry.now how) }
{
    let mut line = String::new(alloc);
    write!(line, "{host}\t")?;
    push_listed(&mut line, entry.characters())?;
    line.push('\t')?;
    push_kind(&mut line, entry.kind)?;
    let date = DateWord(entry.date);
    let how = how_text(how);
    writeln!(line, "\t{date}\t{how}\t{slot}")?;
    Ok(line)
}

/// Returns whether the file of `entry` has the name `name`. Upper and lower case differ.
fn has_name(entry: &Entry, name: &[u8]) -> bool
    ensures named { result ≡ has_name name.now entry.now }
{
    entry.characters() == name
}

/// Returns 1 if the file of `entry` has the name `name` and `left` is above 0. Otherwise returns 0. `left` is the
/// number of files that are still to be examined.
fn counted(left: u16, name: &[u8], entry: &Entry) -> u16
    ensures count { result ≡ counted left name.now entry.now }
{
    if left > 0 && has_name(entry, name) {
        1
    } else {
        0
    }
}

/// Returns how many files in slots before `slot` have the name `name`.
#[tactic(auto, using(crate::proofs::Counting::counted_first))]
fn same_before(volume: &Volume, slot: u16, name: &[u8]) -> u16
    ensures count { result ≡ same_before volume.now slot name.now }
    ensures few { result ≤ 77 }
{
    let mut count = 0;
    let mut left = slot.saturating_sub(1);
    let mut entries = volume.entries();
    'files: while let Some(entry) = entries.next() {
        count += counted(left, name, &entry);
        left = left.saturating_sub(1);
    }
    count
}

/// Returns the name in the folder of the file in slot `slot`, which has the entry `entry`.
fn host_of(alloc: Global, volume: &Volume, slot: u16, entry: &Entry) -> Result<String, AllocError>
    ensures host { IfOk result (λ host. string_bytes host ≡ host_of volume.now slot entry.now) }
{
    let name = entry.characters();
    let mut host = String::new(alloc);
    push_host(&mut host, same_before(volume, slot, name), name)?;
    Ok(host)
}

/// Returns the folder's file for the file in slot `slot`, which has the entry `entry`.
#[tactic(auto, unfolding(crate::specs::Folder::host_file))]
fn host_file(
    alloc: Global,
    volume: &Volume,
    text: Option<Ends>,
    slot: u16,
    entry: &Entry,
) -> Result<FolderFile, AllocError>
    ensures file { IfOk result (λ file. seen file ≡ host_file text volume.now slot entry.now) }
{
    let host = host_of(alloc, volume, slot, entry)?;
    let bytes = stored(volume, entry);
    let contents = content_of(alloc, text, entry.kind, bytes)?;
    let how = how_of(text, entry.kind, bytes);
    let line = file_line(alloc, host.as_str(), slot, entry, how)?;
    Ok(FolderFile {
        host,
        contents,
        line,
    })
}

/// Returns whether `wanted` selects the file in slot `slot` with the name `name`.
fn is_wanted(wanted: &Wanted, slot: u16, name: &[u8]) -> bool
    ensures wanted { result ≡ is_wanted wanted.now slot name.now }
{
    match wanted {
        Wanted::All => true,
        Wanted::Matching(pattern) => fits(pattern.as_str(), name),
        Wanted::Slot(one) => *one == slot,
    }
}

/// Appends the folder's file for the file in slot `slot` to `files` if `wanted` selects it.
fn push_wanted(
    alloc: Global,
    files: &mut Vec<FolderFile>,
    volume: &Volume,
    text: Option<Ends>,
    wanted: &Wanted,
    slot: u16,
    entry: &Entry,
) -> Result<(), AllocError>
    ensures files { OnOk result (map seen files.new.items ≡ map seen files.old.items
        ++ if_wanted text wanted.now volume.now slot entry.now) }
{
    if is_wanted(wanted, slot, entry.characters()) {
        let file = host_file(alloc, volume, text, slot, entry)?;
        files.push(file)?;
    }
    Ok(())
}

/// Returns the files that the folder gets for the files of `volume` that `wanted` selects, in the order of their slots.
/// If `text` has line ends, files of the kind text that have a header are written as plain text with these line ends.
/// No file of the folder has the name `LIST`.
pub fn folder_of(
    alloc: Global,
    volume: &Volume,
    text: Option<Ends>,
    wanted: &Wanted,
) -> Result<Vec<FolderFile>, AllocError>
    ensures files { IfOk result (λ files.
        map seen files.items ≡ folder_of text wanted.now volume.now) }
{
    let mut files = Vec::new(alloc);
    let mut slot = 1;
    let mut entries = volume.entries();
    'files: while let Some(entry) = entries.next() {
        push_wanted(alloc, &mut files, volume, text, wanted, slot, &entry)?;
        slot += 1;
    }
    Ok(files)
}
