//! The text of the list of the files of a volume.
ghost use Rattle.std.specs.Prelude.{◌≡◌, ◌++◌, ◌<◌, Some, IfOk, OnOk, length, string_bytes};
ghost use Rattle.std.specs.Option.{option_map};
ghost use Rattle.pm_filer.specs.Listing.{at_right, date_text, entry_details, file_line, fitting_list_text};
ghost use Rattle.pm_filer.specs.Listing.{full_details, full_line, full_lines, full_list_text, gap_line, kind_text};
ghost use Rattle.pm_filer.specs.Listing.{kind_word, list_text, some_space_line};
ghost use Rattle.pm_filer.specs.Listing.{space_line, spaces};
ghost use Rattle.pm_filer.specs.Fitting.{fitting_files};
ghost use Rattle.pm_volume.specs.Directory.{block_count, directory_of, files_begin};
ghost use Rattle.pm_volume.specs.Files.{files_of};
ghost use Rattle.std.specs.List.{flat_map};

use crate::fitting::is_fitting;
use crate::printed::push_name;
use pm_volume::fields::LONGEST_NAME;
use pm_volume::{Copies, Date, Entry, Space, Volume, kinds};
use std::alloc::{AllocError, Global};
use std::fmt;

/// Returns the word for the kind `kind`: `none`, `badb`, `code`, `text`, `info`, `data`, `graf`, `foto` or `secd` for 0
/// to 8. Returns `None` for other kinds.
#[tactic(auto, unfolding(crate::specs::Listing::kind_word))]
pub fn kind_word(kind: u8) -> Option<&'static str>
    ensures word { option_map (λ word. word.now) result ≡ kind_word kind }
{
    match kind {
        kinds::UNTYPED => Some("none"),
        kinds::BAD_BLOCKS => Some("badb"),
        kinds::CODE => Some("code"),
        kinds::TEXT => Some("text"),
        kinds::INFO => Some("info"),
        kinds::DATA => Some("data"),
        kinds::GRAF => Some("graf"),
        kinds::FOTO => Some("foto"),
        kinds::SECURE => Some("secd"),
        _ => None,
    }
}

/// A kind of file. It is printed as its word, or as its number in four characters.
#[derive(Clone, Copy)]
struct Kind(u8);

impl fmt::Display for Kind {
    ghost output = { λ kind. Some (kind_text kind.0) };

    #[tactic(auto, unfolding(crate::specs::Listing::kind_text), using(crate::proofs::Widths::right_in_four))]
    fn fmt<W: fmt::Write>(&self, f: &mut fmt::Formatter<W>) -> fmt::Result {
        let kind = self.0;
        match kind_word(kind) {
            Some(word) => f.write_str(word),
            None => write!(f, "{kind:4}"),
        }
    }
}

/// A date word. It is printed as year, month and day.
#[derive(Clone, Copy)]
pub struct DateWord(pub u16);

impl fmt::Display for DateWord {
    ghost output = { λ date. Some (date_text date.0) };

    #[tactic(auto, unfolding(crate::specs::Listing::date_text), using(crate::proofs::Widths::date_digits))]
    fn fmt<W: fmt::Write>(&self, f: &mut fmt::Formatter<W>) -> fmt::Result {
        let Date { year, month, day } = Date::of(self.0);
        write!(f, "{year:03}-{month:02}-{day:02}")
    }
}

/// A number that is printed right-aligned in five characters.
#[derive(Clone, Copy)]
struct Five(u16);

impl fmt::Display for Five {
    ghost output = { λ n. Some (at_right 5 n.0) };

    #[tactic(auto, using(crate::proofs::Widths::right_in_five))]
    fn fmt<W: fmt::Write>(&self, f: &mut fmt::Formatter<W>) -> fmt::Result {
        let n = self.0;
        write!(f, "{n:5}")
    }
}

/// A number that is printed right-aligned in three characters.
#[derive(Clone, Copy)]
struct Three(u16);

impl fmt::Display for Three {
    ghost output = { λ n. Some (at_right 3 n.0) };

    #[tactic(auto, using(crate::proofs::Widths::right_in_three))]
    fn fmt<W: fmt::Write>(&self, f: &mut fmt::Formatter<W>) -> fmt::Result {
        let n = self.0;
        write!(f, "{n:3}")
    }
}

/// A number that is printed right-aligned in two characters.
#[derive(Clone, Copy)]
struct Two(u16);

impl fmt::Display for Two {
    ghost output = { λ n. Some (at_right 2 n.0) };

    #[tactic(auto, using(crate::proofs::Widths::right_in_two))]
    fn fmt<W: fmt::Write>(&self, f: &mut fmt::Formatter<W>) -> fmt::Result {
        let n = self.0;
        write!(f, "{n:2}")
    }
}

/// Appends `count` spaces.
fn push_spaces(text: &mut String, count: usize) -> Result<(), AllocError>
    ensures text { OnOk result (string_bytes text.new ≡ string_bytes text.old ++ spaces count) }
{
    for _ in 0..count {
        text.push(' ')?;
    }
    Ok(())
}

/// The part of a file's line after the name. It is printed as kind, first block, number of blocks, bytes in the last
/// block, and date.
#[derive(Clone, Copy)]
struct Details(Entry);

impl fmt::Display for Details {
    ghost output = { λ details. Some (entry_details details.0) };

    #[tactic(auto, unfolding(crate::specs::Listing::entry_details))]
    fn fmt<W: fmt::Write>(&self, f: &mut fmt::Formatter<W>) -> fmt::Result {
        let kind = Kind(self.0.kind);
        let first = Five(self.0.first);
        let blocks = Five(self.0.end.saturating_sub(self.0.first));
        let last_bytes = Three(self.0.last_bytes);
        let date = DateWord(self.0.date);
        write!(f, "{kind} {first} {blocks} {last_bytes} {date}")
    }
}

/// Appends the line of the file of `entry`.
#[tactic(auto, unfolding(crate::specs::Listing::file_line), using(crate::proofs::Columns::shown_length))]
fn push_entry(text: &mut String, entry: Entry) -> Result<(), AllocError>
    ensures text { OnOk result (string_bytes text.new ≡ string_bytes text.old ++ file_line entry) }
{
    let name = entry.characters();
    push_name(text, name)?;
    push_spaces(text, LONGEST_NAME.saturating_sub(name.len()))?;
    let details = Details(entry);
    writeln!(text, " {details}")?;
    Ok(())
}

/// Appends a line for each file of `volume`.
fn push_files(text: &mut String, volume: &Volume) -> Result<(), AllocError>
    ensures text { OnOk result
        (string_bytes text.new ≡ string_bytes text.old ++ flat_map file_line (files_of volume.now)) }
{
    let mut entries = volume.entries();
    'files: while let Some(entry) = entries.next() {
        push_entry(text, entry)?;
    }
    Ok(())
}

/// Appends the last line of a list of `files` files of `volume`: this number, and the numbers of free blocks and of
/// blocks of the largest gap.
#[tactic(auto, unfolding(crate::specs::Listing::some_space_line))]
fn push_some_space(text: &mut String, volume: &Volume, files: usize) -> Result<(), AllocError>
    ensures text { OnOk result (string_bytes text.new ≡ string_bytes text.old ++ some_space_line volume.now files) }
{
    let Space { free, largest } = volume.space();
    writeln!(text, "files {files} free {free} largest {largest}")?;
    Ok(())
}

/// Appends the last line of the list of `volume`: the number of files, of free blocks, and of blocks of the largest
/// gap.
///
/// # Errors
///
/// `AllocError`: memory was refused.
#[tactic(auto, unfolding(crate::specs::Listing::space_line, crate::specs::Listing::some_space_line))]
pub fn push_space(text: &mut String, volume: &Volume) -> Result<(), AllocError>
    ensures text { OnOk result (string_bytes text.new ≡ string_bytes text.old ++ space_line volume.now) }
{
    let files = volume.entries().count();
    push_some_space(text, volume, files)
}

/// Returns the list of files of `volume`. It has a line with the volume's name and a colon, a line for each file, and a
/// last line. The last line has the number of files, the number of free blocks, and the number of blocks of the largest
/// gap.
#[tactic(auto, unfolding(crate::specs::Listing::list_text))]
pub(crate) fn list_text(alloc: Global, volume: &Volume) -> Result<String, AllocError>
    ensures text { IfOk result (λ text. string_bytes text ≡ list_text volume.now) }
{
    let mut text = String::new(alloc);
    push_name(&mut text, volume.name())?;
    writeln!(text, ":")?;
    push_files(&mut text, volume)?;
    push_space(&mut text, volume)?;
    Ok(text)
}

/// The part of a file's line after the name, in the full list. It has the slot and the entry of the file.
#[derive(Clone, Copy)]
struct FullDetails(u16, Entry);

impl fmt::Display for FullDetails {
    ghost output = { λ details. Some (full_details details.0 details.1) };

    #[tactic(auto, unfolding(crate::specs::Listing::full_details))]
    fn fmt<W: fmt::Write>(&self, f: &mut fmt::Formatter<W>) -> fmt::Result {
        let details = Details(self.1);
        let kind = Two(u16::from(self.1.kind));
        let slot = Two(self.0);
        write!(f, "{details} {kind} {slot}")
    }
}

/// Appends the line of the file of `entry` in the full list. The line ends with the number of the kind, and the slot.
#[tactic(auto, unfolding(crate::specs::Listing::full_line), using(crate::proofs::Columns::shown_length))]
fn push_full_entry(text: &mut String, slot: u16, entry: Entry) -> Result<(), AllocError>
    ensures text { OnOk result (string_bytes text.new ≡ string_bytes text.old ++ full_line slot entry) }
{
    let name = entry.characters();
    push_name(text, name)?;
    push_spaces(text, LONGEST_NAME.saturating_sub(name.len()))?;
    let details = FullDetails(slot, entry);
    writeln!(text, " {details}")?;
    Ok(())
}

/// Appends the line of the free blocks from `begin` up to, but not including, `end`. Appends nothing if these are no
/// blocks.
#[tactic(auto, unfolding(crate::specs::Listing::gap_line))]
fn push_gap(text: &mut String, begin: u16, end: u16) -> Result<(), AllocError>
    ensures text { OnOk result (string_bytes text.new ≡ string_bytes text.old ++ gap_line begin end) }
{
    if begin < end {
        let first = Five(begin);
        let blocks = Five(end - begin);
        writeln!(text, "< UNUSED >           {first} {blocks}")?;
    }
    Ok(())
}

/// Returns the block at which files of `volume` begin: 6, or 10 if the directory has a second copy.
fn first_block(volume: &Volume) -> u16
    ensures block { result ≡ files_begin (directory_of volume.now) }
{
    match volume.duplicate() {
        Copies::Single => 6,
        Copies::Same | Copies::Differs => 10,
    }
}

/// Appends a line for each file of `volume`, and for the free blocks before each file and after the last file.
fn push_all(text: &mut String, volume: &Volume) -> Result<(), AllocError>
    ensures text { OnOk result (string_bytes text.new ≡ string_bytes text.old
        ++ full_lines 1 (files_begin (directory_of volume.now)) (files_of volume.now)
        (block_count (directory_of volume.now))) }
{
    let mut slot = 1;
    let mut begin = first_block(volume);
    let mut entries = volume.entries();
    'files: while let Some(entry) = entries.next() {
        push_gap(text, begin, entry.first)?;
        push_full_entry(text, slot, entry)?;
        slot += 1;
        begin = entry.end;
    }
    push_gap(text, begin, volume.blocks())
}

/// Returns the full list of files of `volume`. It differs from `list_text` in two ways. The line of each file ends with
/// the number of its kind and its slot. Each gap has a line with its first block and its number of blocks.
#[tactic(auto, unfolding(crate::specs::Listing::full_list_text))]
pub(crate) fn full_list_text(alloc: Global, volume: &Volume) -> Result<String, AllocError>
    ensures text { IfOk result (λ text. string_bytes text ≡ full_list_text volume.now) }
{
    let mut whole = String::new(alloc);
    push_name(&mut whole, volume.name())?;
    writeln!(whole, ":")?;
    push_all(&mut whole, volume)?;
    push_space(&mut whole, volume)?;
    Ok(whole)
}

/// Appends the lines of the files of `volume` whose names match `pattern`. Returns the number of these files.
fn push_fitting(text: &mut String, volume: &Volume, pattern: &str) -> Result<usize, AllocError>
    ensures text { OnOk result (string_bytes text.new ≡ string_bytes text.old
        ++ flat_map file_line (fitting_files volume.now pattern.now)) }
    ensures count { IfOk result (λ count. count ≡ length (fitting_files volume.now pattern.now)) }
{
    let mut count = 0;
    let mut entries = volume.entries();
    'files: while let Some(entry) = entries.next() {
        if is_fitting(pattern, &entry) {
            push_entry(text, entry)?;
            count += 1;
        }
    }
    Ok(count)
}

/// Returns the list of only those files of `volume` whose names match `pattern`. The last line has the free blocks of
/// the whole volume.
#[tactic(auto, unfolding(crate::specs::Listing::fitting_list_text))]
pub(crate) fn fitting_list_text(
    alloc: Global,
    volume: &Volume,
    pattern: &str,
) -> Result<String, AllocError>
    ensures text { IfOk result (λ text. string_bytes text ≡ fitting_list_text volume.now pattern.now) }
{
    let mut text = String::new(alloc);
    push_name(&mut text, volume.name())?;
    writeln!(text, ":")?;
    let files = push_fitting(&mut text, volume, pattern)?;
    push_some_space(&mut text, volume, files)?;
    Ok(text)
}
