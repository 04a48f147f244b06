//! The blocks at which a removed file seems to begin.
ghost use Rattle.std.specs.Prelude.{◌≡◌, ◌+◌, ◌-◌, ◌++◌, ◌<◌, IfOk, OnOk};
ghost use Rattle.pm_undelete.specs.Found as found;

use crate::blocks::{blocks_of, first_block};
use crate::codes::code_size;
use crate::texts::text_size;
use pm_volume::Volume;
use std::alloc::{AllocError, Global};

/// What the blocks of a candidate look like.
#[derive(Clone, Copy)]
pub enum Looks {
    /// They look like a code file.
    Code,
    /// They look like a text file.
    Text,
}

/// Free blocks in which a removed file seems to begin.
#[derive(Clone, Copy)]
pub struct Candidate {
    /// The first block.
    pub first: u16,
    /// The number of blocks that the file seems to have.
    pub blocks: usize,
    /// What the blocks look like.
    pub looks: Looks,
}

/// Returns the candidate that begins at block `n`. `code` and `text` are the numbers of blocks of the code file and of
/// the text file that seem to begin there, or 0.
fn chosen(n: u16, code: usize, text: usize) -> Option<Candidate>
    ensures chosen { result ≡ found.chosen n code text }
{
    if code != 0 {
        return Some(Candidate {
            first: n,
            blocks: code,
            looks: Looks::Code,
        });
    }
    if text != 0 {
        return Some(Candidate {
            first: n,
            blocks: text,
            looks: Looks::Text,
        });
    }
    None
}

/// Returns what seems to begin at block `n` of `volume`, in the free area that ends before block `end`.
fn look_at(
    alloc: Global,
    volume: &Volume,
    n: u16,
    end: u16,
) -> Result<Option<Candidate>, AllocError>
    requires order { n < end }
    ensures candidate { IfOk result (λ candidate. candidate ≡ found.look_at volume.now n (end - n)) }
{
    let code = code_size(blocks_of(volume, n, end));
    let text = text_size(alloc, volume, n, end)?;
    Ok(chosen(n, code, text))
}

/// Appends `candidate` to `list`, if there is one.
fn push_listed(list: &mut Vec<Candidate>, candidate: Option<Candidate>) -> Result<(), AllocError>
    ensures listed { OnOk result (list.new.items ≡ list.old.items ++ found.listed candidate) }
{
    if let Some(candidate) = candidate {
        list.push(candidate)?;
    }
    Ok(())
}

/// Appends the candidates in the free area of `volume` from block `begin` up to, but not including, `end`.
fn push_area(
    alloc: Global,
    list: &mut Vec<Candidate>,
    volume: &Volume,
    begin: u16,
    end: u16,
) -> Result<(), AllocError>
    ensures found { OnOk result (list.new.items ≡ list.old.items ++ found.found_from volume.now begin (end - begin)) }
{
    let mut n = begin;
    'places: while n < end {
        let candidate = look_at(alloc, volume, n, end)?;
        push_listed(list, candidate)?;
        n += 1;
    }
    Ok(())
}

/// Returns the free blocks of `volume` at which a removed file seems to begin, the lowest first.
///
/// Every block of each free area is tried. A code file seems to begin at a block if all of these hold:
///
/// - The blocks up to the end of the free area are a code file, as `CodeFile::read` of pm_codefile states.
/// - At least one slot of the dictionary has a segment.
/// - Each segment begins after the dictionary, and its name has only printable characters.
///
/// Its number of blocks ends with the last segment.
///
/// Otherwise, a text file seems to begin at a block if all of these hold:
///
/// - The next block has only zeros.
/// - The two blocks after it are in the same free area, and look like a page: their first byte is not 0, and `decode`
///   of pm_textfile returns only printable characters and line feeds.
///
/// Its number of blocks is that of the header and of all pages that follow. It ends with a page whose second block has
/// only zeros.
///
/// # Errors
///
/// `AllocError`: memory was refused.
pub fn candidates(alloc: Global, volume: &Volume) -> Result<Vec<Candidate>, AllocError>
    ensures found { IfOk result (λ list. list.items ≡ found.candidates_of volume.now) }
{
    let mut list = Vec::new(alloc);
    let mut begin = first_block(volume);
    let mut entries = volume.entries();
    'files: while let Some(entry) = entries.next() {
        push_area(alloc, &mut list, volume, begin, entry.first)?;
        begin = entry.end;
    }
    push_area(alloc, &mut list, volume, begin, volume.blocks())?;
    Ok(list)
}
