//! The search in one image.
ghost use Rattle.std.specs.Prelude.{◌≡◌, ◌++◌, IfOk, OnOk, option_map};
ghost use Rattle.std.specs.List.{flat_map};
ghost use Rattle.pm_search.specs.Lines as lines;
ghost use Rattle.pm_search.specs.Searching as searching;

use crate::info::info_line;
use crate::lines::front_of;
use crate::names::names_text;
use crate::query::{Query, SearchEnding, Searched};
use crate::texts::lines_text;
use pm_convert::{Format, blocks_in, formats_of};
use pm_volume::Volume;
use std::alloc::{AllocError, Global};

/// Returns the answer with these lines for an image that is refused.
fn refused(text: Vec<u8>) -> Searched
    ensures answer { searching.seen result ≡ searching.refused text.items }
{
    Searched {
        text,
        ending: SearchEnding::Refused,
    }
}

/// Returns the answer for an image that has no volume.
fn no_volume(alloc: Global, path: &str) -> Result<Searched, AllocError>
    ensures answer { IfOk result (λ searched. searching.seen searched ≡ searching.no_volume path.now) }
{
    let mut text = front_of(alloc, path)?;
    text.extend_from_slice(b"no volume\n")?;
    Ok(refused(text))
}

/// Appends a comma, a space and the name of each format.
fn push_more(text: &mut Vec<u8>, formats: &[Format]) -> Result<(), AllocError>
    ensures text { OnOk result (text.new.items ≡ text.old.items ++ flat_map lines.next_format formats.now) }
{
    match formats {
        [] => Ok(()),
        [format, more @ ..] => {
            text.extend_from_slice(b", ")?;
            text.extend_from_slice(format.name().as_bytes())?;
            push_more(text, more)
        }
    }
}

/// Returns the answer for an image that opens in the format `first` and in the formats `more`.
fn several(
    alloc: Global,
    path: &str,
    first: Format,
    more: &[Format],
) -> Result<Searched, AllocError>
    ensures answer { IfOk result (λ searched. searching.seen searched ≡ searching.several path.now first more.now) }
{
    let mut text = front_of(alloc, path)?;
    text.extend_from_slice(b"several formats: ")?;
    text.extend_from_slice(first.name().as_bytes())?;
    push_more(&mut text, more)?;
    text.push(b'\n')?;
    Ok(refused(text))
}

/// Returns the lines of a search in the volume `volume`, which the image has in the format `format`.
fn text_for(
    alloc: Global,
    path: &str,
    format: Format,
    volume: &Volume,
    query: &Query<'_>,
) -> Result<Vec<u8>, AllocError>
    ensures text { IfOk result (λ text. text.items ≡ searching.text_for path.now format volume.now query.now) }
{
    match *query {
        Query::Names(pattern) => names_text(alloc, path, volume, pattern),
        Query::Text(needle) => lines_text(alloc, path, volume, needle),
        Query::Info => info_line(alloc, path, format, volume),
    }
}

/// Returns the answer with these lines: `Nothing` if there are none, otherwise `Found`.
fn ended(text: Vec<u8>) -> Searched
    ensures answer { searching.seen result ≡ searching.ended text.items }
{
    let ending = if text.is_empty() {
        SearchEnding::Nothing
    } else {
        SearchEnding::Found
    };
    Searched { text, ending }
}

/// Returns the answer for an image whose volume in the format `format` is `blocks`.
fn search_blocks(
    alloc: Global,
    path: &str,
    format: Format,
    blocks: Option<Vec<u8>>,
    query: &Query<'_>,
) -> Result<Searched, AllocError>
    ensures answer { IfOk result (λ searched. searching.seen searched
        ≡ searching.searched_in path.now format query.now (option_map (λ blocks. blocks.items) blocks)) }
{
    let Some(blocks) = blocks else {
        return no_volume(alloc, path);
    };
    match Volume::open(blocks) {
        Ok(volume) => Ok(ended(text_for(alloc, path, format, &volume, query)?)),
        Err(_) => no_volume(alloc, path),
    }
}

/// Returns the answer for the image `image`, whose path is printed as `path`.
///
/// The volume is that of the only format in which the image opens as a volume, as `formats_of` of pm_convert finds it.
/// The names of files and volumes are printed as `files list` prints them.
///
/// - The image opens in no format: the line `PATH: no volume`, and `Refused`.
/// - The image opens in several formats: the line `PATH: several formats: blocks, dos` with their names, and `Refused`.
/// - `Names`: a line `PATH: NAME` for each file whose name matches the pattern, in directory order.
/// - `Text`: a line `PATH: NAME: N: LINE` for each line that contains the bytes, of each file of kind text, in directory
///   order. `N` is the number of the line from 1. A file without the header of a text file has no lines here.
/// - `Info`: the line `PATH: FORMAT VOLUME: files F, free B, largest L`.
///
/// # Errors
///
/// `AllocError`: memory was refused.
pub fn search(
    alloc: Global,
    path: &str,
    image: &[u8],
    query: &Query<'_>,
) -> Result<Searched, AllocError>
    ensures value { IfOk result (λ searched. searching.seen searched
        ≡ searching.searched path.now image.now query.now) }
{
    let formats = formats_of(alloc, image)?;
    match formats.as_slice() {
        [] => no_volume(alloc, path),
        [format] => {
            let blocks = blocks_in(alloc, image, *format)?;
            search_blocks(alloc, path, *format, blocks, query)
        }
        [first, more @ ..] => several(alloc, path, *first, more),
    }
}
