//! Blocks that look like a text file.
ghost use Rattle.std.specs.Prelude.{◌≡◌, ◌+◌, ◌-◌, ◌≤◌, IfOk};
ghost use Rattle.std.specs.List.{list_all};
ghost use Rattle.pm_undelete.specs.Texts as texts;

use crate::blocks::blocks_of;
use crate::codes::is_printable;
use pm_textfile::decode;
use pm_volume::Volume;
use std::alloc::{AllocError, Global};

/// Returns whether `byte` is a character of a text: a printable character or a line feed.
fn is_letter(byte: u8) -> bool
    ensures value { result ≡ texts.is_letter byte }
{
    byte == 10 || is_printable(byte)
}

/// Returns whether all bytes of `text` are characters of a text.
fn are_letters(text: &[u8]) -> bool
    ensures value { result ≡ list_all texts.is_letter text.now }
{
    text.iter().all(|byte| is_letter(*byte))
}

/// Returns whether `bytes` are a header and pages whose text has only characters of a text.
fn is_text(alloc: Global, bytes: &[u8]) -> Result<bool, AllocError>
    ensures value { IfOk result (λ value. value ≡ texts.is_text bytes.now) }
{
    if bytes.len() < 1024 {
        return Ok(false);
    }
    match decode(alloc, bytes) {
        Ok(text) => Ok(are_letters(&text)),
        Err(_) => Err(AllocError),
    }
}

/// Returns whether there are bytes, and the first of them is not 0.
fn is_begun(bytes: &[u8]) -> bool
    ensures value { result ≡ texts.is_begun bytes.now }
{
    match bytes {
        [] => false,
        [byte, ..] => *byte != 0,
    }
}

/// Returns whether block `n` of `volume` has only zeros.
fn is_zero_block(volume: &Volume, n: u16) -> bool
    requires room { n + 1 ≤ 65535 }
    ensures value { result ≡ texts.is_zero_block volume.now n }
{
    blocks_of(volume, n, n + 1).iter().all(|byte| *byte == 0)
}

/// Returns whether the two blocks after blocks `n` and `n + 1` of `volume` look like a page of a text file.
fn is_page(alloc: Global, volume: &Volume, n: u16) -> Result<bool, AllocError>
    requires room { n + 4 ≤ 65535 }
    ensures value { IfOk result (λ value. value ≡ texts.is_page volume.now n) }
{
    if !is_begun(blocks_of(volume, n + 2, n + 4)) {
        return Ok(false);
    }
    is_text(alloc, blocks_of(volume, n, n + 4))
}

/// Returns the number of pages that follow blocks `n` and `n + 1` of `volume`, in the free area that ends before block
/// `end`.
fn pages(alloc: Global, volume: &Volume, n: u16, end: u16) -> Result<u16, AllocError>
    requires order { n ≤ end }
    ensures count { IfOk result (λ count. count ≡ texts.pages volume.now n (end - n)) }
{
    let mut at = n;
    let mut count = 0;
    'pages: while end - at >= 4 {
        if !is_page(alloc, volume, at)? {
            return Ok(count);
        }
        count += 1;
        if is_zero_block(volume, at + 3) {
            return Ok(count);
        }
        at += 2;
    }
    Ok(count)
}

/// Returns the number of blocks of a text file with `pages` pages, or 0 without pages.
fn size_of_pages(pages: u16) -> usize
    ensures size { result ≡ texts.size_of_pages pages }
{
    if pages == 0 {
        0
    } else {
        2 + 2 * usize::from(pages)
    }
}

/// Returns the number of blocks of the text file that seems to begin at block `n` of `volume`, in the free area that
/// ends before block `end`. Returns 0 if the blocks do not look like a text file.
pub(crate) fn text_size(
    alloc: Global,
    volume: &Volume,
    n: u16,
    end: u16,
) -> Result<usize, AllocError>
    requires order { n ≤ end }
    ensures size { IfOk result (λ size. size ≡ texts.text_size volume.now n (end - n)) }
{
    if end - n < 4 || !is_zero_block(volume, n + 1) {
        return Ok(0);
    }
    Ok(size_of_pages(pages(alloc, volume, n, end)?))
}
