//! The line ends of the texts in a folder.
ghost use Rattle.std.specs.Prelude.{◌≡◌, IfOk};
ghost use Rattle.pm_import.specs.Feeds as feeds;

use pm_folder::Ends;
use std::alloc::{AllocError, Global};

/// Returns a text without each byte 13 that comes directly before a byte 10.
fn without_returns(alloc: Global, text: &[u8]) -> Result<Vec<u8>, AllocError>
    ensures text { IfOk result (λ bytes. bytes.items ≡ feeds.without_returns text.now) }
{
    let mut bytes = Vec::new(alloc);
    for at in 0..text.len() {
        let ends = text[at] == b'\r' && text.get(at + 1).copied().unwrap_or(0) == b'\n';
        if !ends {
            bytes.push(text[at])?;
        }
    }
    Ok(bytes)
}

/// Returns a text with a line feed for each byte 13.
fn feeds_for_returns(alloc: Global, text: &[u8]) -> Result<Vec<u8>, AllocError>
    ensures text { IfOk result (λ bytes. bytes.items ≡ feeds.with_feeds Ends.Cr text.now) }
{
    let mut bytes = Vec::new(alloc);
    for byte in text {
        bytes.push(if *byte == b'\r' { b'\n' } else { *byte })?;
    }
    Ok(bytes)
}

/// Returns `text`, whose lines end with `ends`, with lines that end with byte 10. Returns `AllocError` if memory is
/// exhausted.
///
/// - `Lf`: the text is unchanged.
/// - `CrLf`: each byte 13 directly before a byte 10 is left out.
/// - `Cr`: each byte 13 becomes byte 10.
pub fn with_feeds(alloc: Global, text: &[u8], ends: Ends) -> Result<Vec<u8>, AllocError>
    ensures text { IfOk result (λ bytes. bytes.items ≡ feeds.with_feeds ends text.now) }
{
    match ends {
        Ends::Lf => Vec::from_slice(alloc, text),
        Ends::CrLf => without_returns(alloc, text),
        Ends::Cr => feeds_for_returns(alloc, text),
    }
}
