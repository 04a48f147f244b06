//! The static links that a step follows to find a frame. A query asks whether a step reads one of the bytes `bytes`.

ghost use Rattle.std.specs.Prelude.{◌≡◌};
ghost use Rattle.pm_machine.specs.ReadStretches.{frame_read, links_by, links_read};
ghost use Rattle.pm_machine.specs.Written.{word_stretch};
ghost use Rattle.pm_access.specs.Reached.{loaded_memory};
ghost use Rattle.pm_access.specs.Reading.{next_up};
ghost use Rattle.pm_access.specs.Writing.{meets};

use crate::loaded::Loaded;
use crate::stretches::{Bytes, meets};
use pm_families::Scope;
use pm_words::{ExecError, Memory};

// Is true if one of the bytes `bytes` belongs to the word at the address `place`. Is false if `place` is an error.
fn is_of_word(bytes: Bytes, place: Result<u16, ExecError>) -> bool
    ensures word { result ≡ meets bytes (word_stretch place) }
{
    match place {
        Ok(address) => meets(bytes, usize::from(address), 2),
        Err(_) => false,
    }
}

// Returns the address that the static link of `frame` contains. Returns the error if `frame` is an error.
fn next_up(memory: Loaded<'_>, frame: Result<u16, ExecError>) -> Result<u16, ExecError>
    ensures next { result ≡ next_up (loaded_memory memory.entry) frame }
{
    memory.load(frame?)
}

// Is true if one of the bytes `bytes` belongs to one of the first `links` static links, of which the first is in the
// frame at `mp`.
fn links_read(bytes: Bytes, memory: Loaded<'_>, mp: u16, links: u8) -> bool
    ensures read { result ≡ meets bytes (links_read (loaded_memory memory.entry) mp links) }
{
    let mut frame = Ok(mp);
    let mut is_read = false;
    for _count in 0..links {
        is_read = is_of_word(bytes, frame) || is_read;
        frame = next_up(memory, frame);
    }
    is_read
}

/// Is true if `links` is a number from 0 to 127, and one of the bytes `bytes` belongs to one of the first `links`
/// static links from the frame at `mp` on.
pub(crate) fn links_by(bytes: Bytes, memory: Loaded<'_>, mp: u16, links: i16) -> bool
    ensures read { result ≡ meets bytes (links_by (loaded_memory memory.entry) mp links) }
{
    0 <= links && links <= 127 && links_read(bytes, memory, mp, links as u8)
}

/// Is true if one of the bytes `bytes` belongs to a static link that leads from the frame at `mp` to the frame of a
/// variable of `scope`.
pub(crate) fn frame_read(bytes: Bytes, scope: Scope, memory: &Memory, mp: u16) -> bool
    ensures read { result ≡ meets bytes (frame_read scope memory.now.words mp) }
{
    match scope {
        Scope::Global | Scope::Local => false,
        Scope::Intermediate(links) => {
            links <= 127 && links_read(bytes, Loaded::plain(memory), mp, links)
        }
    }
}
