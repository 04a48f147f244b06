//! The lines of an answer.
ghost use Rattle.std.specs.Prelude.{◌≡◌, ◌++◌, [], ◌∷◌, IfOk, OnOk};
ghost use Rattle.pm_search.specs.Lines as lines;

use pm_filer::push_shown;
use std::alloc::{AllocError, Global};

/// Returns the path, a colon and a space.
pub(crate) fn front_of(alloc: Global, path: &str) -> Result<Vec<u8>, AllocError>
    ensures front { IfOk result (λ front. front.items ≡ lines.front_of path.now) }
{
    let mut front = Vec::from_slice(alloc, path.as_bytes())?;
    front.extend_from_slice(b": ")?;
    Ok(front)
}

/// Returns the path, a colon, a space, and the printable form of the name of a file.
pub(crate) fn file_front(alloc: Global, path: &str, name: &[u8]) -> Result<Vec<u8>, AllocError>
    ensures front { IfOk result (λ front. front.items ≡ lines.file_front path.now name.now) }
{
    let mut front = front_of(alloc, path)?;
    push_shown(&mut front, name)?;
    Ok(front)
}

/// Appends the line of a file that was found by its name.
pub(crate) fn push_file(
    alloc: Global,
    text: &mut Vec<u8>,
    path: &str,
    name: &[u8],
) -> Result<(), AllocError>
    ensures text { OnOk result (text.new.items ≡ text.old.items ++ (lines.file_front path.now name.now ++ 10 ∷ [])) }
{
    let front = file_front(alloc, path, name)?;
    text.extend_from_slice(&front)?;
    text.push(b'\n')?;
    Ok(())
}

/// Appends the line of the line `line` of a text file. `front` has the path and the name of the file, and `number` is
/// the number of the line.
pub(crate) fn push_match(
    alloc: Global,
    text: &mut Vec<u8>,
    front: &[u8],
    number: usize,
    line: &[u8],
) -> Result<(), AllocError>
    ensures text { OnOk result (text.new.items ≡ text.old.items ++ lines.match_line front.now number line.now) }
{
    let place = format!(in alloc; ": {number}: ")?;
    text.extend_from_slice(front)?;
    text.extend_from_slice(place.as_bytes())?;
    text.extend_from_slice(line)?;
    text.push(b'\n')?;
    Ok(())
}
