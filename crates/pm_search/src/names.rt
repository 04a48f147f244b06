//! The files of a volume whose names match a pattern.
ghost use Rattle.std.specs.Prelude.{◌≡◌, IfOk};
ghost use Rattle.pm_search.specs.Lines.{names_text};

use crate::lines::push_file;
use pm_filer::fits;
use pm_volume::Volume;
use std::alloc::{AllocError, Global};

/// Returns a line for each file of `volume` whose name matches `pattern`, in directory order.
pub(crate) fn names_text(
    alloc: Global,
    path: &str,
    volume: &Volume,
    pattern: &str,
) -> Result<Vec<u8>, AllocError>
    ensures text { IfOk result (λ text. text.items ≡ names_text path.now volume.now pattern.now) }
{
    let mut text = Vec::new(alloc);
    let mut entries = volume.entries();
    'files: while let Some(entry) = entries.next() {
        if fits(pattern, entry.characters()) {
            push_file(alloc, &mut text, path, entry.characters())?;
        }
    }
    Ok(text)
}
