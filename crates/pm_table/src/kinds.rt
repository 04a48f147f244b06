//! The text of a kind.
ghost use Rattle.std.specs.Prelude.{◌≡◌, ◌++◌, OnOk};
ghost use Rattle.pm_folder.specs.Folder.{kind_text};

use pm_filer::kind_word;
use std::alloc::{AllocError, Global};

/// Appends the word for the kind `kind` to `text`, or its number if it has no word.
pub(crate) fn push_kind(alloc: Global, text: &mut Vec<u8>, kind: u8) -> Result<(), AllocError>
    ensures text { OnOk result (text.new.items ≡ text.old.items ++ kind_text kind) }
{
    match kind_word(kind) {
        Some(word) => text.extend_from_slice(word.as_bytes())?,
        None => {
            let number = format!(in alloc; "{kind}")?;
            text.extend_from_slice(number.as_bytes())?;
        }
    }
    Ok(())
}
