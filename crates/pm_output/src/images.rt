//! The image in which the output of a job results.
ghost use Rattle.std.specs.Prelude.{◌≡◌, IsSome, OnErr, OnOk, Some, option_map, vec_items};
ghost use Rattle.pm_files.specs.Held.{Saves};

use pm_files::{DiskFault, Store};

/// Saves `image` at `path`. Does nothing if `image` is `None`. On an error, no file has changed.
///
/// # Errors
///
/// - There is an image, and the file cannot be written: the error of `Store::put`.
pub fn save_image<S: Store>(
    store: &mut S,
    path: &str,
    image: &Option<Vec<u8>>,
) -> Result<(), DiskFault>
    ensures saved { OnOk result (
        Saves (S.files store.old) (S.files store.new) path.now (option_map vec_items image.now)) }
    ensures held { S.held store.new ≡ S.held store.old }
    ensures some { OnErr result (IsSome image.now) }
    ensures unchanged { OnErr result (S.files store.new ≡ S.files store.old) }
{
    match image {
        Some(image) => store.put(path, image.as_slice()),
        None => Ok(()),
    }
}
