//! The lock of a file at a path that is optional.
ghost use Rattle.std.specs.Prelude.{◌≡◌, OnOk, option_map, string_bytes};
ghost use Rattle.pm_paths.specs.Locks.{held_at};

use pm_files::{DiskFault, Store};

/// Locks the file at `path`. Does nothing if `path` is `None`. No file changes.
///
/// # Errors
///
/// - The file cannot be locked: the error of `Store::hold`.
pub fn hold_at<S: Store>(store: &mut S, path: &Option<String>) -> Result<(), DiskFault>
    ensures stays { S.files store.new ≡ S.files store.old }
    ensures held { OnOk result (
        S.held store.new ≡ held_at (option_map string_bytes path.now) (S.held store.old)) }
{
    match path {
        Some(path) => store.hold(path.as_str()),
        None => Ok(()),
    }
}
