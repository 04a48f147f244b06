//! The listed files of a volume, with their slots.
ghost use Rattle.std.specs.Prelude.{◌≡◌, ◌++◌, IfOk, OnOk, option_map, string_bytes};
ghost use Rattle.pm_table.specs.Rows as listing;
ghost use Rattle.pm_volume.specs.Files.{bytes_of};

use pm_filer::fits;
use pm_volume::{Entry, Volume};
use std::alloc::{AllocError, Global};

/// A file, with its slot in the directory, from 1.
#[derive(Clone, Copy)]
pub(crate) struct TableRow {
    pub slot: u16,
    pub entry: Entry,
}

/// Returns the bytes of the file of `entry` on `volume`, as `files get` returns them.
pub(crate) fn bytes_of<'a>(volume: &'a Volume, entry: &Entry) -> &'a [u8]
    ensures bytes { result.now ≡ bytes_of volume.now entry.now }
{
    volume.file(entry).unwrap_or(&[])
}

/// Returns whether the file of `entry` is listed: its name matches `pattern`, or `pattern` is `None`.
fn is_listed(pattern: &Option<String>, entry: &Entry) -> bool
    ensures value { result ≡ listing.is_listed (option_map string_bytes pattern.now) entry.now }
{
    match pattern {
        Some(pattern) => fits(pattern.as_str(), entry.characters()),
        None => true,
    }
}

/// Appends the file in the slot `slot` to `rows` if it is listed.
fn push_listed(
    rows: &mut Vec<TableRow>,
    pattern: &Option<String>,
    slot: u16,
    entry: Entry,
) -> Result<(), AllocError>
    ensures rows { OnOk result (rows.new.items
        ≡ rows.old.items ++ listing.if_listed (option_map string_bytes pattern.now) slot entry) }
{
    if is_listed(pattern, &entry) {
        rows.push(TableRow { slot, entry })?;
    }
    Ok(())
}

/// Returns the files of `volume` whose names match `pattern`, in the order of their slots. Returns all files if
/// `pattern` is `None`.
pub(crate) fn rows_of(
    alloc: Global,
    volume: &Volume,
    pattern: &Option<String>,
) -> Result<Vec<TableRow>, AllocError>
    ensures rows { IfOk result (λ rows.
        rows.items ≡ listing.rows_of (option_map string_bytes pattern.now) volume.now) }
{
    let mut rows = Vec::new(alloc);
    let mut slot = 1;
    let mut entries = volume.entries();
    'files: while let Some(entry) = entries.next() {
        push_listed(&mut rows, pattern, slot, entry)?;
        slot += 1;
    }
    Ok(rows)
}
