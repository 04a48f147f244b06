//! Name patterns, and the files whose names match a pattern.
ghost use Rattle.std.specs.Prelude.{◌≡◌, ◌==◌, ◌<◌, Ok, Err, IfErr, IfSome, OnErr, OnOk, length, slice_get};
ghost use Rattle.std.specs.List.{list_any, position};
ghost use Rattle.pm_volume.specs.Directory.{IsVolume};
ghost use Rattle.pm_volume.specs.Files.{files_of};
ghost use Rattle.pm_volume.specs.Made.{slot_removed};
ghost use Rattle.pm_filer.specs.Fitting.{changed_or, fits, fitting_removed, is_around, is_fitting, is_fitting_there};
ghost use Rattle.pm_filer.specs.Fitting.{without_first, without_fitting};

use pm_volume::{Entry, Volume, VolumeFault, is_same_name};

/// Is true if `name` begins with `begin` and ends with `end`, and the two do not overlap in `name`. Case is ignored.
fn is_around(begin: &[u8], end: &[u8], name: &[u8]) -> bool
    ensures around { result ≡ is_around begin.now end.now name.now }
{
    let Some(rest) = name.len().checked_sub(end.len()) else {
        return false;
    };
    begin.len() <= rest
        && is_same_name(begin, &name[..begin.len()])
        && is_same_name(end, &name[rest..])
}

/// Returns the index of the first `=` of `pattern`, or `None`.
fn first_equals(pattern: &[u8]) -> Option<usize>
    ensures place { result ≡ position (λ c. c == 61) pattern.now }
    ensures within { IfSome result (λ place. place < length pattern.now) }
{
    pattern.iter().position(|c| *c == b'=')
}

/// Is true if `name` matches `pattern`. Case is ignored. The first `=` of the pattern matches any number of characters,
/// also none. A pattern without `=` matches only the equal name.
#[tactic(auto, unfolding(crate::specs::Fitting::fits))]
pub fn fits(pattern: &str, name: &[u8]) -> bool
    ensures fits { result ≡ fits pattern.now name.now }
{
    let pattern = pattern.as_bytes();
    match first_equals(pattern) {
        Some(place) => is_around(&pattern[..place], &pattern[place + 1..], name),
        None => is_same_name(pattern, name),
    }
}

/// Is true if the name of the file of `entry` matches `pattern`.
pub(crate) fn is_fitting(pattern: &str, entry: &Entry) -> bool
    ensures fits { result ≡ is_fitting pattern.now entry.now }
{
    fits(pattern, entry.characters())
}

/// Is true if the name of at least one file of `volume` matches `pattern`.
fn has_fitting(volume: &Volume, pattern: &str) -> bool
    ensures some { result ≡ list_any (is_fitting pattern.now) (files_of volume.now) }
{
    volume.entries().any(|entry| is_fitting(pattern, &entry))
}

/// Returns the entry of the file that has `before` files before it in the list of files.
fn file_behind(volume: &Volume, before: u16) -> Option<Entry>
    ensures file { result ≡ slice_get (files_of volume.now) before }
{
    volume.entries().nth(usize::from(before))
}

/// Is true if a file with `before` files before it exists, and its name matches `pattern`.
fn is_fitting_behind(volume: &Volume, pattern: &str, before: u16) -> bool
    ensures there { result ≡ is_fitting_there pattern.now (slice_get (files_of volume.now) before) }
{
    match file_behind(volume, before) {
        Some(entry) => is_fitting(pattern, &entry),
        None => false,
    }
}

/// Removes the file in directory slot `slot`, if the slot has a file.
fn remove_there(volume: &mut Volume, slot: u16)
    ensures removed { volume.new ≡ changed_or volume.old (slot_removed volume.old slot) }
    ensures volume { IsVolume volume.old → IsVolume volume.new }
{
    match volume.remove_slot(slot) {
        Ok(()) => {}
        Err(_) => {}
    }
}

/// Removes the file that has `before` files before it, if its name matches `pattern`.
fn remove_if_fitting(volume: &mut Volume, pattern: &str, before: u16)
    requires low { before < 65535 }
    ensures removed { volume.new ≡ without_fitting pattern.now before volume.old }
    ensures volume { IsVolume volume.old → IsVolume volume.new }
{
    if is_fitting_behind(volume, pattern, before) {
        remove_there(volume, before + 1);
    }
}

/// Removes the files among the first `count` whose names match `pattern`. The last file is removed first.
fn remove_first(volume: &mut Volume, pattern: &str, count: u16)
    ensures removed { volume.new ≡ without_first pattern.now count volume.old }
    ensures volume { IsVolume volume.old → IsVolume volume.new }
{
    let mut before = count;
    'slots: while before > 0 {
        before -= 1;
        remove_if_fitting(volume, pattern, before);
    }
}

/// Removes all files whose names match `pattern`. Fails with `NoFile` if no name matches; the volume is then unchanged.
#[tactic(auto, unfolding(crate::specs::Fitting::fitting_removed))]
pub(crate) fn remove_fitting(volume: &mut Volume, pattern: &str) -> Result<(), VolumeFault>
    ensures removed { OnOk result (fitting_removed volume.old pattern.now ≡ Ok volume.new) }
    ensures volume { IsVolume volume.old → IsVolume volume.new }
    ensures refusal { IfErr result (λ fault. fitting_removed volume.old pattern.now ≡ Err fault) }
    ensures unchanged { OnErr result (volume.new ≡ volume.old) }
{
    if !has_fitting(volume, pattern) {
        return Err(VolumeFault::NoFile);
    }
    let count = volume.entries().count();
    remove_first(volume, pattern, count as u16);
    Ok(())
}
