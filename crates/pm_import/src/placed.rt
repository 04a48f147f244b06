//! A file of a folder, added to a volume.
ghost use Rattle.std.specs.Prelude.{◌≡◌, ◌≢◌, Ok, Err, IfErr, IfOk, OnErr, OnOk, option_map, string_bytes};
ghost use Rattle.std.specs.Prelude.{None, Some};
ghost use Rattle.percent_encoding.specs.Percent.{percent_decode};
ghost use Rattle.pm_filer.specs.Filed.{bytes_of_file};
ghost use Rattle.pm_import.specs.Listed.{seen, utf8_of};
ghost use Rattle.pm_import.specs.Placed as placed;
ghost use Rattle.pm_volume.specs.Directory.{IsVolume};
ghost use Rattle.pm_volume.specs.Files.{file_named};
ghost use Rattle.pm_volume.specs.Made.{added};
ghost use Rattle.pm_volume.specs.declared.fault.VolumeFault.TheVariants.{BadName};

use crate::feeds::with_feeds;
use crate::listed::{Listed, utf8_of};
use percent_encoding::percent_decode;
use pm_filer::FilerFault;
use pm_folder::{Ends, How};
use pm_textfile::{decode, encode};
use pm_volume::{Volume, VolumeFault};
use std::alloc::{AllocError, Global};

/// The length of the header of a text file in bytes.
const HEADER: usize = 1024;

/// Returns the bytes of a file on the volume, from its contents in the folder.
fn stored_for(alloc: Global, how: How, ends: Ends, contents: &[u8]) -> Result<Vec<u8>, FilerFault>
    ensures bytes { IfOk result (λ bytes. placed.stored_for how ends contents.now ≡ Ok bytes.items) }
    ensures refusal { IfErr result (λ fault. fault ≢ FilerFault.NoMemory
        → placed.stored_for how ends contents.now ≡ Err fault) }
{
    match how {
        How::Bytes => Ok(Vec::from_slice(alloc, contents)?),
        How::Text => {
            let text = with_feeds(alloc, contents, ends)?;
            Ok(encode(alloc, &text)?)
        }
    }
}

/// Whether two text files have the same text.
fn is_same_text(alloc: Global, old: &[u8], new: &[u8]) -> Result<bool, AllocError>
    ensures same { IfOk result (λ same. same ≡ placed.is_same How.Text old.now new.now) }
{
    if old.len() < HEADER || new.len() < HEADER {
        return Ok(false);
    }
    let (Ok(old), Ok(new)) = (decode(alloc, old), decode(alloc, new)) else {
        return Err(AllocError);
    };
    Ok(old.as_slice() == new.as_slice())
}

/// Whether two files have the same contents: the same text, or the same bytes.
fn is_same(alloc: Global, how: How, old: &[u8], new: &[u8]) -> Result<bool, AllocError>
    ensures same { IfOk result (λ same. same ≡ placed.is_same how old.now new.now) }
{
    match how {
        How::Bytes => Ok(old == new),
        How::Text => is_same_text(alloc, old, new),
    }
}

/// Returns the bytes of the first file with this name.
fn file_bytes<'a>(volume: &'a Volume, name: &str) -> Option<&'a [u8]>
    ensures bytes { option_map (λ bytes. bytes.now) result
        ≡ bytes_of_file volume.now (file_named volume.now name.now) }
{
    volume.file(&volume.find(name)?)
}

/// Whether a volume has a file of this name with the same contents.
fn has_same(
    alloc: Global,
    volume: &Volume,
    name: &str,
    how: How,
    bytes: &[u8],
) -> Result<bool, AllocError>
    ensures same { IfOk result (λ same. same ≡ placed.has_same volume.now name.now how bytes.now) }
{
    match file_bytes(volume, name) {
        Some(old) => is_same(alloc, how, old, bytes),
        None => Ok(false),
    }
}

/// Returns the name of a file from its name with escapes.
///
/// # Errors
///
/// `BadName` if the name is not UTF-8. `NoMemory`.
fn decoded(alloc: Global, name: &[u8]) -> Result<String, FilerFault>
    ensures name { IfOk result (λ decoded. utf8_of (percent_decode name.now) ≡ Some (string_bytes decoded)) }
    ensures refusal { IfErr result (λ fault. fault ≢ FilerFault.NoMemory
        → (fault ≡ FilerFault.Volume BadName) × (utf8_of (percent_decode name.now) ≡ None)) }
{
    let mut bytes = Vec::new(alloc);
    percent_decode(name).append_to(&mut bytes)?;
    match utf8_of(&bytes) {
        Some(name) => Ok(String::from_str(alloc, name)?),
        None => Err(FilerFault::Volume(VolumeFault::BadName)),
    }
}

/// Adds a file to a volume.
#[tactic(auto, using(pm_filer::proofs::Made::made))]
fn add(
    volume: &mut Volume,
    name: &str,
    kind: u8,
    bytes: &[u8],
    date: u16,
) -> Result<(), VolumeFault>
    ensures done { OnOk result (added volume.old name.now kind bytes.now date ≡ Ok volume.new) }
    ensures refusal { IfErr result (λ fault. added volume.old name.now kind bytes.now date ≡ Err fault) }
    ensures unchanged { OnErr result (volume.new ≡ volume.old) }
    ensures volume { IsVolume volume.old → IsVolume volume.new }
{
    match volume.add(name, kind, bytes, date) {
        Ok(_) => Ok(()),
        Err(fault) => Err(fault),
    }
}

/// Adds a file to a volume, with this name and the kind and date of its line. If the volume has a file of this name with
/// the same contents, nothing changes.
fn place_named(
    alloc: Global,
    volume: &mut Volume,
    name: &str,
    line: &Listed<'_>,
    bytes: &[u8],
) -> Result<(), FilerFault>
    ensures placed { OnOk result
        (placed.placed_named volume.old (Some name.now) (seen line.now) bytes.now ≡ Ok volume.new) }
    ensures refusal { IfErr result (λ fault. fault ≢ FilerFault.NoMemory
        → placed.placed_named volume.old (Some name.now) (seen line.now) bytes.now ≡ Err fault) }
    ensures unchanged { OnErr result (volume.new ≡ volume.old) }
    ensures volume { IsVolume volume.old → IsVolume volume.new }
{
    if has_same(alloc, volume, name, line.how, bytes)? {
        return Ok(());
    }
    add(volume, name, line.kind, bytes, line.date)?;
    Ok(())
}

/// Adds a file of a folder to a volume, with the name, kind and date of its line. If the volume has a file of this name
/// with the same contents, nothing changes.
///
/// # Errors
///
/// The volume is unchanged.
///
/// - `Text`: a text file cannot contain the text.
/// - `Volume`: the name is not UTF-8, or the volume refuses the file.
/// - `NoMemory` at any of these steps.
#[tactic(auto, unfolding(crate::specs::Placed::placed))]
pub(crate) fn place(
    alloc: Global,
    volume: &mut Volume,
    line: &Listed<'_>,
    ends: Ends,
    contents: &[u8],
) -> Result<(), FilerFault>
    ensures placed { OnOk result (placed.placed ends volume.old (seen line.now) contents.now ≡ Ok volume.new) }
    ensures refusal { IfErr result (λ fault. fault ≢ FilerFault.NoMemory
        → placed.placed ends volume.old (seen line.now) contents.now ≡ Err fault) }
    ensures unchanged { OnErr result (volume.new ≡ volume.old) }
    ensures volume { IsVolume volume.old → IsVolume volume.new }
{
    let bytes = stored_for(alloc, line.how, ends, contents)?;
    let name = decoded(alloc, line.name)?;
    place_named(alloc, volume, name.as_str(), line, &bytes)
}
