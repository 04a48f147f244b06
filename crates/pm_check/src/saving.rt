//! Salvage: a new volume with the files of a damaged image.
ghost use Rattle.std.specs.List.Sorted.{IsPermutation};
ghost use Rattle.std.specs.Prelude.{◌≡◌, ◌≢◌, ◌∷◌, ◌++◌, ◌≤◌, Ok, Err, IfOk, IfErr, OnOk, length, string_bytes};
ghost use Rattle.pm_volume.specs.declared.fault.VolumeFault.{VolumeFault};
ghost use Rattle.pm_volume.specs.declared.fields.TheConstants.{DIRECTORY_SIZE};
ghost use Rattle.pm_volume.specs.Names.{characters_of};
ghost use Rattle.pm_check.specs.Believing.{blocks_of};
ghost use Rattle.pm_check.specs.Contents.{HasFilesOf, believed, believed_of, content_in, contents_of, contents_taken};
ghost use Rattle.pm_check.specs.Contents.{entries_taken};
ghost use Rattle.pm_check.specs.Naming.{free_name};
ghost use Rattle.pm_check.specs.Report.{taken_line};
ghost use Rattle.pm_volume.specs.Files.{bytes_of};
ghost use Rattle.pm_check.specs.Saving.{IsSaved, image_blocks, room_for, salvaged, saved, saved_by};
ghost use Rattle.pm_check.specs.Saving.{saved_from, saved_one};

use crate::believing::{Left, Taken, sharing, taken_and_left};
use crate::naming::{free_name, volume_name};
use crate::notes::header_name;
use crate::report::{Doubt, counted, doubt_of, push_all_left, push_last, push_taken};
use pm_bytes::{BLOCK, word};
use pm_volume::fields::{
    DIRECTORY, DIRECTORY_END, HEADER_FILES, PAST_DIRECTORY, PAST_SECOND, SECOND, SECOND_END,
};
use pm_volume::{Entry, Volume, VolumeFault};
use std::alloc::Global;

/// The result of a salvage: a new volume, and a report.
#[derive(Drop)]
pub struct Salvaged {
    /// The image of the new volume.
    pub image: Vec<u8>,
    /// The report: a line for each entry that is copied or left out, and a last line.
    pub text: String,
}

// Returns the bytes of the file of `entry` in `image`. Returns no bytes if they are not all in `image`.
#[tactic(auto, unfolding(pm_volume::specs::Files::file_bytes))]
fn bytes_of<'a>(image: &'a [u8], entry: &Entry) -> &'a [u8]
    ensures bytes { result.now ≡ bytes_of image.now entry.now }
{
    if entry.end <= entry.first {
        return &[];
    }
    let begin = BLOCK * usize::from(entry.first);
    let end = BLOCK * (usize::from(entry.end) - 1) + usize::from(entry.last_bytes);
    image.get(begin..end).unwrap_or(&[])
}

// Adds the file of `file`, from `image`, to `volume`, and its line to `text`. `doubt` states why the file is suspect.
#[tactic(auto, unfolding(crate::specs::Saving::saved_one))]
fn save(
    alloc: Global,
    image: &[u8],
    file: &Taken,
    doubt: Doubt,
    volume: &mut Volume,
    text: &mut String,
) -> Result<(), VolumeFault>
    ensures saved { OnOk result (saved_one image.now volume.old file.now.entry ≡ Ok volume.new) }
    ensures text { OnOk result (string_bytes text.new ≡ string_bytes text.old
        ++ taken_line file.now.slot (free_name volume.old (characters_of file.now.entry.name)) doubt) }
    ensures content { OnOk result (IsPermutation (content_in image.now file.now.entry ∷ contents_of volume.old)
        (contents_of volume.new)) }
    ensures refusal { IfErr result (λ fault. fault ≢ VolumeFault.NoMemory →
        saved_one image.now volume.old file.now.entry ≡ Err fault) }
{
    let entry = file.entry;
    let Ok(name) = free_name(alloc, volume, entry.characters()) else {
        return Err(VolumeFault::NoMemory);
    };
    volume.add(
        name.as_str(),
        entry.kind,
        bytes_of(image, &entry),
        entry.date,
    )?;
    match push_taken(text, file.slot, name.as_str(), doubt) {
        Ok(()) => Ok(()),
        Err(_) => Err(VolumeFault::NoMemory),
    }
}

// Adds all files of `taken` to `volume`, and their lines to `text`. `count` is the number of files that the header
// states. Returns the number of suspect files.
fn save_all(
    alloc: Global,
    image: &[u8],
    taken: &[Taken],
    count: u16,
    volume: &mut Volume,
    text: &mut String,
) -> Result<usize, VolumeFault>
    requires few { length taken.now ≤ 77 }
    ensures saved { IfOk result (λ doubted. saved_from image.now taken.now count taken.now
        (record { volume = volume.old; text = string_bytes text.old; doubted = 0 })
        ≡ Ok (record { volume = volume.new; text = string_bytes text.new; doubted = doubted })) }
    ensures contents { OnOk result (IsPermutation (contents_taken image.now taken.now ++ contents_of volume.old)
        (contents_of volume.new)) }
    ensures refusal { IfErr result (λ fault. fault ≢ VolumeFault.NoMemory →
        saved_from image.now taken.now count taken.now
        (record { volume = volume.old; text = string_bytes text.old; doubted = 0 }) ≡ Err fault) }
{
    let mut doubted = 0;
    for file in taken {
        let doubt = doubt_of(count, file.slot, sharing(file, taken));
        save(alloc, image, file, doubt, volume, text)?;
        doubted = counted(doubted, doubt);
    }
    Ok(doubted)
}

// Returns the number of blocks of the new volume: `blocks`, or more if the files of `taken` need more, but at most
// 65,535.
#[tactic(auto, unfolding(crate::specs::Saving::room_for))]
fn room_for(blocks: u16, taken: &[Taken]) -> u16
    requires few { length taken.now ≤ 77 }
    ensures room { result ≡ room_for blocks taken.now }
{
    let mut need = usize::from(PAST_DIRECTORY);
    for file in taken {
        need += usize::from(file.entry.end.saturating_sub(file.entry.first));
    }
    let room = need.max(usize::from(blocks)).min(65535);
    room as u16
}

// Creates a volume with the name `name` and the files of the entries `taken` of `image`, and the report of the salvage.
// `count` is the number of files that the header states.
#[tactic(auto, unfolding(crate::specs::Saving::saved, crate::specs::Contents::HasFilesOf))]
fn save_entries(
    alloc: Global,
    image: &[u8],
    name: &str,
    blocks: u16,
    count: u16,
    taken: &[Taken],
    left: &[Left],
) -> Result<Salvaged, VolumeFault>
    requires few { length taken.now ≤ 77 }
    ensures saved { IfOk result (λ s. IsSaved s.image.items (string_bytes s.text)
        (saved image.now name.now blocks count taken.now left.now)) }
    ensures files { IfOk result (λ s. HasFilesOf image.now (entries_taken taken.now) s.image.items) }
    ensures refusal { IfErr result (λ fault. fault ≢ VolumeFault.NoMemory →
        saved image.now name.now blocks count taken.now left.now ≡ Err fault) }
{
    let mut volume = Volume::blank(alloc, name, room_for(blocks, taken))?;
    let mut text = String::new(alloc);
    let Ok(()) = push_all_left(&mut text, left) else {
        return Err(VolumeFault::NoMemory);
    };
    let doubted = save_all(alloc, image, taken, count, &mut volume, &mut text)?;
    let Ok(()) = push_last(&mut text, taken.len(), left.len(), doubted) else {
        return Err(VolumeFault::NoMemory);
    };
    let image = volume.into_bytes();
    Ok(Salvaged { image, text })
}

// Salvages `image`, which has `blocks` blocks, with the directory `directory`. An entry is invalid if it begins before
// block `lowest`.
#[tactic(auto, unfolding(crate::specs::Saving::saved_by))]
fn save_by(
    alloc: Global,
    image: &[u8],
    directory: &[u8],
    lowest: u16,
    blocks: u16,
) -> Result<Salvaged, VolumeFault>
    requires whole { length directory.now ≡ DIRECTORY_SIZE }
    ensures saved { IfOk result (λ s. IsSaved s.image.items (string_bytes s.text)
        (saved_by image.now directory.now lowest blocks)) }
    ensures files { IfOk result (λ s. HasFilesOf image.now (believed directory.now lowest blocks) s.image.items) }
    ensures refusal { IfErr result (λ fault. fault ≢ VolumeFault.NoMemory →
        saved_by image.now directory.now lowest blocks ≡ Err fault) }
{
    let Ok(name) = volume_name(alloc, header_name(directory)) else {
        return Err(VolumeFault::NoMemory);
    };
    let Ok((taken, left)) = taken_and_left(alloc, directory, lowest, blocks) else {
        return Err(VolumeFault::NoMemory);
    };
    let count = word(directory, HEADER_FILES);
    save_entries(alloc, image, name.as_str(), blocks, count, &taken, &left)
}

// Returns the number of whole blocks of `image`, at most 65,535.
fn image_blocks(image: &[u8]) -> u16
    ensures blocks { result ≡ image_blocks image.now }
{
    (image.len() / BLOCK).min(65535) as u16
}

/// Returns a new volume and a report. The volume has each file of `image` whose directory entry is valid without regard
/// to the other entries.
///
/// The image may have any bytes. If `second` is true, the second copy of the directory is used instead of the first.
/// The report has a line for each entry that is copied or left out, and a last line.
///
/// # Errors
///
/// Checked in this order:
/// - `TooShort`: `image` is too short to have the selected copy of the directory.
/// - The faults of `Volume::blank` and `Volume::add`: `NoRoom` if the files need more than 65,535 blocks, and
///   `NoMemory`.
#[tactic(auto, unfolding(crate::specs::Saving::salvaged, crate::specs::Contents::believed_of))]
pub fn salvage(alloc: Global, image: &[u8], second: bool) -> Result<Salvaged, VolumeFault>
    ensures saved { IfOk result (λ s. IsSaved s.image.items (string_bytes s.text) (salvaged image.now second)) }
    ensures files { IfOk result (λ s. HasFilesOf image.now (believed_of image.now second) s.image.items) }
    ensures refusal { IfErr result (λ fault. fault ≢ VolumeFault.NoMemory → salvaged image.now second ≡ Err fault) }
{
    let blocks = image_blocks(image);
    if second {
        if image.len() < SECOND_END {
            return Err(VolumeFault::TooShort);
        }
        save_by(
            alloc,
            image,
            &image[SECOND..SECOND_END],
            PAST_SECOND,
            blocks,
        )
    } else {
        if image.len() < DIRECTORY_END {
            return Err(VolumeFault::TooShort);
        }
        save_by(
            alloc,
            image,
            &image[DIRECTORY..DIRECTORY_END],
            PAST_DIRECTORY,
            blocks,
        )
    }
}
