//! The commands on a volume, and their replies. A directory slot is numbered from 1, in the order of the list of files.
ghost use Rattle.std.specs.Prelude.{◌≡◌, ◌≢◌, Ok, Err, Some, None, IfOk, IfErr, IsErrOf, OnErr, OnOk, false};
ghost use Rattle.std.specs.Prelude.{true, if◌then◌else◌};
ghost use Rattle.pm_volume.specs.declared.fault.VolumeFault.TheVariants.{NoFile};
ghost use Rattle.pm_volume.specs.Made.{added, kind_set, renamed, slot_kind_set, slot_renamed, zeroed};
ghost use Rattle.pm_volume.specs.Directory.{IsVolume, directory_of, image_fault};
ghost use Rattle.pm_volume.specs.Files.{file_named};
ghost use Rattle.pm_volume.specs.Dates.{date_word, is_date};
ghost use Rattle.pm_volume.specs.Headers.{dated_image, last_date_of};
ghost use Rattle.pm_filer.specs.Listing.{fitting_list_text};
ghost use Rattle.pm_textfile.specs.Writing.{text_fault};
ghost use Rattle.pm_filer.specs.Filed.{Done, Filed, Lines, Looks, MayWantMemory, answer_of, bytes_of_file, copied};
ghost use Rattle.pm_filer.specs.Filed.{copied_from, file_in_slot, filed, lent, order_of, text_read, text_written};

use crate::fault::FilerFault;
use crate::fitting::remove_fitting;
use crate::listing::{fitting_list_text, full_list_text, list_text};
use pm_volume::kinds::TEXT;
use pm_volume::{Date, Entry, Volume, VolumeFault};
use std::alloc::Global;

/// A command on the files of a volume.
#[derive(Drop)]
pub enum FileCommand {
    /// Lists the files.
    List,
    /// Returns the bytes of the first file with this name.
    Get(String),
    /// Adds a file with this name, this kind (low four bits) and these bytes. Its date is the last date of the volume.
    Put(String, u8, Vec<u8>),
    /// Removes the first file with this name.
    Remove(String),
    /// Renames the first file with the first name. Its new name is the second name.
    Change(String, String),
    /// Returns the text of the first file with this name, which must be a text file.
    GetText(String),
    /// Converts this text to a text file, and adds it under this name. Its date is the last date of the volume.
    PutText(String, Vec<u8>),
    /// Moves the files together. Bad blocks do not move. The number of free blocks is unchanged. If the volume has no
    /// bad blocks, the free blocks are then one gap.
    Krunch,
    /// Sets the last date of the volume: year 0 to 127, month 1 to 12, day 1 to 31.
    Date(u8, u8, u8),
    /// Removes all files, and changes the volume's name to this name.
    Zero(String),
    /// Creates a second copy of the directory. The command is refused if a file begins below block 10.
    Duplicate,
    /// Removes the second copy of the directory.
    Single,
    /// Returns the bytes of the file in this directory slot.
    GetSlot(u16),
    /// Returns the text of the file in this directory slot, which must be a text file.
    GetTextSlot(u16),
    /// Removes the file in this directory slot. A file with the same name in another slot is unchanged.
    RemoveSlot(u16),
    /// Renames the file in this directory slot to this name. A file with the old name in another slot is unchanged.
    ChangeSlot(u16, String),
    /// Sets the kind of the first file with this name to the low four bits of this number.
    Kind(String, u8),
    /// Sets the kind of the file in this directory slot to the low four bits of the second number. A file with the same
    /// name in another slot is unchanged.
    KindSlot(u16, u8),
    /// Copies the first file with this name from the volume in this image, with its kind and date.
    Copy(String, Vec<u8>),
    /// Copies the file in this directory slot from the volume in this image, with its kind and date. The copy has this
    /// name.
    CopySlot(u16, String, Vec<u8>),
    /// Lists the files with their slots and the numbers of their kinds, and the free blocks between the files.
    ListAll,
    /// Lists the files whose names match this pattern.
    ListFitting(String),
    /// Removes all files whose names match this pattern. The command is refused if no name matches.
    RemoveFitting(String),
}

/// The reply to a command.
#[derive(Drop)]
pub enum Reply {
    /// Lines of text, each of which ends with a line feed.
    Lines(String),
    /// The bytes of a file, or of its text.
    Bytes(Vec<u8>),
    /// No data. The volume was changed.
    Done,
}

// Returns the bytes of the file of `entry`. Fails with `NoFile` if `entry` is `None`, or if the bytes are not all in
// the image.
fn bytes_of_file(volume: &Volume, entry: Option<Entry>) -> Result<&[u8], VolumeFault>
    ensures bytes { IfOk result (λ bytes. bytes_of_file volume.now entry ≡ Some bytes.now) }
    ensures refusal { IfErr result (λ fault. (fault ≡ NoFile) × (bytes_of_file volume.now entry ≡ None)) }
{
    let entry = entry.ok_or(VolumeFault::NoFile)?;
    volume.file(&entry).ok_or(VolumeFault::NoFile)
}

// Returns the bytes of the file of `entry` as a reply. Fails as `bytes_of_file` does.
fn get(alloc: Global, volume: &Volume, entry: Option<Entry>) -> Result<Reply, FilerFault>
    ensures looks { Looks volume.now result (lent volume.now (bytes_of_file volume.now entry)) }
{
    let bytes = bytes_of_file(volume, entry)?;
    Ok(Reply::Bytes(bytes.to_vec(alloc)?))
}

// Returns the text of the text file of `entry` as a reply.
fn get_text(alloc: Global, volume: &Volume, entry: Option<Entry>) -> Result<Reply, FilerFault>
    ensures looks { Looks volume.now result (text_read volume.now (bytes_of_file volume.now entry)) }
{
    let bytes = bytes_of_file(volume, entry)?;
    let text = pm_textfile::decode(alloc, bytes)?;
    Ok(Reply::Bytes(text))
}

// Returns the entry of the file in slot `slot` of the directory, or `None` if the slot has no file.
fn in_slot(volume: &Volume, slot: u16) -> Option<Entry>
    ensures file { result ≡ file_in_slot volume.now slot }
{
    let place = usize::from(slot).checked_sub(1)?;
    volume.entries().nth(place)
}

// Converts `text` to a text file, and adds it to `volume` under the name `name`.
fn put_text(alloc: Global, volume: &mut Volume, name: &str, text: Vec<u8>) -> Result<(), FilerFault>
    ensures done { OnOk result
        (text_written volume.old name.now text.items (text_fault text.items)
        ≡ Ok (record { image = volume.new; answer = Done })) }
    ensures volume { OnOk result (IsVolume volume.new) }
    ensures refusal { IfErr result
        (λ fault. fault ≢ FilerFault.NoMemory →
        text_written volume.old name.now text.items (text_fault text.items) ≡ Err fault) }
    ensures unchanged { OnErr result (volume.new ≡ volume.old) }
{
    let bytes = pm_textfile::encode(alloc, &text)?;
    put(volume, name, TEXT, &bytes)?;
    Ok(())
}

// Removes all files of `volume`, and changes its name to `name`.
#[tactic(auto, using(crate::proofs::Made::made))]
fn forget(volume: &mut Volume, name: &str) -> Result<(), VolumeFault>
    ensures done { OnOk result (zeroed volume.old name.now ≡ Ok volume.new) }
    ensures volume { OnOk result (IsVolume volume.new) }
    ensures refusal { IfErr result (λ fault. zeroed volume.old name.now ≡ Err fault) }
    ensures unchanged { OnErr result (volume.new ≡ volume.old) }
{
    volume.zero(name)?;
    Ok(())
}

// Adds a file to `volume`. Its date is the last date of the volume.
#[tactic(auto, using(crate::proofs::Made::made))]
fn put(volume: &mut Volume, name: &str, kind: u8, bytes: &[u8]) -> Result<(), VolumeFault>
    ensures done { OnOk result
        (added volume.old name.now kind bytes.now (last_date_of (directory_of volume.old)) ≡ Ok volume.new) }
    ensures volume { OnOk result (IsVolume volume.new) }
    ensures refusal { IfErr result
        (λ fault. added volume.old name.now kind bytes.now (last_date_of (directory_of volume.old)) ≡ Err fault) }
    ensures unchanged { OnErr result (volume.new ≡ volume.old) }
{
    let date = volume.last_date();
    volume.add(name, kind, bytes, date)?;
    Ok(())
}

// Renames the first file with the name `old` to `new`.
fn change(volume: &mut Volume, old: &str, new: &str) -> Result<(), VolumeFault>
    ensures done { OnOk result (renamed volume.old old.now new.now ≡ Ok volume.new) }
    ensures volume { OnOk result (IsVolume volume.new) }
    ensures refusal { IfErr result (λ fault. renamed volume.old old.now new.now ≡ Err fault) }
    ensures unchanged { OnErr result (volume.new ≡ volume.old) }
{
    volume.rename(old, new)?;
    Ok(())
}

// Renames the file in directory slot `slot` to `new`.
fn change_slot(volume: &mut Volume, slot: u16, new: &str) -> Result<(), VolumeFault>
    ensures done { OnOk result (slot_renamed volume.old slot new.now ≡ Ok volume.new) }
    ensures volume { OnOk result (IsVolume volume.new) }
    ensures refusal { IfErr result (λ fault. slot_renamed volume.old slot new.now ≡ Err fault) }
    ensures unchanged { OnErr result (volume.new ≡ volume.old) }
{
    volume.rename_slot(slot, new)?;
    Ok(())
}

// Sets the kind of the first file with the name `name`.
#[tactic(auto, using(crate::proofs::Made::made))]
fn set_kind(volume: &mut Volume, name: &str, kind: u8) -> Result<(), VolumeFault>
    ensures done { OnOk result (kind_set volume.old name.now kind ≡ Ok volume.new) }
    ensures volume { OnOk result (IsVolume volume.new) }
    ensures refusal { IfErr result (λ fault. kind_set volume.old name.now kind ≡ Err fault) }
    ensures unchanged { OnErr result (volume.new ≡ volume.old) }
{
    volume.set_kind(name, kind)?;
    Ok(())
}

// Sets the kind of the file in directory slot `slot`.
#[tactic(auto, using(crate::proofs::Made::made))]
fn set_slot_kind(volume: &mut Volume, slot: u16, kind: u8) -> Result<(), VolumeFault>
    ensures done { OnOk result (slot_kind_set volume.old slot kind ≡ Ok volume.new) }
    ensures volume { OnOk result (IsVolume volume.new) }
    ensures refusal { IfErr result (λ fault. slot_kind_set volume.old slot kind ≡ Err fault) }
    ensures unchanged { OnErr result (volume.new ≡ volume.old) }
{
    volume.set_slot_kind(slot, kind)?;
    Ok(())
}

// Copies the file of `entry` from the volume `from` to `volume`, under the name `name`, with its kind and date.
#[tactic(auto, using(crate::proofs::Made::made))]
fn copy(
    volume: &mut Volume,
    name: &str,
    from: &Volume,
    entry: Option<Entry>,
) -> Result<(), VolumeFault>
    ensures done { OnOk result (copied volume.old name.now from.now entry ≡ Ok volume.new) }
    ensures volume { OnOk result (IsVolume volume.new) }
    ensures refusal { IfErr result (λ fault. copied volume.old name.now from.now entry ≡ Err fault) }
    ensures unchanged { OnErr result (volume.new ≡ volume.old) }
{
    let entry = entry.ok_or(VolumeFault::NoFile)?;
    let bytes = from.file(&entry).ok_or(VolumeFault::NoFile)?;
    volume.add(name, entry.kind, bytes, entry.date)?;
    Ok(())
}

// Opens `image` as a volume.
fn opened(image: Vec<u8>) -> Result<Volume, VolumeFault>
    ensures opened { IfOk result (λ v. v ≡ image.items) }
    ensures sound { OnOk result (image_fault image.items ≡ None) }
    ensures refusal { IfErr result (λ fault. image_fault image.items ≡ Some fault) }
{
    match Volume::open(image) {
        Ok(volume) => Ok(volume),
        Err((fault, _)) => Err(fault),
    }
}

// Copies the first file with the name `name` from the volume in `image` to `volume`.
fn copy_named(volume: &mut Volume, name: &str, image: Vec<u8>) -> Result<(), VolumeFault>
    ensures done { OnOk result
        (copied_from volume.old name.now image.items (file_named image.items name.now) (image_fault image.items)
        ≡ Ok volume.new) }
    ensures volume { OnOk result (IsVolume volume.new) }
    ensures refusal { IfErr result (λ fault.
        copied_from volume.old name.now image.items (file_named image.items name.now) (image_fault image.items)
        ≡ Err fault) }
    ensures unchanged { OnErr result (volume.new ≡ volume.old) }
{
    let from = opened(image)?;
    let entry = from.find(name);
    copy(volume, name, &from, entry)
}

// Copies the file in directory slot `slot` of the volume in `image` to `volume`, under the name `name`.
fn copy_slot(volume: &mut Volume, slot: u16, name: &str, image: Vec<u8>) -> Result<(), VolumeFault>
    ensures done { OnOk result
        (copied_from volume.old name.now image.items (file_in_slot image.items slot) (image_fault image.items)
        ≡ Ok volume.new) }
    ensures volume { OnOk result (IsVolume volume.new) }
    ensures refusal { IfErr result (λ fault.
        copied_from volume.old name.now image.items (file_in_slot image.items slot) (image_fault image.items)
        ≡ Err fault) }
    ensures unchanged { OnErr result (volume.new ≡ volume.old) }
{
    let from = opened(image)?;
    let entry = in_slot(&from, slot);
    copy(volume, name, &from, entry)
}

// Sets the last date of `volume`.
fn set_date(volume: &mut Volume, year: u8, month: u8, day: u8) -> Result<(), FilerFault>
    ensures good { OnOk result (is_date year month day ≡ true) }
    ensures dated { OnOk result (volume.new ≡ dated_image volume.old (date_word year month day)) }
    ensures volume { OnOk result (IsVolume volume.new) }
    ensures refusal { IfErr result (λ fault. (fault ≡ FilerFault.BadDate) × (is_date year month day ≡ false)) }
    ensures unchanged { OnErr result (volume.new ≡ volume.old) }
{
    let date = Date { year, month, day };
    let word = date.word().ok_or(FilerFault::BadDate)?;
    volume.set_date(word);
    Ok(())
}

// Returns the list of the files whose names match `pattern`.
fn list_fitting(alloc: Global, volume: &Volume, pattern: &str) -> Result<Reply, FilerFault>
    ensures lines { IfOk result (λ reply. answer_of reply ≡ Lines (fitting_list_text volume.now pattern.now)) }
    ensures refusal { IfErr result (λ fault. fault ≡ FilerFault.NoMemory) }
{
    Ok(Reply::Lines(fitting_list_text(alloc, volume, pattern)?))
}

// Returns the reply `Done`. The argument is the empty result of a call that changed the volume.
fn done(_changed: ()) -> Reply
    ensures done { result ≡ Reply.Done }
{
    Reply::Done
}

/// Executes `command` on `volume`.
///
/// Memory is needed only for a list, for the bytes or the text of a file, and for a text that is added.
///
/// # Errors
///
/// The fault of the command, or `NoMemory` if the host has no memory for the result. `volume` is unchanged.
#[tactic(auto, unfolding(crate::specs::Filed::filed), using(crate::proofs::Made::made))]
pub fn apply(alloc: Global, volume: &mut Volume, command: FileCommand) -> Result<Reply, FilerFault>
    ensures done { IfOk result
        (λ reply. filed volume.old (order_of command)
        ≡ Ok (record { image = volume.new; answer = answer_of reply })) }
    ensures refusal { IfErr result
        (λ fault. fault ≢ FilerFault.NoMemory → filed volume.old (order_of command) ≡ Err fault) }
    ensures memory { IsErrOf result FilerFault.NoMemory →
        MayWantMemory (order_of command) (filed volume.old (order_of command)) }
    ensures unchanged { OnErr result (volume.new ≡ volume.old) }
    ensures volume { IsVolume volume.old → IsVolume volume.new }
{
    match command {
        FileCommand::List => Ok(Reply::Lines(list_text(alloc, volume)?)),
        FileCommand::Get(name) => get(alloc, volume, volume.find(name.as_str())),
        FileCommand::Put(name, kind, bytes) => Ok(done(put(volume, name.as_str(), kind, &bytes)?)),
        FileCommand::Remove(name) => Ok(done(volume.remove(name.as_str())?)),
        FileCommand::Change(old, new) => Ok(done(change(volume, old.as_str(), new.as_str())?)),
        FileCommand::GetText(name) => get_text(alloc, volume, volume.find(name.as_str())),
        FileCommand::PutText(name, text) => Ok(done(put_text(alloc, volume, name.as_str(), text)?)),
        FileCommand::Krunch => Ok(done(volume.krunch())),
        FileCommand::Date(year, month, day) => Ok(done(set_date(volume, year, month, day)?)),
        FileCommand::Zero(name) => Ok(done(forget(volume, name.as_str())?)),
        FileCommand::Duplicate => Ok(done(volume.add_duplicate()?)),
        FileCommand::Single => Ok(done(volume.drop_duplicate())),
        FileCommand::GetSlot(slot) => get(alloc, volume, in_slot(volume, slot)),
        FileCommand::GetTextSlot(slot) => get_text(alloc, volume, in_slot(volume, slot)),
        FileCommand::RemoveSlot(slot) => Ok(done(volume.remove_slot(slot)?)),
        FileCommand::ChangeSlot(slot, new) => Ok(done(change_slot(volume, slot, new.as_str())?)),
        FileCommand::Kind(name, kind) => Ok(done(set_kind(volume, name.as_str(), kind)?)),
        FileCommand::KindSlot(slot, kind) => Ok(done(set_slot_kind(volume, slot, kind)?)),
        FileCommand::Copy(name, image) => Ok(done(copy_named(volume, name.as_str(), image)?)),
        FileCommand::CopySlot(slot, name, image) => {
            Ok(done(copy_slot(volume, slot, name.as_str(), image)?))
        }
        FileCommand::ListAll => Ok(Reply::Lines(full_list_text(alloc, volume)?)),
        FileCommand::ListFitting(pattern) => list_fitting(alloc, volume, pattern.as_str()),
        FileCommand::RemoveFitting(pattern) => Ok(done(remove_fitting(volume, pattern.as_str())?)),
    }
}
