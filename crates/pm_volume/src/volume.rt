//! Volumes: images whose directory is valid.

ghost use Rattle.std.specs.Prelude.{◌≡◌, ◌≢◌, ◌↔◌, ◌+◌, ◌≤◌, [], ◌∷◌, length, slice_index, slice_range, unwrap_or};
ghost use Rattle.std.specs.Prelude.{Err, None, Ok, Some, IfErr, IfOk, IfSome, IsOk, IsTrue, OnOk, OnErr, true, false};
ghost use Rattle.std.specs.Prelude.{ℕ};
ghost use Rattle.pm_volume.specs.Changes.{blocks_for};
ghost use Rattle.pm_volume.specs.Directory.{directory_of, file_count, image_fault};
ghost use Rattle.pm_volume.specs.declared.fields.TheConstants.{DIRECTORY_SIZE, HEADER_DATE, HEADER_NAME};
ghost use Rattle.pm_volume.specs.declared.fields.TheConstants.{LONGEST_NAME, LONGEST_VOLUME_NAME, MOST_FILES};
ghost use Rattle.pm_bytes.specs.declared.blocks.TheConstants.{BLOCK};

use crate::changes::{
    add_second, date_volume, drop_second, name_file, new_entry, put_file, renew_directory,
    take_file, type_file,
};
use crate::copies::{Copies, are_same, has_second, is_second_good, mirror, restore};
use crate::directory::{Entries, fault_of_directory, is_named_beside, slot_named, slot_numbered};
use crate::disk::{Disk, block_in};
use crate::entry::{Entry, is_new_name};
use crate::fault::VolumeFault;
use crate::fields::{
    DIRECTORY, DIRECTORY_END, HEADER_BLOCKS, HEADER_DATE, HEADER_FILES, HEADER_FILES_BEGIN,
    HEADER_NAME, LONGEST_NAME, LONGEST_VOLUME_NAME, MOST_FILES, PAST_DIRECTORY, PAST_SECOND,
    SECOND, SECOND_END,
};
use crate::gap::Gap;
use crate::packing::pack_files;
use crate::space::{Space, space_of};
use pm_bytes::{BLOCK, blocks_for, word};
use std::alloc::Global;
use std::marker::Model;

/// A volume: an image whose directory is valid. Contracts describe a volume as the list of the bytes of the image.
#[derive(Drop)]
pub struct Volume {
    bytes: Vec<u8>,
}

impl Model for Volume {
    ghost use Rattle.std.specs.Prelude.{ℕ, List};
    ghost use Rattle.pm_volume.specs.Directory.{IsVolume};

    ghost Value = { List ℕ };

    ghost view = { λ v. v.bytes.items };

    ghost invariant = { λ v. IsVolume v.bytes.items };
}

impl Volume {
    ghost use Rattle.pm_volume.specs.Changes.{added_spans, removed_spans, AddsFile, RemovesFile, RenamesFile};
    ghost use Rattle.pm_volume.specs.Changes.{SetsKind, place_for, slot_named, slot_numbered, slot_to_rename};
    ghost use Rattle.pm_volume.specs.Copies.{HasCopies, CopiesStay, and_second, repaired};
    ghost use Rattle.pm_volume.specs.declared.copies.Copies.TheVariants as copies;
    ghost use Rattle.pm_volume.specs.Made.{doubled, is_occupied, singled};
    ghost use Rattle.pm_volume.specs.Headers.{blank_fault, blank_image, dated_image, zeroed_image};
    ghost use Rattle.pm_volume.specs.Stays.{ChangesOnly, FilesStay, date_span, directory_span, kind_span, name_span};
    ghost use Rattle.pm_volume.specs.Stays.{past_span, second_span};
    ghost use Rattle.pm_volume.specs.Packing.{Krunches, krunched_image};
    ghost use Rattle.pm_volume.specs.Names.{is_new_name};
    ghost use Rattle.pm_volume.specs.Directory.{IsVolume, block_count};
    ghost use Rattle.pm_volume.specs.Disks.{block_of};
    ghost use Rattle.pm_volume.specs.Files.{file_bytes, file_named, files_of};
    ghost use Rattle.std.specs.List.{insert};
    ghost use Rattle.std.specs.Option.{option_map};
    ghost use Rattle.pm_volume.specs.Words.{word_in};
    ghost use Rattle.pm_volume.specs.Space.{free_blocks, largest_gap};

    /// Opens the image `bytes` as a volume.
    ///
    /// If the image has a second copy of the directory, in blocks 6 to 9, the first copy is used as long as it has no
    /// fault. This holds even if the two copies differ.
    ///
    /// # Errors
    ///
    /// The image is returned unchanged, with its first fault. The faults are checked in this order:
    /// - `NotBlocks`, `TooShort`, `BadHeader`;
    /// - `PastEnd`: the volume extends past the end of the image;
    /// - `TooManyFiles`;
    /// - for each entry: `BadEntry`, then `PastEnd`: the file extends past the end of the volume.
    ///
    /// From `BadHeader` on, the fault is `FirstCopyBad` instead if blocks 6 to 9 are a valid second copy.
    pub fn open(bytes: Vec<u8>) -> Result<Volume, (VolumeFault, Vec<u8>)>
        ensures accepted { IsOk result ↔ IsVolume bytes.items }
        ensures opened { IfOk result (λ v. v ≡ bytes.items) }
        ensures sound { OnOk result (image_fault bytes.items ≡ None) }
        ensures refusal { IfErr result (λ e. image_fault bytes.items ≡ Some e.0) }
        ensures returned { IfErr result (λ e. e.1 ≡ bytes) }
    {
        match fault_of_image(&bytes) {
            Some(fault) => Err((fault, bytes)),
            None => Ok(Volume { bytes }),
        }
    }

    /// Opens the image `bytes` as a volume, and repairs the first copy of its directory.
    ///
    /// If `open` returns `FirstCopyBad`, the first copy is overwritten with the second one. Otherwise the result is
    /// that of `open`.
    ///
    /// # Errors
    ///
    /// The image is returned unchanged, with the fault that `open` returns. This fault is never `FirstCopyBad`.
    #[tactic(auto, unfolding(crate::specs::Copies::repaired))]
    pub fn repair(bytes: Vec<u8>) -> Result<Volume, (VolumeFault, Vec<u8>)>
        ensures repaired { IfOk result (λ v. repaired bytes.items ≡ Ok v) }
        ensures volume { IfOk result (λ v. IsVolume v) }
        ensures refusal { IfErr result (λ e. repaired bytes.items ≡ Err e.0) }
        ensures returned { IfErr result (λ e. e.1 ≡ bytes) }
    {
        match fault_of_image(&bytes) {
            Some(VolumeFault::FirstCopyBad(_)) => {
                let mut bytes = bytes;
                restore(&mut bytes);
                Ok(Volume { bytes })
            }
            Some(fault) => Err((fault, bytes)),
            None => Ok(Volume { bytes }),
        }
    }

    /// Creates a volume with the name `name`, `blocks` blocks and no files. Its last date is 0. Except for the header,
    /// all bytes are zero.
    ///
    /// # Errors
    ///
    /// Checked in this order:
    /// - `BadName`: `name` is not a name of 1 to 7 characters.
    /// - `BadHeader`: `blocks` is less than 6.
    /// - `NoMemory`: the host has no memory for the image.
    #[tactic(auto, unfolding(crate::specs::Headers::blank_fault))]
    pub fn blank(alloc: Global, name: &str, blocks: u16) -> Result<Volume, VolumeFault>
        ensures made { IfOk result (λ v. v ≡ blank_image name.now blocks) }
        ensures volume { IfOk result (λ v. IsVolume v) }
        ensures copies { IfOk result (λ v. HasCopies v copies.Single) }
        ensures empty { IfOk result (λ v. files_of v ≡ []) }
        ensures sound { OnOk result (blank_fault name.now blocks ≡ None) }
        ensures refusal { IfErr result (λ fault. fault ≡ unwrap_or (blank_fault name.now blocks) VolumeFault.NoMemory) }
    {
        if !is_new_name(LONGEST_VOLUME_NAME, name.as_bytes()) {
            return Err(VolumeFault::BadName);
        }
        if blocks < PAST_DIRECTORY {
            return Err(VolumeFault::BadHeader);
        }
        let Ok(mut bytes) = vec![in alloc; 0; BLOCK * usize::from(blocks)] else {
            return Err(VolumeFault::NoMemory);
        };
        renew_directory(&mut bytes, PAST_DIRECTORY, name.as_bytes(), blocks, 0);
        Ok(Volume { bytes })
    }

    /// Returns the bytes of the image.
    pub fn into_bytes(self) -> Vec<u8>
        ensures image { result.items ≡ self }
        ensures volume { IsVolume result.items }
    {
        let Volume { bytes } = self;
        bytes
    }

    /// Returns the volume's name.
    pub fn name(&self) -> &[u8]
        ensures characters { result.now
            ≡ slice_range (directory_of self.now) (HEADER_NAME + 1)
            (HEADER_NAME + 1 + slice_index (directory_of self.now) HEADER_NAME) }
    {
        let directory = self.directory();
        let begin = HEADER_NAME + 1;
        &directory[begin..begin + usize::from(directory[HEADER_NAME])]
    }

    /// Returns the number of blocks of the volume.
    pub fn blocks(&self) -> u16
        ensures count { result ≡ block_count (directory_of self.now) }
    {
        word(self.directory(), HEADER_BLOCKS)
    }

    /// Returns the last date that was set, as a word.
    pub fn last_date(&self) -> u16
        ensures date { result ≡ word_in (directory_of self.now) HEADER_DATE }
    {
        word(self.directory(), HEADER_DATE)
    }

    /// Returns whether the volume has a second copy of its directory, and whether the two copies have the same bytes.
    pub fn duplicate(&self) -> Copies
        ensures copies { HasCopies self.now result }
    {
        let image = &self.bytes;
        if !has_second(image) {
            return Copies::Single;
        }
        if are_same(&image[DIRECTORY..DIRECTORY_END], &image[SECOND..SECOND_END]) {
            Copies::Same
        } else {
            Copies::Differs
        }
    }

    /// Returns the number of free blocks, and the number of blocks of the largest gap.
    #[tactic(auto, unfolding(crate::specs::Space::free_blocks, crate::specs::Space::largest_gap))]
    pub fn space(&self) -> Space
        ensures free { result.free ≡ free_blocks self.now }
        ensures largest { result.largest ≡ largest_gap self.now }
    {
        space_of(self.directory())
    }

    /// Returns the entries of the files, in block order.
    pub fn entries(&self) -> Entries<'_>
        ensures files { result ≡ files_of self.now }
        ensures few { length result ≤ MOST_FILES }
    {
        Entries::new(self.directory())
    }

    /// Returns the entry of the first file with the name `name`. Case is ignored.
    pub fn find(&self, name: &str) -> Option<Entry>
        ensures first { result ≡ file_named self.now name.now }
    {
        self.entries().find(|entry| entry.is_named(name))
    }

    /// Returns the bytes of the file of `entry`: the bytes of its blocks, but only the first `last_bytes` bytes of its
    /// last block. The result is empty if the file has no blocks.
    ///
    /// Returns `None` if these bytes are not all in the image, which is possible for an entry of another volume.
    #[tactic(auto, unfolding(crate::specs::Files::file_bytes))]
    pub fn file(&self, entry: &Entry) -> Option<&[u8]>
        ensures bytes { option_map (λ bytes. bytes.now) result ≡ file_bytes self.now entry.now }
    {
        if entry.end <= entry.first {
            return Some(&[]);
        }
        let begin = BLOCK * usize::from(entry.first);
        let end = BLOCK * (usize::from(entry.end) - 1) + usize::from(entry.last_bytes);
        self.bytes.get(begin..end)
    }

    /// Returns the 512 bytes of block `n` of the image, or `None` if the block is after the end of the image.
    pub fn block(&self, n: u16) -> Option<&[u8]>
        ensures bytes { option_map (λ bytes. bytes.now) result ≡ block_of self.now n }
        ensures size { IfSome result (λ bytes. length bytes.now ≡ BLOCK) }
    {
        block_in(&self.bytes, n)
    }

    /// Adds a file with the contents `bytes` in the lowest gap that is large enough, and returns its entry. The rest of
    /// the last block of the file is set to zero. If `bytes` is empty, the file uses no block and is put after all
    /// other files.
    ///
    /// The name is stored in upper case. Only the low four bits of `kind` are stored.
    ///
    /// # Errors
    ///
    /// Nothing changes. Checked in this order:
    /// - `BadName`: `name` does not have 1 to 15 characters from 33 to 126, or contains `:`.
    /// - `Duplicate`: a file already has the name `name`. Case is ignored.
    /// - `DirectoryFull`: the directory has 77 files.
    /// - `NoRoom`: no gap is large enough.
    pub fn add(
        &mut self,
        name: &str,
        kind: u8,
        bytes: &[u8],
        date: u16,
    ) -> Result<Entry, VolumeFault>
        ensures added { IfOk result (λ e. AddsFile self.old self.new name.now kind bytes.now date e) }
        ensures files { IfOk result (λ e. (k : ℕ) × (files_of self.new ≡ insert (files_of self.old) k e)) }
        ensures contents { IfOk result (λ e. file_bytes self.new e ≡ Some bytes.now) }
        ensures volume { IsVolume self.new }
        ensures copies { OnOk result (CopiesStay self.old self.new) }
        ensures stay { OnOk result (FilesStay self.old self.new) }
        ensures rest { IfOk result (λ e. IfOk (place_for self.old name.now (blocks_for (length bytes.now)))
            (λ gap. ChangesOnly (added_spans (directory_of self.old) gap e) self.old self.new)) }
        ensures refusal { IfErr result
            (λ fault. place_for self.old name.now (blocks_for (length bytes.now)) ≡ Err fault) }
        ensures unchanged { OnErr result (self.new ≡ self.old) }
    {
        let need = blocks_for(bytes.len());
        let gap = self.place(name, need)?;
        let entry = new_entry(gap, name, kind, bytes.len(), date);
        put_file(&mut self.bytes, gap.place, &entry, bytes);
        Ok(entry)
    }

    /// Removes the first file with the name `name`. Case is ignored. The blocks of the file keep their bytes. The
    /// directory slot that becomes free is set to zero.
    ///
    /// # Errors
    ///
    /// `NoFile`: no file has this name. Nothing changes.
    pub fn remove(&mut self, name: &str) -> Result<(), VolumeFault>
        ensures removed { OnOk result
            (RemovesFile self.old self.new (slot_named (directory_of self.old) name.now)) }
        ensures volume { IsVolume self.new }
        ensures copies { OnOk result (CopiesStay self.old self.new) }
        ensures stay { OnOk result (FilesStay self.old self.new) }
        ensures rest { IfSome (slot_named (directory_of self.old) name.now)
            (λ slot. ChangesOnly (removed_spans (directory_of self.old) slot) self.old self.new) }
        ensures refusal { IfErr result (λ fault. (fault ≡ VolumeFault.NoFile)
            × (slot_named (directory_of self.old) name.now ≡ None)) }
        ensures unchanged { OnErr result (self.new ≡ self.old) }
    {
        let first = slot_named(self.directory(), name);
        self.remove_at(first)
    }

    /// Removes the file in directory slot `slot`, as `remove` does. Slots are numbered from 1, in the order of
    /// `entries`. Files of the same name in other slots are unchanged.
    ///
    /// # Errors
    ///
    /// `NoFile`: the slot has no file. Nothing changes.
    pub fn remove_slot(&mut self, slot: u16) -> Result<(), VolumeFault>
        ensures removed { OnOk result
            (RemovesFile self.old self.new (slot_numbered (directory_of self.old) slot)) }
        ensures volume { IsVolume self.new }
        ensures copies { OnOk result (CopiesStay self.old self.new) }
        ensures stay { OnOk result (FilesStay self.old self.new) }
        ensures rest { IfSome (slot_numbered (directory_of self.old) slot)
            (λ slot. ChangesOnly (removed_spans (directory_of self.old) slot) self.old self.new) }
        ensures refusal { IfErr result (λ fault. (fault ≡ VolumeFault.NoFile)
            × (slot_numbered (directory_of self.old) slot ≡ None)) }
        ensures unchanged { OnErr result (self.new ≡ self.old) }
    {
        let there = slot_numbered(self.directory(), slot);
        self.remove_at(there)
    }

    /// Renames the first file with the name `old` to `new`. Only the 16 bytes of its name field change, in each copy of
    /// the directory.
    ///
    /// # Errors
    ///
    /// Nothing changes. Checked in this order:
    /// - `NoFile`: no file has the name `old`.
    /// - `BadName`: `new` is not a valid name.
    /// - `Duplicate`: another file has the name `new`. A new name that equals the old one is allowed.
    pub fn rename(&mut self, old: &str, new: &str) -> Result<(), VolumeFault>
        ensures renamed { OnOk result
            (RenamesFile self.old self.new (slot_named (directory_of self.old) old.now) new.now) }
        ensures volume { IsVolume self.new }
        ensures copies { OnOk result (CopiesStay self.old self.new) }
        ensures stay { OnOk result (FilesStay self.old self.new) }
        ensures rest { IfOk
            (slot_to_rename (directory_of self.old) (slot_named (directory_of self.old) old.now) new.now)
            (λ slot. ChangesOnly (and_second (directory_of self.old) (name_span slot ∷ [])) self.old self.new) }
        ensures refusal { IfErr result (λ fault.
            slot_to_rename (directory_of self.old) (slot_named (directory_of self.old) old.now) new.now ≡ Err fault) }
        ensures unchanged { OnErr result (self.new ≡ self.old) }
    {
        let first = slot_named(self.directory(), old);
        self.rename_at(first, new)
    }

    /// Renames the file in directory slot `slot` to `new`, as `rename` does. Slots are numbered from 1, in the order of
    /// `entries`. Files of the same name in other slots are unchanged.
    ///
    /// # Errors
    ///
    /// The errors of `rename`, where `NoFile` means that `slot` has no file. Nothing changes.
    pub fn rename_slot(&mut self, slot: u16, new: &str) -> Result<(), VolumeFault>
        ensures renamed { OnOk result
            (RenamesFile self.old self.new (slot_numbered (directory_of self.old) slot) new.now) }
        ensures volume { IsVolume self.new }
        ensures copies { OnOk result (CopiesStay self.old self.new) }
        ensures stay { OnOk result (FilesStay self.old self.new) }
        ensures rest { IfOk
            (slot_to_rename (directory_of self.old) (slot_numbered (directory_of self.old) slot) new.now)
            (λ slot. ChangesOnly (and_second (directory_of self.old) (name_span slot ∷ [])) self.old self.new) }
        ensures refusal { IfErr result (λ fault.
            slot_to_rename (directory_of self.old) (slot_numbered (directory_of self.old) slot) new.now ≡ Err fault) }
        ensures unchanged { OnErr result (self.new ≡ self.old) }
    {
        let there = slot_numbered(self.directory(), slot);
        self.rename_at(there, new)
    }

    /// Sets the kind of the first file with the name `name` to the low four bits of `kind`. Case is ignored. Nothing
    /// else changes.
    ///
    /// # Errors
    ///
    /// `NoFile`: no file has this name. Nothing changes.
    pub fn set_kind(&mut self, name: &str, kind: u8) -> Result<(), VolumeFault>
        ensures set { OnOk result (SetsKind self.old self.new (slot_named (directory_of self.old) name.now) kind) }
        ensures volume { IsVolume self.new }
        ensures copies { OnOk result (CopiesStay self.old self.new) }
        ensures stay { OnOk result (FilesStay self.old self.new) }
        ensures rest { IfSome (slot_named (directory_of self.old) name.now)
            (λ slot. ChangesOnly (and_second (directory_of self.old) (kind_span slot ∷ [])) self.old self.new) }
        ensures refusal { IfErr result (λ fault. (fault ≡ VolumeFault.NoFile)
            × (slot_named (directory_of self.old) name.now ≡ None)) }
        ensures unchanged { OnErr result (self.new ≡ self.old) }
    {
        let first = slot_named(self.directory(), name);
        self.set_kind_at(first, kind)
    }

    /// Sets the kind of the file in directory slot `slot`, as `set_kind` does. Slots are numbered from 1, in the order
    /// of `entries`. Files of the same name in other slots are unchanged.
    ///
    /// # Errors
    ///
    /// `NoFile`: the slot has no file. Nothing changes.
    pub fn set_slot_kind(&mut self, slot: u16, kind: u8) -> Result<(), VolumeFault>
        ensures set { OnOk result
            (SetsKind self.old self.new (slot_numbered (directory_of self.old) slot) kind) }
        ensures volume { IsVolume self.new }
        ensures copies { OnOk result (CopiesStay self.old self.new) }
        ensures stay { OnOk result (FilesStay self.old self.new) }
        ensures rest { IfSome (slot_numbered (directory_of self.old) slot)
            (λ slot. ChangesOnly (and_second (directory_of self.old) (kind_span slot ∷ [])) self.old self.new) }
        ensures refusal { IfErr result (λ fault. (fault ≡ VolumeFault.NoFile)
            × (slot_numbered (directory_of self.old) slot ≡ None)) }
        ensures unchanged { OnErr result (self.new ≡ self.old) }
    {
        let there = slot_numbered(self.directory(), slot);
        self.set_kind_at(there, kind)
    }

    /// Moves the files together. In the order of the directory, each file is moved down to the end of the file before
    /// it. The first file is moved to the block at which files begin.
    ///
    /// Bad blocks (kind 1) are not moved. In each entry, only the block numbers change. Blocks that become free keep
    /// their bytes.
    pub fn krunch(&mut self)
        ensures krunched { Krunches self.old self.new }
        ensures exact { self.new ≡ krunched_image self.old }
        ensures volume { IsVolume self.new }
        ensures copies { CopiesStay self.old self.new }
    {
        pack_files(&mut self.bytes);
        mirror(&mut self.bytes);
    }

    /// Sets the last date of the volume to the word `date`. Nothing else changes.
    pub fn set_date(&mut self, date: u16)
        ensures dated { self.new ≡ dated_image self.old date }
        ensures volume { IsVolume self.new }
        ensures copies { CopiesStay self.old self.new }
        ensures files { files_of self.new ≡ files_of self.old }
        ensures rest { ChangesOnly (and_second (directory_of self.old) (date_span ∷ [])) self.old self.new }
    {
        date_volume(&mut self.bytes, date);
    }

    /// Removes all files: writes a new directory with the volume name `name`. The number of blocks, the last date and
    /// the block at which files begin are unchanged. All blocks after the directory keep their bytes.
    ///
    /// # Errors
    ///
    /// `BadName`: `name` is not a name of 1 to 7 characters. Nothing changes.
    pub fn zero(&mut self, name: &str) -> Result<(), VolumeFault>
        ensures accepted { IsOk result ↔ IsTrue (is_new_name LONGEST_VOLUME_NAME name.now) }
        ensures good { OnOk result (is_new_name LONGEST_VOLUME_NAME name.now ≡ true) }
        ensures bad { OnErr result (is_new_name LONGEST_VOLUME_NAME name.now ≡ false) }
        ensures zeroed { OnOk result (self.new ≡ zeroed_image self.old name.now) }
        ensures empty { OnOk result (files_of self.new ≡ []) }
        ensures volume { IsVolume self.new }
        ensures copies { OnOk result (CopiesStay self.old self.new) }
        ensures rest { OnOk result
            (ChangesOnly (and_second (directory_of self.old) (directory_span ∷ [])) self.old self.new) }
        ensures refusal { IfErr result (λ fault. fault ≡ VolumeFault.BadName) }
        ensures unchanged { OnErr result (self.new ≡ self.old) }
    {
        let _ = &self.bytes;
        if !is_new_name(LONGEST_VOLUME_NAME, name.as_bytes()) {
            return Err(VolumeFault::BadName);
        }
        let directory = self.directory();
        let past = word(directory, HEADER_FILES_BEGIN);
        let blocks = word(directory, HEADER_BLOCKS);
        let date = word(directory, HEADER_DATE);
        renew_directory(&mut self.bytes, past, name.as_bytes(), blocks, date);
        Ok(())
    }

    /// Writes a second copy of the directory to blocks 6 to 9, so that files begin at block 10. If the volume already
    /// has a second copy, the first copy overwrites it.
    ///
    /// # Errors
    ///
    /// Nothing changes. Checked in this order:
    /// - `BadHeader`: the volume has fewer than 10 blocks.
    /// - `Occupied`: a file, even an empty one, begins before block 10.
    #[tactic(auto, unfolding(crate::specs::Made::doubled))]
    pub fn add_duplicate(&mut self) -> Result<(), VolumeFault>
        ensures doubled { OnOk result (doubled self.old ≡ Ok self.new) }
        ensures volume { IsVolume self.new }
        ensures copies { OnOk result (HasCopies self.new copies.Same) }
        ensures files { OnOk result (files_of self.new ≡ files_of self.old) }
        ensures stay { OnOk result (FilesStay self.old self.new) }
        ensures rest { OnOk result (ChangesOnly (past_span ∷ second_span ∷ []) self.old self.new) }
        ensures refusal { IfErr result (λ fault. doubled self.old ≡ Err fault) }
        ensures unchanged { OnErr result (self.new ≡ self.old) }
    {
        if self.blocks() < PAST_SECOND {
            return Err(VolumeFault::BadHeader);
        }
        if self.is_occupied() {
            return Err(VolumeFault::Occupied);
        }
        add_second(&mut self.bytes);
        Ok(())
    }

    /// Removes the second copy of the directory: sets its blocks to zero, and the block at which files begin to 6. A
    /// volume without a second copy is unchanged.
    pub fn drop_duplicate(&mut self)
        ensures singled { self.new ≡ singled self.old }
        ensures volume { IsVolume self.new }
        ensures copies { HasCopies self.new copies.Single }
        ensures files { files_of self.new ≡ files_of self.old }
        ensures stay { FilesStay self.old self.new }
        ensures rest { ChangesOnly (past_span ∷ second_span ∷ []) self.old self.new }
    {
        drop_second(&mut self.bytes);
    }

    // Is true if a file begins before block 10.
    fn is_occupied(&self) -> bool
        ensures occupied { result ≡ is_occupied self.now }
    {
        self.entries().any(|entry| entry.first < PAST_SECOND)
    }

    /// Converts the volume to a disk. Any bytes can be written to a disk, also to its directory.
    pub fn into_disk(self) -> Disk
        ensures image { result ≡ self }
        ensures volume { IsVolume result }
    {
        let Volume { bytes } = self;
        Disk { bytes }
    }

    // Returns the gap for a new file with the name `name` and `need` blocks, or the fault for which the file cannot be
    // added.
    #[tactic(auto, unfolding(crate::specs::Changes::place_for))]
    fn place(&self, name: &str, need: usize) -> Result<Gap, VolumeFault>
        ensures volume { IsVolume self.now }
        ensures placed { result ≡ place_for self.now name.now need }
    {
        let _ = &self.bytes;
        if !is_new_name(LONGEST_NAME, name.as_bytes()) {
            return Err(VolumeFault::BadName);
        }
        if self.find(name).is_some() {
            return Err(VolumeFault::Duplicate);
        }
        let directory = self.directory();
        if word(directory, HEADER_FILES) >= MOST_FILES {
            return Err(VolumeFault::DirectoryFull);
        }
        Gap::lowest(directory, need).ok_or(VolumeFault::NoRoom)
    }

    // Removes the file in `slot`. If `slot` is `None`, returns the fault `NoFile`.
    fn remove_at(&mut self, slot: Option<u16>) -> Result<(), VolumeFault>
        requires within { IfSome slot (λ slot. (1 ≤ slot) × (slot ≤ file_count (directory_of self.old))) }
        ensures removed { OnOk result (RemovesFile self.old self.new slot) }
        ensures volume { IsVolume self.new }
        ensures copies { OnOk result (CopiesStay self.old self.new) }
        ensures stay { OnOk result (FilesStay self.old self.new) }
        ensures rest { IfSome slot
            (λ slot. ChangesOnly (removed_spans (directory_of self.old) slot) self.old self.new) }
        ensures refusal { IfErr result (λ fault. (fault ≡ VolumeFault.NoFile) × (slot ≡ None)) }
        ensures unchanged { OnErr result (self.new ≡ self.old) }
    {
        let _ = &self.bytes;
        let Some(slot) = slot else {
            return Err(VolumeFault::NoFile);
        };
        take_file(&mut self.bytes, slot);
        Ok(())
    }

    // Renames the file in `slot` to `new`. If `slot` is `None`, returns the fault `NoFile`.
    fn rename_at(&mut self, slot: Option<u16>, new: &str) -> Result<(), VolumeFault>
        requires within { IfSome slot (λ slot. (1 ≤ slot) × (slot ≤ file_count (directory_of self.old))) }
        ensures renamed { OnOk result (RenamesFile self.old self.new slot new.now) }
        ensures volume { IsVolume self.new }
        ensures copies { OnOk result (CopiesStay self.old self.new) }
        ensures stay { OnOk result (FilesStay self.old self.new) }
        ensures rest { IfOk (slot_to_rename (directory_of self.old) slot new.now)
            (λ slot. ChangesOnly (and_second (directory_of self.old) (name_span slot ∷ [])) self.old self.new) }
        ensures refusal { IfErr result (λ fault. slot_to_rename (directory_of self.old) slot new.now ≡ Err fault) }
        ensures unchanged { OnErr result (self.new ≡ self.old) }
    {
        let slot = self.slot_to_rename(slot, new)?;
        name_file(&mut self.bytes, slot, new.as_bytes());
        Ok(())
    }

    // Returns the slot of the file to be renamed to `new`, or the fault for which the file cannot be renamed.
    #[tactic(auto, unfolding(crate::specs::Changes::slot_to_rename))]
    fn slot_to_rename(&self, slot: Option<u16>, new: &str) -> Result<u16, VolumeFault>
        requires within { IfSome slot (λ slot. (1 ≤ slot) × (slot ≤ file_count (directory_of self.now))) }
        ensures volume { IsVolume self.now }
        ensures found { result ≡ slot_to_rename (directory_of self.now) slot new.now }
        ensures within { IfOk result (λ slot. (1 ≤ slot) × (slot ≤ file_count (directory_of self.now))) }
        ensures named { OnOk result ((1 ≤ length new.now) × (length new.now ≤ LONGEST_NAME)) }
    {
        let directory = self.directory();
        let Some(slot) = slot else {
            return Err(VolumeFault::NoFile);
        };
        if !is_new_name(LONGEST_NAME, new.as_bytes()) {
            return Err(VolumeFault::BadName);
        }
        if is_named_beside(directory, slot, new) {
            return Err(VolumeFault::Duplicate);
        }
        Ok(slot)
    }

    // Sets the kind of the file in `slot` to the low four bits of `kind`. If `slot` is `None`, returns the fault
    // `NoFile`.
    fn set_kind_at(&mut self, slot: Option<u16>, kind: u8) -> Result<(), VolumeFault>
        requires within { IfSome slot (λ slot. (1 ≤ slot) × (slot ≤ file_count (directory_of self.old))) }
        ensures set { OnOk result (SetsKind self.old self.new slot kind) }
        ensures volume { IsVolume self.new }
        ensures copies { OnOk result (CopiesStay self.old self.new) }
        ensures stay { OnOk result (FilesStay self.old self.new) }
        ensures rest { IfSome slot
            (λ slot. ChangesOnly (and_second (directory_of self.old) (kind_span slot ∷ [])) self.old self.new) }
        ensures refusal { IfErr result (λ fault. (fault ≡ VolumeFault.NoFile) × (slot ≡ None)) }
        ensures unchanged { OnErr result (self.new ≡ self.old) }
    {
        let _ = &self.bytes;
        let Some(slot) = slot else {
            return Err(VolumeFault::NoFile);
        };
        type_file(&mut self.bytes, slot, kind);
        Ok(())
    }

    // Returns the 2,048 bytes of the first copy of the directory.
    fn directory(&self) -> &[u8]
        ensures volume { IsVolume self.now }
        ensures bytes { result.now ≡ directory_of self.now }
        ensures size { length result.now ≡ DIRECTORY_SIZE }
    {
        &self.bytes[DIRECTORY..DIRECTORY_END]
    }
}

// Returns the first fault of `image`, or `None` if `image` is a volume.
#[tactic(auto, unfolding(crate::specs::Directory::image_fault))]
fn fault_of_image(image: &[u8]) -> Option<VolumeFault>
    ensures first { result ≡ image_fault image.now }
{
    if !image.len().is_multiple_of(BLOCK) {
        return Some(VolumeFault::NotBlocks);
    }
    if image.len() < DIRECTORY_END {
        return Some(VolumeFault::TooShort);
    }
    let fault = fault_of_directory(&image[DIRECTORY..DIRECTORY_END], image.len() / BLOCK)?;
    if is_second_good(image) {
        return Some(VolumeFault::FirstCopyBad(fault.number()));
    }
    Some(fault)
}
