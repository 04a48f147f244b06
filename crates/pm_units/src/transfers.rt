//! Transfers between units and memory.

ghost use Rattle.std.specs.Prelude.{◌≡◌, ◌+◌, ◌<◌, ◌≤◌, ◌++◌, drop, length, vec_capacity, vec_len, Ok, OnOk, OnErr};
ghost use Rattle.pm_words.specs.Watch.{WatchStays};
ghost use Rattle.pm_units.specs.Devices.{HasPlace, cleared, image_at};
ghost use Rattle.pm_units.specs.Transfers.{Transfers, can_move, from_disk, from_queue, named_bytes, unit_read};
ghost use Rattle.pm_units.specs.Transfers.{to_disk, unit_written};

use crate::ports::Port;
use crate::trap::Trap;
use crate::units::{BLOCK, Units};
use pm_words::Memory;
use std::alloc::AllocError;

/// A transfer of bytes between a unit and memory.
#[derive(Clone, Copy)]
pub struct Transfer {
    /// The address of the first byte in memory.
    pub address: u16,
    /// The number of bytes that are transferred.
    pub count: u16,
    /// The number of the first block on the disk, as a signed word. Only a disk unit uses this field.
    pub block: u16,
}

// Appends `more` to `bytes`. Fails only if `more` does not fit into the spare capacity. If the call fails, the bytes
// and the capacity are unchanged.
pub(crate) fn append(bytes: &mut Vec<u8>, more: &[u8]) -> Result<(), AllocError>
    ensures appended { OnOk result (bytes.new.items ≡ bytes.old.items ++ more.now) }
    ensures unchanged { OnErr result (bytes.new.items ≡ bytes.old.items) }
    ensures room { OnErr result ((vec_capacity bytes.new ≡ vec_capacity bytes.old)
        × (vec_len bytes.new ≡ vec_len bytes.old)) }
    ensures full { OnErr result (vec_capacity bytes.old < vec_len bytes.old + length more.now) }
{
    bytes.reserve(more.len())?;
    bytes.extend_from_slice(more)?;
    Ok(())
}

// Removes the first `count` bytes of `queue`.
fn drop_front(queue: &mut Vec<u8>, count: usize)
    requires inside { count ≤ length queue.old.items }
    ensures rest { queue.new.items ≡ drop count queue.old.items }
{
    let rest = queue.len() - count;
    queue.rotate_left(count);
    queue.truncate(rest);
}

// Returns the bytes of memory that the transfer reads or writes.
#[tactic(auto, unfolding(pm_words::specs::Words::bytes_at))]
fn named_bytes(memory: &Memory, transfer: Transfer) -> &[u8]
    requires inside { transfer.address + transfer.count ≤ 65536 }
    ensures bytes { result.now ≡ named_bytes memory.now.words transfer }
    ensures size { length result.now ≡ transfer.count }
{
    let at = usize::from(transfer.address);
    &memory.bytes()[at..at + usize::from(transfer.count)]
}

// Returns whether the block of `transfer` is not negative and all its bytes are within `image`.
fn can_move(image: &[u8], transfer: Transfer) -> bool
    ensures can_move { result ≡ can_move image.now transfer }
{
    let at = BLOCK * usize::from(transfer.block);
    transfer.block < 32768 && at + usize::from(transfer.count) <= image.len()
}

impl Units {
    /// Reads the bytes of `transfer` from `unit` into memory, and returns the IORESULT. The range of the transfer must
    /// be in memory.
    ///
    /// # Errors
    ///
    /// If a call fails, nothing changes. The errors are checked in this order:
    /// - `Waiting`: the input queue has fewer bytes than the transfer reads.
    /// - `NoMemory`: the host has no memory for the bytes that the console echoes.
    #[tactic(auto, unfolding(crate::specs::Transfers::unit_read), using(pm_words::proofs::WatchLaws::stays))]
    pub fn read(&mut self, memory: &mut Memory, unit: Port, transfer: Transfer) -> Result<u16, Trap>
        requires place { HasPlace unit }
        requires inside { transfer.address + transfer.count ≤ 65536 }
        ensures read { Transfers self.old.room result memory.old.words self.old.devices memory.new.words
            self.new.devices (unit_read unit transfer memory.old.words self.old.devices) }
        ensures room { OnErr result (self.new.room ≡ self.old.room) }
        ensures watch { WatchStays memory.old memory.new }
    {
        match unit {
            Port::Unknown => Ok(2),
            Port::Absent => Ok(9),
            Port::Printer => Ok(3),
            Port::Console => self.read_queue(memory, transfer, true),
            Port::Terminal => self.read_queue(memory, transfer, false),
            Port::Disk(k) => Ok(self.read_disk(memory, usize::from(k), transfer)),
        }
    }

    // Reads the bytes of `transfer` from the start of the input queue. If `echo` is true, the same bytes are written to
    // the console.
    #[tactic(auto, using(pm_words::proofs::WatchLaws::stays))]
    fn read_queue(
        &mut self,
        memory: &mut Memory,
        transfer: Transfer,
        echo: bool,
    ) -> Result<u16, Trap>
        requires inside { transfer.address + transfer.count ≤ 65536 }
        ensures read { Transfers self.old.room result memory.old.words self.old.devices memory.new.words
            self.new.devices (from_queue echo transfer memory.old.words self.old.devices) }
        ensures room { OnErr result (self.new.room ≡ self.old.room) }
        ensures watch { WatchStays memory.old memory.new }
    {
        let count = usize::from(transfer.count);
        if self.queue.len() < count {
            return Err(Trap::Waiting);
        }
        if echo {
            append(&mut self.console, &self.queue[..count])?;
        }
        memory.write(transfer.address, &self.queue[..count]);
        drop_front(&mut self.queue, count);
        Ok(0)
    }

    // Reads the bytes of `transfer` from the disk with index `k`, and returns the IORESULT.
    #[tactic(auto, using(pm_words::proofs::WatchLaws::stays))]
    fn read_disk(&mut self, memory: &mut Memory, k: usize, transfer: Transfer) -> u16
        requires place { k < 6 }
        requires inside { transfer.address + transfer.count ≤ 65536 }
        ensures read { Transfers self.old.room (Ok result) memory.old.words self.old.devices memory.new.words
            self.new.devices (Ok (from_disk (image_at self.old.devices k) transfer memory.old.words self.old.devices)) }
        ensures watch { WatchStays memory.old memory.new }
    {
        let Some(disk) = &self.disks[k] else {
            return 9;
        };
        let image = disk.bytes();
        if !can_move(image, transfer) {
            return 1;
        }
        let at = BLOCK * usize::from(transfer.block);
        memory.write(
            transfer.address,
            &image[at..at + usize::from(transfer.count)],
        );
        0
    }

    /// Writes the bytes of `transfer` from memory to `unit`, and returns the IORESULT. The range of the transfer must
    /// be in memory.
    ///
    /// # Errors
    ///
    /// `NoMemory`: the host has no memory for the bytes that are written to the console or to the printer. Nothing
    /// changes.
    #[tactic(auto, unfolding(crate::specs::Transfers::unit_written), using(pm_words::proofs::WatchLaws::stays))]
    pub fn write(
        &mut self,
        memory: &mut Memory,
        unit: Port,
        transfer: Transfer,
    ) -> Result<u16, Trap>
        requires place { HasPlace unit }
        requires inside { transfer.address + transfer.count ≤ 65536 }
        ensures written { Transfers self.old.room result memory.old.words self.old.devices memory.new.words
            self.new.devices (Ok (unit_written unit transfer memory.old.words self.old.devices)) }
        ensures room { OnErr result (self.new.room ≡ self.old.room) }
        ensures watch { WatchStays memory.old memory.new }
    {
        match unit {
            Port::Unknown => Ok(2),
            Port::Absent => Ok(9),
            Port::Printer => {
                append(&mut self.printer, named_bytes(memory, transfer))?;
                Ok(0)
            }
            Port::Console | Port::Terminal => {
                append(&mut self.console, named_bytes(memory, transfer))?;
                Ok(0)
            }
            Port::Disk(k) => Ok(self.write_disk(memory, usize::from(k), transfer)),
        }
    }

    // Writes the bytes of `transfer` to the disk with index `k`, and returns the IORESULT.
    #[tactic(auto, using(pm_words::proofs::WatchLaws::stays))]
    fn write_disk(&mut self, memory: &mut Memory, k: usize, transfer: Transfer) -> u16
        requires place { k < 6 }
        requires inside { transfer.address + transfer.count ≤ 65536 }
        ensures written { Transfers self.old.room (Ok result) memory.old.words self.old.devices memory.new.words
            self.new.devices (Ok (to_disk k (image_at self.old.devices k) transfer memory.old.words self.old.devices)) }
        ensures watch { WatchStays memory.old memory.new }
    {
        let Some(disk) = &mut self.disks[k] else {
            return 9;
        };
        if !can_move(disk.bytes(), transfer) {
            return 1;
        }
        disk.write(
            BLOCK * usize::from(transfer.block),
            named_bytes(memory, transfer),
        );
        0
    }

    /// Clears `unit` and returns the IORESULT. If `unit` is the console or the terminal, the input queue is emptied.
    pub fn clear(&mut self, unit: Port) -> u16
        requires place { HasPlace unit }
        ensures cleared { cleared unit self.old.devices ≡ (result, self.new.devices) }
    {
        match unit {
            Port::Unknown => 2,
            Port::Absent => 9,
            Port::Printer => 0,
            Port::Console | Port::Terminal => {
                self.queue.clear();
                0
            }
            Port::Disk(k) => {
                if self.disks[usize::from(k)].is_some() {
                    0
                } else {
                    9
                }
            }
        }
    }
}
