//! The units: disks, the console, the printer, and the clock.

ghost use Rattle.std.specs.Prelude.{◌≡◌, ◌+◌, ◌++◌, [], ◌∷◌, length, replicate, None, Some, Ok, Err, IfErr, IfSome};
ghost use Rattle.std.specs.Prelude.{OnOk, OnErr, option_map};
ghost use Rattle.pm_units.specs.Devices.{HasPlace, code_in, code_on, ejected, ejected_image, image_on, mounted};

use crate::ports::{MountFault, Port, unit_of};
use crate::transfers::append;
use pm_volume::{Disk, Volume};
use std::alloc::{AllocError, Global};
use std::marker::Model;

/// The size of a block in bytes.
pub(crate) const BLOCK: usize = 512;

/// The devices of the machine, and the clock. The devices are the images on the disk units 4, 5, 9, 10, 11 and 12, the
/// input queue of the console, and the bytes that were written to the console and to the printer.
///
/// Unit 1 is the console with echo, unit 2 is the console without echo, and unit 6 is the printer. Units 3, 7 and 8 do
/// not exist in this machine. Other numbers select no unit.
#[derive(Drop)]
pub struct Units {
    pub(crate) disks: [Option<Disk>; 6],
    pub(crate) queue: Vec<u8>,
    pub(crate) console: Vec<u8>,
    pub(crate) printer: Vec<u8>,
    pub(crate) clock: u32,
}

impl Model for Units {
    ghost use Rattle.std.specs.Prelude.{◌-◌, vec_capacity, vec_len};
    ghost use Rattle.pm_units.specs.Devices.{Held};

    ghost Value = { Held };

    ghost view = { λ u. record {
      devices = record {
        disks = u.disks;
        queue = u.queue.items;
        console = u.console.items;
        printer = u.printer.items;
        clock = u.clock;
      };
      room = record {
        queue = vec_capacity u.queue - vec_len u.queue;
        console = vec_capacity u.console - vec_len u.console;
        printer = vec_capacity u.printer - vec_len u.printer;
      };
    } };
}

// Returns the disk of `volume`, or `None` if `volume` is `None`.
fn disk_of(volume: Option<Volume>) -> Option<Disk>
    ensures disk { result ≡ volume }
{
    volume.map(Volume::into_disk)
}

// Returns the `count` bytes of `image` that begin with block `block`. Returns `None` if they extend past the end of the
// image.
fn part(image: &[u8], block: u16, count: u16) -> Option<&[u8]>
    ensures part { option_map (λ bytes. bytes.now) result ≡ code_in (Some image.now) block count }
    ensures size { IfSome result (λ bytes. length bytes.now ≡ count) }
{
    let at = BLOCK * usize::from(block);
    image.get(at..at + usize::from(count))
}

impl Units {
    /// Creates units without disks. The input queue is empty, and nothing was written. The call allocates no memory.
    pub fn new(alloc: Global, clock: u32) -> Units
        ensures empty { result.devices ≡ record {
          disks = replicate 6 None;
          queue = [];
          console = [];
          printer = [];
          clock = clock;
        } }
    {
        Units {
            disks: [None, None, None, None, None, None],
            queue: Vec::new(alloc),
            console: Vec::new(alloc),
            printer: Vec::new(alloc),
            clock,
        }
    }

    /// Creates units with `volumes` on the disk units 4, 5, 9, 10, 11 and 12, in this order. The input queue is empty,
    /// and nothing was written. The call allocates no memory.
    pub fn with_volumes(alloc: Global, volumes: [Option<Volume>; 6], clock: u32) -> Units
        ensures mounted { result.devices ≡ record {
          disks = volumes;
          queue = [];
          console = [];
          printer = [];
          clock =
              clock;
        } }
    {
        Units {
            disks: volumes.map(disk_of),
            ..Units::new(alloc, clock)
        }
    }

    /// Appends `byte` to the input queue.
    ///
    /// # Errors
    ///
    /// `AllocError`: the queue has no spare capacity, and the host has no memory. Nothing changes.
    pub fn key(&mut self, byte: u8) -> Result<(), AllocError>
        ensures waits { OnOk result (self.new.devices ≡ record self.old.devices
            { queue = self.old.devices.queue ++ byte ∷ [] }) }
        ensures unchanged { OnErr result (self.new ≡ self.old) }
        ensures full { OnErr result (self.old.room.queue ≡ 0) }
    {
        append(&mut self.queue, &[byte])?;
        Ok(())
    }

    /// Returns all bytes that were written to the console.
    pub fn console(&self) -> &[u8]
        ensures bytes { result.now ≡ self.now.devices.console }
    {
        &self.console
    }

    /// Returns all bytes that were written to the printer.
    pub fn printer(&self) -> &[u8]
        ensures bytes { result.now ≡ self.now.devices.printer }
    {
        &self.printer
    }

    /// Returns the clock. Its value is the `clock` with which the units were created, and it does not change.
    pub fn clock(&self) -> u32
        ensures clock { result ≡ self.now.devices.clock }
    {
        self.clock
    }

    /// Mounts `volume` on the disk unit with the number `unit`.
    ///
    /// # Errors
    ///
    /// If a call fails, nothing changes, and the volume is returned. The errors are checked in this order:
    /// - `NoUnit`: `unit` is not the number of a disk unit.
    /// - `Taken`: the unit already has a disk.
    #[tactic(auto, unfolding(crate::specs::Devices::mounted))]
    pub fn mount(&mut self, unit: u8, volume: Volume) -> Result<(), (MountFault, Volume)>
        ensures mounted { OnOk result (mounted unit volume self.old.devices ≡ Ok self.new.devices) }
        ensures refusal { IfErr result (λ e. mounted unit volume self.old.devices ≡ Err e.0) }
        ensures returned { IfErr result (λ e. e.1 ≡ volume) }
        ensures unchanged { OnErr result (self.new ≡ self.old) }
    {
        let Port::Disk(k) = unit_of(u16::from(unit)) else {
            return Err((MountFault::NoUnit, volume));
        };
        let k = usize::from(k);
        if self.disks[k].is_some() {
            return Err((MountFault::Taken, volume));
        }
        self.disks[k] = Some(volume.into_disk());
        Ok(())
    }

    /// Removes the disk of the unit with the number `unit`, and returns it. Returns `None` if the unit has no disk or
    /// is not a disk unit.
    #[tactic(auto, unfolding(crate::specs::Devices::ejected, crate::specs::Devices::ejected_image))]
    pub fn eject(&mut self, unit: u8) -> Option<Disk>
        ensures disk { result ≡ ejected_image unit self.old.devices }
        ensures ejected { self.new.devices ≡ ejected unit self.old.devices }
    {
        match unit_of(u16::from(unit)) {
            Port::Disk(k) => self.disks[usize::from(k)].take(),
            _ => None,
        }
    }

    /// Returns the `count` bytes that begin with block `block` of the disk of unit `unit`. Returns `None` if the unit
    /// has no disk, or if the bytes extend past the end of the disk.
    #[tactic(auto, unfolding(crate::specs::Devices::code_on))]
    pub fn code(&self, unit: u8, block: u16, count: u16) -> Option<&[u8]>
        ensures code { option_map (λ bytes. bytes.now) result ≡ code_on self.now.devices unit block count }
        ensures size { IfSome result (λ bytes. length bytes.now ≡ count) }
    {
        part(self.image(unit_of(u16::from(unit)))?, block, count)
    }

    // Returns the image of `unit`, or `None` if it is not a disk unit or has no disk.
    fn image(&self, unit: Port) -> Option<&[u8]>
        requires place { HasPlace unit }
        ensures image { option_map (λ bytes. bytes.now) result ≡ image_on unit self.now.devices }
    {
        match unit {
            Port::Disk(k) => match &self.disks[usize::from(k)] {
                Some(disk) => Some(disk.bytes()),
                None => None,
            },
            _ => None,
        }
    }
}
