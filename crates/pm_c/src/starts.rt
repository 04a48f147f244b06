//! The calls that create a machine in a handle.
ghost use Rattle.std.specs.Prelude.{◌≡◌, ◌≢◌, ◌↔◌, Ok, Some, None, is_some, true};
ghost use Rattle.std.specs.Str.{IsUtf8};
ghost use Rattle.pm_machine.specs.Start.{raw_start};
ghost use Rattle.pm_machine.specs.Boot.{boot_start};
ghost use Rattle.pm_c.specs.Codes.{on_unit_4, program_code, start_code};
ghost use Rattle.pm_c.specs.Changes.{Holds};

use crate::disks::volume_of;
use crate::handle::{Handle, taken};
use crate::held::Held;
use crate::status::{DONE, HAS_MACHINE, NO_MEMORY, NO_TEXT, boot_code, volume_code};
use pm_debug::Debugger;
use pm_machine::Machine;
use std::alloc::Global;

// Returns whether the handle has a machine.
fn is_full(alloc: Global, handle: &mut Handle) -> bool
    ensures value { result ≡ is_some handle.old.held }
    ensures same { handle.new.held ≡ handle.old.held }
{
    match taken(alloc, handle) {
        Some(held) => {
            *handle = Handle::of(held);
            true
        }
        None => false,
    }
}

// Stores `machine` in the empty `handle` and returns a status.
fn put(alloc: Global, handle: &mut Handle, machine: Machine) -> u32
    requires empty { handle.old.held ≡ None }
    ensures put { result ≢ NO_MEMORY → (result ≡ DONE) × Holds handle.new.held (Ok machine.state) }
    ensures err { result ≡ NO_MEMORY → handle.new.held ≡ None }
{
    let held = Held {
        debugger: Debugger::new(machine),
        ejected: None,
        answer: String::new(alloc),
    };
    match Box::new(alloc, held) {
        Ok(held) => {
            *handle = Handle::of(held);
            DONE
        }
        Err(_) => NO_MEMORY,
    }
}

/// Creates a machine at the start of bare code and stores it in `handle`, which must be empty. Returns 0 if the call
/// succeeded.
///
/// Otherwise the handle is unchanged:
///
/// - 9: the handle already has a machine.
/// - 203: the code has more than 60,000 bytes.
/// - 5: out of memory.
#[unsafe(no_mangle)]
pub extern "C" fn pmach_new(alloc: Global, handle: &mut Handle, code: &[u8]) -> u32
    ensures start { result ≡ DONE → Holds handle.new.held (raw_start code.now) }
    ensures code { result ≢ NO_MEMORY → result ≢ HAS_MACHINE → result ≡ start_code (raw_start code.now) }
    ensures full { (result ≡ HAS_MACHINE) ↔ (is_some handle.old.held ≡ true) }
    ensures unchanged { result ≢ DONE → handle.new.held ≡ handle.old.held }
{
    if is_full(alloc, handle) {
        return HAS_MACHINE;
    }
    match Machine::raw(alloc, code) {
        Ok(machine) => put(alloc, handle, machine),
        Err(fault) => boot_code(fault),
    }
}

/// Creates a machine at the start of a program and stores it in `handle`, which must be empty. The program is the code
/// file `name` on the volume in `image`, the disk of unit 4. No other disk is mounted. The clock of the machine is
/// `clock`. Returns 0 if the call succeeded.
///
/// Otherwise the handle is unchanged. The statuses are checked in this order:
///
/// - 9: the handle already has a machine.
/// - 12: `name` is not UTF-8.
/// - 400 plus the number of the fault: the image is no volume.
/// - 200 plus the number of the fault: the program does not start.
/// - 100 plus the number of the error: the first call of the program fails.
///
/// The status is 5 if memory runs out.
#[unsafe(no_mangle)]
pub extern "C" fn pmach_boot(
    alloc: Global,
    handle: &mut Handle,
    image: &[u8],
    name: &[u8],
    clock: u32,
) -> u32
    ensures start { result ≡ DONE → Holds handle.new.held (boot_start (on_unit_4 image.now) 4 name.now clock) }
    ensures code { result ≢ NO_MEMORY → result ≢ HAS_MACHINE → result ≢ NO_TEXT →
        result ≡ program_code image.now name.now clock }
    ensures full { (result ≡ HAS_MACHINE) ↔ (is_some handle.old.held ≡ true) }
    ensures text { result ≢ HAS_MACHINE → ((result ≡ NO_TEXT) ↔ ¬ (IsUtf8 name.now)) }
    ensures unchanged { result ≢ DONE → handle.new.held ≡ handle.old.held }
{
    if is_full(alloc, handle) {
        return HAS_MACHINE;
    }
    let Ok(name) = str::from_utf8(name) else {
        return NO_TEXT;
    };
    let volume = match volume_of(alloc, image) {
        Ok(Ok(volume)) => volume,
        Ok(Err(fault)) => return volume_code(fault),
        Err(_) => return NO_MEMORY,
    };
    let volumes = [Some(volume), None, None, None, None, None];
    match Machine::boot(alloc, volumes, 4, name, clock) {
        Ok(machine) => put(alloc, handle, machine),
        Err((fault, _)) => boot_code(fault),
    }
}
