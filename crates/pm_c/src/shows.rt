//! Reads the state of a machine: registers, memory, and output. These calls do not change the machine.
ghost use Rattle.std.specs.Prelude.{◌≡◌, drop, None};
ghost use Rattle.pm_words.specs.Words.{word_read};
ghost use Rattle.pm_c.specs.Changes.{Fills, Leads, Looks, Reads, shown_of};

use crate::buffer::give;
use crate::handle::{Handle, taken};
use crate::status::{DONE, NO_MACHINE, ODD_ADDRESS, status_code};
use pm_machine::Machine;
use std::alloc::Global;

/// The registers of a machine, the number of its counted steps, and its status.
#[repr(C)]
#[derive(Drop)]
pub struct Shown {
    /// The number of steps that succeeded or ended the program, at most 18,446,744,073,709,551,615.
    pub steps: u64,
    /// The status of the machine: 0 if it can continue, 2 if the program has ended, or 100 plus the number of the
    /// execution error that stopped it.
    pub status: u32,
    pub ipc: u16,
    pub sp: u16,
    pub mp: u16,
    pub base: u16,
    pub np: u16,
    pub seg: u16,
    pub jtab: u16,
    pub ioresult: u16,
}

fn show(machine: &Machine, shown: &mut Shown)
    ensures shown { shown.new ≡ shown_of machine.now.state }
{
    let registers = machine.registers();
    *shown = Shown {
        steps: machine.steps(),
        status: status_code(machine.status()),
        ipc: registers.ipc,
        sp: registers.sp,
        mp: registers.mp,
        base: registers.base,
        np: registers.np,
        seg: registers.seg,
        jtab: registers.jtab,
        ioresult: registers.ioresult,
    };
}

/// Sets `shown` to the registers, the number of steps and the status of the machine. Returns 0 if the call succeeded.
/// Returns 8 if the handle is empty; then `shown` is unchanged.
#[unsafe(no_mangle)]
pub extern "C" fn pmach_registers(alloc: Global, handle: &mut Handle, shown: &mut Shown) -> u32
    ensures looks { Leads result handle.old.held handle.new.held (Looks (λ m. (result ≡ DONE) ×
        (shown.new ≡ shown_of m.debugger.machine.state))) }
    ensures same { handle.old.held ≡ None → shown.new ≡ shown.old }
{
    let Some(held) = taken(alloc, handle) else {
        return NO_MACHINE;
    };
    show(held.debugger.as_machine(), shown);
    *handle = Handle::of(held);
    DONE
}

fn read(machine: &Machine, address: u16, word: &mut u16) -> u32
    ensures reads { Reads (word_read machine.now.state.memory address) result word.old word.new }
{
    match machine.memory().word(address) {
        Some(found) => {
            *word = found;
            DONE
        }
        None => ODD_ADDRESS,
    }
}

/// Sets `word` to the word of memory at `address`, which must be even. Returns 0 if the call succeeded.
///
/// Otherwise `word` is unchanged:
///
/// - 8: the handle is empty.
/// - 10: the address is odd.
#[unsafe(no_mangle)]
pub extern "C" fn pmach_word(
    alloc: Global,
    handle: &mut Handle,
    address: u16,
    word: &mut u16,
) -> u32
    ensures looks { Leads result handle.old.held handle.new.held (Looks (λ m.
        Reads (word_read m.debugger.machine.state.memory address) result word.old word.new)) }
    ensures same { handle.old.held ≡ None → word.new ≡ word.old }
{
    let Some(held) = taken(alloc, handle) else {
        return NO_MACHINE;
    };
    let code = read(held.debugger.as_machine(), address, word);
    *handle = Handle::of(held);
    code
}

/// Returns `bytes` without the first `from` bytes. The result is empty if `bytes` is shorter.
fn behind(bytes: &[u8], from: usize) -> &[u8]
    ensures bytes { result.now ≡ drop from bytes.now }
{
    if from < bytes.len() {
        &bytes[from..]
    } else {
        &[]
    }
}

/// Copies all bytes that were written to the console, except the first `from` bytes, to `out`. Returns 0 if the call
/// succeeded.
///
/// Otherwise nothing is written to the buffer:
///
/// - 8: the handle is empty.
/// - 7: the buffer is too short.
#[unsafe(no_mangle)]
pub extern "C" fn pmach_console(
    alloc: Global,
    handle: &mut Handle,
    from: usize,
    out: &mut [u8],
    needed: &mut usize,
) -> u32
    ensures looks { Leads result handle.old.held handle.new.held (Looks (λ m.
        Fills (drop from m.debugger.machine.state.devices.console) result out.old out.new needed.new)) }
    ensures same { handle.old.held ≡ None → out.new ≡ out.old }
{
    let Some(held) = taken(alloc, handle) else {
        return NO_MACHINE;
    };
    let code = give(
        behind(held.debugger.as_machine().console(), from),
        out,
        needed,
    );
    *handle = Handle::of(held);
    code
}

/// Copies all bytes that were written to the printer, except the first `from` bytes, to `out`. The statuses are those
/// of `pmach_console`.
#[unsafe(no_mangle)]
pub extern "C" fn pmach_printer(
    alloc: Global,
    handle: &mut Handle,
    from: usize,
    out: &mut [u8],
    needed: &mut usize,
) -> u32
    ensures looks { Leads result handle.old.held handle.new.held (Looks (λ m.
        Fills (drop from m.debugger.machine.state.devices.printer) result out.old out.new needed.new)) }
    ensures same { handle.old.held ≡ None → out.new ≡ out.old }
{
    let Some(held) = taken(alloc, handle) else {
        return NO_MACHINE;
    };
    let code = give(
        behind(held.debugger.as_machine().printer(), from),
        out,
        needed,
    );
    *handle = Handle::of(held);
    code
}
