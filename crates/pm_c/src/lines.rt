//! The next step of a machine and its position, in the form in which the program writes them. These calls do not change
//! the machine.
ghost use Rattle.std.specs.Prelude.{◌≡◌, None, IfOk, OnErr, string_bytes};
ghost use Rattle.pm_disasm.specs.Text.{line_text};
ghost use Rattle.pm_machine.specs.CodePlaces.{place_in_code};
ghost use Rattle.pm_trace.specs.Trace.{trace_line};
ghost use Rattle.pm_c.specs.Changes.{Leads, Looks, Places, Tells};

use crate::buffer::give;
use crate::handle::{Handle, taken};
use crate::status::{DONE, NO_MACHINE, NO_MEMORY, NO_PLACE};
use crate::volumes::none;
use pm_machine::{Machine, place_in_code};
use std::alloc::{AllocError, Global};

/// A position in the code. `offset` is the number of bytes from the entry of the procedure.
#[repr(C)]
#[derive(Drop)]
pub struct Place {
    pub segment: u8,
    pub procedure: u8,
    pub offset: u16,
}

/// Copies `text` to `out`, or returns the status for out of memory.
pub(crate) fn tell(text: Result<String, AllocError>, out: &mut [u8], needed: &mut usize) -> u32
    ensures told { IfOk text (λ text. Tells (string_bytes text) result out.old out.new needed.new) }
    ensures none { OnErr text ((result ≡ NO_MEMORY) × (out.new ≡ out.old) × (needed.new ≡ 0)) }
{
    match text {
        Ok(text) => give(text.as_bytes(), out, needed),
        Err(_) => none(NO_MEMORY, needed),
    }
}

/// Copies the trace line for the next step of the machine to `out`, without a line feed. Returns 0 if the call
/// succeeded.
///
/// Otherwise nothing is written to the buffer:
///
/// - 8: the handle is empty.
/// - 5: out of memory.
/// - 7: the buffer is too short.
#[unsafe(no_mangle)]
pub extern "C" fn pmach_line(
    alloc: Global,
    handle: &mut Handle,
    out: &mut [u8],
    needed: &mut usize,
) -> u32
    ensures looks { Leads result handle.old.held handle.new.held (Looks (λ m.
        Tells (trace_line m.debugger.machine.state) result out.old out.new needed.new)) }
    ensures same { handle.old.held ≡ None → out.new ≡ out.old }
{
    let Some(held) = taken(alloc, handle) else {
        return NO_MACHINE;
    };
    let code = tell(
        pm_trace::trace_line(alloc, held.debugger.as_machine()),
        out,
        needed,
    );
    *handle = Handle::of(held);
    code
}

/// Copies the text of the instruction at `address` in memory to `out`. If no instruction begins there, the text is
/// `.BYTE` and the byte. The statuses are those of `pmach_line`.
#[unsafe(no_mangle)]
pub extern "C" fn pmach_instruction(
    alloc: Global,
    handle: &mut Handle,
    address: u16,
    out: &mut [u8],
    needed: &mut usize,
) -> u32
    ensures looks { Leads result handle.old.held handle.new.held (Looks (λ m.
        Tells (line_text m.debugger.machine.state.memory address) result out.old out.new needed.new)) }
    ensures same { handle.old.held ≡ None → out.new ≡ out.old }
{
    let Some(held) = taken(alloc, handle) else {
        return NO_MACHINE;
    };
    let text = pm_disasm::line(alloc, held.debugger.as_machine().memory(), address);
    let code = tell(text, out, needed);
    *handle = Handle::of(held);
    code
}

fn locate(machine: &Machine, place: &mut Place) -> u32
    ensures places { Places (place_in_code machine.now.state) result place.old place.new }
{
    match place_in_code(machine) {
        Some(found) => {
            *place = Place {
                segment: found.segment,
                procedure: found.procedure,
                offset: found.offset,
            };
            DONE
        }
        None => NO_PLACE,
    }
}

/// Sets `place` to the position of the machine in the code. Returns 0 if the call succeeded.
///
/// Otherwise `place` is unchanged:
///
/// - 8: the handle is empty.
/// - 13: SEG or JTAB is odd, so the machine has no position.
#[unsafe(no_mangle)]
pub extern "C" fn pmach_place(alloc: Global, handle: &mut Handle, place: &mut Place) -> u32
    ensures looks { Leads result handle.old.held handle.new.held (Looks (λ m.
        Places (place_in_code m.debugger.machine.state) result place.old place.new)) }
    ensures same { handle.old.held ≡ None → place.new ≡ place.old }
{
    let Some(held) = taken(alloc, handle) else {
        return NO_MACHINE;
    };
    let code = locate(held.debugger.as_machine(), place);
    *handle = Handle::of(held);
    code
}
