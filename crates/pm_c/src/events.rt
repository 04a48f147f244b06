//! The events of a machine. An event is a call that can change the machine; each kind of event has one call.
ghost use Rattle.std.specs.Prelude.{◌≡◌, ◌≢◌, None};
ghost use Rattle.pm_machine.specs.Events.{Key, Poke, next};
ghost use Rattle.pm_machine.specs.Runs.{GaveUp, never};
ghost use Rattle.pm_machine.specs.Steps.{WantsMemory};
ghost use Rattle.pm_c.specs.Changes.{ChangesMachine, Leads, RunsTo, StepsTo};
ghost use Rattle.pm_c.specs.Codes.{poke_code};

use crate::handle::{Handle, taken};
use crate::status::{DONE, NO_MACHINE, NO_MEMORY, ODD_ADDRESS, stop_code};
use pm_machine::Machine;
use std::alloc::Global;

fn step_code(machine: &mut Machine) -> u32
    ensures step { result ≢ NO_MEMORY → StepsTo result machine.old machine.new }
    ensures unchanged { result ≡ NO_MEMORY → machine.new ≡ machine.old }
    ensures wanted { result ≡ NO_MEMORY → WantsMemory machine.old }
{
    match machine.step() {
        Ok(stop) => stop_code(stop),
        Err(_) => NO_MEMORY,
    }
}

/// Executes one step of the machine. Returns one of these statuses:
///
/// - 0: the step succeeded.
/// - 1: the step waits for console bytes. Nothing has changed.
/// - 2: the program has ended.
/// - 100 plus the number of an execution error, which stops the machine.
/// - 5: out of memory. Nothing has changed.
/// - 8: the handle is empty.
#[unsafe(no_mangle)]
pub extern "C" fn pmach_step(alloc: Global, handle: &mut Handle) -> u32
    ensures step { Leads result handle.old.held handle.new.held (ChangesMachine (λ m n.
        result ≢ NO_MEMORY → StepsTo result m n)) }
    ensures unchanged { result ≡ NO_MEMORY → handle.new.held ≡ handle.old.held }
    ensures wanted { Leads result handle.old.held handle.new.held (λ m _.
        result ≡ NO_MEMORY → WantsMemory m.debugger.machine) }
{
    let Some(held) = taken(alloc, handle) else {
        return NO_MACHINE;
    };
    let mut held = held;
    let code = step_code(held.debugger.machine());
    *handle = Handle::of(held);
    code
}

fn run_code(machine: &mut Machine, limit: u64, steps: &mut u64) -> u32
    ensures ran { result ≢ NO_MEMORY → RunsTo limit steps.new result machine.old machine.new }
    ensures err { result ≡ NO_MEMORY → GaveUp never limit machine.old machine.new }
    ensures none { result ≡ NO_MEMORY → steps.new ≡ 0 }
{
    match machine.run(limit) {
        Ok((count, stop)) => {
            *steps = count;
            stop_code(stop)
        }
        Err(_) => {
            *steps = 0;
            NO_MEMORY
        }
    }
}

/// Executes at most `limit` steps, as long as each step succeeds. Returns the status of the last step, as `pmach_step`
/// does. The status is 0 if the limit is reached. Sets `steps` to the number of counted steps. Two other statuses:
///
/// - 5: out of memory. The machine is in the state after the steps that succeeded, and `steps` is 0.
/// - 8: the handle is empty. `steps` is unchanged.
#[unsafe(no_mangle)]
pub extern "C" fn pmach_run(alloc: Global, handle: &mut Handle, limit: u64, steps: &mut u64) -> u32
    ensures ran { Leads result handle.old.held handle.new.held (ChangesMachine (λ m n.
        result ≢ NO_MEMORY → RunsTo limit steps.new result m n)) }
    ensures err { Leads result handle.old.held handle.new.held (ChangesMachine (λ m n. result ≡ NO_MEMORY →
        GaveUp never limit m n × (steps.new ≡ 0))) }
    ensures same { handle.old.held ≡ None → steps.new ≡ steps.old }
{
    let Some(held) = taken(alloc, handle) else {
        return NO_MACHINE;
    };
    let mut held = held;
    let code = run_code(held.debugger.machine(), limit, steps);
    *handle = Handle::of(held);
    code
}

/// Appends `byte` to the console input queue of the machine. Returns 0 if the call succeeded.
///
/// Otherwise nothing has changed:
///
/// - 5: out of memory.
/// - 8: the handle is empty.
#[unsafe(no_mangle)]
pub extern "C" fn pmach_key(alloc: Global, handle: &mut Handle, byte: u8) -> u32
    ensures event { Leads result handle.old.held handle.new.held (ChangesMachine (λ m n. result ≢ NO_MEMORY →
        (result ≡ DONE) × (n.state ≡ next m.state (Key byte)))) }
    ensures unchanged { result ≡ NO_MEMORY → handle.new.held ≡ handle.old.held }
    ensures full { Leads result handle.old.held handle.new.held (λ m _.
        result ≡ NO_MEMORY → m.debugger.machine.room.queue ≡ 0) }
{
    let Some(held) = taken(alloc, handle) else {
        return NO_MACHINE;
    };
    let mut held = held;
    let code = match held.debugger.machine().key(byte) {
        Ok(()) => DONE,
        Err(_) => NO_MEMORY,
    };
    *handle = Handle::of(held);
    code
}

/// Writes `word` to memory at `address`, which must be even. Returns 0 if the call succeeded.
///
/// Otherwise nothing has changed:
///
/// - 8: the handle is empty.
/// - 10: the address is odd.
#[unsafe(no_mangle)]
pub extern "C" fn pmach_poke(alloc: Global, handle: &mut Handle, address: u16, word: u16) -> u32
    ensures event { Leads result handle.old.held handle.new.held (ChangesMachine (λ m n.
        (result ≡ poke_code address) × (n.state ≡ next m.state (Poke address word)))) }
{
    let Some(held) = taken(alloc, handle) else {
        return NO_MACHINE;
    };
    let mut held = held;
    let code = if held.debugger.machine().poke(address, word) {
        DONE
    } else {
        ODD_ADDRESS
    };
    *handle = Handle::of(held);
    code
}

/// Frees the machine of `handle`. The handle is empty afterwards. An empty handle remains empty.
#[unsafe(no_mangle)]
pub extern "C" fn pmach_free(alloc: Global, handle: &mut Handle)
    ensures empty { handle.new.held ≡ None }
{
    drop(taken(alloc, handle));
}
