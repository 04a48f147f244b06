//! The execution of the standard procedures on the whole state. Each pops its operands from the stack.

ghost use Rattle.std.specs.Prelude.{◌≡◌, ◌≢◌, ◌+◌, ◌≤◌, IfOk, List, OnErr};
ghost use Rattle.pm_words.specs.Watch.{WatchStays};
ghost use Rattle.pm_calls.specs.Kept.{Agrees};
ghost use Rattle.pm_units.specs.Traps.{Performs, or_fails};
ghost use Rattle.pm_units.specs.Devices.{Devices, Room};
ghost use Rattle.pm_stdproc.specs.Procedures.{devices_reached, exit_row, keep_row, procedure_numbered};
ghost use Rattle.pm_stdproc.specs.Procedures.{procedure_row, unkeep_row, reach_of};
ghost use Rattle.pm_stdproc.specs.declared.loads.SlotRow.{SlotRow};
ghost use Rattle.pm_stdproc.specs.declared.procedures.Procedure.TheVariants.{Unkeep};
ghost use Rattle.pm_stdproc.specs.UnitRows.{busy_row, clear_row, Serves, ordered, read_row, time_row, units_row};
ghost use Rattle.pm_stdproc.specs.UnitRows.{wait_row, write_row};

use crate::loads::{SlotRows, length_of, slot_code};
use crate::memory_rows::{self, pop_place};
use crate::procedures::{OnUnits, Procedure, procedure_of};
use pm_calls::{Frames, ValidRegisters};
use pm_units::{Transfer, Trap, Units, known, unit_of};
use pm_words::{ExecError, Memory, Top};

/// The operands of a UNITREAD or UNITWRITE.
#[derive(Clone, Copy)]
pub struct Order {
    /// The address, the number of bytes and the block of the transfer.
    pub transfer: Transfer,
    /// The number of the unit.
    pub unit: u16,
    /// SP after the operands are popped.
    pub sp: u16,
}

// Pops the operands of a UNITREAD or UNITWRITE. Fails if the bytes to transfer are not all in memory.
#[tactic(auto, unfolding(crate::specs::UnitRows::ordered))]
fn order_of(top: &mut Top, memory: &Memory) -> Result<Order, ExecError>
    ensures order { result ≡ ordered memory.now.words top.old.sp }
    ensures inside { IfOk result (λ o. o.transfer.address + o.transfer.count ≤ 65536) }
    ensures sp { IfOk result (λ o. top.new.sp ≡ o.sp) }
    ensures np { top.new.np ≡ top.old.np }
{
    let _mode = top.pop(memory)?;
    let block = top.pop(memory)?;
    let count = top.pop(memory)?;
    let address = pop_place(top, memory)?;
    let unit = top.pop(memory)?;
    if u32::from(address) + u32::from(count) > 65536 {
        return Err(ExecError::InvalidMemory);
    }
    let transfer = Transfer {
        address,
        count,
        block,
    };
    Ok(Order {
        transfer,
        unit,
        sp: top.sp(),
    })
}

// EXIT: leaves the procedure with the popped number in the segment with the popped number.
#[tactic(auto, unfolding(crate::specs::Procedures::exit_row), using(pm_words::proofs::WatchLaws::stays, pm_calls::proofs::TableLaws::carry))]
fn exit_row(
    memory: &mut Memory,
    registers: &mut ValidRegisters,
    frames: &mut Frames,
    scratch: &mut Memory,
) -> Result<(), Trap>
    ensures row { (rows : List SlotRow) (devices : Devices) (room : Room) → Performs devices_reached room result
        (reach_of memory.old.words registers.old frames.old.places rows devices)
        (reach_of memory.new.words registers.new frames.new.places rows devices)
        (or_fails (exit_row (reach_of memory.old.words registers.old frames.old.places rows devices))) }
    ensures unchanged { OnErr result ((memory.new.words ≡ memory.old.words) × (registers.new ≡ registers.old)
        × (frames.new.places ≡ frames.old.places)) }
    ensures agrees { Agrees memory.old frames.old registers.old.mp → Agrees memory.new frames.new registers.new.mp }
    ensures watch { WatchStays memory.old memory.new }
    ensures mp { registers.new.mp ≡ registers.old.mp }
{
    let mut stack = registers.top();
    let procedure = stack.pop(memory)?;
    let segment = stack.pop(memory)?;
    let mut inside = registers.with_top(stack);
    frames.exit(memory, &mut inside, segment, procedure, scratch)?;
    *registers = inside;
    Ok(())
}

// CSP 22: withdraws one keep request for a segment.
#[tactic(auto, unfolding(crate::specs::Procedures::unkeep_row))]
fn unkeep_row(
    memory: &mut Memory,
    registers: &mut ValidRegisters,
    frames: &mut Frames,
    rows: &SlotRows,
) -> Result<(), Trap>
    ensures row { (devices : Devices) (room : Room) → Performs devices_reached room result
        (reach_of memory.old.words registers.old frames.old.places rows.now devices)
        (reach_of memory.new.words registers.new frames.new.places rows.now devices)
        (or_fails (unkeep_row
        (reach_of memory.old.words registers.old frames.old.places rows.now devices))) }
    ensures unchanged { OnErr result ((memory.new ≡ memory.old) × (registers.new ≡ registers.old)
        × (frames.new.places ≡ frames.old.places)) }
    ensures agrees { Agrees memory.old frames.old registers.old.mp → Agrees memory.new frames.new registers.new.mp }
    ensures mp { registers.new.mp ≡ registers.old.mp }
{
    let mut stack = registers.top();
    let n = stack.pop(memory)?;
    let mut inside = registers.with_top(stack);
    frames.unkeep(memory, &mut inside, n, length_of(n, rows))?;
    *registers = inside;
    Ok(())
}

/// Executes the standard procedure with the number `n`. IPC must already be that of the next instruction.
///
/// `rows` states where the disk has the code of each slot. `scratch` is a second memory for old words; its contents do
/// not matter before and after the call.
///
/// # Errors
///
/// The memory, the registers, the addresses of segments and the units are unchanged:
/// - `Exec`: an execution error, as defined by the rule of the procedure.
/// - `Waiting`: the input queue has fewer bytes than a unit reads.
/// - `NoMemory`: the procedure writes or echoes more bytes than the spare capacity, and the host has no memory for
///   them.
#[tactic(auto, unfolding(crate::specs::Procedures::procedure_row), using(pm_words::proofs::WatchLaws::stays, pm_calls::proofs::TableLaws::carry))]
pub fn perform(
    units: &mut Units,
    n: u8,
    memory: &mut Memory,
    registers: &mut ValidRegisters,
    frames: &mut Frames,
    rows: &SlotRows,
    scratch: &mut Memory,
) -> Result<(), Trap>
    ensures row { Performs devices_reached units.old.room result
        (reach_of memory.old.words registers.old frames.old.places rows.now units.old.devices)
        (reach_of memory.new.words registers.new frames.new.places rows.now units.new.devices)
        (procedure_row (procedure_numbered n)
        (reach_of memory.old.words registers.old frames.old.places rows.now units.old.devices)) }
    ensures unchanged { OnErr result ((memory.new.words ≡ memory.old.words) × (registers.new ≡ registers.old)
        × (frames.new.places ≡ frames.old.places) × (units.new ≡ units.old)) }
    ensures agrees { Agrees memory.old frames.old registers.old.mp → Agrees memory.new frames.new registers.new.mp }
    ensures watch { procedure_numbered n ≢ Unkeep → WatchStays memory.old memory.new }
    ensures mp { registers.new.mp ≡ registers.old.mp }
{
    match procedure_of(n) {
        Procedure::OnMemory(procedure) => {
            *registers = memory_rows::perform(memory, *registers, procedure)?;
            Ok(())
        }
        Procedure::OnUnits(procedure) => on_units(units, memory, registers, procedure),
        Procedure::Exit => exit_row(memory, registers, frames, scratch),
        Procedure::Keep => keep_row(units, memory, registers, frames, rows),
        Procedure::Unkeep => unkeep_row(memory, registers, frames, rows),
        Procedure::Unimplemented => Err(Trap::Exec(ExecError::Unimplemented)),
    }
}

// CSP 21: makes a keep request for a segment. Loads the segment if it is not in memory.
#[tactic(auto, unfolding(crate::specs::Procedures::keep_row), using(pm_words::proofs::WatchLaws::stays))]
fn keep_row(
    units: &Units,
    memory: &mut Memory,
    registers: &mut ValidRegisters,
    frames: &mut Frames,
    rows: &SlotRows,
) -> Result<(), Trap>
    ensures row { Performs devices_reached units.now.room result
        (reach_of memory.old.words registers.old frames.old.places rows.now units.now.devices)
        (reach_of memory.new.words registers.new frames.new.places rows.now units.now.devices)
        (or_fails (keep_row
        (reach_of memory.old.words registers.old frames.old.places rows.now units.now.devices))) }
    ensures unchanged { OnErr result ((memory.new.words ≡ memory.old.words) × (registers.new ≡ registers.old)
        × (frames.new.places ≡ frames.old.places)) }
    ensures agrees { Agrees memory.old frames.old registers.old.mp → Agrees memory.new frames.new registers.new.mp }
    ensures watch { WatchStays memory.old memory.new }
    ensures mp { registers.new.mp ≡ registers.old.mp }
{
    let mut stack = registers.top();
    let n = stack.pop(memory)?;
    let code = slot_code(n, frames, rows, units)?;
    let mut inside = registers.with_top(stack);
    frames.keep(memory, &mut inside, n, code)?;
    *registers = inside;
    Ok(())
}

// Executes the standard procedure `procedure`, which uses the units or the clock.
#[tactic(auto, unfolding(crate::specs::UnitRows::units_row), using(pm_words::proofs::WatchLaws::stays))]
fn on_units(
    units: &mut Units,
    memory: &mut Memory,
    registers: &mut ValidRegisters,
    procedure: OnUnits,
) -> Result<(), Trap>
    ensures serves { Serves (units_row procedure) result units.old units.new
        memory.old memory.new registers.old registers.new }
{
    match procedure {
        OnUnits::Read => read_row(units, memory, registers),
        OnUnits::Write => write_row(units, memory, registers),
        OnUnits::Time => time_row(units, memory, registers),
        OnUnits::Busy => busy_row(units, memory, registers),
        OnUnits::Wait => wait_row(units, memory, registers),
        OnUnits::Clear => clear_row(units, memory, registers),
    }
}

// UNITREAD: reads bytes from a unit to memory, and sets IORESULT.
#[tactic(auto, unfolding(crate::specs::UnitRows::read_row), using(pm_words::proofs::WatchLaws::stays))]
fn read_row(
    units: &mut Units,
    memory: &mut Memory,
    registers: &mut ValidRegisters,
) -> Result<(), Trap>
    ensures serves { Serves read_row result units.old units.new
        memory.old memory.new registers.old registers.new }
{
    let mut stack = registers.top();
    let order = order_of(&mut stack, memory)?;
    let ioresult = units.read(memory, unit_of(order.unit), order.transfer)?;
    *registers = registers.with_top(stack).with_ioresult(ioresult);
    Ok(())
}

// UNITWRITE: writes bytes from memory to a unit, and sets IORESULT.
#[tactic(auto, unfolding(crate::specs::UnitRows::write_row), using(pm_words::proofs::WatchLaws::stays))]
fn write_row(
    units: &mut Units,
    memory: &mut Memory,
    registers: &mut ValidRegisters,
) -> Result<(), Trap>
    ensures serves { Serves write_row result units.old units.new
        memory.old memory.new registers.old registers.new }
{
    let mut stack = registers.top();
    let order = order_of(&mut stack, memory)?;
    let ioresult = units.write(memory, unit_of(order.unit), order.transfer)?;
    *registers = registers.with_top(stack).with_ioresult(ioresult);
    Ok(())
}

// TIME: writes the two words of the clock to two addresses.
#[tactic(auto, unfolding(crate::specs::UnitRows::time_row), using(pm_words::proofs::WatchLaws::stays))]
fn time_row(
    units: &mut Units,
    memory: &mut Memory,
    registers: &mut ValidRegisters,
) -> Result<(), Trap>
    ensures serves { Serves (λ s. or_fails (time_row s)) result units.old units.new
        memory.old memory.new registers.old registers.new }
{
    let mut stack = registers.top();
    let low = stack.pop(memory)?;
    let high = stack.pop(memory)?;
    if high % 2 != 0 || low % 2 != 0 {
        return Err(Trap::Exec(ExecError::InvalidMemory));
    }
    memory.set_word(high, (units.clock() / 65536) as u16);
    memory.set_word(low, (units.clock() % 65536) as u16);
    *registers = registers.with_top(stack);
    Ok(())
}

// UNITBUSY: pushes 0, because no unit is ever busy, and sets IORESULT.
#[tactic(auto, unfolding(crate::specs::UnitRows::busy_row), using(pm_words::proofs::WatchLaws::stays))]
fn busy_row(
    units: &mut Units,
    memory: &mut Memory,
    registers: &mut ValidRegisters,
) -> Result<(), Trap>
    ensures serves { Serves (λ s. or_fails (busy_row s)) result units.old units.new
        memory.old memory.new registers.old registers.new }
{
    let mut stack = registers.top();
    let unit = stack.pop(memory)?;
    stack.push(memory, 0)?;
    let ioresult = known(unit_of(unit));
    *registers = registers.with_top(stack).with_ioresult(ioresult);
    Ok(())
}

// UNITWAIT: sets IORESULT.
#[tactic(auto, unfolding(crate::specs::UnitRows::wait_row), using(pm_words::proofs::WatchLaws::stays))]
fn wait_row(
    units: &mut Units,
    memory: &mut Memory,
    registers: &mut ValidRegisters,
) -> Result<(), Trap>
    ensures serves { Serves (λ s. or_fails (wait_row s)) result units.old units.new
        memory.old memory.new registers.old registers.new }
{
    let mut stack = registers.top();
    let unit = stack.pop(memory)?;
    let ioresult = known(unit_of(unit));
    *registers = registers.with_top(stack).with_ioresult(ioresult);
    Ok(())
}

// UNITCLEAR: clears a unit, which empties the input queue of the console, and sets IORESULT.
#[tactic(auto, unfolding(crate::specs::UnitRows::clear_row), using(pm_words::proofs::WatchLaws::stays))]
fn clear_row(
    units: &mut Units,
    memory: &mut Memory,
    registers: &mut ValidRegisters,
) -> Result<(), Trap>
    ensures serves { Serves (λ s. or_fails (clear_row s)) result units.old units.new
        memory.old memory.new registers.old registers.new }
{
    let mut stack = registers.top();
    let unit = stack.pop(memory)?;
    let ioresult = units.clear(unit_of(unit));
    *registers = registers.with_top(stack).with_ioresult(ioresult);
    Ok(())
}
