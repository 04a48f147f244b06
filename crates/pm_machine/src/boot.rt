//! The start of a program: finding its code file on a volume, and executing the first call.

ghost use Rattle.std.specs.Prelude.{◌≡◌, ◌<◌, ◌%◌, IfOk, IfErr, IfSome, length, option_map};
ghost use Rattle.pm_calls.specs.Calls.{called};
ghost use Rattle.pm_words.specs.Stack.{Leaves};
ghost use Rattle.pm_machine.specs.Agreeing.{InStep};
ghost use Rattle.pm_families.specs.declared.families.Call.TheVariants.{Cxp};
ghost use Rattle.pm_codefile.specs.Dictionary.{slot_in};
ghost use Rattle.pm_machine.specs.Faults.{boot_number};
ghost use Rattle.pm_machine.specs.Boot.{Begins, begun, code_file, first_parts, image_of, parts_of, row_of, rows_below};

use crate::machine::{NO_ROW, put_system_frame};
use crate::state::BootFault;
use pm_calls::{Frames, Registers, ValidRegisters};
use pm_codefile::CodeFile;
use pm_families::Call;
use pm_stdproc::{SlotRow, SlotRows};
use pm_units::{Port, unit_of};
use pm_volume::kinds::CODE;
use pm_volume::{Entry, Volume};
use pm_words::layout::{HEAP, SYSTEM_FRAME};
use pm_words::{ExecError, Memory};
use std::alloc::{AllocError, Global};

/// The parts of a machine at its start, without its units (devices).
#[derive(Drop)]
pub struct Begun {
    pub memory: Box<Memory>,
    pub scratch: Box<Memory>,
    pub registers: ValidRegisters,
    pub frames: Frames,
    pub rows: SlotRows,
}

// Returns the volume on disk unit `unit`. Returns `None` if `unit` is not a disk unit or has no volume.
#[tactic(auto, unfolding(crate::specs::Boot::image_of))]
fn volume_on(volumes: &[Option<Volume>; 6], unit: u8) -> Option<&Volume>
    ensures volume { option_map (λ volume. volume.now) result ≡ image_of volumes.now unit }
{
    match unit_of(u16::from(unit)) {
        Port::Disk(place) => volumes[usize::from(place)].as_ref(),
        _ => None,
    }
}

// Returns the directory entry and the code file of the first file with the name `name` on unit `unit`.
//
// # Errors
//
// Checked in this order:
//
// - `NoFile`: `unit` is not a disk unit or has no volume, or the volume has no file with this name.
// - `NotCode`: the kind of the file is not code.
// - `BadCode`: the code file is not valid, or it has no segment 1.
#[tactic(auto, unfolding(crate::specs::Boot::code_file))]
fn code_file<'a>(
    volumes: &'a [Option<Volume>; 6],
    unit: u8,
    name: &str,
) -> Result<(Entry, CodeFile<'a>), BootFault>
    ensures file { result ≡ code_file volumes.now unit name.now }
    ensures of_the_file { IfErr result (λ fault. boot_number fault < 4) }
{
    let Some(volume) = volume_on(volumes, unit) else {
        return Err(BootFault::NoFile);
    };
    let Some(entry) = volume.find(name) else {
        return Err(BootFault::NoFile);
    };
    if entry.kind != CODE {
        return Err(BootFault::NotCode);
    }
    let Some(bytes) = volume.file(&entry) else {
        return Err(BootFault::BadCode);
    };
    let Ok(file) = CodeFile::read(bytes) else {
        return Err(BootFault::BadCode);
    };
    if file.segment(1).is_none() {
        return Err(BootFault::BadCode);
    }
    Ok((entry, file))
}

// Returns where the disk has the code of slot `n` of `file`. `first` is the first block of the code file.
fn row_of(unit: u8, first: u16, file: &CodeFile<'_>, n: u8) -> SlotRow
    ensures row { result ≡ row_of unit first (slot_in file.now n) }
    ensures even { result.length % 2 ≡ 0 }
{
    match file.slot(n) {
        Some(slot) if slot.length > 0 => SlotRow {
            unit,
            block: first.wrapping_add(slot.block),
            length: slot.length,
        },
        _ => SlotRow {
            unit,
            block: 0,
            length: 0,
        },
    }
}

// Returns where the disk has the code of each slot of `file`. `first` is the first block of the code file.
fn rows_of(unit: u8, first: u16, file: &CodeFile<'_>) -> SlotRows
    ensures rows { result ≡ rows_below unit first file.now 16 }
{
    let mut rows = [NO_ROW; 16];
    for n in 0..16 {
        rows[n] = row_of(unit, first, file, n as u8);
    }
    SlotRows::of(rows)
}

// Creates the parts of a machine before the first call.
#[tactic(auto, unfolding(crate::specs::Boot::first_parts, crate::specs::Agreeing::InStep), using(pm_calls::proofs::TableLaws::carry))]
fn start(alloc: Global) -> Result<Begun, AllocError>
    ensures parts { IfOk result (λ b. parts_of b ≡ first_parts) }
    ensures agrees { IfOk result (λ b. InStep b.memory.value b.frames b.registers.mp) }
{
    let mut memory = Memory::new(alloc)?;
    put_system_frame(&mut memory);
    let scratch = Memory::new(alloc)?;
    let registers = ValidRegisters::of(Registers {
        sp: SYSTEM_FRAME,
        ipc: 0,
        seg: 0,
        jtab: 0,
        mp: SYSTEM_FRAME,
        base: SYSTEM_FRAME,
        np: HEAP,
        ioresult: 0,
    });
    Ok(Begun {
        memory,
        scratch,
        registers,
        frames: Frames::new(),
        rows: SlotRows::of([NO_ROW; 16]),
    })
}

// Executes the first call of a program: the call of procedure 1 of slot 1. `code` is the code of slot 1.
#[tactic(auto, unfolding(crate::specs::Agreeing::InStep))]
fn first_call(start: &mut Begun, code: Option<&[u8]>) -> Result<(), ExecError>
    requires even_code { IfSome code (λ c. length c.now % 2 ≡ 0) }
    requires agrees { InStep start.old.memory.value start.old.frames start.old.registers.mp }
    ensures agrees { InStep start.new.memory.value start.new.frames start.new.registers.mp }
    ensures done { Leaves result (parts_of start.old) (parts_of start.new)
        (called (parts_of start.old) (Cxp 1 1) (option_map (λ c. c.now) code.entry)) }
{
    start.frames.call(
        &mut start.memory,
        &mut start.registers,
        Call::Cxp(1, 1),
        code,
        &mut start.scratch,
    )
}

/// Starts the program with the name `name` on the volume of unit `unit`: finds its code file, and calls procedure 1 of
/// slot 1.
#[tactic(auto, unfolding(crate::specs::Boot::begun))]
pub fn begin(
    alloc: Global,
    volumes: &[Option<Volume>; 6],
    unit: u8,
    name: &str,
) -> Result<Begun, BootFault>
    ensures begins { Begins result (code_file volumes.now unit name.now) (begun volumes.now unit name.now) }
    ensures agrees { IfOk result (λ b. InStep b.memory.value b.frames b.registers.mp) }
{
    let (entry, file) = code_file(volumes, unit, name)?;
    let mut start = start(alloc)?;
    first_call(&mut start, file.segment(1))?;
    start.rows = rows_of(unit, entry.first, &file);
    Ok(start)
}
