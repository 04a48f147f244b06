//! What calls read: the attribute table, the parameters, and the words that lead to the static link. A query asks
//! whether one of the bytes `bytes` is read.

ghost use Rattle.std.specs.Prelude.{◌≡◌, pos, ◌+ℤ◌, ◌-ℤ◌};
ghost use Rattle.pm_words.specs.Words.{word_at};
ghost use Rattle.pm_calls.specs.Links.{level_of};
ghost use Rattle.pm_machine.specs.ReadStretches.{call_read, entry_words, inner_read, static_link_read, table_read};
ghost use Rattle.pm_access.specs.Reached.{loaded_memory, segment_seen};
ghost use Rattle.pm_access.specs.Reading.{table_and_entry};
ghost use Rattle.pm_access.specs.Writing.{meets};

use crate::loaded::Loaded;
use crate::reached::{Segment, call_reached};
use crate::read_links::links_by;
use crate::stretches::{Bytes, meets};
use pm_calls::{Registers, Table, procedure_called};
use pm_families::Call;
use pm_machine::Machine;
use pm_words::ExecError;

// Returns the number of static links from the frame of the running procedure to the frame that encloses a procedure of
// level `level`. The table of the running procedure is at `jtab`.
fn links_up(memory: Loaded<'_>, jtab: u16, level: i8) -> i16
    ensures links { result ≡ level_of (word_at (loaded_memory memory.entry) jtab) -ℤ level +ℤ pos 1 }
{
    let own = ((memory.word(jtab) / 256) as u8).cast_signed();
    i16::from(own) - i16::from(level) + 1
}

// Is true if one of the bytes `bytes` belongs to the level of the running procedure, or to a static link that is
// followed from its frame. The links lead to the frame that encloses a procedure of level `level`.
fn inner_read(bytes: Bytes, memory: Loaded<'_>, registers: Registers, level: i8) -> bool
    ensures read { result ≡ meets bytes (inner_read (loaded_memory memory.entry) registers level) }
{
    let links = links_up(memory, registers.jtab, level);
    meets(bytes, usize::from(registers.jtab), 2) || links_by(bytes, memory, registers.mp, links)
}

// Is true if `call` reads one of the bytes `bytes` to find the static link of a procedure of level `level`.
fn static_link_read(
    bytes: Bytes,
    call: Call,
    memory: Loaded<'_>,
    registers: Registers,
    level: i8,
) -> bool
    ensures read { result ≡ meets bytes (static_link_read call (loaded_memory memory.entry) registers level) }
{
    match call {
        Call::Clp(_) | Call::Cgp(_) => false,
        Call::Cbp(_) => meets(bytes, usize::from(registers.base), 2),
        Call::Cip(_) => inner_read(bytes, memory, registers, level),
        Call::Cxp(_, _) => {
            if level <= 0 {
                meets(bytes, usize::from(registers.base), 2)
            } else {
                inner_read(bytes, memory, registers, level)
            }
        }
    }
}

// Is true if a call reads one of the bytes `bytes` in the table of procedure `procedure`, in the segment whose highest
// word is at `place`.
fn table_read(bytes: Bytes, memory: Loaded<'_>, place: u16, procedure: u8) -> bool
    ensures read { result ≡ meets bytes (table_read (loaded_memory memory.entry) place procedure) }
{
    let at = place.wrapping_sub(2 * u16::from(procedure));
    let jtab = at.wrapping_sub(memory.word(at));
    meets(bytes, usize::from(place), 2)
        || meets(bytes, usize::from(at), 2)
        || meets(bytes, usize::from(jtab), 2)
        || meets(bytes, usize::from(jtab.wrapping_sub(2)), 2)
        || meets(bytes, usize::from(jtab.wrapping_sub(6)), 2)
        || meets(bytes, usize::from(jtab.wrapping_sub(8)), 2)
}

// Is true if `call` reads one of the bytes `bytes` after it has read the table: the parameters, which it copies, and
// the words that lead to the static link. Is false if `table` is an error.
fn entry_words(
    bytes: Bytes,
    call: Call,
    memory: Loaded<'_>,
    registers: Registers,
    table: Result<Table, ExecError>,
) -> bool
    ensures read { result ≡ meets bytes (entry_words call (loaded_memory memory.entry) registers table) }
{
    match table {
        Ok(table) => {
            meets(
                bytes,
                usize::from(registers.sp),
                usize::from(table.parameters),
            ) || static_link_read(bytes, call, memory, registers, table.level)
        }
        Err(_) => false,
    }
}

// Is true if `call` reads one of the bytes `bytes`, where `segment` is the segment that it reaches.
#[tactic(auto, using(crate::proofs::ReadingLaws::meets_both))]
fn table_and_entry(bytes: Bytes, call: Call, registers: Registers, segment: Segment<'_>) -> bool
    ensures read { result ≡ meets bytes (table_and_entry call registers (segment_seen segment.entry)) }
{
    let (memory, place, procedure) = (segment.memory, segment.place, procedure_called(call));
    if table_read(bytes, memory, place, procedure) {
        return true;
    }
    entry_words(
        bytes,
        call,
        memory,
        registers,
        memory.table(place, procedure),
    )
}

/// Is true if the call `what` reads one of the bytes `bytes`.
#[tactic(auto, using(crate::proofs::ReadingLaws::read_seen))]
pub(crate) fn call_read(bytes: Bytes, what: Call, machine: &Machine) -> bool
    ensures read { result ≡ meets bytes (call_read what machine.now.state) }
{
    match call_reached(machine, what) {
        Some(segment) => table_and_entry(bytes, what, machine.registers(), segment),
        None => false,
    }
}
