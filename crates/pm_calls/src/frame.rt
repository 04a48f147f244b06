//! Creating a frame on the stack.

ghost use Rattle.std.specs.Prelude.{◌≡◌, ◌+◌, ◌*◌, ◌%◌, ◌≤◌, Ok, Err, IsTrue, MatchResult, OnOk, OnErr};
ghost use Rattle.pm_words.specs.Watch.{WatchStays};
ghost use Rattle.pm_words.specs.Words.{copied, word_at};
ghost use Rattle.pm_calls.specs.Tables.{IsEvenTable};
ghost use Rattle.pm_calls.specs.Calls.{frame_top, framed, inside, kept_below, with_control, with_frame, with_old_base};
ghost use Rattle.pm_words.specs.declared.layout.TheConstants.{STACK_END};

use crate::frames::Table;
use crate::registers::Registers;
use crate::valid_registers::ValidRegisters;
use pm_words::layout::STACK_END;
use pm_words::{ExecError, Memory};

// Copies `count` bytes of parameters from address `from` to address `to`, which is not above `from`. A few bytes are
// copied word by word, the lowest word first.
#[inline(always)]
#[tactic(auto, using(pm_words::proofs::WatchLaws::stays))]
fn put_parameters(memory: &mut Memory, from: u16, to: u16, count: u16)
    requires even { (from % 2 ≡ 0) × (to % 2 ≡ 0) × (count % 2 ≡ 0) }
    requires below { to ≤ from }
    requires within { (from + count ≤ STACK_END) × (to + count ≤ STACK_END) }
    ensures words { memory.new.words ≡ copied memory.old.words from to count }
    ensures watch { WatchStays memory.old memory.new }
{
    if count > 16 {
        put_block(memory, from, to, count);
    } else {
        put_words(memory, from, to, count / 2);
    }
}

// Copies `count` bytes from address `from` to address `to`, as a block.
#[inline(never)]
fn put_block(memory: &mut Memory, from: u16, to: u16, count: u16)
    requires within { (from + count ≤ STACK_END) × (to + count ≤ STACK_END) }
    ensures words { memory.new.words ≡ copied memory.old.words from to count }
    ensures watch { WatchStays memory.old memory.new }
{
    memory.copy(from, to, count);
}

// Copies `count` words from address `from` to address `to`, one by one, the lowest word first. `to` is not above
// `from`.
#[inline(always)]
#[tactic(auto, using(pm_words::proofs::WatchLaws::stays))]
fn put_words(memory: &mut Memory, from: u16, to: u16, count: u16)
    requires even { (from % 2 ≡ 0) × (to % 2 ≡ 0) }
    requires below { to ≤ from }
    requires within { (from + 2 * count ≤ STACK_END) × (to + 2 * count ≤ STACK_END) }
    ensures words { memory.new.words ≡ copied memory.old.words from to (2 * count) }
    ensures watch { WatchStays memory.old memory.new }
{
    let _ = memory.bytes(); // for the size of the memory
    for i in 0..count {
        let word = memory.word(from + 2 * i).unwrap_or(0);
        memory.set_word(to + 2 * i, word);
    }
}

// Writes a frame at address `frame`: the parameters, the six control words, and, for a base call, the old BASE below
// them. `link` is the static link. `parameters` is the number of bytes of the parameters, which are copied from the
// stack.
#[inline(always)]
#[tactic(auto, using(pm_words::proofs::WatchLaws::stays))]
fn put_frame(
    memory: &mut Memory,
    frame: u16,
    link: u16,
    registers: &Registers,
    parameters: u16,
    base: bool,
)
    requires even { frame % 2 ≡ 0 }
    requires above { frame + 12 + parameters ≤ STACK_END }
    requires below { IsTrue base → 2 ≤ frame }
    requires below_stack { (registers.now.sp % 2 ≡ 0) × (parameters % 2 ≡ 0) × (frame + 12 ≤ registers.now.sp) }
    requires within { registers.now.sp + parameters ≤ STACK_END }
    ensures words { memory.new.words
        ≡ with_old_base base (with_frame memory.old.words frame link registers.now parameters) frame
        registers.now.base }
    ensures link { word_at memory.new.words frame ≡ link }
    ensures watch { WatchStays memory.old memory.new }
{
    put_parameters(memory, registers.sp, frame + 12, parameters);
    let above = registers.sp + parameters;
    let Registers {
        mp,
        jtab,
        seg,
        ipc,
        ..
    } = *registers;
    memory.set_six_words(frame, [link, mp, jtab, seg, ipc, above]);
    if base {
        memory.set_word(frame - 2, registers.base);
    }
}

// Returns the address at which a new frame ends. This is below the code that was loaded for the call, if `loaded` is
// not 0, and otherwise above the parameters.
#[inline(always)]
fn frame_top(loaded: u16, sp: u16, parameters: u16) -> u32
    requires room { loaded ≤ sp }
    ensures top { result ≡ frame_top loaded sp parameters }
{
    if loaded > 0 {
        u32::from(sp - loaded)
    } else {
        u32::from(sp) + u32::from(parameters)
    }
}

// Sets the registers for the start of the procedure with the table `table`, in the segment at `place`, with the frame
// at `mp`.
#[inline(always)]
fn go_inside(registers: &mut ValidRegisters, base: bool, place: u16, table: Table, mp: u16)
    requires even { mp % 2 ≡ 0 }
    requires above { registers.old.np + kept_below base ≤ mp }
    requires below { mp ≤ STACK_END }
    ensures inside { registers.new ≡ inside base registers.old place table mp }
{
    registers.registers.sp = if base { mp - 2 } else { mp };
    registers.registers.ipc = table.enter;
    registers.registers.seg = place;
    registers.registers.jtab = table.jtab;
    registers.registers.mp = mp;
    if base {
        registers.registers.base = mp;
    }
}

/// Enters the procedure with the table `table` and the static link `link`: writes its frame, and sets the registers.
/// Its segment is at `place`, and `loaded` bytes of code were loaded for the call.
///
/// # Errors
///
/// Nothing changes. Checked in this order:
/// - `InvalidMemory`: the parameters extend after the end of the stack.
/// - `StackOverflow`: the frame would be below NP.
#[inline(always)]
#[tactic(auto, unfolding(crate::specs::Calls::framed), using(pm_words::proofs::WatchLaws::stays))]
pub fn enter(
    memory: &mut Memory,
    place: u16,
    loaded: u16,
    registers: &mut ValidRegisters,
    base: bool,
    table: Table,
    link: u16,
) -> Result<(), ExecError>
    requires even { IsEvenTable table }
    requires even_code { loaded % 2 ≡ 0 }
    requires room { loaded ≤ registers.old.sp }
    ensures framed { MatchResult result
        (λ _. framed memory.old.words place loaded registers.old base table link
        ≡ Ok (memory.new.words, registers.new))
        (λ e. framed memory.old.words place loaded registers.old base table link ≡ Err e) }
    ensures watch { WatchStays memory.old memory.new }
    ensures unchanged { OnErr result ((memory.new ≡ memory.old) × (registers.new ≡ registers.old)) }
    ensures even { OnOk result (registers.new.mp % 2 ≡ 0) }
    ensures linked { OnOk result (word_at memory.new.words registers.new.mp ≡ link) }
    ensures table { OnOk result ((registers.new.jtab ≡ table.jtab) × (registers.new.ipc ≡ table.enter)) }
{
    let Registers { sp, np, .. } = registers.registers;
    let parameters = u32::from(table.parameters);
    if u32::from(sp) + parameters > u32::from(STACK_END) {
        return Err(ExecError::InvalidMemory);
    }
    let top = frame_top(loaded, sp, table.parameters);
    let kept = if base { 2 } else { 0 };
    let size = u32::from(table.locals) + parameters + 12;
    if u32::from(np) + kept + size > top {
        return Err(ExecError::StackOverflow);
    }
    let mp = (top - size) as u16;
    let caller = &registers.registers;
    put_frame(memory, mp, link, caller, table.parameters, base);
    go_inside(registers, base, place, table, mp);
    Ok(())
}
