//! Positions in the code: in which procedure, and where in this procedure, a machine executes or a frame continues.

ghost use Rattle.std.specs.Prelude.{◌≡◌};
ghost use Rattle.pm_machine.specs.CodePlaces.{place_at, place_in_code};

use crate::machine::Machine;
use pm_words::Memory;

/// A position in the code.
#[derive(Clone, Copy, Default)]
pub struct CodePlace {
    /// The number of the segment, which is the low byte of its highest word.
    pub segment: u8,
    /// The number of the procedure, which is the low byte of the highest word of its table.
    pub procedure: u8,
    /// The number of bytes from the entry address of the procedure to IPC, modulo 65,536.
    pub offset: u16,
}

/// Returns the position in the code that `seg`, `jtab` and `ipc` describe. These are the values of SEG, JTAB and IPC of
/// a machine or of a frame. Returns `None` if `seg` or `jtab` is odd.
#[tactic(auto, unfolding(crate::specs::CodePlaces::place_at))]
pub fn place_at(memory: &Memory, seg: u16, jtab: u16, ipc: u16) -> Option<CodePlace>
    ensures place { result ≡ place_at memory.now.words seg jtab ipc }
{
    let segment = memory.word(seg)?;
    let procedure = memory.word(jtab)?;
    let at = jtab.wrapping_sub(2);
    let enter = at.wrapping_sub(memory.word(at)?);
    Some(CodePlace {
        segment: (segment % 256) as u8,
        procedure: (procedure % 256) as u8,
        offset: ipc.wrapping_sub(enter),
    })
}

/// Returns the position at which `machine` executes, or `None` if SEG or JTAB is odd.
pub fn place_in_code(machine: &Machine) -> Option<CodePlace>
    ensures place { result ≡ place_in_code machine.now.state }
{
    let registers = machine.registers();
    place_at(
        machine.memory(),
        registers.seg,
        registers.jtab,
        registers.ipc,
    )
}
