//! The text of an address in memory.

ghost use Rattle.std.specs.Prelude.{◌≡◌, length, IsTrue, Some};
ghost use Rattle.pm_opcode.specs.Spelling.{has_spelling, named_by};
ghost use Rattle.pm_disasm.specs.Text.{line_text};

use pm_code::Instruction;
use pm_opcode::{Form, Instr, decode, form_at};
use pm_words::Memory;
use std::fmt;

/// The text of an address in memory: the instruction that begins at the address, or `.BYTE` with the byte if no
/// instruction begins there.
#[derive(Clone, Copy)]
pub struct Line<'a> {
    /// The memory.
    pub memory: &'a Memory,
    /// The address, odd or even.
    pub address: u16,
}

impl<'a> Line<'a> {
    /// Creates the line of `address` in `memory`.
    pub fn new(memory: &'a Memory, address: u16) -> Line<'a>
        ensures memory { result.memory.now ≡ memory.now }
        ensures address { result.address ≡ address }
    {
        Line { memory, address }
    }
}

impl fmt::Display for Line<'_> {
    ghost output = { λ l. Some (line_text l.memory.now.words l.address) };

    #[tactic(auto, unfolding(crate::specs::Text::line_text, crate::specs::Text::text_at))]
    fn fmt<W: fmt::Write>(&self, f: &mut fmt::Formatter<W>) -> fmt::Result {
        let bytes = self.memory.bytes();
        let at = self.address as usize;
        match decode(bytes, at) {
            Ok(instr) => {
                let named = named_bytes(&instr, bytes);
                let instruction = Instruction {
                    instr: &instr,
                    named,
                };
                write!(f, "{instruction}")
            }
            Err(_) => write!(f, ".BYTE {}", bytes[at]),
        }
    }
}

/// Returns the bytes of `bytes` that belong to the instruction `instr`, such as the characters of LSA.
pub(crate) fn named_bytes<'a>(instr: &Instr, bytes: &'a [u8]) -> &'a [u8]
    requires spelling { IsTrue (has_spelling instr.now (length bytes.now)) }
    ensures named { result.now ≡ named_by instr.now bytes.now }
{
    match form_at(instr.op) {
        Form::Chars | Form::Words | Form::Jumps => {
            let start = instr.start as usize;
            &bytes[start..start + instr.count as usize]
        }
        _ => &[],
    }
}
