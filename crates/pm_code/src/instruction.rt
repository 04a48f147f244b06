//! The text of instructions.

ghost use Rattle.std.specs.Prelude.{Some};
ghost use Rattle.pm_code.specs.Text.{item_text};

use crate::operands::{Implied, Number, OperandType, Quoted, Signed, Words};
use pm_opcode::{Form, Instr, form_at, row_at};
use std::fmt;

/// An instruction with the bytes that belong to it, shown as its mnemonic and its operands.
#[derive(Clone, Copy)]
pub struct Instruction<'a> {
    /// The instruction.
    pub instr: &'a Instr,
    /// The characters of LSA and LPA, or the bytes of the words of LDC. The text of any other instruction does not
    /// depend on these bytes.
    pub named: &'a [u8],
}

impl fmt::Display for Instruction<'_> {
    ghost output = { λ i. Some (item_text i.instr.now i.named.now) };

    #[tactic(auto, unfolding(crate::specs::Text::item_text))]
    fn fmt<W: fmt::Write>(&self, f: &mut fmt::Formatter<W>) -> fmt::Result {
        let op = self.instr.op;
        let (a, b, c) = (self.instr.a, self.instr.b, self.instr.c);
        let long = self.instr.long;
        let name = row_at(op).mnemonic;
        match form_at(op) {
            Form::Plain => write!(f, "{name}{}", Implied(op)),
            Form::Ub | Form::Db | Form::W => write!(f, "{name} {a}"),
            Form::Sb => write!(f, "{name} {}", Signed(a)),
            Form::B => write!(f, "{name} {}", Number { value: a, long }),
            Form::UbB | Form::DbB => write!(f, "{name} {a}, {}", Number { value: b, long }),
            Form::UbUb => write!(f, "{name} {a}, {b}"),
            Form::Chars => write!(f, "{name} {}", Quoted(self.named)),
            Form::Words => write!(f, "{name}{}", Words(self.named)),
            Form::Jumps => write!(f, "{name} {}, {}, {c}", Signed(a), Signed(b)),
            Form::Typed => {
                let size = Number { value: b, long };
                write!(f, "{name} {}", OperandType { code: a, size })
            }
            Form::Unassigned => write!(f, "{name}"),
        }
    }
}
