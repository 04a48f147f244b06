//! The text of the items of a program.

ghost use Rattle.std.specs.Prelude.{◌≡◌, map, Some};
ghost use Rattle.pm_code.specs.Shown.{label_text, shown_item, target_text};
ghost use Rattle.pm_code.specs.Text.{more_operands};
ghost use Rattle.pm_code.specs.Views.{placed_item, placed_target};

use crate::instruction::Instruction;
use crate::item::{Item, Target};
use crate::opcodes::CASE_JUMP;
use crate::operands::Signed;
use pm_opcode::row_at;
use std::fmt;

/// An offset in a segment, shown as a label: `L` and at least five digits.
#[derive(Clone, Copy)]
pub struct Label(pub usize);

impl fmt::Display for Label {
    ghost output = { λ l. Some (label_text l.0) };

    #[tactic(auto, using(crate::proofs::Digits::padded_written))]
    fn fmt<W: fmt::Write>(&self, f: &mut fmt::Formatter<W>) -> fmt::Result {
        let place = self.0;
        write!(f, "L{place:05}")
    }
}

impl fmt::Display for Target<usize> {
    ghost output = { λ t. Some (target_text (placed_target t)) };

    fn fmt<W: fmt::Write>(&self, f: &mut fmt::Formatter<W>) -> fmt::Result {
        match *self {
            Target::To(place) => write!(f, "{}", Label(place)),
            Target::Through(entry) => write!(f, "^{entry}"),
        }
    }
}

/// Offsets, each shown as a comma, a space and a label.
#[derive(Clone, Copy)]
struct Places<'a>(&'a [usize]);

impl fmt::Display for Places<'_> {
    ghost output = { λ p. Some (more_operands (map label_text p.0.now)) };

    fn fmt<W: fmt::Write>(&self, f: &mut fmt::Formatter<W>) -> fmt::Result {
        for place in self.0 {
            let place = Label(*place);
            write!(f, ", {place}")?;
        }
        Ok(())
    }
}

impl fmt::Display for Item<usize> {
    ghost output = { λ i. Some (shown_item (placed_item i)) };

    #[tactic(auto, unfolding(crate::specs::Shown::shown_item, crate::specs::Text::item_text))]
    fn fmt<W: fmt::Write>(&self, f: &mut fmt::Formatter<W>) -> fmt::Result {
        match self {
            Item::Plain(instr, named) => write!(f, "{}", Instruction { instr, named }),
            Item::Jump(op, target) => {
                let name = row_at(*op).mnemonic;
                write!(f, "{name} {target}")
            }
            Item::Case {
                low,
                high,
                otherwise,
                places,
            } => {
                let name = row_at(CASE_JUMP).mnemonic;
                let (low, high) = (Signed(*low), Signed(*high));
                let places = Places(places);
                write!(f, "{name} {low}, {high}, {otherwise}{places}")
            }
            Item::OneByte(byte) => write!(f, ".BYTE {byte}"),
        }
    }
}
