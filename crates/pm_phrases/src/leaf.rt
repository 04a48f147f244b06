//! The texts of operands. A leaf is a text that is generated when it is appended to another text. So a leaf needs no
//! memory.

ghost use Rattle.std.specs.Prelude.{◌≡◌, ◌++◌, IfSome, None, OnOk, string_bytes};
ghost use Rattle.std.specs.Fmt.{decimal};
ghost use Rattle.pm_code.specs.Shown.{shown_item};
ghost use Rattle.pm_code.specs.Views.{placed_item};
ghost use Rattle.pm_phrases.specs.Counts.{operation_in};
ghost use Rattle.pm_phrases.specs.Leaves as leaves;
ghost use Rattle.pm_phrases.specs.Literals.{words_in};
ghost use Rattle.pm_phrases.specs.Missing as missing;
ghost use Rattle.pm_phrases.specs.Shown.{arguments, braced};

use crate::around::{Around, Missing};
use crate::spelling::Spelling;
use crate::variables::push_name;
use pm_code::{Instruction, Item};
use pm_effects::Share;
use pm_families::Scope;
use pm_opcode::{Form, Instr, Operation, form_at, implied_number, row_at};
use std::alloc::AllocError;

/// An item to which no bytes belong, and which contains no offsets.
#[derive(Clone, Copy, Drop)]
pub(crate) enum Bare {
    /// An instruction: its opcode, its first two operands, and `true` if its number has two bytes although one
    /// suffices.
    Instruction(u8, u16, u16, bool),
    /// A byte that is not part of an instruction.
    OneByte(u8),
}

/// A text that is generated when it is appended.
#[derive(Clone, Copy, Drop)]
pub(crate) enum Leaf {
    /// A number in its shortest encoding, shown as a signed integer.
    Number(u16),
    /// A variable: the procedure that uses it, its scope, its number, and the encoding of the instruction, which marks
    /// show.
    Variable(Around, Scope, u16, Spelling),
    /// A constant text.
    Fixed(&'static str),
    /// The stand-in (such as `POP`) for a missing share. A share is a part of the stack: a number of words, or a set.
    StandIn(Share),
    /// An item in braces, followed by stand-ins only. The fields are the item, whether its input is known, and what is
    /// missing.
    Braced(Bare, bool, Missing),
}

/// The text of an operand, either stored or generated when needed.
#[derive(Drop)]
pub(crate) enum Text {
    /// A text in memory.
    Written(String),
    /// A text that needs no memory.
    Leaf(Leaf),
}

/// Returns `item`, whose operation is `what`, as a `Bare`. Returns `None` if bytes belong to the item, or if it
/// contains offsets.
#[tactic(auto, unfolding(pm_code::specs::Shown::shown_item, crate::specs::Counts::operation_in))]
pub(crate) fn bare_in(item: &Item<usize>, what: Operation) -> Option<Bare>
    requires what { what ≡ operation_in (placed_item item.now) }
    ensures text { IfSome result (λ b. shown_item (leaves.item_of b) ≡ shown_item (placed_item item.now)) }
    ensures words { IfSome result (λ b. words_in (placed_item item.now) ≡ None) }
{
    match item {
        Item::Plain(instr, _) => match (what, form_at(instr.op)) {
            (Operation::Literal(_), _) | (_, Form::Chars | Form::Words | Form::Jumps) => None,
            _ => Some(Bare::Instruction(instr.op, instr.a, instr.b, instr.long)),
        },
        Item::OneByte(byte) => Some(Bare::OneByte(*byte)),
        Item::Jump(_, _) | Item::Case { .. } => None,
    }
}

/// Appends `number` in decimal.
#[tactic(auto, using(std::proofs::lemmas::Fmt::decimal_digit, crate::proofs::Decimals::digit_added))]
pub(crate) fn push_number(out: &mut String, number: u32) -> Result<(), AllocError>
    ensures text { OnOk result (string_bytes out.new ≡ string_bytes out.old ++ decimal number) }
{
    if number < 10 {
        return out.push(char::from(b'0' + number as u8));
    }
    push_number(out, number / 10)?;
    out.push(char::from(b'0' + (number % 10) as u8))?;
    Ok(())
}

/// Appends the text that the disassembly shows for the item `bare`.
#[tactic(auto, unfolding(pm_code::specs::Shown::shown_item, pm_code::specs::Text::item_text))]
pub(crate) fn push_bare(out: &mut String, bare: Bare) -> Result<(), AllocError>
    ensures text { OnOk result (string_bytes out.new ≡ string_bytes out.old ++ shown_item (leaves.item_of bare)) }
{
    let (op, a, b, long) = match bare {
        Bare::Instruction(op, a, b, long) => (op, a, b, long),
        Bare::OneByte(byte) => {
            out.push_str(".BYTE ")?;
            return push_number(out, u32::from(byte));
        }
    };
    if let (Form::Plain, None) = (form_at(op), implied_number(op)) {
        return out.push_str(row_at(op).mnemonic);
    }
    let instr = Instr {
        a,
        b,
        long,
        ..Instr::bare(op)
    };
    let (instr, named) = (&instr, &[]);
    out.write(Instruction { instr, named })
}

/// Appends the stand-in (such as `POP`) for the missing share `share`.
pub(crate) fn push_share(out: &mut String, share: Share) -> Result<(), AllocError>
    ensures text { OnOk result (string_bytes out.new ≡ string_bytes out.old ++ missing.share_text share) }
{
    match share {
        Share::Words(1) => out.push_str("POP"),
        Share::Words(words) => {
            out.push_str("POP*")?;
            push_number(out, u32::from(words))
        }
        Share::Set => out.push_str("POP SET"),
    }
}

/// Appends the argument list in parentheses of the stand-ins for `what`, which is missing. If `known` is false, the
/// list is `(?)`.
#[tactic(auto, unfolding(crate::specs::Shown::value_text))]
fn push_stand_ins(out: &mut String, known: bool, what: Missing) -> Result<(), AllocError>
    ensures text { OnOk result
        (string_bytes out.new ≡ string_bytes out.old ++ arguments (missing.stand_ins known what)) }
{
    if !known {
        return out.push_str("(?)");
    }
    match (what.below, what.top) {
        (Share::Words(0), Share::Words(0)) => Ok(()),
        (Share::Words(0), share) | (share, Share::Words(0)) => {
            out.push('(')?;
            push_share(out, share)?;
            out.push(')')
        }
        (below, top) => {
            out.push('(')?;
            push_share(out, below)?;
            out.push_str(", ")?;
            push_share(out, top)?;
            out.push(')')
        }
    }
}

/// Appends the item `bare` in braces, followed by the argument list of the stand-ins for `what`.
fn push_braced(out: &mut String, bare: Bare, known: bool, what: Missing) -> Result<(), AllocError>
    ensures text { OnOk result (string_bytes out.new
        ≡ string_bytes out.old ++ braced (leaves.item_of bare) (missing.stand_ins known what)) }
{
    out.push('{')?;
    push_bare(out, bare)?;
    out.push('}')?;
    push_stand_ins(out, known, what)
}

/// Appends `text`, the text of an operand.
pub(crate) fn push_text(out: &mut String, text: &Text) -> Result<(), AllocError>
    ensures text { OnOk result (string_bytes out.new ≡ string_bytes out.old ++ leaves.bytes_of text.now) }
{
    match text {
        Text::Written(text) => out.push_str(text.as_str()),
        Text::Leaf(Leaf::Number(word)) if *word < 32768 => push_number(out, u32::from(*word)),
        Text::Leaf(Leaf::Number(word)) => {
            out.push('-')?;
            push_number(out, 65536 - u32::from(*word))
        }
        Text::Leaf(Leaf::Variable(around, scope, number, spelling)) => {
            push_name(out, *around, *scope, *number, *spelling)
        }
        Text::Leaf(Leaf::Fixed(text)) => out.push_str(*text),
        Text::Leaf(Leaf::StandIn(share)) => push_share(out, *share),
        Text::Leaf(Leaf::Braced(bare, known, what)) => push_braced(out, *bare, *known, *what),
    }
}
