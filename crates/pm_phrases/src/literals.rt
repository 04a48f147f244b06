//! The texts of constants that are stored in the code.

ghost use Rattle.std.specs.Prelude.{◌≡◌, ◌∷◌, ◌++◌, IfOk, OnOk, Some, option_map, string_bytes};
ghost use Rattle.std.specs.List.{flat_map};
ghost use Rattle.pm_code.specs.Views.{placed_item};
ghost use Rattle.pm_phrases.specs.Counts.{operation_in};
ghost use Rattle.pm_phrases.specs.Literals as texts;

use crate::leaf::Text;
use crate::operand::{Form, Phrase, ROOM, push_operand, standing};
use pm_code::{Item, Quoted};
use pm_families::Literal;
use pm_opcode::Operation;
use std::alloc::{AllocError, Global};
use std::fmt;

/// Whether `byte` is shown unchanged between apostrophes: 32 to 126, except the apostrophe and the backslash.
fn is_own(byte: u8) -> bool
    ensures own { result ≡ texts.is_own byte }
{
    byte != b'\'' && byte != b'\\' && byte >= 32 && byte <= 126
}

/// A byte, shown as a backslash and two hexadecimal digits.
#[derive(Clone, Copy)]
struct Escape(u8);

impl fmt::Display for Escape {
    ghost output = { λ e. Some (texts.escape e.0) };

    #[tactic(auto, using(std::proofs::lemmas::Fmt::hex_byte), unfolding(crate::specs::Literals::escape))]
    fn fmt<W: fmt::Write>(&self, f: &mut fmt::Formatter<W>) -> fmt::Result {
        let byte = self.0;
        write!(f, "\\{byte:02x}")
    }
}

/// A byte as it is shown between apostrophes.
#[derive(Clone, Copy)]
struct Apostrophed(u8);

impl fmt::Display for Apostrophed {
    ghost output = { λ e. Some (texts.apostrophed e.0) };

    fn fmt<W: fmt::Write>(&self, f: &mut fmt::Formatter<W>) -> fmt::Result {
        let byte = self.0;
        if is_own(byte) {
            f.write_char(char::from(byte))
        } else if byte == b'\'' {
            f.write_str("''")
        } else {
            f.write(Escape(byte))
        }
    }
}

/// Bytes enclosed in apostrophes.
#[derive(Clone, Copy)]
struct Apostrophes<'a>(&'a [u8]);

impl fmt::Display for Apostrophes<'_> {
    ghost output = { λ q. Some (texts.apostrophes q.0.now) };

    fn fmt<W: fmt::Write>(&self, f: &mut fmt::Formatter<W>) -> fmt::Result {
        let bytes = self.0;
        write!(f, "'")?;
        for byte in bytes {
            write!(f, "{}", Apostrophed(*byte))?;
        }
        write!(f, "'")
    }
}

#[tactic(auto, unfolding(crate::specs::Literals::literal_alone))]
pub(crate) fn literal_alone(
    alloc: Global,
    what: Literal,
    named: &[u8],
) -> Result<Option<Phrase>, AllocError>
    ensures shown { IfOk result (λ p. p ≡ texts.literal_alone named.now what) }
{
    if let Literal::Words { .. } = what {
        return Ok(None);
    }
    let mut text = String::with_capacity(alloc, ROOM)?;
    match what {
        Literal::String(_) => text.write(Apostrophes(named))?,
        _ => text.write(Quoted(named))?,
    }
    Ok(Some(standing(Text::Written(text), Form::Literal)))
}

/// Returns the bytes of the words of `item` if it is an LDC, else `None`.
#[tactic(auto, unfolding(crate::specs::Counts::operation_in))]
pub(crate) fn words_in(
    alloc: Global,
    item: &Item<usize>,
    what: Operation,
) -> Result<Option<Vec<u8>>, AllocError>
    requires what { what ≡ operation_in (placed_item item.now) }
    ensures words { IfOk result
        (λ bytes. option_map (λ bytes. bytes.items) bytes ≡ texts.words_in (placed_item item.now)) }
{
    let Item::Plain(_, named) = item else {
        return Ok(None);
    };
    match what {
        Operation::Literal(Literal::Words { .. }) => Ok(Some(named.to_vec(alloc)?)),
        _ => Ok(None),
    }
}

/// Appends `operand`, which is next to an operator of the precedence `strength`. The other operand of this operator has
/// the form `form`. If `form` is a byte and `operand` is the constant of a printable character, `operand` is shown as
/// `CHR'c'`.
#[tactic(auto, unfolding(crate::specs::Literals::beside))]
pub(crate) fn push_beside(
    out: &mut String,
    form: Form,
    operand: &Phrase,
    strength: u8,
) -> Result<(), AllocError>
    ensures text { OnOk result
        (string_bytes out.new ≡ string_bytes out.old ++ texts.beside form operand.now strength) }
{
    match (form, operand.form) {
        (Form::Byte, Form::Constant(word)) if word < 256 && is_own(word as u8) => {
            out.write(format_args!("CHR'{}'", char::from(word as u8)))
        }
        _ => push_operand(out, operand, strength),
    }
}
