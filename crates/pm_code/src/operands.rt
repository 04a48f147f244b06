//! The text of the operands of instructions.

ghost use Rattle.std.specs.Prelude.{◌≡◌, ◌<◌, map, Some};
ghost use Rattle.std.specs.Fmt.{decimal};
ghost use Rattle.pm_opcode.specs.Table.{implied};
ghost use Rattle.pm_code.specs.Text.{escaped, implied_texts, is_plain, number_text, operands_text, quoted};
ghost use Rattle.pm_code.specs.Text.{signed_text, type_text};
ghost use Rattle.pm_words.specs.Words.{words_of};

use pm_opcode::implied_number;
use std::fmt;

/// A word, shown as a signed Pascal integer from -32768 to 32767.
#[derive(Clone, Copy)]
pub struct Signed(pub u16);

impl fmt::Display for Signed {
    ghost output = { λ s. Some (signed_text s.0) };

    fn fmt<W: fmt::Write>(&self, f: &mut fmt::Formatter<W>) -> fmt::Result {
        let word = self.0;
        if word < 32768 {
            write!(f, "{word}")
        } else {
            let size = 65536 - u32::from(word);
            write!(f, "-{size}")
        }
    }
}

/// A number with an encoding of one or two bytes, shown in decimal. A number below 128 with two bytes is followed by
/// `!`.
#[derive(Clone, Copy)]
pub(crate) struct Number {
    pub value: u16,
    /// Whether the encoding has two bytes.
    pub long: bool,
}

impl fmt::Display for Number {
    ghost output = { λ n. Some (number_text n.value n.long) };

    fn fmt<W: fmt::Write>(&self, f: &mut fmt::Formatter<W>) -> fmt::Result {
        let value = self.value;
        if self.long && value < 128 {
            write!(f, "{value}!")
        } else {
            write!(f, "{value}")
        }
    }
}

/// The type of the operands of a comparison: its number `code`, and the size of the operands. The text contains the
/// size only for the types BYTES and WORDS.
#[derive(Clone, Copy)]
pub(crate) struct OperandType {
    pub code: u16,
    pub size: Number,
}

impl fmt::Display for OperandType {
    ghost output = { λ t. Some (type_text t.code t.size.value t.size.long) };

    fn fmt<W: fmt::Write>(&self, f: &mut fmt::Formatter<W>) -> fmt::Result {
        let size = self.size;
        match self.code {
            2 => write!(f, "REAL"),
            4 => write!(f, "STR"),
            6 => write!(f, "BOOL"),
            8 => write!(f, "SET"),
            10 => write!(f, "BYTES {size}"),
            12 => write!(f, "WORDS {size}"),
            code => write!(f, "{code}"),
        }
    }
}

/// The operand that is part of an opcode, shown after a space. The text of any other opcode is empty.
#[derive(Clone, Copy)]
pub(crate) struct Implied(pub u8);

impl fmt::Display for Implied {
    ghost output = { λ i. Some (operands_text (implied_texts (implied i.0))) };

    fn fmt<W: fmt::Write>(&self, f: &mut fmt::Formatter<W>) -> fmt::Result {
        match implied_number(self.0) {
            None => Ok(()),
            Some(n) => write!(f, " {n}"),
        }
    }
}

fn is_plain_byte(byte: u8) -> bool
    ensures plain { result ≡ is_plain byte }
{
    byte != b'"' && byte != b'\\' && byte >= 32 && byte <= 126
}

/// A byte as shown inside quotes: unchanged, or as a backslash and two hexadecimal digits.
#[derive(Clone, Copy)]
struct Escaped(u8);

impl fmt::Display for Escaped {
    ghost output = { λ e. Some (escaped e.0) };

    #[tactic(auto, using(std::proofs::lemmas::Fmt::hex_byte))]
    fn fmt<W: fmt::Write>(&self, f: &mut fmt::Formatter<W>) -> fmt::Result {
        let byte = self.0;
        if is_plain_byte(byte) {
            write!(f, "{}", char::from(byte))
        } else {
            write!(f, "\\{byte:02x}")
        }
    }
}

/// Bytes in quotes, in the form that the assembler accepts.
#[derive(Clone, Copy)]
pub struct Quoted<'a>(pub &'a [u8]);

impl fmt::Display for Quoted<'_> {
    ghost output = { λ q. Some (quoted q.0.now) };

    fn fmt<W: fmt::Write>(&self, f: &mut fmt::Formatter<W>) -> fmt::Result {
        let bytes = self.0;
        write!(f, "\"")?;
        for byte in bytes {
            write!(f, "{}", Escaped(*byte))?;
        }
        write!(f, "\"")
    }
}

/// Words, given by their bytes (low byte first). The first word is shown after a space, and each further word after a
/// comma and a space.
#[derive(Clone, Copy)]
pub(crate) struct Words<'a>(pub &'a [u8]);

impl fmt::Display for Words<'_> {
    ghost output = { λ w. Some (operands_text (map decimal (words_of w.0.now))) };

    fn fmt<W: fmt::Write>(&self, f: &mut fmt::Formatter<W>) -> fmt::Result {
        let bytes = self.0;
        for k in 0..bytes.len() / 2 {
            let word = u16::from(bytes[2 * k]) + 256 * u16::from(bytes[2 * k + 1]);
            let lead = if k == 0 { " " } else { ", " };
            write!(f, "{lead}{word}")?;
        }
        Ok(())
    }
}
