//! The texts of hints.

ghost use Rattle.std.specs.Prelude.{◌≡◌, Some};
ghost use Rattle.pm_asm.specs.HintTexts.{counts_text, example, fixed_text, form_text, hint_text, keyword_text};
ghost use Rattle.pm_asm.specs.HintTexts.{example_text, once_text, range_text, stands_text, taken_text, takes_text};
ghost use Rattle.pm_asm.specs.Hints.{hint_seen};
ghost use Rattle.pm_line.specs.Views.{keyword_seen};

use crate::hint::Hint;
use pm_line::{Keyword, short_range};
use pm_opcode::{Form, form_at, row_at};
use std::fmt;

/// Returns example operands of the form `form`, as they are written in source text.
fn example(form: Form) -> &'static str
    ensures text { result.now ≡ example form }
{
    match form {
        Form::Plain | Form::Unassigned => "",
        Form::Ub | Form::Db => "2",
        Form::B => "5",
        Form::UbUb => "2, 1",
        Form::UbB | Form::DbB => "1, 5",
        Form::W => "500",
        Form::Words => "10, 20",
        Form::Chars => "\"OK\"",
        Form::Typed => "WORDS 5",
        Form::Sb => "L",
        Form::Jumps => "1, 2, OTHER, ONE, TWO",
    }
}

/// Returns the description of the operands of the form `form`.
fn form_text(form: Form) -> &'static str
    ensures text { result.now ≡ form_text form }
{
    match form {
        Form::Plain | Form::Unassigned => "no operand",
        Form::Ub | Form::Db => "a number from 0 to 255",
        Form::B => "a number from 0 to 32767",
        Form::UbUb => "two numbers from 0 to 255, separated by a comma",
        Form::UbB | Form::DbB => "a number from 0 to 255, a comma, and a number from 0 to 32767",
        Form::W => "a number from -32768 to 65535",
        Form::Words => "up to 255 numbers from -32768 to 65535, separated by commas",
        Form::Chars => "a text of up to 255 bytes between double quotes",
        Form::Typed => "REAL, STR, BOOL, SET, BYTES n or WORDS n (n from 0 to 32767)",
        Form::Sb => "a label, or ^k for the k-th .JUMP line (k from 0 to 59)",
        Form::Jumps =>
            "two numbers from -32768 to 32767, a label for all others, and one for each from the first to the second",
    }
}

/// Returns the description of an instruction whose opcode includes its number, such as SLDC. `op` is the first opcode
/// of its mnemonic.
#[tactic(auto, unfolding(crate::specs::HintTexts::range_text))]
fn range_text(op: u8) -> &'static str
    ensures text { result.now ≡ range_text op }
{
    match op {
        0 => "SLDC takes a number from 0 to 127; LDCI takes larger ones",
        216 => "SLDL takes a number from 1 to 16; LDL takes larger ones",
        232 => "SLDO takes a number from 1 to 16; LDO takes larger ones",
        _ => "SIND takes a number from 0 to 7; IND takes larger ones",
    }
}

/// An example of the operands of a form, shown after the mnemonic `name`.
#[derive(Clone, Copy)]
struct ShownExample<'a> {
    name: &'a str,
    form: Form,
}

impl fmt::Display for ShownExample<'_> {
    ghost output = { λ e. Some (example_text e.name.now e.form) };

    fn fmt<W: fmt::Write>(&self, f: &mut fmt::Formatter<W>) -> fmt::Result {
        match self.form {
            Form::Plain | Form::Unassigned => Ok(()),
            form => {
                let name = self.name;
                let operands = example(form);
                write!(f, ", for example {name} {operands}")
            }
        }
    }
}

/// The description of the operands that the mnemonic of this opcode takes.
#[derive(Clone, Copy)]
struct Operands(u8);

impl fmt::Display for Operands {
    ghost output = { λ o. Some (takes_text o.0) };

    #[tactic(auto, unfolding(crate::specs::HintTexts::takes_text))]
    fn fmt<W: fmt::Write>(&self, f: &mut fmt::Formatter<W>) -> fmt::Result {
        let op = self.0;
        match short_range(op) {
            Some(_) => f.write_str(range_text(op)),
            None => {
                let name = row_at(op).mnemonic;
                let form = form_at(op);
                let what = form_text(form);
                write!(f, "{name} takes {what}{}", ShownExample { name, form })
            }
        }
    }
}

/// Returns the spelling of the mnemonic or directive `keyword`.
fn keyword_text(keyword: Keyword) -> &'static str
    ensures text { result.now ≡ keyword_text (keyword_seen keyword) }
{
    match keyword {
        Keyword::Segment => ".SEG",
        Keyword::Procedure => ".PROC",
        Keyword::Exit => ".EXIT",
        Keyword::Jump => ".JUMP",
        Keyword::End => ".END",
        Keyword::Bytes => ".BYTE",
        Keyword::Mnemonic(op) => row_at(op).mnemonic,
    }
}

/// The description of the operands of a mnemonic or a directive.
#[derive(Clone, Copy)]
struct Taken(Keyword);

impl fmt::Display for Taken {
    ghost output = { λ t. Some (taken_text (keyword_seen t.0)) };

    fn fmt<W: fmt::Write>(&self, f: &mut fmt::Formatter<W>) -> fmt::Result {
        match self.0 {
            Keyword::Segment => {
                write!(
                    f,
                    ".SEG takes a number from 0 to 15 and a name of 1 to 8 characters, for example .SEG 1 HELLO"
                )
            }
            Keyword::Procedure => {
                write!(
                    f,
                    ".PROC takes its number (counted from 1 in each segment), its level (from -128 to 127), "
                )?;
                write!(
                    f,
                    "and its bytes of parameters and of locals (two per word, so both even), for example .PROC 1 0 0 4"
                )
            }
            Keyword::Exit => write!(f, ".EXIT takes no operand"),
            Keyword::Jump => write!(f, ".JUMP takes a label, for example .JUMP L"),
            Keyword::End => write!(f, ".END takes no operand"),
            Keyword::Bytes => write!(
                f,
                ".BYTE takes numbers from 0 to 255, separated by commas, for example .BYTE 1, 2"
            ),
            Keyword::Mnemonic(op) => write!(f, "{}", Operands(op)),
        }
    }
}

/// Returns the description of where a line with the mnemonic or directive `keyword` is allowed.
fn stands_text(keyword: Keyword) -> &'static str
    ensures text { result.now ≡ stands_text (keyword_seen keyword) }
{
    match keyword {
        Keyword::Segment =>
            ".SEG must be outside procedures, so the procedure before it needs an .END",
        Keyword::Procedure =>
            ".PROC must be after a .SEG, outside other procedures, and needs an .END on a later line",
        Keyword::Exit => ".EXIT must be in a procedure, before its first .JUMP",
        Keyword::Jump => ".JUMP must be in a procedure, before its .END",
        Keyword::End =>
            ".END must be at the end of a procedure, after its .EXIT, which every procedure needs",
        Keyword::Bytes | Keyword::Mnemonic(_) => {
            "instructions, .BYTE and labels must be in a procedure, after .PROC and before its first .JUMP"
        }
    }
}

/// Returns the text that states what may occur only once: a segment's number, `.EXIT` or a label.
fn once_text(keyword: Keyword) -> &'static str
    ensures text { result.now ≡ once_text (keyword_seen keyword) }
{
    match keyword {
        Keyword::Segment => "the text has a segment of that number already",
        Keyword::Exit => ".EXIT cannot be used again in the same procedure",
        _ => "the label cannot be defined again in the same procedure",
    }
}

/// The text that explains how to jump to any label.
const REACHING: &str =
    "to jump back or farther, write ^0 for the label, and a line .JUMP with the label before .END";

/// Returns the text of `hint` if this text is constant. Returns an empty text for other hints.
fn fixed_text(hint: Hint) -> &'static str
    ensures text { result.now ≡ fixed_text (hint_seen hint) }
{
    match hint {
        Hint::Characters =>
            "a text can contain only tabs and the characters 32 to 126; a file with others may be binary",
        Hint::Labels => {
            "a label is a letter or _, then letters, digits and _ (at most 32 characters), and a colon"
        }
        Hint::BeforeLabelled => {
            "a label must be before an instruction or .BYTE, or on a line of its own"
        }
        Hint::Stands(keyword) => stands_text(keyword),
        Hint::Words => {
            "no mnemonic or directive is similar; write a colon after a label, and ; before a comment"
        }
        Hint::Named => "no line of this procedure defines the label; labels are case-sensitive",
        Hint::Once(keyword) => once_text(keyword),
        _ => "",
    }
}

/// The number of `.JUMP` lines, and the number of jump table entries that the code uses.
#[derive(Clone, Copy)]
struct ShownCounts {
    entries: usize,
    taken: usize,
}

impl fmt::Display for ShownCounts {
    ghost output = { λ c. Some (counts_text c.entries c.taken) };

    fn fmt<W: fmt::Write>(&self, f: &mut fmt::Formatter<W>) -> fmt::Result {
        let (entries, taken) = (self.entries, self.taken);
        write!(f, "{entries}; its code uses {taken}, from ^0 on")
    }
}

impl fmt::Display for Hint {
    ghost output = { λ hint. Some (hint_text (hint_seen hint)) };

    #[tactic(auto, unfolding(crate::specs::HintTexts::hint_text))]
    fn fmt<W: fmt::Write>(&self, f: &mut fmt::Formatter<W>) -> fmt::Result {
        match *self {
            Hint::Takes(keyword) => write!(f, "{}", Taken(keyword)),
            Hint::Meant(keyword) => {
                let name = keyword_text(keyword);
                write!(f, "did you mean {name}?")
            }
            Hint::Ended => {
                write!(
                    f,
                    "either the procedure has an odd number of bytes (add a NOP after its last instruction), "
                )?;
                write!(f, "or not one .JUMP line per entry, from ^0 to the last ^k")
            }
            Hint::Odd { procedure, bytes } => {
                write!(f, ".PROC {procedure} has an odd number of bytes, ")?;
                write!(
                    f,
                    "{bytes}: add a NOP after its last instruction, before any .JUMP, to make it even"
                )
            }
            Hint::Counted(procedure, entries, taken) => {
                let counts = ShownCounts { entries, taken };
                write!(f, ".JUMP lines of .PROC {procedure}: {counts}")
            }
            Hint::Reached(keyword) => {
                let name = keyword_text(keyword);
                write!(
                    f,
                    "{name} reaches a label at most 127 bytes ahead; {REACHING}"
                )
            }
            hint => {
                let text = fixed_text(hint);
                write!(f, "{text}")
            }
        }
    }
}
