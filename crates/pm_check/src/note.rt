//! Notes: facts about an image that break no rule, and their texts.
ghost use Rattle.std.specs.Prelude.{Some};
ghost use Rattle.pm_check.specs.NoteTexts.{form_text, note_text};

use std::fmt;

/// A format of images whose blocks are not in order from the first byte.
#[derive(Clone, Copy, Debug, PartialEq, Eq)]
pub enum Form {
    /// A disk of 140 KB whose sectors are in DOS sector order.
    Dos,
    /// Blocks in which the two bytes of each word are exchanged.
    Swapped,
    /// Blocks in order after the header of a .2mg file.
    FrontBlocks,
    /// Sectors in DOS sector order after the header of a .2mg file.
    FrontDos,
    /// Blocks with the two bytes of each word exchanged, after the header of a .2mg file.
    FrontSwapped,
}

/// A fact about an image that breaks no rule.
#[derive(Clone, Copy)]
pub enum Note {
    /// The image has a directory header in this format.
    Form(Form),
    /// The volume's name has a byte that is not from 33 to 126.
    VolumeName,
    /// The name of the file in the slot with this number has a byte that is not from 33 to 126.
    Name(u16),
    /// The file in the slot with the first number has a block in common with the file in the slot with the second
    /// number, which is before it.
    Shares(u16, u16),
    /// The file in the slot with the first number has the same name as the file in the slot with the second number,
    /// which is before it.
    SameName(u16, u16),
    /// The second copy of the directory breaks no rule.
    SecondGood,
    /// The second copy of the directory breaks a rule, or does not state that files begin at block 10.
    SecondDamaged,
    /// The headers of the two copies of the directory differ.
    HeadersDiffer,
    /// The slot with this number differs in the two copies of the directory.
    SlotsDiffer(u16),
}

impl fmt::Display for Form {
    ghost output = { λ form. Some (form_text form) };

    fn fmt<W: fmt::Write>(&self, f: &mut fmt::Formatter<W>) -> fmt::Result {
        match *self {
            Form::Dos => f.write_str("dos"),
            Form::Swapped => f.write_str("swapped"),
            Form::FrontBlocks => f.write_str("2mg-blocks"),
            Form::FrontDos => f.write_str("2mg-dos"),
            Form::FrontSwapped => f.write_str("2mg-swapped"),
        }
    }
}

impl fmt::Display for Note {
    ghost output = { λ note. Some (note_text note) };

    fn fmt<W: fmt::Write>(&self, f: &mut fmt::Formatter<W>) -> fmt::Result {
        match *self {
            Note::Form(form) => write!(f, "note form {form}"),
            Note::VolumeName => write!(f, "note header name has a byte outside 33 to 126"),
            Note::Name(slot) => write!(f, "note slot {slot} name has a byte outside 33 to 126"),
            Note::Shares(slot, other) => write!(
                f,
                "note slot {slot} shares blocks with slot {other}"
            ),
            Note::SameName(slot, other) => write!(
                f,
                "note slot {slot} has the name of slot {other}"
            ),
            Note::SecondGood => write!(f, "note second copy is good"),
            Note::SecondDamaged => write!(f, "note second copy is damaged"),
            Note::HeadersDiffer => write!(f, "note second copy differs in the header"),
            Note::SlotsDiffer(slot) => write!(f, "note second copy differs in slot {slot}"),
        }
    }
}
