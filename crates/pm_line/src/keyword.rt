//! The keyword of a line: its first word, or the word after its label.

ghost use Rattle.std.specs.Prelude.{◌≡◌, option_map};
ghost use Rattle.std.specs.Map.{lookup};
ghost use Rattle.std.specs.Str.{bytes_eq};
ghost use Rattle.pm_source.specs.Line.{directives, keyword_of, named_from};
ghost use Rattle.pm_line.specs.Views.{keyword_seen};

use pm_opcode::row_at;

/// The kind of the keyword of a line.
#[derive(Clone, Copy)]
pub enum Keyword {
    /// `.SEG`, which begins a segment.
    Segment,
    /// `.PROC`, which begins a procedure.
    Procedure,
    /// `.EXIT`, which marks the beginning of the exit code.
    Exit,
    /// `.JUMP`, which defines an entry of the jump table.
    Jump,
    /// `.END`, which ends a procedure.
    End,
    /// `.BYTE`, which writes bytes.
    Bytes,
    /// A mnemonic, represented by the first opcode that has this mnemonic.
    Mnemonic(u8),
}

/// Returns the first opcode with the mnemonic `name`, or `None` if no opcode has it.
fn opcode_named(name: &[u8]) -> Option<u8>
    ensures opcode { result ≡ named_from name.now 0 256 }
{
    for op in 0..256u16 {
        let op = op as u8;
        if name == row_at(op).mnemonic.as_bytes() {
            return Some(op);
        }
    }
    None
}

/// Returns the directive that `word` is, or `None` if it is no directive.
#[tactic(auto, unfolding(pm_source::specs::Line::directives))]
fn directive_named(word: &[u8]) -> Option<Keyword>
    ensures directive { option_map keyword_seen result ≡ lookup (bytes_eq word.now) directives }
{
    match word {
        b".SEG" => Some(Keyword::Segment),
        b".PROC" => Some(Keyword::Procedure),
        b".EXIT" => Some(Keyword::Exit),
        b".JUMP" => Some(Keyword::Jump),
        b".END" => Some(Keyword::End),
        b".BYTE" => Some(Keyword::Bytes),
        _ => None,
    }
}

/// Returns the directive or mnemonic that `word` is, or `None` if it is neither.
#[tactic(auto, unfolding(pm_source::specs::Line::keyword_of))]
pub(crate) fn keyword_of(word: &[u8]) -> Option<Keyword>
    ensures keyword { option_map keyword_seen result ≡ keyword_of word.now }
{
    match directive_named(word) {
        Some(keyword) => Some(keyword),
        None => Some(Keyword::Mnemonic(opcode_named(word)?)),
    }
}
