//! Parsing of comparisons. The operand is a type keyword, such as `BYTES`, and a size after it for some types.

ghost use Rattle.std.specs.Prelude.{◌≡◌, option_map, IfOk};
ghost use Rattle.std.specs.Map.{lookup};
ghost use Rattle.std.specs.Str.{bytes_eq};
ghost use Rattle.pm_source.specs.Line.{checked, comparison, instruction_said, one_comparison};
ghost use Rattle.pm_source.specs.Line.{sized_comparison, sized_type_words, type_words};
ghost use Rattle.pm_line.specs.Views.{flaw_seen, labelled_item, range_flaw, said_seen, texts_seen};

use crate::counted::only;
use crate::instruction::{instruction, plain};
use crate::item::Flaw;
use crate::operand::number_operand;
use crate::words::words;
use pm_code::Item;
use pm_opcode::{Form, Instr};
use std::alloc::{AllocError, Global};

/// The result of parsing: a value and its flaw, `None` if the text is malformed, or `AllocError` if the host has no
/// memory.
pub(crate) type Said<T> = Result<Option<(T, Flaw)>, AllocError>;

/// Returns `NoFlaw` if `in_range` is true, otherwise `OutOfRange`.
pub(crate) fn flaw_of(in_range: bool) -> Flaw
    ensures flaw { flaw_seen result ≡ range_flaw in_range }
{
    if in_range {
        Flaw::NoFlaw
    } else {
        Flaw::OutOfRange
    }
}

/// Returns the type byte of `word` if it is the keyword of a type without a size. Otherwise returns `None`.
fn unsized_type(word: &[u8]) -> Option<u8>
    ensures type_byte { result ≡ lookup (bytes_eq word.now) type_words }
{
    match word {
        b"REAL" => Some(2),
        b"STR" => Some(4),
        b"BOOL" => Some(6),
        b"SET" => Some(8),
        _ => None,
    }
}

/// Returns the type byte of `word` if it is the keyword of a type with a size. Otherwise returns `None`.
fn sized_type(word: &[u8]) -> Option<u8>
    ensures type_byte { result ≡ lookup (bytes_eq word.now) sized_type_words }
{
    match word {
        b"BYTES" => Some(10),
        b"WORDS" => Some(12),
        _ => None,
    }
}

/// Returns the item of a comparison with the type byte `sized`. The size is the only word of `others`. If `sized` is
/// `None`, the type is unknown, and the flaw is `UnknownType`.
#[tactic(auto, using(crate::proofs::Counts::no_sized))]
fn sized_comparison<'a>(
    alloc: Global,
    op: u8,
    others: &[&'a [u8]],
    sized: Option<u8>,
) -> Option<(Item<&'a [u8]>, Flaw)>
    ensures item { said_seen labelled_item result ≡ sized_comparison op (texts_seen others.now) sized }
{
    let Some(sized) = sized else {
        return Some((plain(alloc, Instr::bare(op)), Flaw::UnknownType));
    };
    let size = only(others)?;
    let (size, in_range) = number_operand(size)?;
    let instr = Instr {
        a: u16::from(sized),
        b: size.value,
        long: size.long,
        ..Instr::bare(op)
    };
    Some((plain(alloc, instr), flaw_of(in_range)))
}

/// Returns the item of a comparison whose operand consists of `words`, and its flaw. Returns `None` if the operand is
/// malformed.
fn comparison<'a>(alloc: Global, op: u8, words: &[&'a [u8]]) -> Option<(Item<&'a [u8]>, Flaw)>
    ensures item { said_seen labelled_item result ≡ comparison op (texts_seen words.now) }
{
    let [name, others @ ..] = words else {
        return None;
    };
    let Some(plain_type) = unsized_type(name) else {
        return sized_comparison(alloc, op, others, sized_type(name));
    };
    if !others.is_empty() {
        return None;
    }
    let a = u16::from(plain_type);
    Some((
        plain(
            alloc,
            Instr {
                a,
                ..Instr::bare(op)
            },
        ),
        Flaw::NoFlaw,
    ))
}

#[tactic(auto, using(crate::proofs::Counts::no_comparison))]
fn one_comparison<'a>(alloc: Global, op: u8, texts: &[&'a [u8]]) -> Said<Item<&'a [u8]>>
    ensures item { IfOk result (λ item. said_seen labelled_item item ≡ one_comparison op (texts_seen texts.now)) }
{
    let Some(text) = only(texts) else {
        return Ok(None);
    };
    let words = words(alloc, text)?;
    Ok(comparison(alloc, op, &words))
}

/// Returns the item of the instruction with the opcode `op` and the operands `texts`, and its flaw. `form` is the
/// operand format of the opcode.
pub(crate) fn instruction_said<'a>(
    alloc: Global,
    form: Form,
    op: u8,
    texts: &[&'a [u8]],
) -> Said<Item<&'a [u8]>>
    ensures item { IfOk result (λ item. said_seen labelled_item item
        ≡ instruction_said form op (texts_seen texts.now)) }
{
    if let Form::Typed = form {
        return one_comparison(alloc, op, texts);
    }
    let Some((item, in_range)) = instruction(alloc, form, op, texts)? else {
        return Ok(None);
    };
    Ok(Some((item, flaw_of(in_range))))
}
