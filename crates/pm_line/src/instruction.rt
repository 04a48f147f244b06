//! Parsing of instructions, except comparisons, by their operand format.
//!
//! Each function returns `None` if the operands are malformed. Otherwise it returns the item, and whether its numbers,
//! lengths and counts are in range.

ghost use Rattle.std.specs.Prelude.{◌≡◌, ◌<◌, ◌≤◌, ◌+◌, option_map, IfOk, IfSome};
ghost use Rattle.pm_source.specs.Line.{bare_instruction, byte_and_number, byte_operand, case_jump};
ghost use Rattle.pm_source.specs.Line.{bare, instruction, many_words, one_jump, one_long_number, one_number, one_text};
ghost use Rattle.pm_source.specs.Line.{plain, short_instruction, short_range, two_bytes, word_operand};
ghost use Rattle.pm_line.specs.Views.{labelled_item, operand_seen, texts_seen};

use crate::counted::{only, pair};
use crate::lists::{flat_words, label_operands, word_operands};
use crate::number::{is_within, number, stored};
use crate::operand::{
    bound_operand, byte_operand, jump_operand, number_operand, text_operand, word_operand,
};
use pm_code::Item;
use pm_opcode::{Form, Instr, jumps_between};
use std::alloc::{AllocError, Global};

/// The result of parsing an operand: its value and whether it is in range, `None` if it is malformed, or `AllocError`
/// if the host has no memory.
pub(crate) type Operand<T> = Result<Option<(T, bool)>, AllocError>;

/// Returns the item of `instr`, an instruction without a text or a list of words.
pub(crate) fn plain<'a>(alloc: Global, instr: Instr) -> Item<&'a [u8]>
    ensures item { labelled_item result ≡ plain instr }
{
    Item::Plain(instr, Vec::new(alloc))
}

/// Returns the item of the instruction with the opcode `op` and the operand `a`, which is a byte or a word.
fn with_number<'a>(alloc: Global, op: u8, a: u16) -> Item<&'a [u8]>
    ensures item { labelled_item result ≡ plain (record (bare op) { a = a }) }
{
    let bare = Instr::bare(op);
    plain(alloc, Instr { a, ..bare })
}

/// Returns the lowest and the highest number of the opcodes that contain their number and have one mnemonic. `op` is
/// the first of these opcodes. Returns `None` for every other opcode.
pub fn short_range(op: u8) -> Option<(u8, u8)>
    ensures range { result ≡ short_range op }
    ensures small { IfSome result (λ range. (range.1 ≤ 127) × (op + range.1 < 256)) }
{
    match op {
        0 => Some((0, 127)),
        216 | 232 => Some((1, 16)),
        248 => Some((0, 7)),
        _ => None,
    }
}

/// Parses the operand of an instruction whose opcode contains its number. `op` is the first opcode of the mnemonic, and
/// `range` has its lowest and highest number.
#[tactic(auto, using(crate::proofs::Counts::no_short))]
fn short_instruction<'a>(
    alloc: Global,
    op: u8,
    range: (u8, u8),
    texts: &[&'a [u8]],
) -> Option<(Item<&'a [u8]>, bool)>
    requires small { op + range.1 < 256 }
    ensures item { operand_seen labelled_item result ≡ short_instruction op range (texts_seen texts.now) }
{
    let text = only(texts)?;
    let n = number(text)?;
    let (least, greatest) = range;
    let value = stored(256, n) as u8;
    let in_range = value >= least && is_within(0, u32::from(greatest), n);
    let op = if in_range { op + (value - least) } else { op };
    Some((plain(alloc, Instr::bare(op)), in_range))
}

/// Parses the operands of an instruction without operands, or of one whose opcode contains its number.
fn bare_instruction<'a>(alloc: Global, op: u8, texts: &[&'a [u8]]) -> Option<(Item<&'a [u8]>, bool)>
    ensures item { operand_seen labelled_item result ≡ bare_instruction op (short_range op) (texts_seen texts.now) }
{
    if let Some(range) = short_range(op) {
        return short_instruction(alloc, op, range, texts);
    }
    if !texts.is_empty() {
        return None;
    }
    Some((plain(alloc, Instr::bare(op)), true))
}

#[tactic(auto, using(crate::proofs::Counts::no_byte))]
fn one_byte<'a>(alloc: Global, op: u8, texts: &[&'a [u8]]) -> Option<(Item<&'a [u8]>, bool)>
    ensures item { operand_seen labelled_item result ≡ one_number byte_operand op (texts_seen texts.now) }
{
    let text = only(texts)?;
    let (byte, in_range) = byte_operand(text)?;
    Some((with_number(alloc, op, u16::from(byte)), in_range))
}

#[tactic(auto, using(crate::proofs::Counts::no_word))]
fn one_word<'a>(alloc: Global, op: u8, texts: &[&'a [u8]]) -> Option<(Item<&'a [u8]>, bool)>
    ensures item { operand_seen labelled_item result ≡ one_number word_operand op (texts_seen texts.now) }
{
    let text = only(texts)?;
    let (word, in_range) = word_operand(text)?;
    Some((with_number(alloc, op, word), in_range))
}

#[tactic(auto, using(crate::proofs::Counts::no_long_number))]
fn one_long_number<'a>(alloc: Global, op: u8, texts: &[&'a [u8]]) -> Option<(Item<&'a [u8]>, bool)>
    ensures item { operand_seen labelled_item result ≡ one_long_number op (texts_seen texts.now) }
{
    let text = only(texts)?;
    let (n, in_range) = number_operand(text)?;
    let instr = Instr {
        a: n.value,
        long: n.long,
        ..Instr::bare(op)
    };
    Some((plain(alloc, instr), in_range))
}

#[tactic(auto, using(crate::proofs::Counts::no_bytes))]
fn two_bytes<'a>(alloc: Global, op: u8, texts: &[&'a [u8]]) -> Option<(Item<&'a [u8]>, bool)>
    ensures item { operand_seen labelled_item result ≡ two_bytes op (texts_seen texts.now) }
{
    let (text, other) = pair(texts)?;
    let (a, first_good) = byte_operand(text)?;
    let (b, second_good) = byte_operand(other)?;
    let instr = Instr {
        a: u16::from(a),
        b: u16::from(b),
        ..Instr::bare(op)
    };
    Some((plain(alloc, instr), first_good && second_good))
}

#[tactic(auto, using(crate::proofs::Counts::no_byte_and_number))]
fn byte_and_number<'a>(alloc: Global, op: u8, texts: &[&'a [u8]]) -> Option<(Item<&'a [u8]>, bool)>
    ensures item { operand_seen labelled_item result ≡ byte_and_number op (texts_seen texts.now) }
{
    let (text, other) = pair(texts)?;
    let (a, first_good) = byte_operand(text)?;
    let (b, second_good) = number_operand(other)?;
    let instr = Instr {
        a: u16::from(a),
        b: b.value,
        long: b.long,
        ..Instr::bare(op)
    };
    Some((plain(alloc, instr), first_good && second_good))
}

/// Parses the operand of an instruction with a string. A string of more than 255 bytes is out of range.
#[tactic(auto, using(crate::proofs::Counts::no_text))]
fn one_text<'a>(alloc: Global, op: u8, texts: &[&'a [u8]]) -> Operand<Item<&'a [u8]>>
    ensures item { IfOk result (λ item. operand_seen labelled_item item ≡ one_text op (texts_seen texts.now)) }
{
    let Some(text) = only(texts) else {
        return Ok(None);
    };
    let Some(bytes) = text_operand(alloc, text)? else {
        return Ok(None);
    };
    if bytes.len() > 255 {
        return Ok(Some((plain(alloc, Instr::bare(op)), false)));
    }
    let instr = Instr {
        a: bytes.len() as u16,
        count: bytes.len() as u32,
        ..Instr::bare(op)
    };
    Ok(Some((Item::Plain(instr, bytes), true)))
}

/// Parses the operands of an instruction with words. More than 255 words are out of range.
fn many_words<'a>(alloc: Global, op: u8, texts: &[&'a [u8]]) -> Operand<Item<&'a [u8]>>
    ensures item { IfOk result (λ item. operand_seen labelled_item item ≡ many_words op (texts_seen texts.now)) }
{
    let Some((words, in_range)) = word_operands(alloc, texts)? else {
        return Ok(None);
    };
    if words.len() > 255 {
        return Ok(Some((plain(alloc, Instr::bare(op)), false)));
    }
    let instr = Instr {
        a: words.len() as u16,
        count: 2 * words.len() as u32,
        ..Instr::bare(op)
    };
    let bytes = flat_words(alloc, &words)?;
    Ok(Some((Item::Plain(instr, bytes), in_range)))
}

#[tactic(auto, using(crate::proofs::Counts::no_jump))]
fn one_jump<'a>(op: u8, texts: &[&'a [u8]]) -> Option<(Item<&'a [u8]>, bool)>
    ensures item { operand_seen labelled_item result ≡ one_jump op (texts_seen texts.now) }
{
    let text = only(texts)?;
    let (target, in_range) = jump_operand(text)?;
    Some((Item::Jump(op, target), in_range))
}

/// Parses the operands of a case jump: two bounds, a target for other values, and a label for each value from bound to
/// bound.
#[tactic(auto, using(crate::proofs::Counts::no_case_texts))]
fn case_jump<'a>(alloc: Global, texts: &[&'a [u8]]) -> Operand<Item<&'a [u8]>>
    ensures item { IfOk result (λ item. operand_seen labelled_item item ≡ case_jump (texts_seen texts.now)) }
{
    let [text, other, target, labels @ ..] = texts else {
        return Ok(None);
    };
    let (Some((low, low_good)), Some((high, high_good)), Some((otherwise, target_good))) = (
        bound_operand(text),
        bound_operand(other),
        jump_operand(target),
    ) else {
        return Ok(None);
    };
    let Some((labels, _)) = label_operands(alloc, labels)? else {
        return Ok(None);
    };
    let is_counted = labels.len() == jumps_between(low, high) as usize;
    let item = Item::Case {
        low,
        high,
        otherwise,
        places: labels,
    };
    Ok(Some((item, low_good && high_good && target_good && is_counted)))
}

/// Parses the operands of the instruction with the opcode `op`, whose operand format is `form`.
pub(crate) fn instruction<'a>(
    alloc: Global,
    form: Form,
    op: u8,
    texts: &[&'a [u8]],
) -> Operand<Item<&'a [u8]>>
    ensures item { IfOk result (λ item. operand_seen labelled_item item ≡ instruction form op (texts_seen texts.now)) }
{
    let item = match form {
        Form::Plain => bare_instruction(alloc, op, texts),
        Form::Ub | Form::Db => one_byte(alloc, op, texts),
        Form::W => one_word(alloc, op, texts),
        Form::B => one_long_number(alloc, op, texts),
        Form::UbUb => two_bytes(alloc, op, texts),
        Form::UbB | Form::DbB => byte_and_number(alloc, op, texts),
        Form::Sb => one_jump(op, texts),
        Form::Chars => return one_text(alloc, op, texts),
        Form::Words => return many_words(alloc, op, texts),
        Form::Jumps => return case_jump(alloc, texts),
        Form::Typed | Form::Unassigned => None,
    };
    Ok(item)
}
