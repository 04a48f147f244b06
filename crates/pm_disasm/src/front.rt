//! The instruction at an offset of code.

ghost use Rattle.std.specs.Prelude.{◌≡◌, ◌<◌, ◌≤◌, ◌^◌, ◌+◌, ◌-◌, ◌*◌, drop, length, option_map, slice_index, IfSome};
ghost use Rattle.pm_opcode.specs.Standing.{IsSpelledAt};
ghost use Rattle.pm_opcode.specs.declared.operand_form.Form.TheVariants as forms;
ghost use Rattle.pm_opcode.specs.Table.{form_of};
ghost use Rattle.pm_opcode.specs.Spelling.{is_odd, named_by};
ghost use Rattle.pm_disasm.specs.Split.{front, has_zero_padding, item_of, target_of};
ghost use Rattle.pm_code.specs.Views.{placed_target};
ghost use Rattle.pm_disasm.specs.Views.{front_seen, found_seen};

use crate::found::{Found, Table};
use crate::place::named_bytes;
use pm_code::{JUMP, Target};
use pm_opcode::{Form, Instr, decode, form_at};

/// The instruction at an offset of code.
#[derive(Clone, Copy)]
pub(crate) struct Front<'a> {
    /// The size of the instruction, in bytes.
    pub size: usize,
    /// The instruction as an item. `None` in two cases:
    ///
    /// - A jump of the instruction leads neither forward nor through a jump table entry.
    /// - The instruction is a case jump whose third word is not a UJP.
    pub item: Option<Found<'a>>,
}

/// Returns the target of a short jump from its operand byte `byte`, or `None` if the target can have no text. `next` is
/// the offset of the next instruction.
fn target_of(next: usize, byte: u8) -> Option<Target<usize>>
    requires next { next < 2 ^ 32 }
    ensures target { option_map placed_target result ≡ target_of next byte }
{
    if byte < 128 {
        return Some(Target::To(next + usize::from(byte)));
    }
    if byte % 2 == 0 && byte <= 246 {
        return Some(Target::Through((246 - byte) / 2));
    }
    None
}

/// Whether the padding byte of the instruction `instr` at offset `at` of `bytes` is zero. True if the instruction has
/// no padding byte.
fn has_zero_padding(instr: Instr, bytes: &[u8], at: usize) -> bool
    requires at { at < 2 ^ 32 }
    ensures zero { result ≡ has_zero_padding (form_of instr.op) (is_odd at) (drop at bytes.now) }
{
    let odd = at % 2 == 1;
    match form_at(instr.op) {
        Form::Words => !odd || byte_or_zero(bytes, at + 2) == 0,
        Form::Jumps => odd || byte_or_zero(bytes, at + 1) == 0,
        _ => true,
    }
}

/// Returns the byte of `bytes` at offset `place`, or 0 if `place` is after the end.
fn byte_or_zero(bytes: &[u8], place: usize) -> u8
    ensures byte { result ≡ slice_index bytes.now place }
{
    bytes.get(place).copied().unwrap_or(0)
}

/// Returns the item of the case jump `instr`, whose table has the bytes `named`. `end` is the offset after the
/// instruction.
fn case_of<'a>(instr: Instr, named: &'a [u8], end: usize) -> Option<Found<'a>>
    requires end { end < 2 ^ 32 }
    requires table { instr.count ≤ end }
    ensures item { option_map found_seen result ≡ item_of forms.Jumps instr named.now end }
{
    let distance = (instr.c / 256) as u8;
    if instr.c % 256 != u16::from(JUMP) {
        return None;
    }
    let at = end - instr.count as usize;
    let otherwise = target_of(at, distance)?;
    let words = Table {
        at: at as u32,
        words: named,
    };
    Some(Found::Case(instr.a, instr.b, otherwise, words))
}

/// Returns the item of the instruction `instr`, to which the bytes `named` belong. `end` is the offset after the
/// instruction.
fn item_of<'a>(instr: Instr, named: &'a [u8], end: usize) -> Option<Found<'a>>
    requires end { end < 2 ^ 32 }
    requires table { instr.count ≤ end }
    ensures item { option_map found_seen result ≡ item_of (form_of instr.op) instr named.now end }
{
    match form_at(instr.op) {
        Form::Sb => {
            let target = target_of(end, (instr.a % 256) as u8)?;
            Some(Found::Jump(instr.op, target))
        }
        Form::Jumps => case_of(instr, named, end),
        _ => {
            let instr = Instr {
                start: 0,
                len: 0,
                ..instr
            };
            Some(Found::Plain(instr, named))
        }
    }
}

/// Returns the instruction at offset `at`, or `None` if no instruction is at `at`. `bytes` are the bytes of the segment
/// up to the end of the code.
pub(crate) fn front_at(bytes: &[u8], at: usize) -> Option<Front<'_>>
    requires short { length bytes.now < 2 ^ 32 }
    ensures front { option_map front_seen result ≡ front at (drop at bytes.now) }
    ensures within { IfSome result (λ f. (0 < f.size) × (at + f.size ≤ length bytes.now)) }
{
    let Ok(instr) = decode(bytes, at) else {
        return None;
    };
    if !has_zero_padding(instr, bytes, at) {
        return None;
    }
    let size = instr.len as usize;
    let named = named_bytes(&instr, bytes);
    let item = item_of(instr, named, at + size);
    Some(Front { size, item })
}
