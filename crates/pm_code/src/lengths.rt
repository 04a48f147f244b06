//! The sizes of code in bytes. A function returns `None` only if the size or offset exceeds `usize::MAX`. Memory cannot
//! contain such code.

ghost use Rattle.std.specs.Prelude.{◌≡◌, ◌<◌, ◌+◌, None, IfSome, length, map};
ghost use Rattle.pm_opcode.specs.Spelling.{is_odd, is_sized, spelled_number, pad_byte, spelling};
ghost use Rattle.pm_code.specs.Item.{size};
ghost use Rattle.pm_code.specs.Program.{FollowFrom, end_of, jtab_of, procedures_end, segment_bytes};
ghost use Rattle.pm_code.specs.Views.{item_seen, placed_item, procedure_seen, segment_seen};

use crate::item::Item;
use crate::program::{Procedure, Segment};
use pm_opcode::{Form, Instr, form_at};

/// Returns the size in bytes of the number `value`. If `long`, its encoding has two bytes even if one suffices.
fn number_size(value: u16, long: bool) -> usize
    ensures size { result ≡ length (spelled_number value long) }
{
    if long || value >= 128 { 2 } else { 1 }
}

/// Returns the size in bytes of the padding: 1 if `odd`, else 0.
fn padding_size(odd: bool) -> usize
    ensures size { result ≡ length (pad_byte odd 0) }
{
    if odd { 1 } else { 0 }
}

/// Whether a comparison whose operands have the type `operand_type` has a size as an operand. This is true for BYTES
/// (10) and WORDS (12).
fn has_size(operand_type: u16) -> bool
    ensures sized { result ≡ is_sized operand_type }
{
    operand_type == 10 || operand_type == 12
}

/// Returns the size in bytes of the instruction `instr` at offset `at`, with the bytes `named` that belong to it.
fn spelling_size(at: usize, instr: &Instr, named: &[u8]) -> Option<usize>
    ensures size { IfSome result (λ n. n ≡ length (spelling (is_odd at) 0 instr.now named.now)) }
    ensures too_long { result ≡ None → 18446744073709551615 < length (spelling (is_odd at) 0 instr.now named.now) }
{
    let odd = at % 2 == 1;
    match form_at(instr.op) {
        Form::Plain | Form::Unassigned => Some(1),
        Form::Ub | Form::Sb | Form::Db => Some(2),
        Form::UbUb | Form::W => Some(3),
        Form::B => Some(1 + number_size(instr.a, instr.long)),
        Form::UbB | Form::DbB => Some(2 + number_size(instr.b, instr.long)),
        Form::Typed if has_size(instr.a) => Some(2 + number_size(instr.b, instr.long)),
        Form::Typed => Some(2),
        Form::Chars => named.len().checked_add(2),
        Form::Words => named.len().checked_add(2 + padding_size(odd)),
        Form::Jumps => named.len().checked_add(7 + padding_size(!odd)),
    }
}

impl<P> Item<P> {
    /// Returns the size of this item in bytes if the item begins at offset `at` of its segment. The size does not
    /// depend on the targets of its jumps. The size depends on `at` only because of the padding. Returns `None` only if
    /// the size exceeds `usize::MAX`.
    pub fn size(&self, at: usize) -> Option<usize>
        ensures size { IfSome result (λ n. n ≡ size at (item_seen (λ p. p) self.now)) }
        ensures too_long { result ≡ None → 18446744073709551615 < size at (item_seen (λ p. p) self.now) }
    {
        match self {
            Item::Plain(instr, named) => spelling_size(at, instr, named),
            Item::Jump(_, _) => Some(2),
            Item::Case { places, .. } => {
                let fixed = 7 + padding_size(at % 2 != 1);
                places.len().checked_mul(2)?.checked_add(fixed)
            }
            Item::OneByte(_) => Some(1),
        }
    }
}

/// Returns the offset at which `items` end if the first one begins at offset `at` of its segment. Returns `None` only
/// if the end exceeds `usize::MAX`.
pub fn items_end<P>(at: usize, items: &[Item<P>]) -> Option<usize>
    ensures end { IfSome result (λ n. n ≡ end_of at (map (item_seen (λ p. p)) items.now)) }
    ensures too_long { result ≡ None → 18446744073709551615 < end_of at (map (item_seen (λ p. p)) items.now) }
{
    let mut end = at;
    for item in items {
        end = end.checked_add(item.size(end)?)?;
    }
    Some(end)
}

/// Returns the offset at which `procedure` ends. After its code, a procedure has two bytes for each entry of its jump
/// table, and ten bytes of attributes.
fn procedure_end(procedure: &Procedure) -> Option<usize>
    ensures end { IfSome result (λ n. n ≡ jtab_of (procedure_seen procedure.now) + 2) }
    ensures too_long { result ≡ None → 18446744073709551615 < jtab_of (procedure_seen procedure.now) + 2 }
{
    let code = items_end(procedure.start, &procedure.items)?;
    let entries = procedure.entries.len().checked_mul(2)?;
    let end = code.checked_add(entries)?.checked_add(10)?;
    Some(end)
}

/// Returns the offset at which the last one of `procedures` ends. The first procedure must begin at offset 0, and each
/// further one at the end of the procedure before it.
fn procedures_end(procedures: &[Procedure]) -> Option<usize>
    requires follow { FollowFrom 0 (map procedure_seen procedures.now) }
    ensures end { IfSome result (λ end. end ≡ procedures_end 0 (map procedure_seen procedures.now)) }
    ensures too_long { result ≡ None → 18446744073709551615 < procedures_end 0 (map procedure_seen procedures.now) }
{
    let mut end = 0;
    for procedure in procedures {
        end = procedure_end(procedure)?;
    }
    Some(end)
}

/// Returns the size of `segment` in bytes: its procedures, one word for each procedure, and one more word. The first
/// procedure must begin at offset 0, and each further one at the end of the procedure before it. Returns `None` only if
/// the size exceeds `usize::MAX`.
pub fn segment_length(segment: &Segment) -> Option<usize>
    requires follow { FollowFrom 0 (segment_seen segment.now).procedures }
    ensures size { IfSome result (λ n. n ≡ length (segment_bytes (segment_seen segment.now))) }
    ensures too_long { result ≡ None → 18446744073709551615 < length (segment_bytes (segment_seen segment.now)) }
{
    let end = procedures_end(&segment.procedures)?;
    let words = segment.procedures.len().checked_mul(2)?;
    let length = end.checked_add(words)?.checked_add(2)?;
    Some(length)
}
