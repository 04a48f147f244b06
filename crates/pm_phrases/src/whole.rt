//! The text of an operation applied to its operands.

ghost use Rattle.std.specs.Prelude.{◌≡◌, ◌++◌, IfOk};
ghost use Rattle.pm_code.specs.Views.{placed_item};
ghost use Rattle.pm_phrases.specs.Counts as counts;
ghost use Rattle.pm_phrases.specs.Missing.{stand_ins};
ghost use Rattle.pm_phrases.specs.Phrases as texts;

use crate::around::{Around, Missing, Pops, push_arguments, stand_in};
use crate::calls::called;
use crate::counts::{by_count, operation_in};
use crate::leaf::{Leaf, bare_in, push_bare};
use crate::literals::words_in;
use crate::operand::{Form, Phrase, ROOM, leafed, room_for, valued};
use pm_code::Item;
use pm_effects::Share;
use pm_opcode::Operation;
use std::alloc::{AllocError, Global};

/// Returns the text of `item`, whose operation is `what`, applied to the stand-ins for `missing` followed by
/// `operands`. If `known` is false, the only stand-in is `?`. Returns `None` if `item` has no special text.
#[tactic(auto, unfolding(crate::specs::Phrases::template))]
fn template(
    alloc: Global,
    around: Around,
    item: &Item<usize>,
    what: Operation,
    known: bool,
    missing: Missing,
    operands: &[Phrase],
) -> Result<Option<Phrase>, AllocError>
    requires what { what ≡ counts.operation_in (placed_item item.now) }
    ensures shown { IfOk result
        (λ p. p ≡ texts.template around (placed_item item.now) (stand_ins known missing ++ operands.now)) }
{
    if let Some(call) = called(alloc, what, known, missing, operands)? {
        return Ok(Some(call));
    }
    if !known {
        let all = leafed(Leaf::Fixed("?"), Form::Value(9));
        return by_count(alloc, around, item, what, Pops::One(&all), operands);
    }
    match (missing.below, missing.top) {
        (Share::Words(0), Share::Words(0)) => {
            by_count(alloc, around, item, what, Pops::None, operands)
        }
        (Share::Words(0), share) | (share, Share::Words(0)) => {
            let pop = stand_in(share);
            by_count(alloc, around, item, what, Pops::One(&pop), operands)
        }
        (below, top) => {
            let (below, top) = (stand_in(below), stand_in(top));
            by_count(alloc, around, item, what, Pops::Two(&below, &top), operands)
        }
    }
}

/// Returns the text of `item` applied to `operands`, the first one first. Stand-ins, such as `POP`, precede `operands`.
/// They represent the operands in `missing`, which no text supplies. `around` is the procedure that contains `item`.
///
/// If `known` is false, the input of the operation is not known, and its only stand-in is `?`. An item that has no
/// special text is shown in braces, as in the disassembly.
#[tactic(auto, unfolding(crate::specs::Phrases::phrase_of))]
pub fn phrase(
    alloc: Global,
    around: Around,
    item: &Item<usize>,
    known: bool,
    missing: Missing,
    operands: &[Phrase],
) -> Result<Phrase, AllocError>
    ensures shown { IfOk result
        (λ p. p ≡ texts.phrase_of around (placed_item item.now) known missing operands.now) }
{
    let what = operation_in(item);
    if let Some(phrase) = template(alloc, around, item, what, known, missing, operands)? {
        return Ok(phrase);
    }
    let bare = bare_in(item, what);
    if let ([], Some(bare)) = (operands, bare) {
        return Ok(leafed(Leaf::Braced(bare, known, missing), Form::Value(9)));
    }
    let room = match operands {
        [] => ROOM,
        [first, ..] => room_for(2 * ROOM, first),
    };
    let mut text = String::with_capacity(alloc, room)?;
    text.push('{')?;
    match bare {
        Some(bare) => push_bare(&mut text, bare)?,
        None => text.write(item)?,
    }
    text.push('}')?;
    push_arguments(&mut text, known, missing, operands)?;
    let mut phrase = valued(text, 9);
    phrase.words = words_in(alloc, item, what)?;
    Ok(phrase)
}
