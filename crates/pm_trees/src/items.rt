//! Items of the code, converted to parts of statements.

ghost use Rattle.std.specs.Prelude.{◌≡◌, Some};
ghost use Rattle.pm_code.specs.Views.{placed_item};
ghost use Rattle.pm_opcode.specs.Operations.{operation_of};
ghost use Rattle.pm_trees.specs.Parts as parts;

use crate::left::Role;
use crate::part::{Callee, Leaves, Part, Place, Takes};
use pm_code::{CASE_JUMP, Item, Target};
use pm_effects::{Effect, Share, effect_of, instruction_effect};
use pm_families::{Arithmetic, Call, Condition};
use pm_opcode::{Instr, Operation};
use pm_phrases::condition_of;
use std::marker::Model;

/// How the lines of statements are indented and grouped.
#[derive(Clone, Copy, Drop)]
pub enum Layout {
    /// Each statement begins at the start of its line (`--statements`).
    Flat,
    /// Each statement is indented by its depth (`--indent`).
    Indented,
    /// Statements are grouped in blocks (`--blocks`).
    Blocks,
}

/// What is known about the procedures of the code, and how their statements are laid out.
#[derive(Drop)]
pub struct Known<'a> {
    /// The segment of the code.
    pub segment: u8,
    /// The called procedures whose sizes are known. The index of a procedure is 256 times its segment plus its number.
    pub callees: &'a [Option<Callee>],
    /// How the statements are laid out.
    pub layout: Layout,
}

impl<'a> Model for Known<'a> {
    ghost use Rattle.pm_trees.specs.Parts as parts;

    ghost Value = { parts.Known };

    ghost view = { λ k. record { segment = k.segment; callees = k.callees.now; layout = k.layout } };
}

/// Returns the index of the called procedure in the table `callees` of `Known`.
fn callee_index(segment: u8, what: Call) -> usize
    ensures value { result ≡ parts.callee_index segment what }
{
    let (segment, procedure) = match what {
        Call::Clp(p) | Call::Cgp(p) | Call::Cbp(p) | Call::Cip(p) => (segment, p),
        Call::Cxp(s, p) => (s, p),
    };
    256 * usize::from(segment) + usize::from(procedure)
}

/// Returns the stack effect of the call `what`, or `None` if the sizes of the called procedure are not known.
fn call_effect(known: &Known<'_>, what: Call) -> Option<Effect>
    ensures value { result ≡ parts.call_effect known.now what }
{
    let index = callee_index(known.segment, what);
    if index >= known.callees.len() {
        return None;
    }
    match known.callees[index] {
        None => None,
        Some(callee) => Some(Effect {
            top: Share::Words(u16::from(callee.parameters)),
            below: Share::Words(0),
            leaves: Share::Words(u16::from(callee.results)),
        }),
    }
}

/// Returns the stack effect of the instruction `instr`, whose operation is `what`, or `None` if the effect is not
/// known.
fn effect_by(known: &Known<'_>, what: Operation, instr: &Instr) -> Option<Effect>
    requires what { what ≡ operation_of instr.now }
    ensures value { result ≡ parts.effect_by known.now what instr.now }
{
    match what {
        Operation::Call(what) => call_effect(known, what),
        _ => match effect_of(what) {
            Some(effect) => Some(effect),
            None => instruction_effect(instr),
        },
    }
}

/// Returns what an instruction with this effect pops. Without an effect, it pops 0 words.
fn takes_of(effect: Option<Effect>) -> Takes
    ensures value { result ≡ parts.takes_of effect }
{
    match effect {
        None => Takes {
            top: Share::Words(0),
            below: Share::Words(0),
        },
        Some(effect) => Takes {
            top: effect.top,
            below: effect.below,
        },
    }
}

/// Returns what an instruction with this effect pushes. Without an effect, it pushes 0 words.
fn leaves_effect(effect: Option<Effect>) -> Leaves
    ensures value { result ≡ parts.leaves_effect effect }
{
    match effect {
        None => Leaves::Words(0),
        Some(effect) => match effect.leaves {
            Share::Words(n) => Leaves::Words(n),
            Share::Set => Leaves::Set,
        },
    }
}

/// Returns what the operation `what` with this effect pushes on the stack.
fn leaves_by(what: Operation, effect: Option<Effect>) -> Leaves
    ensures value { result ≡ parts.leaves_by what effect }
{
    match what {
        Operation::Arithmetic(Arithmetic::Constant(word)) => {
            if word < 256 {
                Leaves::Constant(word as u8)
            } else {
                Leaves::Words(1)
            }
        }
        _ => leaves_effect(effect),
    }
}

/// Returns whether what the operation pops is known. It is unknown for calls and standard procedures without an effect.
fn is_known(what: Operation, effect: Option<Effect>) -> bool
    ensures value { result ≡ parts.is_known what effect }
{
    match (what, effect) {
        (Operation::Call(_) | Operation::Standard(_), None) => false,
        _ => true,
    }
}

/// Returns the role of the operation `what`, which is not a jump.
fn operation_role(what: Operation) -> Role
    ensures value { result ≡ parts.operation_role what }
{
    match what {
        Operation::Standard(0) => Role::Check,
        Operation::Call(_) | Operation::Standard(_) => Role::Call,
        _ => Role::Other,
    }
}

/// Returns the role of a jump under `condition` to `target`. Without a condition, the role is `Other`.
fn jump_role(condition: Option<Condition>, target: Target<usize>) -> Role
    ensures role { result ≡ parts.jump_role condition target }
{
    match condition {
        Some(condition) => Role::Jump(condition, target),
        None => Role::Other,
    }
}

/// Returns the role of the item `item`, whose instruction has the operation `what`.
fn role_by(what: Operation, item: &Item<usize>) -> Role
    ensures value { result ≡ parts.role_by what (placed_item item.now) }
{
    match item {
        Item::Plain(_, _) => operation_role(what),
        Item::Jump(op, Target::To(place)) => jump_role(condition_of(*op), Target::To(*place)),
        Item::Jump(op, Target::Through(k)) => jump_role(condition_of(*op), Target::Through(*k)),
        Item::Case { .. } => Role::Case,
        Item::OneByte(_) => Role::Other,
    }
}

/// Returns the part for the item `item` at `place`, whose instruction is `instr`.
fn instruction_part<'a>(
    known: &Known<'_>,
    item: &'a Item<usize>,
    place: Place,
    instr: &Instr,
) -> Part<'a>
    ensures part { result ≡ parts.part_with (placed_item item.now) place
        (parts.role_by (operation_of instr.now) (placed_item item.now)) (parts.moves_of known.now (Some instr.now)) }
{
    let what = Operation::of(instr);
    let effect = effect_by(known, what, instr);
    Part {
        item,
        place,
        role: role_by(what, item),
        takes: takes_of(effect),
        leaves: leaves_by(what, effect),
        known: is_known(what, effect),
    }
}

/// Returns the part for the item `item` at `place`.
pub fn part_of<'a>(known: &Known<'_>, item: &'a Item<usize>, place: Place) -> Part<'a>
    ensures part { result ≡ parts.part_of known.now (placed_item item.now) place }
{
    match item {
        Item::Plain(instr, _) => instruction_part(known, item, place, instr),
        Item::Jump(op, _) => instruction_part(known, item, place, &Instr::bare(*op)),
        Item::Case { .. } => instruction_part(known, item, place, &Instr::bare(CASE_JUMP)),
        Item::OneByte(_) => Part {
            item,
            place,
            role: Role::Other,
            takes: takes_of(None),
            leaves: Leaves::Words(0),
            known: true,
        },
    }
}
