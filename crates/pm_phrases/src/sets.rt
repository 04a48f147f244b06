//! The texts of sets and of operations on sets.

ghost use Rattle.std.specs.Prelude.{◌≡◌, ◌<◌, ◌*◌, ◌++◌, IfOk, IfSome, OnOk, Some, option_map, string_bytes};
ghost use Rattle.std.specs.Bool.{OnTrue};
ghost use Rattle.pm_phrases.specs.Missing.{share_text, stand_in};
ghost use Rattle.pm_phrases.specs.Sets as texts;

use crate::leaf::{Leaf, Text};
use crate::operand::{
    Form, Phrase, ROOM, leafed, push_operand, push_sign, push_sized, push_value, room_for,
    standing, valued,
};
use pm_effects::Share;
use pm_families::Set;
use std::alloc::{AllocError, Global};
use std::fmt;

/// One word of the stack, as a share. A share is a part of the stack: a number of words, or a set.
const ONE: Share = Share::Words(1);

/// Whether `number` is a member of the set with the words `bytes`. The last word contains the lowest numbers.
#[tactic(auto, unfolding(crate::specs::Sets::is_member))]
fn is_member(bytes: &[u8], number: usize) -> bool
    ensures member { result ≡ texts.is_member bytes.now number }
{
    if number / 8 >= bytes.len() {
        return false;
    }
    let word = (bytes.len() / 2).saturating_sub(number / 16 + 1);
    let byte = bytes.get(2 * word + number / 8 % 2).copied().unwrap_or(0);
    (byte >> (number % 8)) % 2 == 1
}

/// What precedes a number in the text of a list of members.
#[derive(Clone, Copy)]
enum Behind {
    /// No number before this one is a member.
    Nothing,
    /// The number before this one is not a member, but an earlier number is.
    Gap,
    /// The number before this one is a member.
    Member,
}

/// The text of a number in a list of members. The fields are: what precedes the number, whether it is a member, whether
/// the next number is a member, and the number.
#[derive(Clone, Copy)]
struct MemberText(Behind, bool, bool, usize);

impl fmt::Display for MemberText {
    ghost output = { λ m. Some (texts.member_text m.0 m.1 m.2 m.3) };

    fn fmt<W: fmt::Write>(&self, f: &mut fmt::Formatter<W>) -> fmt::Result {
        let number = self.3;
        match (self.0, self.1, self.2) {
            (Behind::Nothing, true, _) => write!(f, "{number}"),
            (Behind::Gap, true, _) => write!(f, ", {number}"),
            (Behind::Member, true, false) => write!(f, "..{number}"),
            _ => Ok(()),
        }
    }
}

/// Returns what precedes the next number, if `behind` precedes this number, and `is_member` states whether this number
/// is a member.
fn behind_next(behind: Behind, is_member: bool) -> Behind
    ensures behind { result ≡ texts.behind_next behind is_member }
{
    match (behind, is_member) {
        (_, true) => Behind::Member,
        (Behind::Nothing, false) => Behind::Nothing,
        _ => Behind::Gap,
    }
}

/// The members of a set, shown as a list. The set is given by its bytes and its size in words.
#[derive(Clone, Copy)]
struct Members<'a>(&'a [u8], u16);

impl fmt::Display for Members<'_> {
    ghost output = { λ m. Some (texts.members_from m.0.now texts.no_member 0 (16 * m.1)) };

    fn fmt<W: fmt::Write>(&self, f: &mut fmt::Formatter<W>) -> fmt::Result {
        let (bytes, count) = (self.0, self.1);
        let mut behind = Behind::Nothing;
        for number in 0..16 * usize::from(count) {
            let member = is_member(bytes, number);
            write!(
                f,
                "{}",
                MemberText(behind, member, is_member(bytes, number + 1), number)
            )?;
            behind = behind_next(behind, member);
        }
        Ok(())
    }
}

/// A constant set, given by its bytes and its size in words. The first two bytes are the highest word.
#[derive(Clone, Copy)]
struct SetConstant<'a>(&'a [u8], u16);

impl fmt::Display for SetConstant<'_> {
    ghost output = { λ s. Some (texts.members_text s.0.now s.1) };

    #[tactic(auto, unfolding(crate::specs::Sets::members_text))]
    fn fmt<W: fmt::Write>(&self, f: &mut fmt::Formatter<W>) -> fmt::Result {
        let (bytes, count) = (self.0, self.1);
        let members = Members(bytes, count);
        let low = bytes.get(0).copied().unwrap_or(0);
        let high = bytes.get(1).copied().unwrap_or(0);
        if low == 0 && high == 0 {
            write!(f, "[{members}]#{count}")
        } else {
            write!(f, "[{members}]")
        }
    }
}

/// Appends the set whose words are the operand `words`, and whose size in words is the operand `count`.
#[tactic(auto, unfolding(crate::specs::Sets::counted_text))]
fn push_counted(out: &mut String, words: &Phrase, count: &Phrase) -> Result<(), AllocError>
    ensures text { OnOk result
        (string_bytes out.new ≡ string_bytes out.old ++ texts.counted_text words.now count.now) }
{
    match (&words.words, words.form, count.form) {
        (Some(bytes), _, Form::Constant(n)) if n >= 2 && bytes.len() / 2 == usize::from(n) => {
            out.write(SetConstant(bytes, n))
        }
        (None, Form::Constant(word), Form::Constant(1)) => {
            let bytes = word.to_le_bytes();
            out.write(SetConstant(&bytes, 1))
        }
        _ => {
            out.push_str("SET(")?;
            push_value(out, words)?;
            out.push_str(", ")?;
            push_value(out, count)?;
            out.push(')')
        }
    }
}

/// Appends the set `set`, which is one operand, next to an operator of the precedence `strength`. The constant 0 is the
/// empty set.
#[tactic(auto, unfolding(crate::specs::Sets::set_text))]
fn push_set(out: &mut String, set: &Phrase, strength: u8) -> Result<(), AllocError>
    ensures text { OnOk result
        (string_bytes out.new ≡ string_bytes out.old ++ texts.set_text set.now strength) }
{
    match set.form {
        Form::Constant(0) => out.push_str("[]"),
        _ => push_operand(out, set, strength),
    }
}

/// Returns the mark of a set that is computed from operands of the forms `a` and `b`: `!` if both are constants, else
/// an empty text.
fn constant_mark(a: Form, b: Form) -> &'static str
    ensures mark { result.now ≡ texts.constant_mark a b }
{
    match (a, b) {
        (Form::Constant(_), Form::Constant(_)) => "!",
        _ => "",
    }
}

/// Returns the operator of `what`, an operation that computes a set from two sets, and the precedence of this operator.
/// Returns `None` for other operations.
fn set_sign(what: Set) -> Option<(&'static str, u8)>
    ensures sign { option_map (λ s. s.0.now) result ≡ texts.set_sign what }
    ensures strength { IfSome result (λ s. s.1 ≡ texts.set_strength what) }
    ensures few { IfSome result (λ s. s.1 < 9) }
{
    match what {
        Set::Union => Some(("+", 2)),
        Set::Difference => Some(("-", 2)),
        Set::Intersection => Some(("*", 3)),
        _ => None,
    }
}

/// Whether the operand `a` is the stand-in for the missing share `share`. If true, the text and the form of `a` are
/// those of the stand-in.
fn stands_for(share: Share, a: &Phrase) -> bool
    ensures text { OnTrue result (a.now.text ≡ share_text share) }
    ensures form { OnTrue result (a.now.form ≡ (stand_in share).form) }
{
    match (&a.text, a.form, share) {
        (Text::Leaf(Leaf::StandIn(Share::Words(there))), Form::Value(9), Share::Words(words)) => {
            *there == words
        }
        (Text::Leaf(Leaf::StandIn(Share::Set)), Form::Set(9), Share::Set) => true,
        _ => false,
    }
}

#[tactic(auto, using(crate::proofs::Alone::one_word), unfolding(crate::specs::Sets::set_one))]
pub(crate) fn set_one(alloc: Global, what: Set, a: &Phrase) -> Result<Option<Phrase>, AllocError>
    ensures shown { IfOk result (λ p. p ≡ texts.set_one what a.now) }
{
    match what {
        Set::Singleton if stands_for(ONE, a) => Ok(Some(leafed(
            Leaf::Fixed("[POP]"),
            Form::Set(9),
        ))),
        Set::Singleton => {
            let mut text = String::with_capacity(alloc, room_for(ROOM, a))?;
            text.push('[')?;
            push_value(&mut text, a)?;
            text.push(']')?;
            text.push_str(constant_mark(a.form, a.form))?;
            Ok(Some(standing(Text::Written(text), Form::Set(9))))
        }
        Set::Adjust(n) => {
            let mut text = String::with_capacity(alloc, room_for(ROOM, a))?;
            push_sized(&mut text, "adj", u16::from(n), "")?;
            push_set(&mut text, a, 4)?;
            Ok(Some(valued(text, 4)))
        }
        _ => Ok(None),
    }
}

/// Returns the text of the operation `what` on the sets `a` and `b`, each of which is one operand. Returns `None` if
/// the operation has no special text.
#[tactic(auto, unfolding(crate::specs::Sets::sets_joined))]
fn sets_joined(
    alloc: Global,
    what: Set,
    a: &Phrase,
    b: &Phrase,
) -> Result<Option<Phrase>, AllocError>
    ensures shown { IfOk result (λ p. p ≡ texts.sets_joined what a.now b.now) }
{
    match (set_sign(what), a.form, b.form) {
        (
            Some((sign, strength)),
            Form::Set(_) | Form::Constant(0),
            Form::Set(_) | Form::Constant(0),
        ) => {
            let mut text = String::with_capacity(alloc, room_for(room_for(ROOM, a), b))?;
            push_set(&mut text, a, strength)?;
            push_sign(&mut text, sign)?;
            push_set(&mut text, b, strength + 1)?;
            Ok(Some(standing(Text::Written(text), Form::Set(strength))))
        }
        _ => Ok(None),
    }
}

#[tactic(auto, using(crate::proofs::Alone::word_and_set), unfolding(crate::specs::Sets::set_two))]
pub(crate) fn set_two(
    alloc: Global,
    what: Set,
    a: &Phrase,
    b: &Phrase,
) -> Result<Option<Phrase>, AllocError>
    ensures shown { IfOk result (λ p. p ≡ texts.set_two what a.now b.now) }
{
    match what {
        Set::Member if stands_for(ONE, a) && stands_for(Share::Set, b) => {
            Ok(Some(leafed(Leaf::Fixed("POP IN POP SET"), Form::Value(1))))
        }
        Set::Member => {
            let mut text = String::with_capacity(alloc, room_for(room_for(ROOM, a), b))?;
            push_operand(&mut text, a, 2)?;
            text.push_str(" IN ")?;
            push_set(&mut text, b, 2)?;
            Ok(Some(valued(text, 1)))
        }
        Set::Subrange => {
            let mut text = String::with_capacity(alloc, room_for(room_for(ROOM, a), b))?;
            text.push('[')?;
            push_value(&mut text, a)?;
            text.push_str("..")?;
            push_value(&mut text, b)?;
            text.push(']')?;
            text.push_str(constant_mark(a.form, b.form))?;
            Ok(Some(standing(Text::Written(text), Form::Set(9))))
        }
        Set::Adjust(n) => {
            let mut text = String::with_capacity(alloc, room_for(room_for(ROOM, a), b))?;
            push_sized(&mut text, "adj", u16::from(n), "")?;
            push_counted(&mut text, a, b)?;
            Ok(Some(valued(text, 4)))
        }
        _ => sets_joined(alloc, what, a, b),
    }
}

/// Returns the text of the set operation `what` on the operands `a`, `b` and `c`. For an operator on two sets, one set
/// is a single operand. The other set is two operands: its words and their count.
#[tactic(auto, unfolding(crate::specs::Sets::set_three, crate::specs::Sets::one_counted))]
pub(crate) fn set_three(
    alloc: Global,
    what: Set,
    a: &Phrase,
    b: &Phrase,
    c: &Phrase,
) -> Result<Option<Phrase>, AllocError>
    ensures shown { IfOk result (λ p. p ≡ texts.set_three what a.now b.now c.now) }
{
    match what {
        Set::Member => {
            let mut text = String::with_capacity(alloc, room_for(2 * ROOM, a))?;
            push_operand(&mut text, a, 2)?;
            text.push_str(" IN ")?;
            push_counted(&mut text, b, c)?;
            Ok(Some(valued(text, 1)))
        }
        _ => match (set_sign(what), a.form, c.form) {
            (Some((sign, strength)), Form::Set(_), _) => {
                let mut text = String::with_capacity(alloc, room_for(2 * ROOM, a))?;
                push_operand(&mut text, a, strength)?;
                push_sign(&mut text, sign)?;
                push_counted(&mut text, b, c)?;
                Ok(Some(standing(Text::Written(text), Form::Set(strength))))
            }
            (Some((sign, strength)), _, Form::Set(_)) => {
                let mut text = String::with_capacity(alloc, room_for(2 * ROOM, c))?;
                push_counted(&mut text, a, b)?;
                push_sign(&mut text, sign)?;
                push_operand(&mut text, c, strength + 1)?;
                Ok(Some(standing(Text::Written(text), Form::Set(strength))))
            }
            _ => Ok(None),
        },
    }
}

#[tactic(auto, unfolding(crate::specs::Sets::set_four))]
pub(crate) fn set_four(
    alloc: Global,
    what: Set,
    a: &Phrase,
    b: &Phrase,
    c: &Phrase,
    d: &Phrase,
) -> Result<Option<Phrase>, AllocError>
    ensures shown { IfOk result (λ p. p ≡ texts.set_four what a.now b.now c.now d.now) }
{
    match (set_sign(what), a.form, d.form) {
        (_, Form::Set(_) | Form::Constant(0), _) => Ok(None),
        (_, _, Form::Set(_) | Form::Constant(0)) => Ok(None),
        (Some((sign, strength)), _, _) => {
            let mut text = String::with_capacity(alloc, 4 * ROOM)?;
            push_counted(&mut text, a, b)?;
            push_sign(&mut text, sign)?;
            push_counted(&mut text, c, d)?;
            Ok(Some(standing(Text::Written(text), Form::Set(strength))))
        }
        (None, _, _) => Ok(None),
    }
}
