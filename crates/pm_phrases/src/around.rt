//! The context of an operation: its procedure, and the operands that are missing. A share is a part of the stack: a
//! number of words, or a set. A stand-in is a text, such as `POP`, that represents a share which no operand supplies.

ghost use Rattle.std.specs.Prelude.{◌≡◌, ◌++◌, OnOk, string_bytes};
ghost use Rattle.pm_phrases.specs.Missing as missing;
ghost use Rattle.pm_phrases.specs.Shown as shown;

use crate::leaf::{Leaf, push_share};
use crate::operand::{Form, Phrase, leafed, push_further, push_listed};
use pm_effects::Share;
use std::alloc::AllocError;

/// The procedure that contains an operation.
#[derive(Clone, Copy)]
pub struct Around {
    /// The size of the procedure's parameters, in words.
    pub parameters: u16,
}

/// The part of an operation's input that no operand supplies. The operation pops this part from the stack as two
/// shares.
#[derive(Clone, Copy)]
pub struct Missing {
    /// The share that is below the other one on the stack.
    pub below: Share,
    /// The share at the top of the stack.
    pub top: Share,
}

/// The stand-ins for missing operands: none, one or two, in the order in which the text shows them.
#[derive(Clone, Copy)]
pub(crate) enum Pops<'a> {
    None,
    One(&'a Phrase),
    Two(&'a Phrase, &'a Phrase),
}

/// Returns the stand-in (such as `POP`) for the missing share `share`, as an operand.
pub(crate) fn stand_in(share: Share) -> Phrase
    ensures stand_in { result ≡ missing.stand_in share }
{
    let form = match share {
        Share::Words(_) => Form::Value(9),
        Share::Set => Form::Set(9),
    };
    leafed(Leaf::StandIn(share), form)
}

/// Appends an argument list in parentheses to `out`: first the stand-ins for `what`, which is missing, then `operands`.
/// Appends nothing if the list is empty.
///
/// If `known` is false, the input of the operation is unknown. Then the only stand-in is `?`, for any `what`.
#[tactic(auto, unfolding(crate::specs::Shown::value_text))]
pub(crate) fn push_arguments(
    out: &mut String,
    known: bool,
    what: Missing,
    operands: &[Phrase],
) -> Result<(), AllocError>
    ensures text { OnOk result (string_bytes out.new
        ≡ string_bytes out.old ++ shown.arguments (missing.stand_ins known what ++ operands.now)) }
{
    if !known {
        out.push_str("(?")?;
        push_further(out, operands)?;
        return out.push(')');
    }
    match (what.below, what.top) {
        (Share::Words(0), Share::Words(0)) => push_listed(out, operands),
        (Share::Words(0), share) | (share, Share::Words(0)) => {
            out.push('(')?;
            push_share(out, share)?;
            push_further(out, operands)?;
            out.push(')')
        }
        (below, top) => {
            out.push('(')?;
            push_share(out, below)?;
            out.push_str(", ")?;
            push_share(out, top)?;
            push_further(out, operands)?;
            out.push(')')
        }
    }
}
