//! Answers that several commands have in common.
ghost use Rattle.std.specs.Prelude.{◌≡◌, IfOk, Option, List, ℕ, string_bytes};
ghost use Rattle.pm_debug.specs.Views.{ShowsChain};
ghost use Rattle.pm_session.specs.Texts.{chain_text, numbers_text, refused_text};

use pm_debug::DebugRefusal;
use std::alloc::{AllocError, Global};

/// Returns the answer to a command that is refused: `refused` and the number of `refusal`.
pub(crate) fn refused(alloc: Global, refusal: DebugRefusal) -> Result<String, AllocError>
    ensures text { IfOk result (λ text. string_bytes text ≡ refused_text refusal) }
{
    let number = refusal.number();
    format!(in alloc; "refused {number}")
}

/// Returns `numbers` as text, with single spaces between them.
pub(crate) fn numbers(alloc: Global, numbers: &[u16]) -> Result<String, AllocError>
    ensures text { IfOk result (λ text. string_bytes text ≡ numbers_text numbers.now) }
{
    let Some((first, rest)) = numbers.split_first() else {
        return Ok(String::new(alloc));
    };
    let mut text = format!(in alloc; "{first}")?;
    for number in rest {
        write!(text, " {number}")?;
    }
    Ok(text)
}

/// Returns the addresses in `chain` as text, or the answer for its refusal.
pub(crate) fn chain(
    alloc: Global,
    chain: Result<Vec<u16>, DebugRefusal>,
) -> Result<String, AllocError>
    ensures text { IfOk result (λ text. (frames : Option (List ℕ)) → ShowsChain (λ v. v.items) chain frames
        → string_bytes text ≡ chain_text frames) }
{
    match chain {
        Ok(frames) => numbers(alloc, &frames),
        Err(DebugRefusal::NoMemory) => Err(AllocError),
        Err(refusal) => refused(alloc, refusal),
    }
}
