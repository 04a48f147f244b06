//! Functions for a list of operands that must have a fixed length.

ghost use Rattle.std.specs.Prelude.{◌≡◌, ◌∷◌, [], IfSome, IsNone};
ghost use Rattle.pm_line.specs.Views.{IsNotFour, IsNotOne, IsNotTwo, texts_seen};

/// Returns the operand if `texts` has exactly one. Otherwise returns `None`.
pub(crate) fn only<'a>(texts: &[&'a [u8]]) -> Option<&'a [u8]>
    ensures one { IfSome result (λ text. texts_seen texts.now ≡ text.now ∷ []) }
    ensures other { IsNone result → IsNotOne (texts_seen texts.now) }
{
    match texts {
        [text] => Some(text),
        _ => None,
    }
}

/// Returns the operands if `texts` has exactly two. Otherwise returns `None`.
pub(crate) fn pair<'a>(texts: &[&'a [u8]]) -> Option<(&'a [u8], &'a [u8])>
    ensures two { IfSome result (λ pair. texts_seen texts.now ≡ pair.0.now ∷ pair.1.now ∷ []) }
    ensures other { IsNone result → IsNotTwo (texts_seen texts.now) }
{
    match texts {
        [first, second] => Some((first, second)),
        _ => None,
    }
}

/// A list of exactly four operands, as a tuple.
type Four<'a> = (&'a [u8], &'a [u8], &'a [u8], &'a [u8]);

/// Returns the operands if `texts` has exactly four. Otherwise returns `None`.
pub(crate) fn four<'a>(texts: &[&'a [u8]]) -> Option<Four<'a>>
    ensures four { IfSome result (λ four. texts_seen texts.now
        ≡ four.0.now ∷ four.1.now ∷ four.2.now ∷ four.3.now ∷ []) }
    ensures other { IsNone result → IsNotFour (texts_seen texts.now) }
{
    match texts {
        [first, second, third, fourth] => Some((first, second, third, fourth)),
        _ => None,
    }
}
