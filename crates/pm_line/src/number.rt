//! Parsing of numbers in an assembly text.

ghost use Rattle.std.specs.Prelude.{◌≡◌, ◌<◌};
ghost use Rattle.std.specs.Char.{is_ascii_digit, is_ascii_hexdigit};
ghost use Rattle.std.specs.List.{list_all};
ghost use Rattle.pm_source.specs.Words.{decimal_number, hexadecimal_number, number, stored, within};

use pm_code::magnitude;
use pm_source::Numeral;

fn are_decimal(digits: &[u8]) -> bool
    ensures decimal { result ≡ list_all is_ascii_digit digits.now }
{
    digits.iter().all(|digit| digit.is_ascii_digit())
}

fn are_hexadecimal(digits: &[u8]) -> bool
    ensures hexadecimal { result ≡ list_all is_ascii_hexdigit digits.now }
{
    digits.iter().all(|digit| digit.is_ascii_hexdigit())
}

/// Parses `digits` as a decimal number. Returns `None` if `digits` is empty or has a character that is no digit.
fn decimal_number(negative: bool, digits: &[u8]) -> Option<Numeral>
    ensures number { result ≡ decimal_number negative digits.now }
{
    if digits.is_empty() || !are_decimal(digits) {
        return None;
    }
    let magnitude = magnitude(10, digits);
    Some(Numeral {
        negative,
        magnitude,
    })
}

/// Parses `digits` as a number of one to four hexadecimal digits. Returns `None` if `digits` is none.
#[tactic(auto, using(pm_code::proofs::Capped::four_digits))]
fn hexadecimal_number(digits: &[u8]) -> Option<Numeral>
    ensures number { result ≡ hexadecimal_number digits.now }
{
    if digits.is_empty() || digits.len() > 4 || !are_hexadecimal(digits) {
        return None;
    }
    let magnitude = magnitude(16, digits);
    Some(Numeral {
        negative: false,
        magnitude,
    })
}

/// Parses a number: decimal digits, `-` and decimal digits, or `$` and hexadecimal digits. Returns `None` if `text` is
/// none.
pub(crate) fn number(text: &[u8]) -> Option<Numeral>
    ensures number { result ≡ number text.now }
{
    match text {
        [b'-', digits @ ..] => decimal_number(true, digits),
        [b'$', digits @ ..] => hexadecimal_number(digits),
        digits => decimal_number(false, digits),
    }
}

/// Returns whether the number `n` is from `-below` to `above`.
pub(crate) fn is_within(below: u32, above: u32, n: Numeral) -> bool
    ensures within { result ≡ within below above n }
{
    if n.negative {
        n.magnitude <= below
    } else {
        n.magnitude <= above
    }
}

/// Returns the number `n` modulo `values`. A negative number whose magnitude is at least `values` has the result 0.
pub(crate) fn stored(values: u32, n: Numeral) -> u32
    requires some { 0 < values }
    ensures value { result ≡ stored values n }
    ensures small { result < values }
{
    if n.negative {
        values.saturating_sub(n.magnitude) % values
    } else {
        n.magnitude % values
    }
}
