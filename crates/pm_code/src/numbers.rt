//! Numbers with leading zeros, and the values of digits.

ghost use Rattle.std.specs.Prelude.{◌≡◌, ◌≤◌, min, Some};
ghost use Rattle.std.specs.Char.{digit_value};
ghost use Rattle.std.specs.Str.Parse.{digits_value};
ghost use Rattle.pm_code.specs.Shown.{padded};

use std::fmt;

/// The highest value that `magnitude` returns. It is higher than any operand and than any four hexadecimal digits.
const LARGEST: u32 = 1_000_000;

/// A number, shown in at least three digits.
#[derive(Clone, Copy)]
pub struct ThreeDigits(pub usize);

impl fmt::Display for ThreeDigits {
    ghost output = { λ n. Some (padded 3 n.0) };

    #[tactic(auto, using(crate::proofs::Digits::padded_written))]
    fn fmt<W: fmt::Write>(&self, f: &mut fmt::Formatter<W>) -> fmt::Result {
        let number = self.0;
        write!(f, "{number:03}")
    }
}

/// A number, shown in at least five digits.
#[derive(Clone, Copy)]
pub struct FiveDigits(pub usize);

impl fmt::Display for FiveDigits {
    ghost output = { λ n. Some (padded 5 n.0) };

    #[tactic(auto, using(crate::proofs::Digits::padded_written))]
    fn fmt<W: fmt::Write>(&self, f: &mut fmt::Formatter<W>) -> fmt::Result {
        let number = self.0;
        write!(f, "{number:05}")
    }
}

fn digit_value(digit: u8) -> u32
    ensures value { result ≡ digit_value digit }
    ensures small { result ≤ 36 }
{
    match digit {
        b'0'..=b'9' => u32::from(digit - b'0'),
        b'A'..=b'Z' => u32::from(digit - b'A') + 10,
        b'a'..=b'z' => u32::from(digit - b'a') + 10,
        _ => 36,
    }
}

/// Returns the value of `digits` in the base `radix`, or 1,000,000 if the value is higher.
pub fn magnitude(radix: u32, digits: &[u8]) -> u32
    requires radix { (1 ≤ radix) × (radix ≤ 16) }
    ensures value { result ≡ min 1000000 (digits_value radix digits.now) }
{
    let mut magnitude = 0;
    for digit in digits {
        magnitude = LARGEST.min(magnitude * radix + digit_value(*digit));
    }
    magnitude
}
