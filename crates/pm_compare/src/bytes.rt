//! The comparison of two files.
ghost use Rattle.std.specs.Prelude.{◌≡◌};
ghost use Rattle.pm_compare.specs.Verdicts as verdicts;
ghost use Rattle.pm_volume.specs.Files.{bytes_of};

use crate::verdicts::Verdict;
use pm_volume::{Entry, Volume};

/// Returns the bytes of the file of `entry` on `volume`, as `files get` returns them.
pub(crate) fn bytes_of<'a>(volume: &'a Volume, entry: &Entry) -> &'a [u8]
    ensures bytes { result.now ≡ bytes_of volume.now entry.now }
{
    volume.file(entry).unwrap_or(&[])
}

/// Returns the number of bytes before the first place at which `left` and `right` differ.
fn agreeing(left: &[u8], right: &[u8]) -> usize
    ensures count { result ≡ verdicts.agreeing left.now right.now }
{
    left.iter()
        .zip(right)
        .take_while(|pair| *pair.0 == *pair.1)
        .count()
}

/// Returns the result for two files of the same name. They have the bytes `left` and `right`, and the kinds `kind` and
/// `other`.
pub(crate) fn verdict_of(left: &[u8], kind: u8, right: &[u8], other: u8) -> Verdict
    ensures verdict { result ≡ verdicts.verdict_of left.now kind right.now other }
{
    if left == right {
        if kind == other {
            Verdict::Same
        } else {
            Verdict::Kind
        }
    } else {
        Verdict::Byte(agreeing(left, right))
    }
}
