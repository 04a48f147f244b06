//! The results of a comparison.
ghost use Rattle.std.specs.Prelude.{◌≡◌};
ghost use Rattle.pm_compare.specs.Verdicts as verdicts;

use pm_volume::Entry;

/// The result of the comparison of a file with the file of the same name on the other volume.
#[derive(Clone, Copy)]
pub enum Verdict {
    /// Only the first volume has the file.
    OnlyHere,
    /// Only the second volume has the file.
    OnlyThere,
    /// The two files have the same bytes and the same kind.
    Same,
    /// The bytes of the two files differ. The number is the offset of the first byte that differs, from 0. If one file
    /// begins with all bytes of the other, it is the length of the shorter file.
    Byte(usize),
    /// The two files have the same bytes, but different kinds.
    Kind,
}

/// A file that was compared.
#[derive(Clone, Copy)]
pub struct Compared {
    /// The entry of the file on the first volume. If only the second volume has the file, its entry there.
    pub entry: Entry,
    /// The result of the comparison.
    pub verdict: Verdict,
}

/// Returns whether a file with this result differs, or is on one volume only.
fn is_different(verdict: Verdict) -> bool
    ensures value { result ≡ verdicts.is_different verdict }
{
    !matches!(verdict, Verdict::Same)
}

/// Returns whether one of `files` differs, or is on one volume only.
pub fn differs(files: &[Compared]) -> bool
    ensures value { result ≡ verdicts.differs files.now }
{
    files.iter().any(|file| is_different(file.verdict))
}
