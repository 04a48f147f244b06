//! The lines of the report of a salvage. A file is suspect if its contents may be wrong. `Doubt` has the reasons.
ghost use Rattle.std.specs.Prelude.{◌≡◌, ◌≤◌, ◌++◌, OnOk, Some, string_bytes};
ghost use Rattle.std.specs.List.{flat_map};
ghost use Rattle.pm_check.specs.Report.{counted, doubt_of, doubt_text, last_line, left_line, taken_line};

use crate::believing::{Left, Taken};
use std::alloc::AllocError;
use std::fmt;

/// The reason why a file is suspect.
#[derive(Clone, Copy)]
pub enum Doubt {
    /// The file is not suspect.
    Sure,
    /// The file has a block in common with the file in the slot with this number.
    Shares(u16),
    /// The number of the slot is greater than the number of files that the header states.
    Behind,
}

impl fmt::Display for Doubt {
    ghost output = { λ doubt. Some (doubt_text doubt) };

    fn fmt<W: fmt::Write>(&self, f: &mut fmt::Formatter<W>) -> fmt::Result {
        match *self {
            Doubt::Sure => Ok(()),
            Doubt::Shares(slot) => write!(f, ", doubted, shares blocks with slot {slot}"),
            Doubt::Behind => f.write_str(", doubted, behind the files of the header"),
        }
    }
}

/// Returns the reason why the file in slot `slot` is suspect. `count` is the number of files that the header states,
/// and `other` is a file with a block in common, if one exists.
pub fn doubt_of(count: u16, slot: u16, other: Option<Taken>) -> Doubt
    ensures doubt { result ≡ doubt_of count slot other }
{
    match other {
        Some(other) => Doubt::Shares(other.slot),
        None if count < slot => Doubt::Behind,
        None => Doubt::Sure,
    }
}

/// Returns the number of suspect files: `doubted`, plus 1 if `doubt` is a reason why another file is suspect.
pub fn counted(doubted: usize, doubt: Doubt) -> usize
    requires few { doubted ≤ 77 }
    ensures count { result ≡ counted doubted doubt }
{
    match doubt {
        Doubt::Sure => doubted,
        Doubt::Shares(_) | Doubt::Behind => doubted + 1,
    }
}

// Appends the line of the invalid entry `left` to `text`.
#[tactic(auto, unfolding(crate::specs::Report::left_line))]
fn push_left(text: &mut String, left: Left) -> Result<(), AllocError>
    ensures text { OnOk result (string_bytes text.new ≡ string_bytes text.old ++ left_line left) }
{
    let Left { slot, finding } = left;
    writeln!(text, "slot {slot} left out, {finding}")?;
    Ok(())
}

/// Appends the lines of the invalid entries `all` to `text`.
pub fn push_all_left(text: &mut String, all: &[Left]) -> Result<(), AllocError>
    ensures text { OnOk result (string_bytes text.new ≡ string_bytes text.old ++ flat_map left_line all.now) }
{
    for left in all {
        push_left(text, *left)?;
    }
    Ok(())
}

/// Appends the line of the file in slot `slot`, which is copied under the name `name`.
#[tactic(auto, unfolding(crate::specs::Report::taken_line))]
pub fn push_taken(text: &mut String, slot: u16, name: &str, doubt: Doubt) -> Result<(), AllocError>
    ensures text { OnOk result (string_bytes text.new ≡ string_bytes text.old ++ taken_line slot name.now doubt) }
{
    writeln!(text, "slot {slot} taken as {name}{doubt}")?;
    Ok(())
}

/// Appends the last line, with the number of copied files, of invalid entries and of suspect files.
#[tactic(auto, unfolding(crate::specs::Report::last_line))]
pub fn push_last(
    text: &mut String,
    files: usize,
    left: usize,
    doubted: usize,
) -> Result<(), AllocError>
    ensures text { OnOk result (string_bytes text.new ≡ string_bytes text.old ++ last_line files left doubted) }
{
    writeln!(text, "files {files} left out {left} doubted {doubted}")?;
    Ok(())
}
