//! The text of positions in the code, breakpoints, frames and bytes.
ghost use Rattle.std.specs.Prelude.{◌≡◌, Some};
ghost use Rattle.pm_session.specs.Views.{break_text, frame_text, pair_text, point_text, spot_text};

use pm_debug::{Breakpoint, Condition, Frame, Spot};
use pm_machine::CodePlace;
use std::fmt;

/// A position in the code as text: segment, procedure and offset, as in the command `break`.
#[derive(Clone, Copy)]
pub(crate) struct Point(pub CodePlace);

impl fmt::Display for Point {
    ghost output = { λ p. Some (point_text p.0) };

    fn fmt<W: fmt::Write>(&self, f: &mut fmt::Formatter<W>) -> fmt::Result {
        let CodePlace {
            segment,
            procedure,
            offset,
        } = self.0;
        write!(f, "{segment} {procedure} {offset}")
    }
}

/// The spot of a breakpoint as text: a position as in the command `break`, or words as in the commands `reads` and
/// `writes`.
#[derive(Clone, Copy)]
struct SpotText(Spot);

impl fmt::Display for SpotText {
    ghost output = { λ t. Some (spot_text t.0) };

    fn fmt<W: fmt::Write>(&self, f: &mut fmt::Formatter<W>) -> fmt::Result {
        match self.0 {
            Spot::Code(place) => write!(f, "{}", Point(place)),
            Spot::Reads { address, words } => write!(f, "reads {address} {words}"),
            Spot::Writes { address, words } => write!(f, "writes {address} {words}"),
        }
    }
}

/// A breakpoint as text: its spot, followed by its condition.
#[derive(Clone, Copy)]
pub(crate) struct BreakText(pub Breakpoint);

impl fmt::Display for BreakText {
    ghost output = { λ t. Some (break_text t.0) };

    fn fmt<W: fmt::Write>(&self, f: &mut fmt::Formatter<W>) -> fmt::Result {
        let spot = SpotText(self.0.spot);
        match self.0.condition {
            None => write!(f, "{spot}"),
            Some(Condition { address, word }) => write!(f, "{spot} if {address} = {word}"),
        }
    }
}

/// A frame as text: its address and the position to which it returns.
#[derive(Clone, Copy)]
pub(crate) struct FrameText(pub Frame);

impl fmt::Display for FrameText {
    ghost output = { λ t. Some (frame_text t.0) };

    fn fmt<W: fmt::Write>(&self, f: &mut fmt::Formatter<W>) -> fmt::Result {
        let address = self.0.address;
        match self.0.returns_to {
            None => write!(f, "{address}"),
            Some(place) => write!(f, "{address} {}", Point(place)),
        }
    }
}

/// A byte as text: two hexadecimal digits.
#[derive(Clone, Copy)]
pub(crate) struct Pair(pub u8);

impl fmt::Display for Pair {
    ghost output = { λ p. Some (pair_text p.0) };

    #[tactic(auto, using(std::proofs::lemmas::Fmt::hex_byte))]
    fn fmt<W: fmt::Write>(&self, f: &mut fmt::Formatter<W>) -> fmt::Result {
        let byte = self.0;
        write!(f, "{byte:02X}")
    }
}
