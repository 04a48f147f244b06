//! The first words of a line: its label and the word that is its mnemonic or directive.

ghost use Rattle.std.specs.Prelude.{◌≡◌, option_map};
ghost use Rattle.pm_line.specs.Fronts.{front_of, front_seen, keyword_in};
ghost use Rattle.pm_line.specs.Views.{keyword_seen};

use crate::keyword::{Keyword, keyword_of};
use crate::pieces::uncommented;
use crate::spoken::label_of;
use crate::words::cut;

/// The first words of a line: its label and the word that is its mnemonic or directive.
#[derive(Clone, Copy)]
pub struct Front<'a> {
    /// The label without its colon, if the first word is a label.
    pub label: Option<&'a [u8]>,
    /// The first word after the label, or the first word of a line without a label. It is empty if the line has no such
    /// word.
    pub word: &'a [u8],
}

impl Front<'_> {
    /// Returns the mnemonic or directive that `word` is, or `None` if it is neither.
    pub fn keyword(&self) -> Option<Keyword>
        ensures keyword { option_map keyword_seen result ≡ keyword_in (front_seen self.now) }
    {
        keyword_of(self.word)
    }
}

/// Returns the first words of a line. `text` is the line without its line feed.
#[tactic(auto, unfolding(crate::specs::Fronts::front_of))]
pub fn front_of(text: &[u8]) -> Front<'_>
    ensures front { front_seen result ≡ front_of text.now }
{
    let (word, rest) = cut(uncommented(text));
    match label_of(word) {
        None => Front { label: None, word },
        Some(label) => Front {
            label: Some(label),
            word: cut(rest).0,
        },
    }
}
