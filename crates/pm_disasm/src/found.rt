//! Instructions that were decoded in code.

ghost use Rattle.std.specs.Prelude.{◌≡◌, ◌<◌, ◌%◌, ◌+◌, ◌-◌, ◌*◌, ◌^◌, IfOk};
ghost use Rattle.pm_code.specs.Views.{placed_item};
ghost use Rattle.pm_words.specs.Words.{words_of};
ghost use Rattle.pm_disasm.specs.Split.{table_places};
ghost use Rattle.pm_disasm.specs.Views.{found_seen};

use pm_code::{Item, Target};
use pm_opcode::Instr;
use std::alloc::{AllocError, Global};

/// The table of a case jump.
#[derive(Clone, Copy)]
pub(crate) struct Table<'a> {
    /// The offset of the table's first word in the segment.
    pub at: u32,
    /// The bytes of the table's words.
    pub words: &'a [u8],
}

/// Returns the target of the word with the number `index` (from 0) in the table at offset `at`. The target is `word`
/// bytes before the word itself, modulo 65,536.
pub(crate) fn table_place(at: u32, index: usize, word: u16) -> usize
    requires index { 2 * index < 2 ^ 63 }
    ensures place { result ≡ (at + 2 * index + 65536 - word) % 65536 }
{
    (at as usize + 2 * index + 65536 - usize::from(word)) % 65536
}

impl Table<'_> {
    /// Returns the targets of the words of this table.
    fn places(self, alloc: Global) -> Result<Vec<usize>, AllocError>
        ensures places { IfOk result (λ places. places.items
            ≡ table_places self.entry.at (words_of self.entry.words.now)) }
    {
        let at = self.at;
        let words = self.words;
        let mut places = Vec::new(alloc);
        for k in 0..words.len() / 2 {
            let word = u16::from(words[2 * k]) + 256 * u16::from(words[2 * k + 1]);
            places.push(table_place(at, k, word))?;
        }
        Ok(places)
    }
}

/// An instruction that was decoded in code. It is shown as an item if its jumps can be shown. It borrows the bytes that
/// belong to the instruction.
#[derive(Clone, Copy)]
pub(crate) enum Found<'a> {
    /// An instruction that does not jump, and the bytes that belong to it.
    Plain(Instr, &'a [u8]),
    /// A short jump: its opcode and its target.
    Jump(u8, Target<usize>),
    /// A case jump: its bounds, the target for other values, and its table.
    Case(u16, u16, Target<usize>, Table<'a>),
}

impl Found<'_> {
    /// Returns the instruction as an item.
    pub(crate) fn item(self, alloc: Global) -> Result<Item<usize>, AllocError>
        ensures item { IfOk result (λ item. placed_item item ≡ found_seen self.entry) }
    {
        match self {
            Found::Plain(instr, named) => {
                let mut copy = Vec::new(alloc);
                copy.extend_from_slice(named)?;
                Ok(Item::Plain(instr, copy))
            }
            Found::Jump(opcode, target) => Ok(Item::Jump(opcode, target)),
            Found::Case(low, high, otherwise, table) => {
                let places = table.places(alloc)?;
                Ok(Item::Case {
                    low,
                    high,
                    otherwise,
                    places,
                })
            }
        }
    }
}
