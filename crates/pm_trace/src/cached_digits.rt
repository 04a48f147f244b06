//! Digits that are cached, because they seldom change from one line of a trace to the next. A column is a number in
//! five digits, followed by a space.

ghost use Rattle.std.specs.Prelude.{◌≡◌, ◌<◌, ◌∷◌, ◌++◌, []};
ghost use Rattle.pm_code.specs.Shown.{padded};

use crate::digits::{Column, column, seven_digits};
use std::marker::Model;

/// A word and its column. Contracts describe this cache as the word.
#[derive(Drop)]
pub(crate) struct CachedColumn {
    word: u16,
    column: Column,
}

impl Model for CachedColumn {
    ghost use Rattle.std.specs.Prelude.{ℕ, ◌≡◌, ◌∷◌, ◌++◌, []};
    ghost use Rattle.pm_code.specs.Shown.{padded};

    ghost Value = { ℕ };

    ghost view = { λ k. k.word };

    ghost invariant = { λ k. record {
      digits : k.column ≡ padded 5 k.word ++ 32 ∷ [];
    } };
}

impl CachedColumn {
    /// Creates a cache that contains 0 and its column.
    pub(crate) fn new() -> CachedColumn {
        CachedColumn {
            word: 0,
            column: column(0),
        }
    }

    /// Returns the column of `word`. Afterwards this column is cached.
    #[inline(always)]
    pub(crate) fn of(&mut self, word: u16) -> Column
        ensures digits { result ≡ padded 5 word ++ 32 ∷ [] }
    {
        if self.word != word {
            self.word = word;
            self.column = column(word);
        }
        self.column
    }
}

/// A number of tens and its seven digits. Contracts describe this cache as the number.
#[derive(Drop)]
pub(crate) struct CachedTens {
    tens: u32,
    digits: [u8; 7],
}

impl Model for CachedTens {
    ghost use Rattle.std.specs.Prelude.{ℕ, ◌≡◌, ◌∷◌};
    ghost use Rattle.pm_code.specs.Shown.{padded};

    ghost Value = { ℕ };

    ghost view = { λ k. k.tens };

    ghost invariant = { λ k. record {
      digits : k.digits ≡ padded 7 k.tens;
    } };
}

impl CachedTens {
    /// Creates a cache that contains 0 and its digits.
    pub(crate) fn new() -> CachedTens {
        CachedTens {
            tens: 0,
            digits: seven_digits(0),
        }
    }

    // Returns `tens` in seven digits. Afterwards these digits are cached.
    #[inline(always)]
    fn of(&mut self, tens: u32) -> [u8; 7]
        requires few { tens < 10000000 }
        ensures digits { result ≡ padded 7 tens }
    {
        if self.tens != tens {
            self.tens = tens;
            self.digits = seven_digits(tens);
        }
        self.digits
    }

    /// Returns `count` in eight digits, followed by a space. Afterwards the first seven digits are cached.
    #[inline(always)]
    pub(crate) fn front(&mut self, count: u32) -> [u8; 9]
        requires few { count < 100000000 }
        ensures digits { result ≡ padded 8 count ++ 32 ∷ [] }
    {
        let [a, b, c, d, e, f, g] = self.of(count / 10);
        [a, b, c, d, e, f, g, b'0' + (count % 10) as u8, b' ']
    }
}
