//! Numbers with leading zeros.

ghost use Rattle.std.specs.Prelude.{◌≡◌, ◌<◌, ◌+◌, ◌/◌, ◌%◌, ◌∷◌, ◌++◌, [], Some};
ghost use Rattle.std.specs.List.{AllByRecursion, flat_map};
ghost use Rattle.std.specs.Str.{IsAscii};
ghost use Rattle.pm_code.specs.Shown.{padded};
ghost use Rattle.pm_trace.specs.Trace.{top_text};

use std::fmt;

// The two digits of each number below 100.
static PAIRS: [[u8; 2]; 100] = [
    *b"00", *b"01", *b"02", *b"03", *b"04", *b"05", *b"06", *b"07", *b"08", *b"09", *b"10", *b"11",
    *b"12", *b"13", *b"14", *b"15", *b"16", *b"17", *b"18", *b"19", *b"20", *b"21", *b"22", *b"23",
    *b"24", *b"25", *b"26", *b"27", *b"28", *b"29", *b"30", *b"31", *b"32", *b"33", *b"34", *b"35",
    *b"36", *b"37", *b"38", *b"39", *b"40", *b"41", *b"42", *b"43", *b"44", *b"45", *b"46", *b"47",
    *b"48", *b"49", *b"50", *b"51", *b"52", *b"53", *b"54", *b"55", *b"56", *b"57", *b"58", *b"59",
    *b"60", *b"61", *b"62", *b"63", *b"64", *b"65", *b"66", *b"67", *b"68", *b"69", *b"70", *b"71",
    *b"72", *b"73", *b"74", *b"75", *b"76", *b"77", *b"78", *b"79", *b"80", *b"81", *b"82", *b"83",
    *b"84", *b"85", *b"86", *b"87", *b"88", *b"89", *b"90", *b"91", *b"92", *b"93", *b"94", *b"95",
    *b"96", *b"97", *b"98", *b"99",
];

/// Returns `number`, which is below 100, in two digits.
#[inline(always)]
fn pair(number: u16) -> [u8; 2]
    requires below { number < 100 }
    ensures digits { result ≡ (48 + number / 10) ∷ (48 + number % 10) ∷ [] }
{
    PAIRS[number as usize]
}

/// Returns `count` in seven digits.
#[inline(never)]
#[tactic(auto, using(crate::proofs::Zeros::seven_digits))]
pub(crate) fn seven_digits(count: u32) -> [u8; 7]
    requires few { count < 10000000 }
    ensures digits { result ≡ padded 7 count }
{
    let tens = count / 10;
    let hundreds = tens / 10;
    let thousands = hundreds / 10;
    let fifth = thousands / 10;
    let sixth = fifth / 10;
    [
        b'0' + (sixth / 10) as u8,
        b'0' + (sixth % 10) as u8,
        b'0' + (fifth % 10) as u8,
        b'0' + (thousands % 10) as u8,
        b'0' + (hundreds % 10) as u8,
        b'0' + (tens % 10) as u8,
        b'0' + (count % 10) as u8,
    ]
}

/// A count of steps as text, in at least eight digits.
#[derive(Clone, Copy)]
pub(crate) struct Count(pub u64);

impl fmt::Display for Count {
    ghost output = { λ c. Some (padded 8 c.0) };

    #[tactic(auto, using(pm_code::proofs::Digits::padded_written))]
    fn fmt<W: fmt::Write>(&self, f: &mut fmt::Formatter<W>) -> fmt::Result {
        let count = self.0;
        write!(f, "{count:08}")
    }
}

/// A column of a line: five characters and a space.
pub(crate) type Column = [u8; 6];

/// Returns `word` in five digits, followed by a space.
#[inline(always)]
#[tactic(auto, using(crate::proofs::Zeros::digits_by_pairs))]
pub(crate) fn column(word: u16) -> Column
    ensures digits { result ≡ padded 5 word ++ 32 ∷ [] }
    ensures ascii { IsAscii result }
{
    let hundreds = word / 100;
    let [thousands, third] = pair(hundreds % 100);
    let [tens, last] = pair(word % 100);
    let first = b'0' + (hundreds / 100) as u8;
    [first, thousands, third, tens, last, b' ']
}

/// Returns `word` in five digits, or five dashes if it is `None`. A space follows.
pub(crate) fn column_or_dashes(word: Option<u16>) -> Column
    ensures text { result ≡ top_text word ++ 32 ∷ [] }
    ensures ascii { IsAscii result }
{
    match word {
        None => *b"----- ",
        Some(word) => column(word),
    }
}

/// Returns `columns` joined to one string.
#[tactic(auto, using(crate::proofs::Columns::columns_utf8))]
pub(crate) fn joined(columns: &[Column]) -> &str
    requires ascii { AllByRecursion IsAscii columns.now }
    ensures text { result.now ≡ flat_map (λ column. column) columns.now }
{
    str::from_utf8(columns.as_flattened()).unwrap()
}
