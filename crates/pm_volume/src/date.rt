//! Dates, as stored in a directory.

ghost use Rattle.std.specs.Prelude.{◌≡◌, IfSome, None, Some, if◌then◌else◌};
ghost use Rattle.pm_volume.specs.Dates.{date_of, date_word, is_date};

/// A date. A directory stores it as a word: the month in bits 0 to 3, the day in bits 4 to 8, the year in bits 9 to 15.
#[derive(Clone, Copy)]
pub struct Date {
    /// The year within its century, 0 to 127.
    pub year: u8,
    /// The month, 1 to 12. A word can contain 0 to 15.
    pub month: u8,
    /// The day, 1 to 31. A word can contain 0.
    pub day: u8,
}

impl Date {
    /// Returns the year, month and day that `word` contains. They need not be a valid date.
    pub fn of(word: u16) -> Date
        ensures date { result ≡ date_of word }
    {
        Date {
            year: (word / 512) as u8,
            month: (word % 16) as u8,
            day: (word / 16 % 32) as u8,
        }
    }

    /// Returns the date as a word. Returns `None` unless the year is 0 to 127, the month is 1 to 12 and the day is 1 to
    /// 31.
    pub fn word(self) -> Option<u16>
        ensures word { result ≡ (if is_date self.year self.month self.day
            then Some (date_word self.year self.month self.day) else None) }
        ensures again { IfSome result (λ word. date_of word ≡ self) }
    {
        let Date { year, month, day } = self;
        if year <= 127 && (1..=12).contains(&month) && (1..=31).contains(&day) {
            Some(512 * u16::from(year) + 16 * u16::from(day) + u16::from(month))
        } else {
            None
        }
    }
}
