//! The number of test rows or cases that agree with their expected results.
ghost use Rattle.std.specs.Prelude.{◌≡◌, ◌+◌, ◌<◌, min};

use std::alloc::Global;
use std::fmt;

/// The numbers of test rows, scenes or cases that agree with their expected results and that differ, and the message of
/// the first that differs. Each count stops at 4,294,967,295.
#[derive(Drop)]
pub struct Report {
    pub agree: u32,
    pub differ: u32,
    pub first: String,
}

impl Report {
    /// Returns a report with both counts 0.
    pub fn new(alloc: Global) -> Report
        ensures none { (result.agree ≡ 0) × (result.differ ≡ 0) }
    {
        Report {
            agree: 0,
            differ: 0,
            first: String::new(alloc),
        }
    }

    /// Counts one more test row or case that agrees.
    pub fn agrees(&mut self)
        ensures counted { self.new ≡ record self.old { agree = min (self.old.agree + 1) 4294967295 } }
    {
        self.agree = self.agree.saturating_add(1);
    }

    /// Counts one more test row or case that differs. If it is the first, stores its message `told`.
    pub fn differs(&mut self, told: String)
        ensures counted { self.new.differ ≡ min (self.old.differ + 1) 4294967295 }
        ensures agree { self.new.agree ≡ self.old.agree }
        ensures first { self.old.differ ≡ 0 → self.new.first ≡ told }
        ensures later { 0 < self.old.differ → self.new.first ≡ self.old.first }
    {
        if self.differ == 0 {
            self.first = told;
        }
        self.differ = self.differ.saturating_add(1);
    }
}

impl fmt::Display for Report {
    fn fmt<W: fmt::Write>(&self, f: &mut fmt::Formatter<W>) -> fmt::Result {
        let agree = self.agree;
        write!(f, "{agree} agree")?;
        if self.differ > 0 {
            let differ = self.differ;
            let first = self.first.as_str();
            write!(f, ", {differ} do not. The first:\n{first}")?;
        }
        Ok(())
    }
}
