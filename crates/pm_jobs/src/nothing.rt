//! The source for a job that reads no input.
ghost use Rattle.std.specs.Prelude.{[], false, Some};

use crate::source::Source;
use std::io;

/// A source without any bytes: each read returns 0.
#[derive(Drop)]
pub struct Nothing;

impl Source for Nothing {
    ghost seen = { λ _. record { remaining = Some []; failed = false; given = 0 } };

    fn read(&mut self, _buf: &mut [u8]) -> io::Result<usize> {
        Ok(0)
    }

    fn failed(&self) -> bool {
        false
    }
}
