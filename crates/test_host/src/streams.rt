//! The command line arguments and the standard streams of the runtime in memory.
use crate::disk::out_of_memory;
use crate::runtime::{FakeRuntime, in_use};
use std::alloc::Allocator;
use std::env::{Env, FillError};
use std::fmt::Display;
use std::io;
use std::io::{BufRead, ErrorKind, Input, Lines, Read};

/// Standard input.
#[derive(Drop)]
pub struct Typed<'a> {
    rt: FakeRuntime<'a>,
}

impl Read for Typed<'_> {
    fn read(&mut self, buf: &mut [u8]) -> io::Result<usize> {
        let Ok(mut disk) = self.rt.disk.try_borrow_mut() else {
            return Err(in_use());
        };
        disk.tick('I')?;
        let at = disk.read;
        let (Some(byte), Some(place)) = (self.rt.typed.get(at), buf.first_mut()) else {
            return Ok(0);
        };
        *place = *byte;
        disk.read = at.saturating_add(1);
        Ok(1)
    }
}

impl BufRead for Typed<'_> {
    fn fill_buf(&mut self) -> io::Result<&[u8]> {
        Err(io::Error::from(ErrorKind::Unsupported))
    }

    fn consume(&mut self, _amount: usize) {}
}

impl<'a> Input for FakeRuntime<'a> {
    type Reader = Typed<'a>;

    fn read_line<A: Allocator + Clone>(&self, _buf: &mut String<A>) -> io::Result<usize> {
        Err(io::Error::from(ErrorKind::Unsupported))
    }

    fn lines<A: Allocator>(&self, alloc: A) -> Lines<Typed<'a>, A> {
        self.reader().lines(alloc)
    }

    fn reader(&self) -> Typed<'a> {
        Typed { rt: *self }
    }
}

impl Print for FakeRuntime<'_> {
    fn print<D: Display + Drop>(&self, value: D) -> io::Result<()> {
        let text = format!(in self.alloc; "{value}")?;
        Print::write_all(self, text.as_bytes())
    }

    fn println<D: Display + Drop>(&self, value: D) -> io::Result<()> {
        let text = format!(in self.alloc; "{value}\n")?;
        Print::write_all(self, text.as_bytes())
    }

    fn write_all(&self, bytes: &[u8]) -> io::Result<()> {
        let Ok(mut disk) = self.disk.try_borrow_mut() else {
            return Err(in_use());
        };
        disk.tick('O')?;
        if disk.out.extend_from_slice(bytes).is_err() {
            return Err(out_of_memory());
        }
        Ok(())
    }
}

impl Eprint for FakeRuntime<'_> {
    fn eprint<D: Display + Drop>(&self, value: D) -> io::Result<()> {
        let text = format!(in self.alloc; "{value}")?;
        let Ok(mut disk) = self.disk.try_borrow_mut() else {
            return Err(in_use());
        };
        disk.tick('E')?;
        if disk.err.push_str(text.as_str()).is_err() {
            return Err(out_of_memory());
        }
        Ok(())
    }

    fn eprintln<D: Display + Drop>(&self, value: D) -> io::Result<()> {
        let text = format!(in self.alloc; "{value}\n")?;
        self.eprint(text.as_str())
    }
}

impl Env for FakeRuntime<'_> {
    fn arg(&self, i: usize, buf: &mut [u8]) -> Result<usize, FillError> {
        let Some(word) = self.line.split(' ').nth(i) else {
            return Err(FillError::NotPresent);
        };
        let word = word.as_bytes();
        if word.len() > buf.len() {
            return Err(FillError::TooLong);
        }
        buf[..word.len()].copy_from_slice(word);
        Ok(word.len())
    }

    fn var(&self, _name: &str, _buf: &mut [u8]) -> Result<usize, FillError> {
        Err(FillError::NotPresent)
    }

    fn var_at(&self, _i: usize, _buf: &mut [u8]) -> Result<usize, FillError> {
        Err(FillError::NotPresent)
    }
}
