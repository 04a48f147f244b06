//! Reading bytes, words and attribute tables from a `Loaded`: the memory as it is after code was loaded.

ghost use Rattle.std.specs.Prelude.{◌≡◌, length};
ghost use Rattle.pm_words.specs.Words.{byte_at, word_at};
ghost use Rattle.pm_words.specs.Stack.{load};
ghost use Rattle.pm_calls.specs.Tables.{attributes};
ghost use Rattle.pm_access.specs.Reached.{loaded_memory};

use crate::loaded::Loaded;
use pm_calls::Table;
use pm_words::{ExecError, Memory};

impl<'a> Loaded<'a> {
    /// Returns a `Loaded` of `memory` without any loaded code.
    #[tactic(auto, using(crate::proofs::WritingLaws::no_code))]
    pub(crate) fn plain(memory: &'a Memory) -> Loaded<'a>
        ensures same { loaded_memory result ≡ memory.now.words }
        ensures none { length result.code.now ≡ 0 }
    {
        Loaded {
            memory,
            code: &[],
            start: 0,
        }
    }

    // Returns the byte at `address`: a byte of the loaded code if `address` is in its range, and otherwise a byte of
    // the memory.
    fn byte(self, address: u16) -> u8
        ensures byte { result ≡ byte_at (loaded_memory self.entry) address }
    {
        let (memory, code) = (self.memory, self.code);
        let _ = memory.word(0); // for the memory's length
        if address < self.start {
            return memory.byte(address);
        }
        match code.get(usize::from(address - self.start)) {
            Some(byte) => *byte,
            None => memory.byte(address),
        }
    }

    /// Returns the word at `address`, or `InvalidMemory` if `address` is odd.
    pub(crate) fn load(self, address: u16) -> Result<u16, ExecError>
        ensures word { result ≡ load (loaded_memory self.entry) address }
    {
        if address % 2 != 0 {
            return Err(ExecError::InvalidMemory);
        }
        let (low, high) = (self.byte(address), self.byte(address + 1));
        Ok(u16::from(low) + 256 * u16::from(high))
    }

    /// Returns the word at `address`. The lowest bit of `address` is ignored.
    #[tactic(auto, using(crate::proofs::ReadingLaws::word_below))]
    pub(crate) fn word(self, address: u16) -> u16
        ensures word { result ≡ word_at (loaded_memory self.entry) address }
    {
        self.load(address - address % 2).unwrap_or(0)
    }

    /// Returns the attribute table of procedure `procedure` of the segment whose highest word is at address `place`.
    ///
    /// # Errors
    ///
    /// - `InvalidMemory`: an address that is read is odd.
    /// - `NoSegment`: `procedure` is 0 or greater than the number of procedures of the segment.
    /// - `NoSegment`: the address of the table, the size of the parameters or the size of the locals is odd.
    /// - `Unimplemented`: the procedure number in the table is 0.
    #[tactic(auto, unfolding(pm_calls::specs::Tables::attributes))]
    pub(crate) fn table(self, place: u16, procedure: u8) -> Result<Table, ExecError>
        ensures table { result ≡ attributes (loaded_memory self.entry) place procedure }
    {
        let top = self.load(place)?;
        if procedure == 0 || u16::from(procedure) > top / 256 {
            return Err(ExecError::NoSegment);
        }
        let at = place.wrapping_sub(2 * u16::from(procedure));
        let jtab = at.wrapping_sub(self.load(at)?);
        if jtab % 2 != 0 {
            return Err(ExecError::NoSegment);
        }
        let head = self.load(jtab)?;
        if head % 256 == 0 {
            return Err(ExecError::Unimplemented);
        }
        let parameters = self.load(jtab.wrapping_sub(6))?;
        let locals = self.load(jtab.wrapping_sub(8))?;
        if parameters % 2 != 0 || locals % 2 != 0 {
            return Err(ExecError::NoSegment);
        }
        let (enter, exit) = (jtab.wrapping_sub(2), jtab.wrapping_sub(4));
        Ok(Table {
            jtab,
            enter: enter.wrapping_sub(self.load(enter)?),
            exit: exit.wrapping_sub(self.load(exit)?),
            parameters,
            locals,
            level: ((head / 256) as u8).cast_signed(),
        })
    }
}
