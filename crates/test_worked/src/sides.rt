//! The two sides of a test row: the input, and the expected result.
use crate::spelled::words;
use pm_machine::Registers;
use pm_words::Memory;
use std::alloc::Global;
use std::io;
use test_parts::{byte, hex_bytes, unreadable, word};

/// The end of the stack.
const STACK_END: u16 = 65504;

/// The registers of a test row, except SP, IPC and the registers that the row sets itself.
const REGISTERS: Registers = Registers {
    sp: STACK_END,
    ipc: 1024,
    seg: 7000,
    jtab: 6000,
    mp: 8000,
    base: 9000,
    np: 1024,
    ioresult: 0,
};

/// The state of a machine before or after an instruction.
#[derive(Drop)]
pub struct Side {
    pub registers: Registers,
    pub memory: Box<Memory>,
    /// The addresses of the memory words that were written. All other words are zero.
    pub written: Vec<u16>,
    /// The result of a step.
    pub outcome: String,
    /// The bytes in the console input before the step.
    pub keys: Vec<u8>,
    /// Disks without files: the unit and the number of blocks of each.
    pub disks: Vec<(u8, u16)>,
    pub console: Vec<u8>,
    pub printer: Vec<u8>,
}

impl Side {
    fn new(alloc: Global) -> io::Result<Side> {
        Ok(Side {
            registers: REGISTERS,
            memory: Memory::new(alloc)?,
            written: Vec::new(alloc),
            outcome: String::from_str(alloc, "went")?,
            keys: Vec::new(alloc),
            disks: Vec::new(alloc),
            console: Vec::new(alloc),
            printer: Vec::new(alloc),
        })
    }

    /// Returns the state before the instruction at IPC.
    pub fn given(alloc: Global, code: &[u8], text: &str) -> io::Result<Side> {
        let mut side = Side::new(alloc)?;
        side.give(alloc, code, text)?;
        Ok(side)
    }

    /// Applies the input of a test row.
    fn give(&mut self, alloc: Global, code: &[u8], text: &str) -> io::Result<()> {
        let mut pieces = text.split(';');
        let stack = words(alloc, pieces.next().unwrap_or("").trim())?;
        for piece in pieces {
            self.put(alloc, piece.trim())?;
        }
        self.push_all(&stack)?;
        let place = self.registers.ipc;
        self.write(place, code)
    }

    /// Returns the expected state after an instruction of `length` bytes. After an error or a wait, it is the state
    /// before the instruction, changed only as the pieces of the test row state.
    pub fn wanted(alloc: Global, before: &Side, length: u16, text: &str) -> io::Result<Side> {
        let mut side = Side::new(alloc)?;
        side.registers = before.registers;
        side.memory.copy_from(&before.memory);
        side.want(alloc, length, text)?;
        Ok(side)
    }

    /// Applies the expected result of an instruction of `length` bytes.
    fn want(&mut self, alloc: Global, length: u16, text: &str) -> io::Result<()> {
        let mut pieces = text.split(';');
        let first = pieces.next().unwrap_or("").trim();
        if first == "waiting" || first.starts_with("error ") {
            self.outcome = String::from_str(alloc, first)?;
        } else {
            self.registers.ipc = self.registers.ipc.wrapping_add(length);
            self.push_all(&words(alloc, first)?)?;
        }
        for piece in pieces {
            self.put(alloc, piece.trim())?;
        }
        Ok(())
    }

    /// Pushes the words of a stack. The first word is the top, and the stack ends at 65,504.
    fn push_all(&mut self, stack: &[u16]) -> io::Result<()> {
        if stack.len() > 32752 {
            return Err(unreadable());
        }
        let sp = STACK_END - 2 * stack.len() as u16;
        let mut place = sp;
        for word in stack {
            self.memory.set_word(place, *word);
            self.written.push(place)?;
            place = place.wrapping_add(2);
        }
        self.registers.sp = sp;
        Ok(())
    }

    /// Writes bytes to memory.
    fn write(&mut self, address: u16, bytes: &[u8]) -> io::Result<()> {
        if !self.memory.write(address, bytes) {
            return Err(unreadable());
        }
        let mut place = address - address % 2;
        for _ in 0..bytes.len() / 2 + 1 {
            self.written.push(place)?;
            place = place.wrapping_add(2);
        }
        Ok(())
    }

    /// Applies one piece of a test row: `A: HEX` for bytes of memory, a register, or bytes of the console or of another
    /// stream.
    fn put(&mut self, alloc: Global, piece: &str) -> io::Result<()> {
        if let Some((address, digits)) = piece.split_once(':') {
            let bytes = hex_bytes(alloc, digits.trim())?;
            return self.write(word(address.trim())?, &bytes);
        }
        let (name, rest) = piece.split_once(' ').ok_or_else(unreadable)?;
        match name {
            "keys" | "console" | "printer" => self.put_bytes(name, hex_bytes(alloc, rest)?),
            "disk" => {
                let (unit, blocks) = rest.split_once(' ').ok_or_else(unreadable)?;
                self.disks.push((byte(unit)?, word(blocks)?))?;
            }
            _ => return self.put_register(name, word(rest)?),
        }
        Ok(())
    }

    /// Sets a register.
    fn put_register(&mut self, name: &str, word: u16) -> io::Result<()> {
        match name {
            "np" => self.registers.np = word,
            "ipc" => self.registers.ipc = word,
            "mp" => self.registers.mp = word,
            "base" => self.registers.base = word,
            "jtab" => self.registers.jtab = word,
            "seg" => self.registers.seg = word,
            "io" => self.registers.ioresult = word,
            _ => return Err(unreadable()),
        }
        Ok(())
    }

    /// Sets the keys or the bytes of a stream.
    fn put_bytes(&mut self, name: &str, bytes: Vec<u8>) {
        match name {
            "keys" => self.keys = bytes,
            "console" => self.console = bytes,
            _ => self.printer = bytes,
        }
    }
}
