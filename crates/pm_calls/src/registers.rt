//! The registers of the p-machine.

/// The eight registers. Each is a word.
#[derive(Clone, Copy, Debug, PartialEq, Eq)]
pub struct Registers {
    /// The address of the word on top of the stack, which grows down. SP is even, at least NP and at most 65,504.
    pub sp: u16,
    /// The address of the next instruction.
    pub ipc: u16,
    /// The address of the highest word of the running segment.
    pub seg: u16,
    /// The address of the highest word of the running procedure's attribute table.
    pub jtab: u16,
    /// The address of the running procedure's frame.
    pub mp: u16,
    /// The address of the running program's frame.
    pub base: u16,
    /// The top of the heap, which grows up. NP is even.
    pub np: u16,
    /// The result of the latest input or output.
    pub ioresult: u16,
}
