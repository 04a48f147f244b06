//! Fixed addresses of the memory.

/// The address of the end of the stack: the value of SP if the stack is empty, and the SP that the system's frame
/// saves.
pub const STACK_END: u16 = 65_504;

/// The address of the highest word that the stack can hold. A loaded segment ends at this word or at a lower address.
pub const HIGHEST_WORD: u16 = 65_502;

/// The address of the system's frame, which is the last frame of every chain of static or dynamic links.
pub const SYSTEM_FRAME: u16 = 65_492;

/// The address at which the heap, or bare code, begins.
pub const HEAP: u16 = 1024;

/// The maximum length in bytes of bare code, and of a segment that is assembled.
pub const LONGEST_CODE: usize = 60_000;
