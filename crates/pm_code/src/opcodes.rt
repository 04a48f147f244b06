//! The opcodes of a case jump.

/// The opcode of XJP.
pub const CASE_JUMP: u8 = 172;

/// The opcode of UJP, the jump inside an XJP.
pub const JUMP: u8 = 185;
