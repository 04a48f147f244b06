//! Laws of the encodings of instructions, on which the contracts of `decode` and `encode` depend. Each function has an
//! empty body.

ghost use Rattle.pm_opcode.specs.Laws as laws;
ghost use Rattle.law_engine.specs.WorkedReadings.{WorkedReadings};

/// If the bytes that `encode` writes for an instruction are at an offset, then `reading` at this offset returns the
/// same opcode and operands. It also returns the same range of bytes in the code, such as the characters of a string.
/// This holds for any bytes before and after the instruction. Premises: the operands are in range, and the bytes of the
/// range exist.
pub fn written_is_read()
    ensures law { laws.WrittenIsRead }
{}

/// No encoding of an instruction is a proper prefix of another encoding, if both begin at an odd address or both at an
/// even address.
pub fn none_begins_another()
    ensures law { laws.NoneBeginsAnother }
{}

/// If the operands of an instruction are out of range, then no bytes at any offset are read as this instruction.
pub fn nowhere_else()
    ensures law { laws.NowhereElse }
{}

/// Worked examples: the instructions that the definitions read from a few bytes.
#[tactic(auto, using(crate::proofs::WorkedReadings::worked_readings))]
pub fn worked_readings()
    ensures law { WorkedReadings }
{}
