//! The law of the memory that a call and its return leave unchanged. The function has an empty body. In comments, a
//! *valid memory* has 32,768 words, each less than 65,536.

ghost use Rattle.law_engine.specs.MemoryLaws.{CallAndReturnLeaveTheRest};

/// If a call and the return immediately after it succeed, then each byte of memory outside three ranges is unchanged.
/// The first range is the frame, from the SP with which the procedure begins to the end of its variables. The second is
/// the code that the call loads, directly below the SP before the call. The third is the words of the result, from the
/// SP after the return on. Premises: the memory before the call and after it is valid; loaded code consists of bytes.
#[tactic(auto, using(crate::proofs::RestLaws::call_and_return_leave_the_rest))]
pub fn call_and_return_leave_the_rest()
    ensures law { CallAndReturnLeaveTheRest }
{}
