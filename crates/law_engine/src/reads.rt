//! The law of the bytes that a step reads, and worked examples.

ghost use Rattle.law_engine.specs.ReadLaws.{StepsDependOnWhatTheyRead};
ghost use Rattle.law_engine.specs.WorkedReads.{WorkedReads};

/// If a step succeeds, then the step from the same state with another memory succeeds too, provided that both memories
/// agree. They agree if they have the same instruction at IPC, the same bytes in the code that belong to this
/// instruction (such as the characters of a string), and the same bytes that the instruction reads.
///
/// After both steps, all of the state except the memory is the same. Each byte of memory is the same after both steps,
/// or each step leaves it unchanged. Each word of which the instruction writes no byte is unchanged.
///
/// Premise: both states are plain. A plain state has a valid memory (32,768 words, each less than 65,536) and a valid
/// stack, and bytes on the disks and in the queue. The law does not cover steps that end with an error, or that wait.
#[tactic(auto, using(crate::proofs::ReadLaws::steps_depend_on_what_they_read))]
pub fn steps_depend_on_what_they_read()
    ensures law { StepsDependOnWhatTheyRead }
{}

/// Worked examples: the ranges of memory that single definitions state as read.
#[tactic(auto, using(crate::proofs::WorkedReads::worked_reads))]
pub fn worked_reads()
    ensures law { WorkedReads }
{}
