//! The line of a trace for the next step of a machine.

ghost use Rattle.std.specs.Prelude.{◌≡◌, ◌%◌, Some};
ghost use Rattle.pm_trace.specs.Trace.{top_word, trace_line};

use crate::digits::{Count, column, column_or_dashes, joined};
use pm_disasm::Line;
use pm_machine::Machine;
use pm_words::Memory;
use pm_words::layout::STACK_END;
use std::fmt;

/// The line of a trace for the next step of a machine, without a line feed. It consists of:
///
/// - the number of steps before, in at least eight digits,
/// - IPC, SP, MP, BASE, NP and the word at SP, in five digits each, with five dashes instead of the word if SP is
///   65,504,
/// - the instruction at IPC.
#[derive(Clone, Copy)]
pub struct TraceLine<'a> {
    /// The machine before the step.
    pub machine: &'a Machine,
}

impl<'a> TraceLine<'a> {
    /// Creates the line of the next step of `machine`.
    pub fn new(machine: &'a Machine) -> TraceLine<'a>
        ensures machine { result.machine.now ≡ machine.now }
    {
        TraceLine { machine }
    }
}

impl fmt::Display for TraceLine<'_> {
    ghost output = { λ l. Some (trace_line l.machine.now.state) };

    #[tactic(auto, unfolding(crate::specs::Trace::trace_line))]
    fn fmt<W: fmt::Write>(&self, f: &mut fmt::Formatter<W>) -> fmt::Result {
        let registers = self.machine.registers();
        let memory = self.machine.memory();
        let steps = Count(self.machine.steps());
        let columns = [
            column(registers.ipc),
            column(registers.sp),
            column(registers.mp),
            column(registers.base),
            column(registers.np),
            column_or_dashes(top(memory, registers.sp)),
        ];
        let columns = joined(&columns);
        let line = Line::new(memory, registers.ipc);
        write!(f, "{steps} {columns}{line}")
    }
}

/// Returns the word of `memory` at `sp`, the top of the stack, or `None` if the stack is empty.
#[tactic(auto, unfolding(crate::specs::Trace::top_word))]
pub(crate) fn top(memory: &Memory, sp: u16) -> Option<u16>
    requires even { sp % 2 ≡ 0 }
    ensures word { result ≡ top_word memory.now.words sp }
{
    if sp == STACK_END {
        None
    } else {
        memory.word(sp)
    }
}
