//! The reasons of the end of a debugger run.

use pm_words::ExecError;

/// The reason of the end of a debugger run.
#[derive(Clone, Copy)]
pub enum BreakReason {
    /// The watched word at this address has changed since the run began.
    Changed(u16),
    /// A breakpoint stopped the run. The machine is before the instruction at which the breakpoint stops.
    Break,
    /// The machine is at the destination of the run: the instruction is executed, the procedure has returned, or the
    /// position is reached.
    There,
    /// The run has executed as many steps as its limit allows.
    Limit,
    /// The next instruction waits for console bytes.
    Waiting,
    /// The program has ended.
    Ended,
    /// An execution error has stopped the machine. Its state is that before the instruction that caused the error.
    Halted(ExecError),
}
