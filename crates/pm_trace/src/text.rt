//! Lines of a trace as strings on the heap.

ghost use Rattle.std.specs.Prelude.{◌≡◌, string_bytes, IfOk};
ghost use Rattle.pm_trace.specs.Trace.{trace_line};

use crate::state_line::TraceLine;
use pm_machine::Machine;
use std::alloc::{AllocError, Global};

/// Returns the line of a trace for the next step of `machine`, without a line feed.
pub fn trace_line(alloc: Global, machine: &Machine) -> Result<String, AllocError>
    ensures text { IfOk result (λ text. string_bytes text ≡ trace_line machine.now.state) }
{
    format!(in alloc; "{}", TraceLine::new(machine))
}
