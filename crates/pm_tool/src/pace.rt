//! The interface through which a run executes steps that produce no output.
ghost use Rattle.pm_machine.specs.Quick.{QuickSteps};

use pm_machine::Machine;

/// A way to execute several steps of a run in one call. `Quick` uses the fast path of the machine. A test can use
/// another implementation, which counts the steps.
pub trait Pace {
    /// Executes at most `limit` steps and returns their number, which can be 0. Each of these steps succeeds and writes
    /// nothing to the console.
    fn quick_steps(&mut self, machine: &mut Machine, limit: u64) -> u64
        ensures steps { QuickSteps limit machine.old.state result machine.new.state };
}

/// Executes steps with the fast path of the machine, `Machine::quick_steps`.
#[derive(Clone, Copy)]
pub struct Quick;

impl Pace for Quick {
    fn quick_steps(&mut self, machine: &mut Machine, limit: u64) -> u64 {
        machine.quick_steps(limit)
    }
}
