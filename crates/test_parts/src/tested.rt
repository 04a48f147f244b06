//! A machine under test. Each method asserts the result of a call, so that a test is a list of method calls.
use crate::booted::boots;
use pm_machine::{Machine, Stop};
use pm_volume::Volume;
use std::alloc::Global;
use std::process::Abort;

/// A machine whose calls assert their results.
#[derive(Drop)]
pub(crate) struct Tested {
    machine: Machine,
}

impl Tested {
    /// Returns a machine with the raw p-code `code`.
    pub(crate) fn raw(rt: &impl Abort, alloc: Global, code: &[u8]) -> Tested {
        let machine = Machine::raw(alloc, code).expect(rt, "a machine");
        Tested { machine }
    }

    /// Returns the machine that boots the file `P` of `volume` on unit 4.
    pub(crate) fn booted(rt: &impl Abort, alloc: Global, volume: Volume) -> Tested {
        let machine = boots(alloc, volume).expect(rt, "a machine");
        Tested { machine }
    }

    pub(crate) fn pokes(&mut self, rt: &impl Abort, address: u16, word: u16) {
        assert!(rt; self.machine.poke(address, word));
    }

    pub(crate) fn keys(&mut self, rt: &impl Abort, byte: u8) {
        assert!(rt; self.machine.key(byte).is_ok());
    }

    /// Asserts that the next step returns `stop`.
    pub(crate) fn steps_to(&mut self, rt: &impl Abort, stop: Stop) {
        assert_eq!(rt; self.machine.step(), Ok(stop));
    }

    /// Asserts that a run of at most `limit` steps executes `count` steps and returns `stop`.
    pub(crate) fn runs_to(&mut self, rt: &impl Abort, limit: u64, count: u64, stop: Stop) {
        assert_eq!(rt; self.machine.run(limit), Ok((count, stop)));
    }

    /// Asserts that `quick_steps(limit)` executes `count` steps.
    pub(crate) fn makes_quick(&mut self, rt: &impl Abort, limit: u64, count: u64) {
        assert_eq!(rt; self.machine.quick_steps(limit), count);
    }

    pub(crate) fn has_sp(&self, rt: &impl Abort, sp: u16) {
        assert_eq!(rt; self.machine.registers().sp, sp);
    }

    pub(crate) fn has_made(&self, rt: &impl Abort, steps: u64) {
        assert_eq!(rt; self.machine.steps(), steps);
    }

    pub(crate) fn holds(&self, rt: &impl Abort, address: u16, word: u16) {
        assert_eq!(rt; self.machine.memory().word(address), Some(word));
    }

    /// Asserts that `console` bytes were written to the console and `printer` bytes to the printer.
    pub(crate) fn has_written(&self, rt: &impl Abort, console: usize, printer: usize) {
        assert_eq!(rt; self.machine.console().len(), console);
        assert_eq!(rt; self.machine.printer().len(), printer);
    }
}
