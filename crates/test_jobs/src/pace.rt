//! Tests that runs and traces use the fast execution path.
use pm_machine::{BootFault, Machine};
use pm_tool::{Ending, Pace, Quick, Reader, Saving, Selection, Show, Writer, drive};
use std::alloc::Global;
use std::process::Abort;

/// Raw p-code of an endless loop without output.
const WHILE: [u8; 10] = [0x01, 0x02, 0x82, 0xAB, 0x01, 0x00, 0xA1, 0xFE, 0x08, 0x00];

/// The machine's fast execution path, with counts of its calls (`asked`) and of its steps (`made`).
#[derive(Drop)]
struct Counting {
    asked: u64,
    made: u64,
}

impl Pace for Counting {
    fn quick_steps(&mut self, machine: &mut Machine, limit: u64) -> u64 {
        let made = machine.quick_steps(limit);
        self.asked = self.asked.saturating_add(1);
        self.made = self.made.saturating_add(made);
        made
    }
}

/// Asserts that 1,000 steps of the loop call the fast path `asked` times and execute `made` steps on it.
fn makes(
    rt: &impl Abort,
    alloc: Global,
    show: Show,
    asked: u64,
    made: u64,
) -> Result<(), BootFault> {
    let mut machine = Machine::raw(alloc, &WHILE)?;
    let mut input: &[u8] = &[];
    let mut written = Vec::new(alloc);
    let mut source = Reader::new(&mut input);
    let mut sink = Writer::new(&mut written);
    let mut pace = Counting { asked: 0, made: 0 };
    let driven = drive(
        alloc,
        &mut source,
        &mut sink,
        &mut machine,
        show,
        1000,
        &mut pace,
    );
    assert!(rt; matches!(driven, Ok((Ending::Limit, _))));
    assert_eq!(rt; (pace.asked, pace.made), (asked, made));
    Ok(())
}

/// Tests that a run executes its first step separately, to see the console output that the step adds. One call of the
/// fast path executes all other steps.
#[test]
fn runs_go_quickly(rt: HostRuntime) -> Result<(), BootFault> {
    let saving = Saving::Nothing;
    makes(&rt, rt.alloc(), Show::Console { saving }, 1, 999)
}

/// Tests that a trace calls the fast path once for each step.
#[test]
fn traces_go_quickly(rt: HostRuntime) -> Result<(), BootFault> {
    makes(&rt, rt.alloc(), Show::Trace(Selection::ALL), 1000, 1000)
}

/// Tests that `Quick` uses the machine's fast path.
#[test]
fn quick_is_quick(rt: HostRuntime) -> Result<(), BootFault> {
    let mut machine = Machine::raw(rt.alloc(), &WHILE)?;
    assert_eq!(rt; Quick.quick_steps(&mut machine, 1000), 1000);
    Ok(())
}
