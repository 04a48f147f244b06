//! The program `pmach`.
#![tactic(auto)]

use pm_files::hold_closed;
use pm_program::program;
use std::process::ExitCode;

// Runs the program. Closed standard streams are held open during the run. `inline(never)` lets the loop of the machine
// begin at a multiple of 32 bytes in memory, where the processor executes it faster.
#[inline(never)]
fn run(rt: &HostRuntime) -> u8 {
    let _closed = hold_closed(rt);
    program(rt)
}

fn main(rt: HostRuntime) -> ExitCode {
    ExitCode::from(run(&rt))
}
