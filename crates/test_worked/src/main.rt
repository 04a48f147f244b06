//! A test program of CI. It compares worked examples, which were written manually from the rules of docs/, with the
//! machine. For each file of data/, it prints how many examples agree. For the first that does not agree, it prints the
//! line, the expected result and the actual result. The head of data/integers.rows states the form of test rows. The
//! head of data/machine.rows states the form of scenes.
#![tactic(auto)]

mod code_file;
mod events;
mod reading;
mod report;
mod row;
mod scene;
mod sides;
mod spelled;
mod start;
mod views;

use report::replay;
use std::{fs, io};

/// The files. The test rows of the last file have wrong results on purpose, except the first row of each kind.
const FILES: [&str; 8] = [
    "operands.rows",
    "integers.rows",
    "values.rows",
    "comparisons.rows",
    "procedures.rows",
    "calls.rows",
    "machine.rows",
    "planted.rows",
];

fn main(rt: HostRuntime) -> io::Result<()> {
    for path in FILES {
        let text = fs::read_to_string(&rt, path)?;
        let report = replay(rt.alloc(), text.as_str())?;
        println!(rt; "{path}: {report}")?;
    }
    Ok(())
}
