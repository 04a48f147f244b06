//! Tests of how files of the system are locked and replaced. It runs in the current folder, and prints one line for
//! each case. CI does not run it as root, and sets the umask to 022. It cannot test other owners, pipes and paths that
//! are not UTF-8. The cases are lines in `script`, which `trial` executes.
#![tactic(auto)]

mod script;
mod trial;

use script::CASES;
use std::io;
use trial::Trial;

fn main(rt: HostRuntime) -> io::Result<()> {
    let mut trial = Trial::new(&rt);
    for case in CASES {
        trial.case(case)?;
    }
    Ok(())
}
