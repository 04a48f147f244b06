//! Cases of programs on a volume: the result of a run, its trace, and one session of the debugger.
use crate::case::{Came, Case};
use crate::program::{Program, add_image, add_run, limit, work};
use pm_tool::Saving;
use std::alloc::Global;
use std::io;

/// Returns the result of a case.
pub fn answers(alloc: Global, case: &Case<'_>) -> io::Result<Came> {
    let mut came = Came::new(alloc);
    let program = Program {
        work: work(alloc, case, false)?,
        limit: limit(case)?,
        system: None,
    };
    if case.has("run") {
        let ran = program.run(alloc, case, Saving::First)?;
        add_run(alloc, &ran, &mut came)?;
        let before = Some(program.work.to_vec(alloc)?);
        add_image(alloc, "image", &before, &ran.outcome.image, &mut came)?;
    }
    program.add_shown(alloc, case, &mut came)?;
    Ok(came)
}
