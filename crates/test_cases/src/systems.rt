//! Cases of programs with a system segment in slot 0, and of images that are saved.
use crate::case::{Came, Case, Line};
use crate::jobs::Ran;
use crate::program::{Program, add_image, add_run, disks, limit};
use crate::session::Session;
use pm_tool::Saving;
use std::alloc::Global;
use std::io;
use test_parts::hex_bytes;

/// Returns the image of unit 4, as the lines `on` of the case make it.
fn work(alloc: Global, case: &Case<'_>) -> io::Result<Vec<u8>> {
    let file = hex_bytes(alloc, case.value("program").unwrap_or(""))?;
    let mut session = Session::new(alloc, usize::MAX, file);
    for line in case.lines.iter() {
        if line.word == "on" {
            session.line(Line::of(line.rest))?;
        }
    }
    Ok(session.image)
}

/// Adds the images that a run leaves, if they changed.
fn add_images(
    alloc: Global,
    case: &Case<'_>,
    work: &[u8],
    ran: &Ran,
    came: &mut Came,
) -> io::Result<()> {
    let before = disks(alloc, case, work)?;
    let (first, others) = (&ran.outcome.image, &ran.outcome.others);
    let rows = [
        ("image 4", &before[0], first),
        ("image 5", &before[1], &others[0]),
        ("image 9", &before[2], &others[1]),
        ("image 10", &before[3], &others[2]),
        ("image 11", &before[4], &others[3]),
        ("image 12", &before[5], &others[4]),
    ];
    for (word, before, behind) in rows {
        add_image(alloc, word, before, behind, came)?;
    }
    Ok(())
}

/// Returns the result of a case.
pub fn answers(alloc: Global, case: &Case<'_>) -> io::Result<Came> {
    let mut came = Came::new(alloc);
    let system = match case.value("system") {
        Some(spelled) => Some(hex_bytes(alloc, spelled)?),
        None => None,
    };
    let saving = match case.value("saves") {
        Some("all") => Saving::All,
        Some(_) => Saving::First,
        None => Saving::Nothing,
    };
    let program = Program {
        work: work(alloc, case)?,
        limit: limit(case)?,
        system,
    };
    let ran = program.run(alloc, case, saving)?;
    add_run(alloc, &ran, &mut came)?;
    add_images(alloc, case, &program.work, &ran, &mut came)?;
    program.add_shown(alloc, case, &mut came)?;
    Ok(came)
}
