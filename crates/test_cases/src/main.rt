//! A test program of CI. It executes cases whose answers were computed without any part of this program. For each file
//! of data/, it prints how many cases agree. For the first case that does not agree, it prints the name, the expected
//! answers and the actual answers.
#![tactic(auto)]

mod bare;
mod boots;
mod case;
mod code_file;
mod conformance;
mod files;
mod jobs;
mod program;
mod report;
mod session;
mod shows;
mod systems;
mod texts;
mod unseen;

use report::{Kind, replay};
use std::{fs, io};
use unseen::rows;

/// The files and the kinds of their cases. The planted cases have wrong answers on purpose, except the first case of
/// each file.
const FILES: [(&str, Kind); 15] = [
    ("bare.cases", Kind::Bare),
    ("boots.cases", Kind::Boots),
    ("files.cases", Kind::Files),
    ("texts.cases", Kind::Texts),
    ("shows.cases", Kind::Shows),
    ("disks.cases", Kind::Images),
    ("systems.cases", Kind::Systems),
    ("bare.txt", Kind::Conformance),
    ("planted-bare.cases", Kind::Bare),
    ("planted-boots.cases", Kind::Boots),
    ("planted-files.cases", Kind::Files),
    ("planted-texts.cases", Kind::Texts),
    ("planted-shows.cases", Kind::Shows),
    ("planted-disks.cases", Kind::Images),
    ("planted-systems.cases", Kind::Systems),
];

fn main(rt: HostRuntime) -> io::Result<()> {
    for (path, kind) in FILES {
        let text = fs::read_to_string(&rt, path)?;
        let report = replay(rt.alloc(), text.as_str(), kind)?;
        println!(rt; "{path}: {report}")?;
    }
    let rows = rows(rt.alloc())?;
    println!(rt; "{rows}")
}
