//! Tests in which another program acts before each call of a command line in turn.
use crate::command::{CommandLine, come};
use std::alloc::Global;
use std::io;
use test_host::{Came, Deed, Disk, act_before, copy, tell};

/// Executes a command line, with the action of another program before call number `before`.
fn come_beside(
    alloc: Global,
    old: &Disk,
    command: CommandLine<'_>,
    deed: &Deed,
    before: usize,
) -> io::Result<Came> {
    let meanwhile = act_before(alloc, deed, before)?;
    let mut disk = copy(alloc, old)?;
    disk.meanwhile = Some(meanwhile);
    Ok(come(alloc, disk, command, None))
}

fn end_line(text: &mut String, end: &str) -> io::Result<()> {
    text.push_str(" ")?;
    text.push_str(end)?;
    text.push_str("\n")?;
    Ok(())
}

/// Executes a command line once for each of its calls, with the action of another program before this call. Returns the
/// results as lines. A line has the letters of adjacent calls with the same result, and this result.
pub fn meanwhile(
    alloc: Global,
    old: &Disk,
    command: CommandLine<'_>,
    deed: &Deed,
    paths: &str,
) -> io::Result<String> {
    let good = come(alloc, copy(alloc, old)?, command, None);
    let mut text = String::new(alloc);
    let mut last = String::new(alloc);
    for (number, letter) in good.disk.log.chars().enumerate() {
        let came = come_beside(alloc, old, command, deed, number)?;
        let now = tell(alloc, old, &came, paths)?;
        if number > 0 && now.as_str() != last.as_str() {
            end_line(&mut text, last.as_str())?;
        }
        last = now;
        text.push(letter)?;
    }
    end_line(&mut text, last.as_str())?;
    Ok(text)
}
