//! The execution of one command line with a disk in memory.
use pm_program::program;
use std::alloc::Global;
use std::cell::RefCell;
use test_host::{Came, Disk, FakeRuntime};

/// A command line, standard input, and whether the standard streams are a terminal.
#[derive(Clone, Copy)]
pub struct CommandLine<'a> {
    /// The name of the program and the arguments, separated by single spaces.
    pub words: &'a str,
    pub typed: &'a [u8],
    pub on_terminal: bool,
}

/// Executes a command line on a disk. If `fails_at` is a number, the call with this number fails.
pub fn come(
    alloc: Global,
    mut disk: Disk,
    command: CommandLine<'_>,
    fails_at: Option<usize>,
) -> Came {
    disk.fails_at = fails_at;
    let cell = RefCell::new(disk);
    let status = program(&FakeRuntime {
        disk: &cell,
        alloc,
        line: command.words,
        typed: command.typed,
        on_terminal: command.on_terminal,
    });
    let mut disk = cell.into_inner();
    disk.release();
    disk.fails_of = None;
    Came { status, disk }
}
