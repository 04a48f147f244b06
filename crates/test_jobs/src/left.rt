//! Tests of how much of its input each kind of job leaves unread. If a helper runs out of memory, it ends the test. No
//! test returns early with `?`, because proofs of such returns are expensive while images are dropped.
ghost use Rattle.std.specs.Prelude.{◌≡◌, length, sum};

use crate::jobs::{Told, job_run, tells};
use crate::streams::raw;
use pm_filer::FileCommand;
use pm_tool::{AsmOutput, DisOutput, Job, Saving};
use std::alloc::Global;
use std::process::Abort;
use test_parts::programs::{ADDITION, ADDITION_TRACE, ECHO, LETTERS};

fn text(rt: &impl Abort, alloc: Global, text: &str) -> String {
    String::from_str(alloc, text).expect(rt, "memory")
}

/// Tests that digits, source texts and code files are read to their end, even if they are refused.
#[test]
fn of_bytes_and_texts(rt: HostRuntime) {
    let alloc = rt.alloc();
    tells(
        &rt,
        alloc,
        raw(100),
        ADDITION.as_bytes(),
        (0, "", ADDITION_TRACE, 0),
    );
    let told = (2, "refused hex 1", "", 0);
    tells(&rt, alloc, raw(100), b"0G 02", told);
    for what in [AsmOutput::File, AsmOutput::Listing] {
        tells(
            &rt,
            alloc,
            Job::Asm(what),
            b"FOO\n",
            (2, "refused asm 2 1", "", 0),
        );
    }
    tells(
        &rt,
        alloc,
        Job::Dis(DisOutput::Text),
        &[0; 511],
        (2, "refused code 1", "", 0),
    );
}

/// Returns the image of a new volume.
fn new_image(rt: &impl Abort, alloc: Global) -> Vec<u8> {
    let name = text(rt, alloc, "WORK");
    let ran = job_run(alloc, Job::New { name, blocks: 83 }, b"");
    ran.into_image().expect(rt, "an image")
}

/// Asserts the result of `command` on a new volume.
fn answers(rt: &impl Abort, alloc: Global, command: FileCommand, told: Told<'_>) {
    let image = new_image(rt, alloc);
    tells(rt, alloc, Job::Files { image, command }, b"xyz", told);
}

fn put(rt: &impl Abort, alloc: Global, name: &str) -> FileCommand {
    FileCommand::Put(text(rt, alloc, name), 5, Vec::new(alloc))
}

/// Tests that a command without input reads none of it, and that a command with input reads all of it. If the image is
/// not a volume, the command is refused before any input is read.
#[test]
fn of_commands_on_volumes(rt: HostRuntime) {
    let alloc = rt.alloc();
    let list = "WORK:\nfiles 0 free 77 largest 77\n";
    answers(&rt, alloc, FileCommand::List, (0, "", list, 3));
    let get = FileCommand::Get(text(&rt, alloc, "A"));
    answers(&rt, alloc, get, (2, "refused filer 1 11", "", 3));
    let date = FileCommand::Date(99, 13, 1);
    answers(&rt, alloc, date, (2, "refused filer 3", "", 3));
    answers(
        &rt,
        alloc,
        put(&rt, alloc, "a:b"),
        (2, "refused filer 1 10", "", 0),
    );
    let text_put = FileCommand::PutText(text(&rt, alloc, "a:b"), Vec::new(alloc));
    answers(&rt, alloc, text_put, (2, "refused filer 1 10", "", 0));
    let image = Vec::new(alloc);
    let job = Job::Files {
        image,
        command: put(&rt, alloc, "A"),
    };
    tells(&rt, alloc, job, b"xyz", (2, "refused volume 2", "", 3));
    let job = Job::Repair {
        image: Vec::new(alloc),
    };
    tells(&rt, alloc, job, b"xyz", (2, "refused volume 2", "", 3));
    let job = Job::New {
        name: text(&rt, alloc, "A:B"),
        blocks: 20,
    };
    tells(&rt, alloc, job, b"xyz", (2, "refused volume 10", "", 3));
}

/// Returns the disks of a job. Unit 4 has a volume with a code file `P` of the kind `kind` and one segment of `bytes`
/// bytes.
fn disks(
    rt: &impl Abort,
    alloc: Global,
    kind: u8,
    bytes: u16,
    segment: &[u8],
) -> [Option<Vec<u8>>; 6]
    requires joined { bytes ≡ length segment.now }
{
    let lengths = [0, bytes, 0, 0, 0, 0, 0, 0, 0, 0, 0, 0, 0, 0, 0, 0];
    let file = pm_codefile::write(alloc, &[[32; 8]; 16], &lengths, segment).expect(rt, "memory");
    let command = FileCommand::Put(text(rt, alloc, "P"), kind, Vec::new(alloc));
    let image = new_image(rt, alloc);
    let image = job_run(alloc, Job::Files { image, command }, &file).into_image();
    [image, None, None, None, None, None]
}

/// Returns the job that runs the program `P` on `disks`.
fn run_job(rt: &impl Abort, alloc: Global, disks: [Option<Vec<u8>>; 6], saving: Saving) -> Job {
    let name = text(rt, alloc, "P");
    Job::Run {
        disks,
        name,
        limit: 100,
        saving,
        system: None,
    }
}

/// Asserts the result of a program that has the one segment `segment`.
fn runs(rt: &impl Abort, alloc: Global, bytes: u16, segment: &[u8], input: &[u8], told: Told<'_>)
    requires joined { bytes ≡ length segment.now }
{
    let disks = disks(rt, alloc, 2, bytes, segment);
    tells(
        rt,
        alloc,
        run_job(rt, alloc, disks, Saving::Nothing),
        input,
        told,
    );
}

/// Tests that a job reads exactly the input bytes that its program reads.
#[test]
fn of_programs(rt: HostRuntime) {
    let alloc = rt.alloc();
    runs(&rt, alloc, 28, &LETTERS, b"xyz", (0, "ended 9", "OK", 3));
    runs(&rt, alloc, 38, &ECHO, b"ab.cd", (0, "ended 41", "ab.", 2));
    runs(&rt, alloc, 38, &ECHO, b"ab", (6, "waiting 32", "ab", 0));
}

/// Tests that a job reads no byte and saves no image if its program does not start. Here the file has kind 5, or no
/// disk exists.
#[test]
fn of_no_program(rt: HostRuntime) {
    let alloc = rt.alloc();
    let data = disks(&rt, alloc, 5, 28, &LETTERS);
    let job = run_job(&rt, alloc, data, Saving::First);
    tells(&rt, alloc, job, b"xyz", (2, "refused boot 2", "", 3));
    let none = [None, None, None, None, None, None];
    let job = run_job(&rt, alloc, none, Saving::First);
    tells(&rt, alloc, job, b"xyz", (2, "refused boot 1", "", 3));
}

/// Tests that a session reads no byte after the line feed of `quit`.
#[test]
fn of_sessions(rt: HostRuntime) {
    let alloc = rt.alloc();
    let job = Job::Debug {
        disks: disks(&rt, alloc, 2, 28, &LETTERS),
        name: text(&rt, alloc, "P"),
        system: None,
        typed: Vec::new(alloc),
    };
    tells(&rt, alloc, job, b"quit\nstack 1\n", (0, "", "", 8));
}
