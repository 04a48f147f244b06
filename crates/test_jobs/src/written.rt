//! Tests of when output is written. No contract can state this, because a sink has no information about steps.
use crate::broken::{COMMANDS, Tried, image};
use crate::recorder::{Call, Kind, Manner, Recorded, recorded_run};
use crate::streams::raw;
use pm_tool::{Job, Saving};
use std::alloc::Global;
use std::process::Abort;

/// Streams on which no call fails, and each call moves as many bytes as possible.
const WELL: Manner = Manner {
    most: usize::MAX,
    fails_at: None,
    takes_nothing: false,
};

/// Code that writes A to the console and then B, in seven steps each.
const FIRST: [u8; 20] = [
    0x01, 0xD0, 0x01, 0x41, 0x00, 0x01, 0x00, 0x00, 0x9E, 0x06, // B
    0x01, 0xD0, 0x01, 0x42, 0x00, 0x01, 0x00, 0x00, 0x9E, 0x06,
];

/// Code that writes C, reads a byte of unit 2, which does not echo the byte, and ends. The attribute table and the
/// dictionary of a segment of 556 bytes follow the code.
const LAST: [u8; 36] = [
    0x01, 0xD0, 0x01, 0x43, 0x00, 0x01, 0x00, 0x00, 0x9E, 0x06, // the read
    0x02, 0xC7, 0xD0, 0x07, 0x00, 0x01, 0x00, 0x00, 0x9E, 0x05, 0xC1, 0x00, 0x00, 0x00, 0x00, 0x00,
    0x06, 0x00, 0x24, 0x02, 0x01, 0x00, 0x02, 0x00, 0x01, 0x01,
];

/// Returns the job of a program that writes A and B, writes C 500 steps later, and then reads a byte.
fn three_letters(rt: &impl Abort, alloc: Global) -> Job {
    let mut segment = [0xD7; 556];
    segment[..20].copy_from_slice(&FIRST);
    segment[520..].copy_from_slice(&LAST);
    let image = image(rt, alloc, [556, 0], &segment);
    let name = String::from_str(alloc, "P").expect(rt, "memory");
    Job::Run {
        disks: [Some(image), None, None, None, None, None],
        name,
        limit: 1000,
        saving: Saving::Nothing,
        system: None,
    }
}

/// Tests that a letter is written during the step that outputs it, before the next letter and before any read.
#[test]
fn letters_are_written_at_once(rt: HostRuntime) {
    let ran = recorded_run(rt.alloc(), three_letters(&rt, rt.alloc()), b"x", WELL);
    ran.is(&rt, 0, "ended 529", (false, false));
    ran.has_written(&rt, Some(b"ABC"));
    let kind = Kind::Write(1);
    let calls = [
        Call { kind, before: 0 },
        Call { kind, before: 1 },
        Call { kind, before: 2 },
        Call {
            kind: Kind::Read,
            before: 3,
        },
    ];
    assert_eq!(rt; ran.calls.as_slice(), calls.as_slice());
}

/// The number of bytes of a trace line of a jump to itself.
const LINE: usize = 52;

/// The number of bytes at which a page is full.
const PAGE: usize = 65_536;

/// Asserts that a write has at least a page, and less than a page and a line.
fn is_page(rt: &impl Abort, call: &Call) {
    let Kind::Write(offered) = call.kind else {
        assert!(rt; call.before == 0, "a read behind a write");
        return;
    };
    assert!(rt;
        offered >= PAGE && offered < PAGE + LINE,
        "a page of {offered} bytes"
    );
}

/// Tests that the trace of 3,000 steps is written as two pages of 1,261 lines, and a rest that includes the last line.
#[test]
fn traces_are_written_in_pages(rt: HostRuntime) {
    let ran = recorded_run(rt.alloc(), raw(3000), b"B9 FE 02 00", WELL);
    ran.is(&rt, 6, "", (false, false));
    assert_eq!(rt; ran.written.len(), 3000 * LINE + 11);
    let Some((last, pages)) = ran.calls.split_last() else {
        return;
    };
    assert_eq!(rt;
        (last.kind, last.before),
        (Kind::Write(478 * LINE + 11), 2522 * LINE)
    );
    for call in pages {
        is_page(&rt, call);
    }
}

/// Returns the number of line feeds in `bytes`.
fn lines(bytes: Option<&[u8]>) -> Option<usize> {
    Some(bytes?.iter().filter(|byte| **byte == b'\n').count())
}

/// Asserts that each complete command line is answered before the next byte is read.
fn answers_before_it_reads(rt: &impl Abort, ran: &Recorded) {
    let reads = ran.calls.iter().filter(|call| call.kind == Kind::Read);
    for (number, read) in reads.enumerate() {
        let asked = lines(COMMANDS.as_bytes().get(..number));
        assert_eq!(rt;
            lines(ran.written.get(..read.before)),
            asked,
            "read {number}"
        );
    }
}

#[test]
fn sessions_answer_before_they_read(rt: HostRuntime) {
    let alloc = rt.alloc();
    let image = Tried::Session.image(&rt, alloc);
    let ran = Tried::Session.ran(&rt, alloc, &image, WELL);
    answers_before_it_reads(&rt, &ran);
    let slow = Manner { most: 1, ..WELL };
    let ran = Tried::Session.ran(&rt, alloc, &image, slow);
    answers_before_it_reads(&rt, &ran);
}
