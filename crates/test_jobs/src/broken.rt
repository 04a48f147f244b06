//! Tests in which each call of a stream fails in turn, once. The job must then stop and call no stream again. Its
//! output must be exactly the output before the failing call. If a helper runs out of memory, it ends the test.
ghost use Rattle.std.specs.Prelude.{◌≡◌, length, sum};

use crate::recorder::{Call, Kind, Manner, Recorded, recorded_run};
use crate::streams::raw;
use pm_tool::{Job, Saving, Selection};
use pm_volume::Volume;
use std::alloc::Global;
use std::process::Abort;
use test_parts::programs::{ADDITION, ADDITION_TRACE, ECHO, EXITS, LETTERS};

/// The trace of the program in which a segment is left by EXIT from another segment.
const EXITS_TRACE: &str = "\
00000000 65456 65442 65444 65444 01024 65492 CLP 2
00000001 65470 65430 65430 65444 01024 65444 CXP 2, 1
00000002 65392 65378 65380 65380 01024 65444 CLP 2
00000003 65408 65366 65366 65380 01024 65380 SLDC 1
00000004 65409 65364 65366 65380 01024 00001 SLDC 2
00000005 65410 65362 65366 65380 01024 00002 CSP 4
00000006 65412 65366 65366 65380 01024 65380 RNP 0
00000007 65396 65378 65380 65380 01024 65444 RBP 0
00000008 65474 65430 65430 65444 01024 65444 RNP 0
00000009 65458 65442 65444 65444 01024 65492 RBP 0
ended 10
";

/// The commands of a debugger session on the same program.
pub(crate) const COMMANDS: &str = "\
break 2 2 0
go 100
static 10
poke 65366 65430
static 10
stack 1
oops
clear 2 2 0
clear 2 2 0
quit
";

pub(crate) const ANSWERS: &str = "\
ok
break 3
65366 65380 65492
ok
65366 65430 65444 65492
65430
?
ok
refused 2
";

/// A job that the tests execute.
#[derive(Clone, Copy)]
pub(crate) enum Tried {
    Addition,
    Letters,
    Echo,
    Exits,
    ExitsTraced,
    Session,
}

/// Returns the image of a volume with a code file `P`, whose segments 1 and 2 have the lengths `lengths` in bytes.
pub(crate) fn image(rt: &impl Abort, alloc: Global, lengths: [u16; 2], segments: &[u8]) -> Vec<u8>
    requires joined { sum lengths ≡ length segments.now }
{
    let [first, second] = lengths;
    let slots = [0, first, second, 0, 0, 0, 0, 0, 0, 0, 0, 0, 0, 0, 0, 0];
    let program = pm_codefile::write(alloc, &[[32; 8]; 16], &slots, segments).expect(rt, "memory");
    let mut disk = Volume::blank(alloc, "WORK", 83).expect(rt, "a volume");
    disk.add("P", 2, &program, 0).expect(rt, "a file");
    disk.into_bytes()
}

impl Tried {
    /// Returns the image of unit 4. It is empty for raw p-code, which has no disk.
    pub(crate) fn image(self, rt: &impl Abort, alloc: Global) -> Vec<u8> {
        match self {
            Tried::Addition => Vec::new(alloc),
            Tried::Letters => image(rt, alloc, [28, 0], &LETTERS),
            Tried::Echo => image(rt, alloc, [38, 0], &ECHO),
            Tried::Exits | Tried::ExitsTraced | Tried::Session => {
                image(rt, alloc, [36, 38], &EXITS)
            }
        }
    }

    /// Returns the job, with `image` on unit 4.
    pub(crate) fn job(self, rt: &impl Abort, alloc: Global, image: &[u8]) -> Job {
        let limit = 100;
        let name = String::from_str(alloc, "P").expect(rt, "memory");
        let image = image.to_vec(alloc).expect(rt, "memory");
        let disks = [Some(image), None, None, None, None, None];
        match self {
            Tried::Addition => raw(100),
            Tried::Letters | Tried::Echo | Tried::Exits => Job::Run {
                disks,
                name,
                limit,
                saving: Saving::First,
                system: None,
            },
            Tried::ExitsTraced => Job::Trace {
                disks,
                name,
                limit,
                system: None,
                selection: Selection::ALL,
            },
            Tried::Session => Job::Debug {
                disks,
                name,
                system: None,
                typed: Vec::new(alloc),
            },
        }
    }

    fn input(self) -> &'static str {
        match self {
            Tried::Addition => ADDITION,
            Tried::Echo => "ab.cd",
            Tried::Session => COMMANDS,
            Tried::Letters | Tried::Exits | Tried::ExitsTraced => "xyz",
        }
    }

    /// Returns the message and the output that the job has if no call fails. Its status is then 0.
    fn told(self) -> (&'static str, &'static str) {
        match self {
            Tried::Addition => ("", ADDITION_TRACE),
            Tried::Letters => ("ended 9", "OK"),
            Tried::Echo => ("ended 41", "ab."),
            Tried::Exits => ("ended 10", ""),
            Tried::ExitsTraced => ("", EXITS_TRACE),
            Tried::Session => ("", ANSWERS),
        }
    }

    pub(crate) fn ran(
        self,
        rt: &impl Abort,
        alloc: Global,
        image: &[u8],
        manner: Manner,
    ) -> Recorded {
        let job = self.job(rt, alloc, image);
        recorded_run(alloc, job, self.input().as_bytes(), manner)
    }
}

impl Recorded {
    pub(crate) fn is(&self, rt: &impl Abort, status: u8, message: &str, failed: (bool, bool)) {
        assert_eq!(rt; (self.outcome.exit.number(), self.failed), (status, failed));
        assert_eq!(rt; self.outcome.text(), message);
    }

    pub(crate) fn has_written(&self, rt: &impl Abort, bytes: Option<&[u8]>) {
        assert_eq!(rt; Some(self.written.as_slice()), bytes);
    }

    fn has_called(&self, rt: &impl Abort, calls: Option<&[Call]>) {
        assert_eq!(rt; Some(self.calls.as_slice()), calls);
    }

    fn keeps_nothing(&self, rt: &impl Abort) {
        assert!(rt; self.outcome.image.is_none());
        assert!(rt; self.outcome.printer.is_empty());
    }

    /// Asserts that the call `number` failed and that no stream was called after it.
    fn is_broken_off(&self, rt: &impl Abort, good: &Recorded, number: usize, call: Call) {
        match call.kind {
            Kind::Read => self.is(rt, 4, "read fault", (true, false)),
            Kind::Write(_) => self.is(rt, 4, "write fault", (false, true)),
        }
        self.has_written(rt, good.written.get(..call.before));
        self.has_called(rt, good.calls.get(..=number));
        self.keeps_nothing(rt);
    }
}

/// Asserts that the job executes `calls` calls if none fails, and that it stops at each call that fails.
fn each_fails(
    rt: &impl Abort,
    alloc: Global,
    tried: Tried,
    (most, takes_nothing): (usize, bool),
    calls: usize,
) {
    let manner = Manner {
        most,
        fails_at: None,
        takes_nothing,
    };
    let (message, output) = tried.told();
    let image = tried.image(rt, alloc);
    let good = tried.ran(rt, alloc, &image, manner);
    good.is(rt, 0, message, (false, false));
    good.has_written(rt, Some(output.as_bytes()));
    assert_eq!(rt; good.calls.len(), calls);
    for (number, call) in good.calls.iter().enumerate() {
        let fails_at = Some(number);
        let ran = tried.ran(rt, alloc, &image, Manner { fails_at, ..manner });
        ran.is_broken_off(rt, &good, number, *call);
    }
}

/// Tests that the input is read to its end before the trace is written.
#[test]
fn addition(rt: HostRuntime) {
    each_fails(&rt, rt.alloc(), Tried::Addition, (1, true), 13 + 210);
    each_fails(&rt, rt.alloc(), Tried::Addition, (usize::MAX, false), 2 + 1);
}

/// Tests a program that reads no input.
#[test]
fn letters(rt: HostRuntime) {
    each_fails(&rt, rt.alloc(), Tried::Letters, (1, false), 2);
    each_fails(&rt, rt.alloc(), Tried::Letters, (usize::MAX, true), 1);
}

/// Tests a program that reads three bytes, each of which is written to the console.
#[test]
fn echo(rt: HostRuntime) {
    each_fails(&rt, rt.alloc(), Tried::Echo, (1, false), 3 + 3);
    each_fails(&rt, rt.alloc(), Tried::Echo, (usize::MAX, true), 3 + 3);
}

/// Tests a run without output, which calls no stream. Its trace is one page, and one write moves at most 16 bytes or
/// the whole page.
#[test]
fn exits(rt: HostRuntime) {
    each_fails(&rt, rt.alloc(), Tried::Exits, (usize::MAX, false), 0);
    each_fails(&rt, rt.alloc(), Tried::ExitsTraced, (16, true), 33);
    each_fails(&rt, rt.alloc(), Tried::ExitsTraced, (usize::MAX, false), 1);
}

/// Tests a session. One call reads one byte of the commands. One call writes a whole answer, or 16 bytes of it.
#[test]
fn session(rt: HostRuntime) {
    each_fails(&rt, rt.alloc(), Tried::Session, (16, true), 98 + 11);
    each_fails(&rt, rt.alloc(), Tried::Session, (usize::MAX, false), 98 + 9);
}
