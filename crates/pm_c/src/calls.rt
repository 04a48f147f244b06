//! Tests of each call of the library. They compare the status with the number in the header, and check the answer. The
//! tests are in this crate because no crate can depend on a static library.
mod images;
mod jobs;
mod machines;
mod procedures;
mod refusals;
mod searches;
mod sessions;
mod volumes;

use crate::lines::Place;
use crate::shows::Shown;
use std::alloc::Global;
use std::process::Abort;

/// The size in bytes of the buffer for answers. No answer in these tests is longer.
const ROOM: usize = 32_768;

/// The result of a call: its status and the bytes of its answer.
#[derive(Drop)]
struct Answer {
    status: u32,
    bytes: Vec<u8>,
}

/// Executes a call whose last two parameters are the buffer for its answer and the length of the answer. If memory runs
/// out, the test ends, so the tests need no code for this error.
macro_rules! answer {
    ($rt:expr, $alloc:expr, $call:ident $(, $given:expr)*) => {{
        let mut bytes = crate::calls::room($rt, $alloc);
        let mut needed = 0;
        let status = $call($alloc $(, $given)*, &mut bytes, &mut needed);
        bytes.truncate(needed);
        crate::calls::Answer { status, bytes }
    }};
}

use answer;

/// Creates a buffer of `ROOM` bytes.
fn room(rt: &impl Abort, alloc: Global) -> Vec<u8> {
    let mut bytes = Vec::new(alloc);
    bytes.resize(ROOM, 0xA5).expect(rt, "memory");
    bytes
}

/// A position in the code, used as the value before a call.
const NOWHERE: Place = Place {
    segment: 0,
    procedure: 0,
    offset: 0,
};

/// Values of all registers, used as the values before a call.
const NOTHING: Shown = Shown {
    steps: 0,
    status: 0,
    ipc: 0,
    sp: 0,
    mp: 0,
    base: 0,
    np: 0,
    seg: 0,
    jtab: 0,
    ioresult: 0,
};

impl Answer {
    fn is(&self, rt: &impl Abort, status: u32, bytes: &[u8]) {
        assert_eq!(rt; self.status, status);
        assert_eq!(rt; self.bytes.as_slice(), bytes);
    }

    fn says(&self, rt: &impl Abort, status: u32, text: &str) {
        self.is(rt, status, text.as_bytes());
    }

    /// Checks that the call succeeded and that its answer consists of `lines`, each with a line feed.
    fn lists(&self, rt: &impl Abort, lines: &[&str]) {
        assert_eq!(rt; self.status, 0);
        let mut rest = self.bytes.as_slice();
        for line in lines {
            let Some(behind) = rest.strip_prefix(line.as_bytes()) else {
                panic!(rt; "another line than {line}");
            };
            let Some(behind) = behind.strip_prefix(b"\n") else {
                panic!(rt; "no line feed behind {line}");
            };
            rest = behind;
        }
        assert!(rt; rest.is_empty());
    }
}
