//! Tests of machines in handles, and of their sessions.
use crate::calls::volumes::{blank, with_program};
use crate::calls::{Answer, NOTHING, NOWHERE, answer};
use crate::disks::*;
use crate::events::*;
use crate::handle::Handle;
use crate::lines::*;
use crate::session::*;
use crate::shows::*;
use crate::starts::*;
use std::alloc::Global;
use std::process::Abort;

/// A program with the instructions SLDC 2, SLDC 3, ADI and XIT.
pub(super) const SUM: [u8; 4] = [2, 3, 0x82, 0xD6];

/// Returns a program that writes `OK` to unit `unit`.
fn writes_to(unit: u8) -> [u8; 12] {
    [unit, 0xD0, 2, 79, 75, 0, 2, 0, 0, 0x9E, 6, 0xD6]
}

/// Creates a machine at the start of the bare code `code`.
pub(super) fn raw(rt: &impl Abort, alloc: Global, code: &[u8]) -> Handle {
    let mut handle = Handle::empty();
    assert_eq!(rt; pmach_new(alloc, &mut handle, code), 0);
    handle
}

/// Creates the machine of the program that the test volume has.
pub(super) fn booted(rt: &impl Abort, alloc: Global) -> Handle {
    let mut handle = Handle::empty();
    assert_eq!(rt;
        pmach_boot(alloc, &mut handle, &with_program(rt, alloc), b"OK", 0),
        0
    );
    handle
}

#[test]
fn steps_are_made_and_shown(rt: HostRuntime) {
    let alloc = rt.alloc();
    let mut handle = raw(&rt, alloc, &SUM);
    answer!(&rt, alloc, pmach_line, &mut handle).says(
        &rt,
        0,
        "00000000 01024 65492 65492 65492 01028 65492 SLDC 2",
    );
    answer!(&rt, alloc, pmach_instruction, &mut handle, 1026).says(&rt, 0, "ADI");
    assert_eq!(rt; pmach_step(alloc, &mut handle), 0);
    let mut word = 0;
    assert_eq!(rt;
        (pmach_word(alloc, &mut handle, 65_490, &mut word), word),
        (0, 2)
    );
    let mut steps = 0;
    assert_eq!(rt;
        (pmach_run(alloc, &mut handle, 1, &mut steps), steps),
        (0, 1)
    );
    let mut shown = NOTHING;
    assert_eq!(rt; pmach_registers(alloc, &mut handle, &mut shown), 0);
    assert_eq!(rt;
        (shown.steps, shown.status, shown.ipc, shown.sp),
        (2, 0, 1026, 65_488)
    );
    assert_eq!(rt; (shown.mp, shown.base, shown.np), (65_492, 65_492, 1028));
    assert_eq!(rt;
        (pmach_run(alloc, &mut handle, 9, &mut steps), steps),
        (2, 2)
    );
    pmach_free(alloc, &mut handle);
    assert_eq!(rt; pmach_step(alloc, &mut handle), 8);
}

#[test]
fn outputs_are_shown(rt: HostRuntime) {
    let alloc = rt.alloc();
    let mut steps = 0;
    for (unit, console, printer) in [(1, "OK", ""), (6, "", "OK")] {
        let mut handle = raw(&rt, alloc, &writes_to(unit));
        assert_eq!(rt;
            (pmach_run(alloc, &mut handle, 9, &mut steps), steps),
            (2, 8)
        );
        answer!(&rt, alloc, pmach_console, &mut handle, 0).says(&rt, 0, console);
        answer!(&rt, alloc, pmach_printer, &mut handle, 0).says(&rt, 0, printer);
        pmach_free(alloc, &mut handle);
    }
}

/// A program that reads one byte from the console to address 2000, with UNITREAD.
const READS: [u8; 12] = [1, 0xC7, 0xD0, 7, 0, 1, 0, 0, 0x9E, 5, 0xD6, 0];

#[test]
fn a_key_is_read(rt: HostRuntime) {
    let alloc = rt.alloc();
    let mut handle = raw(&rt, alloc, &READS);
    let (mut steps, mut word) = (0, 0);
    assert_eq!(rt; pmach_poke(alloc, &mut handle, 2000, 0x4100), 0);
    assert_eq!(rt;
        (pmach_run(alloc, &mut handle, 99, &mut steps), steps),
        (1, 6)
    );
    assert_eq!(rt; pmach_key(alloc, &mut handle, 66), 0);
    assert_eq!(rt;
        (pmach_run(alloc, &mut handle, 99, &mut steps), steps),
        (2, 2)
    );
    assert_eq!(rt;
        (pmach_word(alloc, &mut handle, 2000, &mut word), word),
        (0, 0x4142)
    );
    answer!(&rt, alloc, pmach_console, &mut handle, 0).says(&rt, 0, "B");
    pmach_free(alloc, &mut handle);
}

#[test]
fn disks_come_and_go(rt: HostRuntime) {
    let alloc = rt.alloc();
    let mut handle = raw(&rt, alloc, &SUM);
    let image = blank(&rt, alloc);
    assert_eq!(rt; pmach_mount(alloc, &mut handle, 5, &image), 0);
    assert_eq!(rt; pmach_mount(alloc, &mut handle, 5, &image), 302);
    assert_eq!(rt; pmach_mount(alloc, &mut handle, 6, &image), 301);
    assert_eq!(rt; pmach_mount(alloc, &mut handle, 4, b"short"), 401);
    answer!(&rt, alloc, pmach_ejected, &mut handle).says(&rt, 11, "");
    assert_eq!(rt; pmach_eject(alloc, &mut handle, 5), 0);
    assert_eq!(rt; pmach_eject(alloc, &mut handle, 5), 11);
    answer!(&rt, alloc, pmach_ejected, &mut handle).is(&rt, 0, &image);
    pmach_free(alloc, &mut handle);
}

#[test]
fn a_session_stops_at_its_places(rt: HostRuntime) {
    let alloc = rt.alloc();
    let mut handle = booted(&rt, alloc);
    let (mut steps, mut address) = (0, 7);
    let mut place = NOWHERE;
    assert_eq!(rt; pmach_place(alloc, &mut handle, &mut place), 0);
    assert_eq!(rt; (place.segment, place.procedure, place.offset), (1, 1, 0));
    assert_eq!(rt; pmach_break(alloc, &mut handle, 1, 1, 6, true), 0);
    let code = pmach_go(alloc, &mut handle, 99, &mut steps, &mut address);
    assert_eq!(rt; (code, steps, address), (15, 2, 7));
    assert_eq!(rt; pmach_command(alloc, &mut handle, b"where"), 0);
    answer!(&rt, alloc, pmach_answer, &mut handle).says(&rt, 0, "1 1 6 RBP 0\n");
    assert_eq!(rt; pmach_break(alloc, &mut handle, 1, 1, 6, false), 0);
    pmach_free(alloc, &mut handle);
}

#[test]
fn a_session_stops_at_a_change(rt: HostRuntime) {
    let alloc = rt.alloc();
    let mut handle = raw(&rt, alloc, &SUM);
    let (mut steps, mut address) = (0, 0);
    assert_eq!(rt; pmach_watch(alloc, &mut handle, 65_490, true), 0);
    let code = pmach_go(alloc, &mut handle, 9, &mut steps, &mut address);
    assert_eq!(rt; (code, steps, address), (16, 1, 65_490));
    assert_eq!(rt; pmach_watch(alloc, &mut handle, 65_490, false), 0);
    pmach_free(alloc, &mut handle);
}
